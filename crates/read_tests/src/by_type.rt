//! Texts that are read by a type, and within limits.

use serde_yaml::{Limits, Result, from_slice, from_slice_limited};
use std::alloc::Global;

// The numbers that a text lists.
fn by_slice(alloc: Global, text: &str) -> Result<Vec<u16>> {
    from_slice(alloc, text.as_bytes())
}

// Whether a text is a list of numbers within limits.
fn is_within(alloc: Global, text: &str, limits: Limits) -> bool {
    let found: Result<Vec<u16>> = from_slice_limited(alloc, text.as_bytes(), limits);
    found.is_ok()
}

#[test]
fn texts_are_read_by_their_type(rt: HostRuntime) {
    // the text, the numbers that it lists, and limits that are just enough, if fewer are not
    for &(text, numbers, nesting, follows) in &[
        ("[1, 2]", &[1u16, 2][..], 1u8, 0u16),
        ("- 0x1F\n- 0o17\n- 0b11\n", &[31, 15, 3][..], 1, 0),
        ("- &n 8080\n- *n\n", &[8080, 8080][..], 1, 1),
        ("[]", &[][..], 1, 0),
    ] {
        let found = by_slice(rt.alloc(), text).expect(&rt, "numbers");
        assert_eq!(rt; found.as_slice(), numbers, "{text}");
        for (nesting, follows, enough) in [
            (nesting, follows, true),
            (nesting.saturating_sub(1), follows, false),
            (nesting, follows.saturating_sub(1), follows == 0),
        ] {
            let limits = Limits::new(nesting, follows).expect(&rt, "limits");
            assert_eq!(rt; is_within(rt.alloc(), text, limits), enough, "{text}");
        }
    }
}
