//! All events of a text, and its fault.

use serde_yaml::{Event, Mark};
use yaml_documents::events_of_text;

// Texts, how many events each has, where the last begins, and whether there is a fault.
const TEXTS: &[(&[u8], usize, Option<u64>, bool)] = &[
    (b"", 2, Some(0), false),
    (b"[a, *b]\n", 8, Some(8), false),
    (b"--- a\n--- b\tc\n", 8, Some(14), false),
    (b"--- a\n--- [b", 7, Some(11), true),
    (b"a: \x01\n", 0, None, true),
];

// Where the last event begins.
fn last(events: &[(Event<'_>, Mark)]) -> Option<u64> {
    let (_, mark) = events.last()?;
    Some(mark.index())
}

#[test]
fn a_text_has_events_or_a_fault(rt: HostRuntime) {
    for (place, &(text, count, end, faulty)) in TEXTS.iter().enumerate() {
        let (events, fault) = events_of_text(rt.alloc(), text).expect(&rt, "memory");
        assert_eq!(rt;
            (events.len(), last(events.as_slice())),
            (count, end),
            "{place}"
        );
        assert!(rt; fault.is_some() == faulty, "{place}");
    }
}
