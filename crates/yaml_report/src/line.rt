//! The line of a text around a place.

ghost use Rattle.std.specs.Prelude.{◌≡◌, ◌⊎◌, ◌-◌, ◌<◌, ◌≤◌, ℕ, length, slice_index};
ghost use Rattle.yaml_report.specs.Line.{EndsLine};

use memchr::{memchr2, memrchr2};

/// Where the line around an index begins and where it ends. What ends a line is a line feed or a carriage return.
pub fn line_around(text: &[u8], index: usize) -> (usize, usize)
    requires { index ≤ length text.now }
    ensures begins { result.0 ≤ index }
    ensures ends { index ≤ result.1 }
    ensures within { result.1 ≤ length text.now }

    // No byte of it ends a line, and on each side of it stands one that does, or nothing.
    ensures whole { (k : ℕ) → result.0 ≤ k → k < result.1 → ¬ EndsLine (slice_index text.now k) }
    ensures opened { (result.0 ≡ 0) ⊎ EndsLine (slice_index text.now (result.0 - 1)) }
    ensures closed { (result.1 ≡ length text.now) ⊎ EndsLine (slice_index text.now result.1) }
{
    let start = match memrchr2(b'\n', b'\r', &text[..index]) {
        Some(last) => last + 1,
        None => 0,
    };
    let end = match memchr2(b'\n', b'\r', &text[index..]) {
        Some(first) => index + first,
        None => text.len(),
    };
    (start, end)
}
