//! What the source of a plain scalar says.

ghost use Rattle.std.specs.Prelude.{◌≡◌, ◌≢◌, ◌-◌, ◌<◌, ◌≤◌, ◌↔◌, ℕ, IfSome, IsTrue, drop, false, length};
ghost use Rattle.std.specs.Prelude.{slice_index, true};
ghost use Rattle.yaml_base.specs.LineBreaks.{IsOneLine};

use yaml_tape::Entry;

// Whether the bytes are a text.
#[inline(always)]
fn is(bytes: &[u8], text: &[u8]) -> bool
    ensures { IsTrue result ↔ (bytes.now ≡ text.now) }
{
    bytes == text
}

// Whether the bytes end with a text.
#[inline(always)]
fn ends_with(source: &[u8], text: &[u8]) -> bool
    ensures { IsTrue result ↔ (text.now ≡ drop (length source.now - length text.now) source.now) }
{
    if text.len() > source.len() {
        return false;
    }
    is(&source[source.len() - text.len()..], text)
}

// Whether a line feed stands in the bytes.
#[inline(never)]
fn has_line_feed(source: &[u8]) -> bool
    ensures some { result ≡ true → IsOneLine source.now → ⊥ }
    ensures none { result ≡ false → (k : ℕ) → k < length source.now → slice_index source.now k ≢ 10 }
{
    for byte in source {
        if *byte == b'\n' {
            return true;
        }
    }
    false
}

// Whether the source of a plain scalar says this text: it ends with it, and is nothing else where no name stands before
// it; or it has more than one line.
#[inline(always)]
pub(crate) fn says(source: &[u8], text: &[u8], has_names: bool) -> bool
    ensures rest { result ≡ true → IsOneLine source.now
        → text.now ≡ drop (length source.now - length text.now) source.now }
    ensures whole { result ≡ true → has_names ≡ false → IsOneLine source.now → text.now ≡ source.now }
    ensures line { result ≡ false → (k : ℕ) → k < length source.now → slice_index source.now k ≢ 10 }
    ensures apart { result ≡ false → text.now ≡ drop (length source.now - length text.now) source.now
        → (has_names ≡ false → text.now ≡ source.now) → ⊥ }
{
    if ends_with(source, text) && (has_names || text.len() == source.len()) {
        return true;
    }
    has_line_feed(source)
}

// The text of a plain scalar whose places on the tape say that it ends its source, and that it is all of it where no
// name stands before it. Then no byte has to be compared.
#[inline(always)]
pub(crate) fn end_of(source: &[u8], entry: Entry, has_names: bool) -> Option<&[u8]>
    ensures places { IfSome result (λ _. (entry.stored ≡ false) × (entry.to ≡ entry.end) × (entry.index ≤ entry.from)) }
    ensures value { IfSome result (λ text. text.now ≡ drop (entry.from - entry.index) source.now) }
    ensures rest { IfSome result (λ text. text.now ≡ drop (length source.now - length text.now) source.now) }
    ensures whole { IfSome result (λ text. has_names ≡ false → text.now ≡ source.now) }
{
    if entry.stored || entry.to != entry.end || entry.from < entry.index {
        return None;
    }
    let ahead = (entry.from - entry.index) as usize;
    if ahead > source.len() || (ahead > 0 && !has_names) {
        return None;
    }
    Some(&source[ahead..])
}
