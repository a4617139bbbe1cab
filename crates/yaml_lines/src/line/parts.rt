//! The parts of a line: its mark, and what stands before or behind a byte or a word.

ghost use Rattle.std.specs.Prelude.{◌≡◌, ◌≢◌, ◌≤◌, ℕ, List, ◌∷◌, ◌++◌, MatchOption};
ghost use Rattle.std.specs.Char.{digit_value};
ghost use Rattle.yaml_base.specs.Position.{Position};
ghost use Rattle.yaml_lines.specs.Escape.{Lacks};
ghost use Rattle.yaml_lines.specs.Place.{IsDecimalNumber, HasNumber, IsMarked};

use yaml_base::Mark;

/// What follows the word at the start of a text.
pub fn strip<'a>(text: &'a [u8], word: &[u8]) -> Option<&'a [u8]>
    ensures { MatchOption result ((rest : List ℕ) → text.now ≢ word.now ++ rest)
        (λ rest. text.now ≡ word.now ++ rest.now) }
{
    text.strip_prefix(word)
}

/// What stands before the first such byte of a text, and what behind it.
pub fn cut(text: &[u8], byte: u8) -> Option<(&[u8], &[u8])>
    ensures { MatchOption result (Lacks text.now byte)
        (λ parts. (text.now ≡ parts.0.now ++ byte ∷ parts.1.now) × Lacks parts.0.now byte) }
{
    let end = text.iter().position(|b| *b == byte)?;
    Some((&text[..end], &text[end + 1..]))
}

// The number that a text of decimal digits writes, if it is a `u64`.
fn number(text: &[u8]) -> Option<u64>
    ensures { MatchOption result ((n : ℕ) → ¬ (IsDecimalNumber text.now n)) (IsDecimalNumber text.now) }
{
    if text.first() == Some(&b'+') {
        return None;
    }
    match std::str::from_utf8(text) {
        Ok(text) => text.parse::<u64>().ok(),
        Err(_) => None,
    }
}

/// The number that a text begins with, and what stands behind the byte that follows it.
pub fn number_before(text: &[u8], byte: u8) -> Option<(u64, &[u8])>
    requires { 10 ≤ digit_value byte }
    ensures { MatchOption result
        ((n : ℕ) → (rest : List ℕ) → ¬ (HasNumber text.now byte n rest))
        (λ found. HasNumber text.now byte found.0 found.1.now) }
{
    let (digits, rest) = cut(text, byte)?;
    let number = number(digits)?;
    Some((number, rest))
}

/// A line whose mark is read.
#[derive(Drop)]
pub struct Marked<'a> {
    /// The mark.
    pub mark: Mark,
    /// What stands behind the mark and the space that follows it.
    pub text: &'a [u8],
}

/// The mark at the start of a line, and what stands behind it and the space that follows it.
pub fn mark_of(text: &[u8]) -> Option<Marked<'_>>
    ensures { MatchOption result
        ((mark : Position) → (rest : List ℕ) → ¬ (IsMarked text.now mark rest))
        (λ marked. IsMarked text.now marked.mark marked.text.now) }
{
    let (index, text) = number_before(text, b':')?;
    let (line, text) = number_before(text, b':')?;
    let (column, text) = number_before(text, b' ')?;
    let mark = Mark::new(index, line, column)?;
    Some(Marked { mark, text })
}
