//! Texts in which some bytes stand as escapes.

ghost use Rattle.std.specs.Prelude.{◌≡◌, ℕ, List, ◌∷◌, ◌++◌, MatchOption};
ghost use Rattle.yaml_lines.specs.Escape.{BeginsWith, Spells};
ghost use Rattle.yaml_lines.specs.Parses.{Parses};

use crate::fault::LineFault;
use std::alloc::Global;

// The byte that two hexadecimal digits give, and what follows them.
fn hex_byte(text: &[u8]) -> Option<(u8, &[u8])>
    ensures { MatchOption result
        ((byte : ℕ) → (rest : List ℕ) → ¬ (BeginsWith (92 ∷ 120 ∷ text.now) byte rest))
        (λ found. BeginsWith (92 ∷ 120 ∷ text.now) found.0 found.1.now) }
{
    let (high, rest) = text.split_first()?;
    let (low, rest) = rest.split_first()?;
    let high = (*high as char).to_digit(16)?;
    let low = (*low as char).to_digit(16)?;
    Some(((16 * high + low) as u8, rest))
}

// The byte that an escape stands for whose backslash is taken, and what follows it.
fn after_backslash(text: &[u8]) -> Option<(u8, &[u8])>
    ensures { MatchOption result
        ((byte : ℕ) → (rest : List ℕ) → ¬ (BeginsWith (92 ∷ text.now) byte rest))
        (λ found. BeginsWith (92 ∷ text.now) found.0 found.1.now) }
{
    let (letter, rest) = text.split_first()?;
    match *letter {
        b'\\' => Some((b'\\', rest)),
        b'n' => Some((b'\n', rest)),
        b't' => Some((b'\t', rest)),
        b'x' => hex_byte(rest),
        _ => None,
    }
}

// The first byte of a text with escapes, and what follows it.
fn first_byte(text: &[u8]) -> Option<(u8, &[u8])>
    ensures { MatchOption result
        ((byte : ℕ) → (rest : List ℕ) → ¬ (BeginsWith text.now byte rest))
        (λ found. BeginsWith text.now found.0 found.1.now) }
{
    let (first, rest) = text.split_first()?;
    let byte = *first;
    if byte == b'\\' {
        return after_backslash(rest);
    }
    if byte >= 32 && byte <= 126 {
        Some((byte, rest))
    } else {
        None
    }
}

/// The bytes that a text with escapes stands for. Refused by `Bad` where an escape is wrong or a byte is no printable
/// ASCII, and by `Memory`.
pub fn unescape(alloc: Global, text: &[u8]) -> Result<Vec<u8>, LineFault>
    ensures { Parses (λ bytes. bytes.items) (Spells text.now) result }
{
    let mut bytes = Vec::with_capacity(alloc, text.len())?;
    let mut rest = text;
    while !rest.is_empty() {
        let (byte, after) = first_byte(rest).ok_or(LineFault::Bad)?;
        bytes.push(byte)?;
        rest = after;
    }
    Ok(bytes)
}
