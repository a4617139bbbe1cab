//! What plain scalars say: their source, with its lines folded.

ghost use Rattle.std.specs.Prelude.{◌≡◌, ◌<◌, ◌≤◌, IfOk, drop, length, true};
ghost use Rattle.yaml_base.specs.LineBreaks.{IsOneLine, begins_with_break};

use std::alloc::{AllocError, Global};

// Whether this byte is a space or a tab.
fn is_blank(byte: u8) -> bool {
    byte == b' ' || byte == b'\t'
}

// How many bytes the line break has that begins the bytes; 0 where none does.
fn break_len(bytes: &[u8]) -> usize
    ensures within { result ≤ length bytes.now }
    ensures found { 0 < result → begins_with_break bytes.now ≡ true }
{
    match bytes {
        [b'\r', b'\n', ..] => 2,
        [b'\n' | b'\r', ..] => 1,
        [0xC2, 0x85, ..] => 2,
        [0xE2, 0x80, 0xA8 | 0xA9, ..] => 3,
        _ => 0,
    }
}

// How many bytes come before the first line break.
#[inline(always)]
fn line_len(bytes: &[u8]) -> usize
    ensures within { result ≤ length bytes.now }
    ensures broken { result < length bytes.now → begins_with_break (drop result bytes.now) ≡ true }
{
    for (index, byte) in bytes.iter().enumerate() {
        if matches!(*byte, b'\n' | b'\r' | 0xC2 | 0xE2) && break_len(&bytes[index..]) != 0 {
            return index;
        }
    }
    bytes.len()
}

// The bytes behind the blanks that begin them.
fn behind_blanks(bytes: &[u8]) -> &[u8] {
    for (index, byte) in bytes.iter().enumerate() {
        if !is_blank(*byte) {
            return &bytes[index..];
        }
    }
    &bytes[bytes.len()..]
}

// Gives up the blanks that end a text, of its last bytes, which are so many.
fn drop_blanks(text: &mut Vec<u8>, count: usize) {
    for _ in 0..count {
        if !text.as_slice().last().is_some_and(|byte| is_blank(*byte)) {
            break;
        }
        let _ = text.pop();
    }
}

// Puts what the line breaks at the beginning of the bytes stand for behind a text, and gives the bytes behind them and
// their blanks. One line break is a space, of several the first goes, and the separators of Unicode stay.
fn fold_breaks<'a>(bytes: &'a [u8], text: &mut Vec<u8>) -> Result<&'a [u8], AllocError> {
    let width = break_len(bytes);
    let kept = width == 3;
    if kept {
        text.extend_from_slice(&bytes[..width])?;
    }
    let mut rest = behind_blanks(&bytes[width..]);
    let mut alone = true;
    for _ in 0..bytes.len() {
        let width = break_len(rest);
        match width {
            0 => break,
            3 => text.extend_from_slice(&rest[..width])?,
            _ => text.push(b'\n')?,
        }
        rest = behind_blanks(&rest[width..]);
        alone = false;
    }
    if alone && !kept {
        text.push(b' ')?;
    }
    Ok(rest)
}

// The text of a plain scalar, which is its own source where that has no line break.
#[inline(always)]
pub(crate) fn plain_text(alloc: Global, source: &[u8]) -> Result<Vec<u8>, AllocError>
    ensures { IfOk result (λ text. IsOneLine source.now → text.items ≡ source.now) }
{
    let first = line_len(source);
    if first == source.len() {
        return Vec::from_slice(alloc, source);
    }
    let mut text = Vec::new(alloc);
    let mut rest = source;
    for _ in 0..source.len() {
        let len = line_len(rest);
        text.extend_from_slice(&rest[..len])?;
        if len == rest.len() {
            break;
        }
        drop_blanks(&mut text, len);
        rest = fold_breaks(&rest[len..], &mut text)?;
    }
    Ok(text)
}
