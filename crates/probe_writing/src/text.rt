//! Words and numbers of lines, and quoted texts.

use std::alloc::AllocError;
use yaml_shape::ShapeId;

/// What stands before the first such character of a text and what behind it: all of it, and nothing, where there is
/// none.
pub fn until(text: &str, mark: char) -> (&str, &str) {
    match text.split_once(mark) {
        Some(parts) => parts,
        None => (text, ""),
    }
}

/// The first word of a line, and what stands behind the space that ends it.
pub fn first_word(text: &str) -> (&str, &str) {
    until(text, ' ')
}

/// The number of a shape.
pub fn number(word: &str) -> Option<ShapeId> {
    match word.parse::<u32>() {
        Ok(number) => Some(ShapeId(number)),
        Err(_) => None,
    }
}

// Appends the units of a character's UTF-16, each as `\u` and four hexadecimal digits.
fn escape(out: &mut String, letter: char) -> Result<(), AllocError> {
    let code = letter as u32;
    if code < 0x10000 {
        return write!(out, "\\u{code:04x}");
    }
    let high = 0xd800 + (code - 0x10000) / 0x400;
    let low = 0xdc00 + code % 0x400;
    write!(out, "\\u{high:04x}\\u{low:04x}")
}

/// Appends a text between quotes, as JSON has it: with escapes for all that is not printable ASCII.
pub fn quote(out: &mut String, text: &str) -> Result<(), AllocError> {
    out.push('"')?;
    for letter in text.chars() {
        match letter {
            '"' => out.push_str("\\\"")?,
            '\\' => out.push_str("\\\\")?,
            '\n' => out.push_str("\\n")?,
            ' '..='~' => out.push(letter)?,
            _ => escape(out, letter)?,
        }
    }
    out.push('"')
}
