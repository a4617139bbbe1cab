//! Escapes between double quotes.

ghost use Rattle.std.specs.Prelude.{◌≡◌, ◌≤◌, ◌<◌, ◌++◌, IfSome, OnOk, vec_items};
ghost use Rattle.std.specs.Char.{encode_utf8};
ghost use Rattle.yaml_base.specs.QuotedLines.{letter_code};
ghost use Rattle.yaml_scan.specs.Surrogates.{surrogate_pair};

use crate::byte::hex_value;
use crate::cursor::Cursor;
use crate::{Context, Problem, Stop};
use std::alloc::AllocError;
use yaml_base::Mark;

const CONTEXT: Context = Context::ParsingAQuotedScalar;

// Puts a character behind a text.
fn push_character(out: &mut Vec<u8>, character: char) -> Result<(), AllocError>
    ensures { OnOk result (out.new.items ≡ out.old.items ++ encode_utf8 character) }
{
    let mut bytes = [0u8; 4];
    let text = character.encode_utf8(&mut bytes);
    out.extend_from_slice(text.as_bytes())
}

// The code that so many hexadecimal digits say, the first of them so many bytes from here.
fn code_at(cursor: &Cursor<'_>, from: usize, digits: usize) -> Option<u32>
    requires { (from ≤ 8) × (digits ≤ 8) }
{
    let mut code: u32 = 0;
    for index in 0..digits {
        let digit = hex_value(cursor.byte(from + index))?;
        code = ((code & 0x0FFF_FFFF) << 4) | (digit & 0xF);
    }
    Some(code)
}

// The character that two codes stand for, of which the first is a high surrogate and the second a low one.
fn paired(high: u32, low: u32) -> Option<char>
    ensures { IfSome result (λ character. (character ≡ surrogate_pair high low)
        × (0xd800 ≤ high) × (high < 0xdc00) × (0xdc00 ≤ low) × (low < 0xe000)) }
{
    if !(0xD800..0xDC00).contains(&high) || !(0xDC00..0xE000).contains(&low) {
        return None;
    }
    char::from_u32(0x10000 + (high - 0xD800) * 1024 + (low - 0xDC00))
}

// The character past U+FFFF whose first half, of four digits, stands here, and its second half behind it.
fn joined(cursor: &Cursor<'_>, high: u32) -> Option<char> {
    if cursor.byte(4) != b'\\' || cursor.byte(5) != b'u' {
        return None;
    }
    paired(high, code_at(cursor, 6, 4)?)
}

// Reads so many hexadecimal digits as a character's code, or as the first of the two that JSON writes for it.
fn read_code(
    cursor: &mut Cursor<'_>,
    start: Mark,
    digits: usize,
    out: &mut Vec<u8>,
) -> Result<(), Stop>
    requires { digits ≤ 8 }
{
    cursor.skip_many(2);
    let Some(code) = code_at(cursor, 0, digits) else {
        return Err(cursor.fault(CONTEXT, start, Problem::DidNotFindExpectedHexadecimalNumber));
    };
    let (found, length) = match char::from_u32(code) {
        None if digits == 4 => (joined(cursor, code), 10),
        found => (found, digits),
    };
    let Some(character) = found else {
        let problem = Problem::FoundInvalidUnicodeCharacterEscapeCode;
        return Err(cursor.fault(CONTEXT, start, problem));
    };
    push_character(out, character)?;
    cursor.skip_many(length);
    Ok(())
}

// The character that a byte behind a backslash stands for.
fn named_character(byte: u8) -> Option<char>
    ensures { result ≡ letter_code byte }
{
    let character = match byte {
        b'0' => '\0',
        b'a' => '\u{7}',
        b'b' => '\u{8}',
        b't' | b'\t' => '\t',
        b'n' => '\n',
        b'v' => '\u{b}',
        b'f' => '\u{c}',
        b'r' => '\r',
        b'e' => '\u{1b}',
        b' ' => ' ',
        b'"' => '"',
        b'/' => '/',
        b'\\' => '\\',
        b'N' => '\u{85}',
        b'_' => '\u{a0}',
        b'L' => '\u{2028}',
        b'P' => '\u{2029}',
        _ => return None,
    };
    Some(character)
}

// Reads an escape, whose backslash stands here.
pub(crate) fn read_escape(
    cursor: &mut Cursor<'_>,
    start: Mark,
    out: &mut Vec<u8>,
) -> Result<(), Stop> {
    match cursor.byte(1) {
        b'x' => read_code(cursor, start, 2, out),
        b'u' => read_code(cursor, start, 4, out),
        b'U' => read_code(cursor, start, 8, out),
        byte => {
            let Some(character) = named_character(byte) else {
                return Err(cursor.fault(CONTEXT, start, Problem::FoundUnknownEscapeCharacter));
            };
            push_character(out, character)?;
            cursor.skip_many(2);
            Ok(())
        }
    }
}
