//! Escapes between double quotes.

ghost use Rattle.std.specs.Prelude.{◌≡◌, ◌≢◌, ◌+◌, ◌-◌, ◌<◌, ◌≤◌, ◌++◌, ◌%◌, IfOk, IfSome, MatchOption};
ghost use Rattle.std.specs.Prelude.{None, OnOk, length};
ghost use Rattle.std.specs.Char.{digit_value, encode_utf8};
ghost use Rattle.yaml_base.specs.QuotedLines.{letter_code};
ghost use Rattle.yaml_direct.specs.Bytes.{at};
ghost use Rattle.yaml_direct.specs.Places.{no_place};
ghost use Rattle.yaml_direct.specs.Quoted.{AreDigits, SayCode, SaysCode, UnquotesIf, digits_of, quoted_from};
ghost use Rattle.yaml_direct.specs.declared.quote.Quote.TheVariants.{Double};

use crate::byte::at;
use crate::place::NO_PLACE;
use std::alloc::AllocError;

// The value of a hexadecimal digit.
pub(crate) fn hex_value(byte: u8) -> Option<u32>
    ensures { MatchOption result (16 ≤ digit_value byte) (λ value. (value ≡ digit_value byte) × (value < 16)) }
{
    match byte {
        b'0'..=b'9' => Some((byte - b'0') as u32),
        b'a'..=b'f' => Some((byte - b'a') as u32 + 10),
        b'A'..=b'F' => Some((byte - b'A') as u32 + 10),
        _ => None,
    }
}

// The byte that goes on with a character, with these six bits.
#[tactic(auto, using(crate::proofs::CodeLaws::last_bits))]
fn continuation(bits: u32) -> u8
    ensures { result ≡ 128 + bits % 64 }
{
    (0x80 | (bits & 0x3F)) as u8
}

// Puts the bytes of a character's code behind a text.
fn push_code(out: &mut Vec<u8>, code: u32) -> Result<(), AllocError>
    ensures { code ≤ 1114111 → OnOk result (out.new.items ≡ out.old.items ++ encode_utf8 code) }
{
    if code <= 0x7F {
        out.reserve(1)?;
        out.push_reserved((code & 0x7F) as u8);
        return Ok(());
    }
    out.reserve(4)?;
    if code <= 0x7FF {
        out.push_reserved((0xC0 | ((code >> 6) & 0x1F)) as u8);
    } else if code <= 0xFFFF {
        out.push_reserved((0xE0 | ((code >> 12) & 0x0F)) as u8);
        out.push_reserved(continuation(code >> 6));
    } else {
        out.push_reserved((0xF0 | ((code >> 18) & 0x07)) as u8);
        out.push_reserved(continuation(code >> 12));
        out.push_reserved(continuation(code >> 6));
    }
    out.push_reserved(continuation(code));
    Ok(())
}

// The code of the character that a byte behind a backslash stands for.
fn named_code(byte: u8) -> Option<u32>
    ensures code { result ≡ letter_code byte }
    ensures small { IfSome result (λ code. code ≤ 8233) }
{
    let code = match byte {
        b'0' => 0,
        b'a' => 7,
        b'b' => 8,
        b't' | b'\t' => 9,
        b'n' => 10,
        b'v' => 11,
        b'f' => 12,
        b'r' => 13,
        b'e' => 27,
        b' ' => 32,
        b'"' => 34,
        b'/' => 47,
        b'\\' => 92,
        b'N' => 0x85,
        b'_' => 0xA0,
        b'L' => 0x2028,
        b'P' => 0x2029,
        _ => return None,
    };
    Some(code)
}

// The code that so many hexadecimal digits stand for.
fn code_at(text: &[u8], from: usize, digits: usize) -> Option<u32>
    requires within { from ≤ length text.now }
    requires small { digits ≤ 8 }
    ensures code { 0 < digits → SayCode text.now digits from result }
    ensures digits { IfSome result (λ _. AreDigits text.now from (from + digits)) }
{
    let mut code: u32 = 0;
    for index in 0..digits {
        let digit = hex_value(at(text, from + index))?;
        code = ((code & 0x0FFF_FFFF) << 4) | (digit & 0xF);
    }
    if (code >= 0xD800 && code <= 0xDFFF) || code > 0x10FFFF {
        return None;
    }
    Some(code)
}

// How many hexadecimal digits stand behind this byte of an escape.
#[inline(always)]
fn digits_of(byte: u8) -> usize
    ensures { result ≡ digits_of byte }
{
    match byte {
        b'x' => 2,
        b'u' => 4,
        b'U' => 8,
        _ => 0,
    }
}

// The code of the character that an escape with this byte and so many digits stands for, whose backslash stands here.
#[inline(always)]
fn escaped_code(text: &[u8], place: usize, byte: u8, digits: usize) -> Option<u32>
    requires within { place + 2 + digits ≤ length text.now }
    requires byte { byte ≡ at text.now (place + 1) }
    requires digits { digits ≡ digits_of byte }
    ensures code { at text.now place ≡ 92 → byte ≢ 10 → SaysCode text.now place digits result }
    ensures digits { IfSome result (λ _. AreDigits text.now (place + 2) (place + 2 + digits)) }
{
    if digits == 0 {
        named_code(byte)
    } else {
        code_at(text, place + 2, digits)
    }
}

// Reads the escape whose backslash stands here, puts what it stands for behind a text, and gives the place behind, or
// none.
pub(crate) fn read_escape(text: &[u8], place: usize, out: &mut Vec<u8>) -> Result<usize, AllocError>
    requires { place < length text.now }
    ensures forward { IfOk result (λ end. place + 2 ≤ end) }
    ensures within { IfOk result (λ end. end ≢ no_place → end ≤ length text.now) }
    ensures read { at text.now place ≡ 92 → at text.now (place + 1) ≢ 10
        → IfOk result (λ end. UnquotesIf text.now Double place end out.old.items out.new.items) }
    ensures digits { IfOk result (λ end. end ≢ no_place → AreDigits text.now (place + 2) end) }
{
    let byte = at(text, place + 1);
    let digits = digits_of(byte);
    if text.len() - place < 2 + digits {
        return Ok(NO_PLACE);
    }
    match escaped_code(text, place, byte, digits) {
        Some(code) => push_code(out, code)?,
        None => return Ok(NO_PLACE),
    }
    Ok(place + 2 + digits)
}
