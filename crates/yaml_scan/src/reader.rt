//! Which bytes may be a text at all.

ghost use Rattle.std.specs.Prelude.{◌≡◌, ◌<◌, ◌≤◌, IfSome, IsTrue, MatchOption, length};
ghost use Rattle.std.specs.List.{list_all};
ghost use Rattle.std.specs.Str.{IsAscii};
ghost use Rattle.yaml_scan.specs.AllowedText.{IsAllowed, IsAllowedUpTo, IsOfReader, is_allowed};

use crate::{Fault, Problem};
use simdutf8::compat::from_utf8;
use yaml_base::{FaultKind, Mark};

// Whether the character of this code may stand in a text.
fn is_allowed(code: u32) -> bool
    ensures { result ≡ is_allowed code }
{
    code == 0x09
        || code == 0x0A
        || code == 0x0D
        || (code >= 0x20 && code <= 0x7E)
        || code == 0x85
        || (code >= 0xA0 && code <= 0xD7FF)
        || (code >= 0xE000 && code <= 0xFFFD)
        || (code >= 0x10000 && code <= 0x10FFFF)
}

// The same of a code of one byte. Nothing is left out once one of these holds, so that many bytes are looked at at once.
#[inline(always)]
fn is_allowed_byte(byte: u8) -> bool
    ensures { result ≡ is_allowed byte }
{
    (byte == 0x09)
        | (byte == 0x0A)
        | (byte == 0x0D)
        | ((byte >= 0x20) & (byte <= 0x7E))
        | (byte == 0x85)
        | (byte >= 0xA0)
}

// Whether the character of each byte's code may stand in a text. All are looked at, so that no turn of the loop waits
// for the one before.
fn has_allowed_codes(text: &[u8]) -> bool
    ensures { result ≡ list_all is_allowed text.now }
{
    let mut allowed = true;
    for byte in text {
        allowed &= is_allowed_byte(*byte);
    }
    allowed
}

// Whether each byte is one of ASCII, by the same form: some toolchains call a function for each word otherwise.
fn is_ascii(text: &[u8]) -> bool
    ensures { IsTrue result → IsAscii text.now }
{
    let mut ascii = true;
    for byte in text {
        ascii &= *byte < 0x80;
    }
    ascii
}

// Whether a text is ASCII and allowed, which takes less to see than that any other is allowed.
fn is_allowed_ascii(text: &[u8]) -> bool
    ensures { IsTrue result → IsAllowed text.now }
{
    is_ascii(text) && has_allowed_codes(text)
}

// The index of the first character that may not stand in a text, if there is one.
fn first_forbidden(text: &str) -> Option<usize>
    ensures { MatchOption result (IsAllowed text.now) (IsAllowedUpTo text.now) }
{
    text.find(|character: char| !is_allowed(character as u32))
}

// How many bytes come before the first character that is none or may not stand in a text, if there is one.
fn allowed_len(text: &[u8]) -> Option<usize>
    ensures { MatchOption result (IsAllowed text.now) (IsAllowedUpTo text.now) }
{
    let valid = match from_utf8(text) {
        Ok(text) => return first_forbidden(text),
        Err(error) => error.valid_up_to(),
    };
    match from_utf8(&text[..valid]) {
        Ok(front) => Some(first_forbidden(front).unwrap_or(valid)),
        Err(_) => unreachable!(),
    }
}

// A character's code, made of the bits of its first byte and of each further one.
#[derive(Clone, Copy)]
struct Code {
    width: usize,
    bits: u32,
}

// How many bytes a character has, and which bits of its code its first byte has; no byte else begins one.
fn first_bits(first: u8) -> Option<Code>
    ensures { IfSome result (λ code. code.width ≤ 4) }
{
    let (width, mask): (usize, u8) = match first {
        0..=0x7F => (1, 0x7F),
        0xC0..=0xDF => (2, 0x1F),
        0xE0..=0xEF => (3, 0x0F),
        0xF0..=0xF7 => (4, 0x07),
        _ => return None,
    };
    Some(Code {
        width,
        bits: (first & mask) as u32,
    })
}

// Whether a code is too small for so many bytes.
fn is_too_small(width: usize, code: u32) -> bool {
    (width == 2 && code < 0x80) || (width == 3 && code < 0x800) || (width == 4 && code < 0x10000)
}

// What is wrong with a code of so many bytes that may not stand in a text.
fn problem_of(width: usize, code: u32) -> Problem {
    if is_too_small(width, code) {
        Problem::InvalidLengthOfAUtf8Sequence
    } else if (code >= 0xD800 && code <= 0xDFFF) || code > 0x10FFFF {
        Problem::InvalidUnicodeCharacter
    } else {
        Problem::ControlCharactersAreNotAllowed
    }
}

// What is wrong with the first character of these bytes, which is none or may not stand in a text, and how many bytes
// ahead.
fn diagnose(bytes: &[u8]) -> (Problem, usize)
    requires { 0 < length bytes.now }
    ensures { (result.1 < 4) × (result.1 < length bytes.now) }
{
    let Some(Code { width, mut bits }) = first_bits(bytes[0]) else {
        return (Problem::InvalidLeadingUtf8Octet, 0);
    };
    if width > bytes.len() {
        return (Problem::IncompleteUtf8OctetSequence, 0);
    }
    for index in 1..width {
        let next = bytes[index];
        if next & 0xC0 != 0x80 {
            return (Problem::InvalidTrailingUtf8Octet, index);
        }
        bits = ((bits & 0x3FFFF) << 6) | (next & 0x3F) as u32;
    }
    (problem_of(width, bits), 0)
}

// The mark of the first byte.
fn start_mark() -> Mark {
    match Mark::new(0, 0, 0) {
        Some(mark) => mark,
        None => unreachable!(),
    }
}

// The fault of the first character that is none or may not stand in a text, if there is one.
pub(crate) fn first_fault(text: &[u8]) -> Option<Fault>
    ensures { MatchOption result (IsAllowed text.now) (λ f. IsOfReader text.now f.kind f.offset) }
{
    if is_allowed_ascii(text) {
        return None;
    }
    let at = allowed_len(text)?;
    let (problem, ahead) = diagnose(&text[at..]);
    let mark = start_mark();
    Some(Fault {
        kind: FaultKind::Reader,
        problem,
        offset: (at + ahead) as u64,
        mark,
        context: None,
        context_mark: mark,
    })
}
