//! Which texts are read at all: those whose characters are allowed, and in which only line feeds end lines, each after
//! a carriage return or not.

ghost use Rattle.std.specs.Prelude.{◌≡◌, ◌≢◌, ◌<◌, ◌≤◌, IsTrue, false, length, true};
ghost use Rattle.yaml_base.specs.Places.{has_order_mark};
ghost use Rattle.yaml_direct.specs.Bytes.{begins_forbidden};
ghost use Rattle.yaml_direct.specs.declared.text.Characters.TheVariants as characters;
ghost use Rattle.yaml_grammar.specs.Bytes.{at, is_character, is_text};

use crate::byte::at;
use memchr::{memchr_iter, memchr3_iter};
use simdutf8::compat::from_utf8;

// What the bytes of a text are.
#[derive(Clone, Copy, PartialEq, Eq)]
pub(crate) enum Characters {
    // All of ASCII, and allowed.
    Ascii,
    // All allowed.
    Allowed,
    // Maybe not allowed, or a line break that is no line feed.
    Other,
}

// Whether this byte of ASCII may stand in a text.
#[inline(always)]
fn is_allowed_byte(byte: u8) -> bool
    ensures { is_character byte ≡ true → byte < 128 → result ≡ true }
{
    (byte >= 0x20 && byte <= 0x7E) | (byte == b'\n') | (byte == b'\t') | (byte == b'\r')
}

// Whether each byte is an allowed one of ASCII.
fn is_allowed_ascii(text: &[u8]) -> bool {
    let mut allowed = true;
    for byte in text {
        allowed &= is_allowed_byte(*byte);
    }
    allowed
}

// Whether each byte of ASCII is an allowed one.
fn has_allowed_ascii(text: &[u8]) -> bool
    ensures { is_text text.now ≡ true → result ≡ true }
{
    let mut allowed = true;
    'bytes: for byte in text {
        allowed &= is_allowed_byte(*byte) | (*byte >= 0x80);
    }
    allowed
}

// Whether a character begins the bytes that is not allowed, ends a line, or is the mark of the order of bytes.
fn begins_forbidden(bytes: &[u8]) -> bool
    ensures { IsTrue result → begins_forbidden bytes.now ≡ true }
{
    matches!(
        bytes,
        [0xC2, 0x80..=0x9F, ..]
            | [0xE2, 0x80, 0xA8 | 0xA9, ..]
            | [0xEF, 0xBB, 0xBF, ..]
            | [0xEF, 0xBF, 0xBE | 0xBF, ..]
    )
}

// Whether such a character stands in the text.
fn has_forbidden(text: &[u8]) -> bool
    ensures { is_text text.now ≡ true → result ≡ false }
{
    'marks: for place in memchr3_iter(0xC2, 0xE2, 0xEF, text) {
        if let Some(rest) = text.get(place..) {
            if begins_forbidden(rest) {
                return true;
            }
        }
    }
    false
}

// Whether a carriage return stands in the text, and no line feed behind it.
fn has_lone_return(text: &[u8]) -> bool
    ensures { is_text text.now ≡ true → result ≡ false }
{
    'returns: for place in memchr_iter(b'\r', text) {
        if !text
            .get(place..)
            .is_some_and(|rest| rest.starts_with(b"\r\n"))
        {
            return true;
        }
    }
    false
}

// Whether the text begins with U+FEFF, which is the mark of the order of bytes.
pub(crate) fn has_order_mark(text: &[u8]) -> bool
    ensures mark { result ≡ has_order_mark text.now }
    ensures within { IsTrue result → 3 ≤ length text.now }
{
    at(text, 0) == 0xEF && at(text, 1) == 0xBB && at(text, 2) == 0xBF
}

// What the characters of a text are, behind the mark of the order of bytes.
pub(crate) fn characters_of(text: &[u8]) -> Characters
    ensures other { is_text text.now ≡ true → result ≢ characters.Other }
{
    if has_lone_return(text) {
        Characters::Other
    } else if is_allowed_ascii(text) {
        Characters::Ascii
    } else if has_allowed_ascii(text) && from_utf8(text).is_ok() && !has_forbidden(text) {
        Characters::Allowed
    } else {
        Characters::Other
    }
}
