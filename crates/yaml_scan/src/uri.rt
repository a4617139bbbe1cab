//! The text of a tag.

use crate::byte::{hex_value, is_uri};
use crate::cursor::Cursor;
use crate::{Context, Problem, Stop};
use yaml_base::Mark;

// Where the text of a tag stands.
#[derive(Clone, Copy, PartialEq, Eq)]
pub(crate) enum Place {
    // Between angle brackets.
    Angles,
    // Behind a handle.
    Suffix,
    // In a directive, as what a handle stands for.
    Prefix,
}

impl Place {
    // What a fault is found amid.
    fn context(self) -> Context {
        match self {
            Place::Prefix => Context::ParsingAHandleDirective,
            Place::Angles | Place::Suffix => Context::ParsingATag,
        }
    }

    // Whether a byte may stand in such a text.
    fn may_hold(self, byte: u8) -> bool {
        is_uri(byte, self != Place::Suffix)
    }
}

// The octet that `%` and two digits stand for, if they are here.
fn escaped_octet(cursor: &Cursor<'_>) -> Option<u8> {
    if cursor.byte(0) != b'%' {
        return None;
    }
    let high = hex_value(cursor.byte(1))?;
    let low = hex_value(cursor.byte(2))?;
    Some((((high & 0xF) << 4) | (low & 0xF)) as u8)
}

// How many octets a character has, by its first; 0 if none begins so.
fn octet_count(octet: u8) -> usize {
    match octet {
        0..=0x7F => 1,
        0xC0..=0xDF => 2,
        0xE0..=0xEF => 3,
        0xF0..=0xF7 => 4,
        _ => 0,
    }
}

// The octet that `%` and two digits stand for here.
fn octet_at(cursor: &mut Cursor<'_>, place: Place, start: Mark) -> Result<u8, Stop> {
    let Some(octet) = escaped_octet(cursor) else {
        let problem = Problem::DidNotFindUriEscapedOctet;
        return Err(cursor.fault(place.context(), start, problem));
    };
    Ok(octet)
}

// Reads the octets of one character, each by `%` and two digits.
fn read_character(
    cursor: &mut Cursor<'_>,
    place: Place,
    start: Mark,
    out: &mut Vec<u8>,
) -> Result<(), Stop> {
    let first = octet_at(cursor, place, start)?;
    let count = octet_count(first);
    if count == 0 {
        let problem = Problem::FoundAnIncorrectLeadingUtf8Octet;
        return Err(cursor.fault(place.context(), start, problem));
    }
    out.push(first)?;
    cursor.skip_many(3);
    for _ in 1..count {
        let octet = octet_at(cursor, place, start)?;
        if octet & 0xC0 != 0x80 {
            let problem = Problem::FoundAnIncorrectTrailingUtf8Octet;
            return Err(cursor.fault(place.context(), start, problem));
        }
        out.push(octet)?;
        cursor.skip_many(3);
    }
    Ok(())
}

// Reads the text of a tag, which may have nothing only where `head` says that a part of it was read before.
pub(crate) fn scan_uri(
    cursor: &mut Cursor<'_>,
    place: Place,
    head: bool,
    start: Mark,
    out: &mut Vec<u8>,
) -> Result<(), Stop> {
    let mut any = head;
    for _ in 0..cursor.left() {
        let byte = cursor.byte(0);
        if !place.may_hold(byte) {
            break;
        }
        if byte == b'%' {
            read_character(cursor, place, start, out)?;
        } else {
            cursor.read(out)?;
        }
        any = true;
    }
    if !any {
        return Err(cursor.fault(place.context(), start, Problem::DidNotFindExpectedTagUri));
    }
    Ok(())
}
