//! Which keys are the same.

use crate::nodes::Nodes;
use std::alloc::Global;
use std::collections::BTreeMap;
use yaml_base::{DocEvent, DocScalar, Kind, Result, ScalarStyle, Tag, parse_tag, resolve};

// For each place of a document the number of the value that begins there, and that of its text: equal values have one
// number, and equal texts have one. Of what has no text both are the number of the value.
#[derive(Drop)]
pub(crate) struct Keys {
    values: Vec<usize>,
    texts: Vec<usize>,
    pub(crate) count: usize,
}

impl Keys {
    // The number of the value in a place.
    pub(crate) fn value(&self, place: usize) -> usize {
        match self.values.get(place) {
            Some(number) => *number,
            None => 0,
        }
    }

    // The number of the text in a place.
    pub(crate) fn text(&self, place: usize) -> usize {
        match self.texts.get(place) {
            Some(number) => *number,
            None => 0,
        }
    }
}

// The numbers that were given away.
#[derive(Drop)]
struct Numbers {
    given: BTreeMap<Vec<u8>, usize>,
    next: usize,
}

impl Numbers {
    // The number of what these bytes spell: the one that it has, else the next.
    fn number(&mut self, spelling: Vec<u8>) -> Result<usize> {
        if let Some(number) = self.given.get(&spelling) {
            return Ok(*number);
        }
        let number = self.next;
        self.given.insert(spelling, number)?;
        self.next = number.saturating_add(1);
        Ok(number)
    }
}

// Bytes behind a letter.
fn spelled(alloc: Global, letter: u8, bytes: &[u8]) -> Result<Vec<u8>> {
    let mut spelling = Vec::with_capacity(alloc, bytes.len().saturating_add(1))?;
    spelling.push(letter)?;
    spelling.extend_from_slice(bytes)?;
    Ok(spelling)
}

// What a scalar is that has no local tag.
fn kind(scalar: &DocScalar<'_>) -> Kind {
    let resolves = match &scalar.tag {
        Some(tag) => tag.is(Tag::NULL) || tag.is(Tag::BOOL) || tag.is(Tag::INT),
        None => scalar.style == ScalarStyle::Plain,
    };
    if !resolves {
        return Kind::Str;
    }
    match std::str::from_utf8(scalar.value.as_slice()) {
        Ok(text) => resolve(text),
        Err(_) => Kind::Str,
    }
}

// Bytes that spell a scalar with a local tag.
fn tagged_spelling(alloc: Global, tag: &Tag, text: &[u8]) -> Result<Vec<u8>> {
    let mut spelling = spelled(alloc, b'!', tag.as_slice())?;
    spelling.push(0)?;
    spelling.extend_from_slice(text)?;
    Ok(spelling)
}

// Bytes that spell the value of a scalar: the same for the same value, and others for others.
fn value_spelling(alloc: Global, scalar: &DocScalar<'_>) -> Result<Vec<u8>> {
    let text = scalar.value.as_slice();
    if let Some(tag) = &scalar.tag {
        if parse_tag(Some(tag)).is_some() {
            return tagged_spelling(alloc, tag, text);
        }
    }
    match kind(scalar) {
        Kind::Null => spelled(alloc, b'n', b"".as_slice()),
        Kind::Bool(true) => spelled(alloc, b'b', b"1".as_slice()),
        Kind::Bool(false) => spelled(alloc, b'b', b"0".as_slice()),
        Kind::Unsigned(number) => spelled(alloc, b'+', number.to_le_bytes().as_slice()),
        Kind::Signed(0) => spelled(alloc, b'+', 0u128.to_le_bytes().as_slice()),
        Kind::Signed(number) => spelled(alloc, b'-', number.to_le_bytes().as_slice()),
        Kind::Float | Kind::Str => spelled(alloc, b's', text),
    }
}

// Bytes that spell the text of a scalar, whatever its style; a local tag is part of it.
fn text_spelling(alloc: Global, scalar: &DocScalar<'_>) -> Result<Vec<u8>> {
    let text = scalar.value.as_slice();
    match &scalar.tag {
        Some(tag) if parse_tag(Some(tag)).is_some() => tagged_spelling(alloc, tag, text),
        _ => spelled(alloc, b's', text),
    }
}

// Bytes that spell a collection by the numbers of its parts. The pairs of a mapping may stand in any order.
fn collection_spelling(
    alloc: Global,
    nodes: Nodes<'_, '_>,
    values: &[usize],
    start: usize,
    is_mapping: bool,
) -> Result<Vec<u8>> {
    let end = nodes.end(start);
    let mut parts: Vec<(usize, usize)> = Vec::new(alloc);
    let mut at = start.saturating_add(1);
    for index in 0..nodes.len() {
        if at >= end {
            break;
        }
        let first = number_at(values, at);
        at = nodes.behind(at);
        if is_mapping {
            parts.push((first, number_at(values, at)))?;
            at = nodes.behind(at);
        } else {
            parts.push((index, first))?;
        }
    }
    if is_mapping {
        parts.sort_unstable();
    }
    let tag = match nodes.tag(start) {
        Some(tag) if parse_tag(Some(tag)).is_some() => tag.as_slice(),
        _ => b"".as_slice(),
    };
    let mut spelling = spelled(alloc, if is_mapping { b'{' } else { b'[' }, tag)?;
    spelling.push(0)?;
    for (first, second) in &parts {
        spelling.extend_from_slice(first.to_le_bytes().as_slice())?;
        spelling.extend_from_slice(second.to_le_bytes().as_slice())?;
    }
    Ok(spelling)
}

// The number in a place.
fn number_at(numbers: &[usize], place: usize) -> usize {
    match numbers.get(place) {
        Some(number) => *number,
        None => 0,
    }
}

// Bytes that spell what is still open, which nothing else is.
fn open_spelling(alloc: Global, start: usize) -> Result<Vec<u8>> {
    spelled(alloc, b'o', start.to_le_bytes().as_slice())
}

// The numbers of a document's nodes.
pub(crate) fn keys_of(alloc: Global, nodes: Nodes<'_, '_>) -> Result<Keys> {
    let mut numbers = Numbers {
        given: BTreeMap::new(alloc),
        next: 0,
    };
    let mut values = Vec::from_elem(alloc, 0usize, nodes.len())?;
    let mut texts = Vec::from_elem(alloc, 0usize, nodes.len())?;
    let mut open: Vec<usize> = Vec::new(alloc);
    for place in 0..nodes.len() {
        let Some(event) = nodes.event(place) else {
            break;
        };
        let (at, value, text) = match event {
            DocEvent::Scalar(scalar) => {
                let value = numbers.number(value_spelling(alloc, scalar)?)?;
                let text = numbers.number(text_spelling(alloc, scalar)?)?;
                (place, value, text)
            }
            DocEvent::Alias(target) => {
                (
                    place,
                    number_at(values.as_slice(), *target),
                    number_at(texts.as_slice(), *target),
                )
            }
            DocEvent::SequenceStart(_) | DocEvent::MappingStart(_) => {
                open.push(place)?;
                let number = numbers.number(open_spelling(alloc, place)?)?;
                (place, number, number)
            }
            DocEvent::SequenceEnd | DocEvent::MappingEnd => {
                let Some(start) = open.pop() else {
                    break;
                };
                let is_mapping = matches!(event, DocEvent::MappingEnd);
                let spelling = collection_spelling(
                    alloc,
                    nodes,
                    values.as_slice(),
                    start,
                    is_mapping,
                )?;
                let number = numbers.number(spelling)?;
                (start, number, number)
            }
            DocEvent::Void => (place, 0, 0),
        };
        if at < values.len() && at < texts.len() {
            values[at] = value;
            texts[at] = text;
        }
    }
    Ok(Keys {
        values,
        texts,
        count: numbers.next,
    })
}
