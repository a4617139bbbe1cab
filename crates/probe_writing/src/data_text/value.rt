//! Values of any kind, as a text says them.

use super::source::Source;
use std::alloc::Global;
use yaml_lines::LineFault;
use yaml_tree::{Mapping, Number, Sequence, Tag, TaggedValue, TreeFault, Value};

// Why a part of a tree was not made.
fn fault_of(fault: TreeFault) -> LineFault {
    match fault {
        TreeFault::Memory => LineFault::Memory,
        TreeFault::EmptyTag => LineFault::Bad,
    }
}

// A number.
fn number(source: &mut Source<'_>) -> Result<Value, LineFault> {
    let digits = source.digits()?;
    if let Ok(number) = digits.parse::<u64>() {
        return Ok(Value::Number(Number::from_u64(number)));
    }
    match digits.parse::<i64>() {
        Ok(number) => Ok(Value::Number(Number::from_i64(number))),
        Err(_) => Err(LineFault::Bad),
    }
}

/// A value, at most so deep.
#[cycle(value)]
pub fn value(alloc: Global, source: &mut Source<'_>, depth: u32) -> Result<Value, LineFault> {
    let depth = depth.checked_sub(1).ok_or(LineFault::Bad)?;
    if source.take(b"null") {
        return Ok(Value::Null);
    }
    if source.take(b"true") {
        return Ok(Value::Bool(true));
    }
    if source.take(b"false") {
        return Ok(Value::Bool(false));
    }
    match source.first() {
        Some(b'"') => Ok(Value::String(source.text(alloc)?)),
        Some(b'[') => sequence(alloc, source, depth),
        Some(b'{') => mapping(alloc, source, depth),
        Some(b'!') => tagged(alloc, source, depth),
        _ => number(source),
    }
}

// The values of a sequence.
#[cycle(value)]
fn sequence(alloc: Global, source: &mut Source<'_>, depth: u32) -> Result<Value, LineFault> {
    source.want(b"[")?;
    let mut values = Vec::new(alloc);
    // each has a byte at least
    for place in 0..source.left() {
        if source.take(b"]") {
            return Ok(Value::Sequence(Sequence::from(values)));
        }
        source.separate(place)?;
        values.push(value(alloc, source, depth)?)?;
    }
    Err(LineFault::Bad)
}

// The pairs of a mapping. A key that is there already keeps its place and takes the later value.
#[cycle(value)]
fn mapping(alloc: Global, source: &mut Source<'_>, depth: u32) -> Result<Value, LineFault> {
    source.want(b"{")?;
    let mut pairs = Mapping::new(alloc);
    // each has a byte at least
    for place in 0..source.left() {
        if source.take(b"}") {
            return Ok(Value::Mapping(pairs));
        }
        source.separate(place)?;
        let key = value(alloc, source, depth)?;
        source.want(b": ")?;
        let content = value(alloc, source, depth)?;
        let _replaced = pairs.insert(key, content).map_err(fault_of)?;
    }
    Err(LineFault::Bad)
}

// A value with a tag.
#[cycle(value)]
fn tagged(alloc: Global, source: &mut Source<'_>, depth: u32) -> Result<Value, LineFault> {
    source.want(b"!")?;
    let tag = Tag::new(alloc, source.word()?).map_err(fault_of)?;
    source.want(b" ")?;
    let content = value(alloc, source, depth)?;
    Ok(Value::Tagged(Box::new(
        alloc,
        TaggedValue {
            tag,
            value: content,
        },
    )?))
}
