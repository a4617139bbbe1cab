//! Data, as a text says it under a shape.

mod source;
mod value;

pub use source::Source;
use std::alloc::Global;
use value::value;
use yaml_base::{parse_signed_int, parse_unsigned_int};
use yaml_lines::LineFault;
use yaml_shape::{Data, Entry, Schema, Shape, ShapeId, Text, VariantShape};
use yaml_tree::Value;

// How deep data may be nested.
const NESTINGS: u32 = 500;

// An integer with a sign.
fn signed(source: &mut Source<'_>) -> Result<Data<'static>, LineFault> {
    match parse_signed_int(source.digits()?, i128::MIN, i128::MAX) {
        Some(number) => Ok(Data::Signed(number)),
        None => Err(LineFault::Bad),
    }
}

// An integer without a sign.
fn unsigned(source: &mut Source<'_>) -> Result<Data<'static>, LineFault> {
    match parse_unsigned_int(source.digits()?, u128::MAX) {
        Some(number) => Ok(Data::Unsigned(number)),
        None => Err(LineFault::Bad),
    }
}

// A character between quotes.
fn character(alloc: Global, source: &mut Source<'_>) -> Result<Data<'static>, LineFault> {
    let text = source.text(alloc)?;
    match text.as_str().chars().next() {
        Some(letter) => Ok(Data::Char(letter)),
        None => Err(LineFault::Bad),
    }
}

// Data that a word says, and nothing else.
fn word(
    source: &mut Source<'_>,
    word: &[u8],
    content: Data<'static>,
) -> Result<Data<'static>, LineFault> {
    source.want(word)?;
    Ok(content)
}

// Data of one of the shapes that lead to no other.
fn scalar(
    alloc: Global,
    shape: &Shape,
    source: &mut Source<'_>,
) -> Result<Data<'static>, LineFault> {
    match shape {
        Shape::Bool => {
            if source.take(b"true") {
                return Ok(Data::Bool(true));
            }
            word(source, b"false", Data::Bool(false))
        }
        Shape::Char => character(alloc, source),
        Shape::Str | Shape::Identifier => Ok(Data::Str(Text::Owned(source.text(alloc)?))),
        Shape::Bytes => Ok(Data::Bytes(source.bytes(alloc)?)),
        Shape::Unit | Shape::UnitStruct { .. } => word(source, b"()", Data::Unit),
        Shape::IgnoredAny => word(source, b"ignored", Data::Ignored),
        _ => match shape.integer() {
            Some(integer) if integer.has_sign() => signed(source),
            Some(_) => unsigned(source),
            None => Err(LineFault::Bad),
        },
    }
}

// Data of the shape with this number, at most so deep.
#[cycle(node)]
fn node(
    alloc: Global,
    schema: &Schema,
    id: ShapeId,
    source: &mut Source<'_>,
    depth: u32,
) -> Result<Data<'static>, LineFault> {
    let depth = depth.checked_sub(1).ok_or(LineFault::Bad)?;
    let shape = schema.shape(id).ok_or(LineFault::Bad)?;
    match shape {
        Shape::Any => Ok(Data::Any(value(alloc, source, depth)?)),
        Shape::Option(inner) => {
            if source.take(b"none") {
                return Ok(Data::None);
            }
            source.want(b"some(")?;
            Ok(Data::Some(inside(alloc, schema, *inner, source, depth)?))
        }
        Shape::Newtype { inner, .. } => {
            source.want(b"new(")?;
            Ok(Data::Newtype(inside(alloc, schema, *inner, source, depth)?))
        }
        Shape::Seq(item) => Ok(Data::Seq(elements(alloc, schema, *item, source, depth)?)),
        Shape::Tuple(items) | Shape::TupleStruct { items, .. } => {
            Ok(Data::Tuple(parts(alloc, schema, items, source, depth)?))
        }
        Shape::Map(key, content) => {
            Ok(Data::Map(entries(alloc, schema, *key, *content, source, depth)?))
        }
        Shape::Struct { fields, .. } | Shape::StrictStruct { fields, .. } => {
            Ok(Data::Struct(named(alloc, schema, fields, source, depth)?))
        }
        Shape::Enum { variants, .. } => variant(alloc, schema, variants, source, depth),
        _ => scalar(alloc, shape, source),
    }
}

// Data behind an opening parenthesis, up to the closing one.
#[cycle(node)]
fn inside(
    alloc: Global,
    schema: &Schema,
    id: ShapeId,
    source: &mut Source<'_>,
    depth: u32,
) -> Result<Box<Data<'static>>, LineFault> {
    let content = node(alloc, schema, id, source, depth)?;
    source.want(b")")?;
    Ok(Box::new(alloc, content)?)
}

// The elements of a sequence.
#[cycle(node)]
fn elements(
    alloc: Global,
    schema: &Schema,
    id: ShapeId,
    source: &mut Source<'_>,
    depth: u32,
) -> Result<Vec<Data<'static>>, LineFault> {
    source.want(b"[")?;
    let mut items = Vec::new(alloc);
    // each has a byte at least
    for place in 0..source.left() {
        if source.take(b"]") {
            return Ok(items);
        }
        source.separate(place)?;
        items.push(node(alloc, schema, id, source, depth)?)?;
    }
    Err(LineFault::Bad)
}

// As many parts as there are numbers, each of its own shape.
#[cycle(node)]
fn parts(
    alloc: Global,
    schema: &Schema,
    ids: &[ShapeId],
    source: &mut Source<'_>,
    depth: u32,
) -> Result<Vec<Data<'static>>, LineFault> {
    source.want(b"(")?;
    let mut items = Vec::new(alloc);
    for (place, id) in ids.iter().enumerate() {
        source.separate(place)?;
        items.push(node(alloc, schema, *id, source, depth)?)?;
    }
    source.want(b")")?;
    Ok(items)
}

// The fields of a struct, in order.
#[cycle(node)]
fn named(
    alloc: Global,
    schema: &Schema,
    fields: &[(String, ShapeId)],
    source: &mut Source<'_>,
    depth: u32,
) -> Result<Vec<Data<'static>>, LineFault> {
    source.want(b"struct(")?;
    let mut items = Vec::new(alloc);
    for (place, field) in fields.iter().enumerate() {
        source.separate(place)?;
        items.push(node(alloc, schema, field.1, source, depth)?)?;
    }
    source.want(b")")?;
    Ok(items)
}

// The entries of a mapping.
#[cycle(node)]
fn entries(
    alloc: Global,
    schema: &Schema,
    key: ShapeId,
    content: ShapeId,
    source: &mut Source<'_>,
    depth: u32,
) -> Result<Vec<Entry<'static>>, LineFault> {
    source.want(b"{")?;
    let mut entries = Vec::new(alloc);
    // each has a byte at least
    for place in 0..source.left() {
        if source.take(b"}") {
            return Ok(entries);
        }
        source.separate(place)?;
        let key = node(alloc, schema, key, source, depth)?;
        source.want(b": ")?;
        let value = node(alloc, schema, content, source, depth)?;
        entries.push(Entry { key, value })?;
    }
    Err(LineFault::Bad)
}

// A variant: its place, and its content.
#[cycle(node)]
fn variant(
    alloc: Global,
    schema: &Schema,
    variants: &[(String, VariantShape)],
    source: &mut Source<'_>,
    depth: u32,
) -> Result<Data<'static>, LineFault> {
    source.want(b"variant ")?;
    let place = match source.digits()?.parse::<usize>() {
        Ok(place) => place,
        Err(_) => return Err(LineFault::Bad),
    };
    source.want(b" ")?;
    let found = variants.get(place).ok_or(LineFault::Bad)?;
    let content = match &found.1 {
        VariantShape::Unit => word(source, b"()", Data::Unit)?,
        VariantShape::Newtype(id) => node(alloc, schema, *id, source, depth)?,
        VariantShape::Tuple(ids) => Data::Tuple(parts(alloc, schema, ids, source, depth)?),
        VariantShape::Struct(fields) | VariantShape::StrictStruct(fields) => {
            Data::Struct(named(alloc, schema, fields, source, depth)?)
        }
    };
    Ok(Data::Variant(place, Box::new(alloc, content)?))
}

/// The data of the shape with this number that a text begins with. Whether it is of the shape is still to be tested.
pub fn next_data(
    alloc: Global,
    schema: &Schema,
    id: ShapeId,
    source: &mut Source<'_>,
) -> Result<Data<'static>, LineFault> {
    node(alloc, schema, id, source, NESTINGS)
}

/// The value that a text begins with.
pub fn next_value(alloc: Global, source: &mut Source<'_>) -> Result<Value, LineFault> {
    value(alloc, source, NESTINGS)
}

/// The data of the shape with this number that a text says. Whether it is of the shape is still to be tested, since
/// an integer may be out of range.
pub fn data(
    alloc: Global,
    schema: &Schema,
    id: ShapeId,
    text: &[u8],
) -> Result<Data<'static>, LineFault> {
    let mut source = Source::new(text);
    let content = next_data(alloc, schema, id, &mut source)?;
    if source.left() == 0 {
        Ok(content)
    } else {
        Err(LineFault::Bad)
    }
}
