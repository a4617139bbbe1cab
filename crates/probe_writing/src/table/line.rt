//! One line of a table: a shape.

use crate::text::{first_word, number, until};
use std::alloc::Global;
use yaml_lines::{LineFault, unescape};
use yaml_shape::{Shape, ShapeId, VariantShape};

// The name that a word writes, with escapes. `_` is the empty name.
fn name(alloc: Global, word: &str) -> Result<String, LineFault> {
    if word.is_empty() {
        return Err(LineFault::Bad);
    }
    if word == "_" {
        return Ok(String::new(alloc));
    }
    match String::from_utf8(unescape(alloc, word.as_bytes())?) {
        Ok(name) => Ok(name),
        Err(_) => Err(LineFault::Bad),
    }
}

// The number that a word writes.
fn id(word: &str) -> Result<ShapeId, LineFault> {
    number(word).ok_or(LineFault::Bad)
}

// The numbers that a text lists.
fn ids(alloc: Global, text: &str, between: char) -> Result<Vec<ShapeId>, LineFault> {
    let mut ids = Vec::new(alloc);
    for word in text.split(between) {
        if !word.is_empty() {
            ids.push(id(word)?)?;
        }
    }
    Ok(ids)
}

// The names with numbers that a text lists.
fn fields(
    alloc: Global,
    text: &str,
    between: char,
    before_number: char,
) -> Result<Vec<(String, ShapeId)>, LineFault> {
    let mut fields = Vec::new(alloc);
    for word in text.split(between) {
        if !word.is_empty() {
            let (field, number) = word.rsplit_once(before_number).ok_or(LineFault::Bad)?;
            fields.push((name(alloc, field)?, id(number)?))?;
        }
    }
    Ok(fields)
}

// The content of a variant.
fn content(alloc: Global, text: &str) -> Result<VariantShape, LineFault> {
    let (kind, rest) = until(text, '=');
    match kind {
        "unit" => Ok(VariantShape::Unit),
        "newtype" => Ok(VariantShape::Newtype(id(rest)?)),
        "tuple" => Ok(VariantShape::Tuple(ids(alloc, rest, ',')?)),
        "struct" => Ok(VariantShape::Struct(fields(alloc, rest, ',', '.')?)),
        "strict" => Ok(VariantShape::StrictStruct(fields(alloc, rest, ',', '.')?)),
        _ => Err(LineFault::Bad),
    }
}

// The variants that a text lists.
fn variants(alloc: Global, text: &str) -> Result<Vec<(String, VariantShape)>, LineFault> {
    let mut variants = Vec::new(alloc);
    for word in text.split(' ') {
        if !word.is_empty() {
            let (variant, kind) = word.split_once(':').ok_or(LineFault::Bad)?;
            variants.push((name(alloc, variant)?, content(alloc, kind)?))?;
        }
    }
    Ok(variants)
}

// The shape that is one word.
fn bare(line: &str) -> Option<Shape> {
    match line {
        "any" => Some(Shape::Any),
        "bool" => Some(Shape::Bool),
        "char" => Some(Shape::Char),
        "i8" => Some(Shape::I8),
        "i16" => Some(Shape::I16),
        "i32" => Some(Shape::I32),
        "i64" => Some(Shape::I64),
        "i128" => Some(Shape::I128),
        "isize" => Some(Shape::Isize),
        "u8" => Some(Shape::U8),
        "u16" => Some(Shape::U16),
        "u32" => Some(Shape::U32),
        "u64" => Some(Shape::U64),
        "u128" => Some(Shape::U128),
        "usize" => Some(Shape::Usize),
        "str" => Some(Shape::Str),
        "identifier" => Some(Shape::Identifier),
        "bytes" => Some(Shape::Bytes),
        "unit" => Some(Shape::Unit),
        "ignored" => Some(Shape::IgnoredAny),
        _ => None,
    }
}

// The shape with a name, and with parts behind it.
fn named(alloc: Global, kind: &str, text: &str) -> Result<Shape, LineFault> {
    let (word, rest) = first_word(text);
    let name = name(alloc, word)?;
    match kind {
        "unit_struct" => Ok(Shape::UnitStruct { name }),
        "newtype" => Ok(Shape::Newtype {
            name,
            inner: id(rest)?,
        }),
        "tuple_struct" => Ok(Shape::TupleStruct {
            name,
            items: ids(alloc, rest, ' ')?,
        }),
        "struct" => Ok(Shape::Struct {
            name,
            fields: fields(alloc, rest, ' ', ':')?,
        }),
        "strict_struct" => Ok(Shape::StrictStruct {
            name,
            fields: fields(alloc, rest, ' ', ':')?,
        }),
        "enum" => Ok(Shape::Enum {
            name,
            variants: variants(alloc, rest)?,
        }),
        _ => Err(LineFault::Bad),
    }
}

/// The shape that a line says.
pub fn shape(alloc: Global, line: &str) -> Result<Shape, LineFault> {
    if let Some(shape) = bare(line) {
        return Ok(shape);
    }
    let (kind, rest) = first_word(line);
    match kind {
        "option" => Ok(Shape::Option(id(rest)?)),
        "seq" => Ok(Shape::Seq(id(rest)?)),
        "tuple" => Ok(Shape::Tuple(ids(alloc, rest, ' ')?)),
        "map" => {
            let (key, value) = first_word(rest);
            Ok(Shape::Map(id(key)?, id(value)?))
        }
        _ => named(alloc, kind, rest),
    }
}
