//! Calls, as lines say them.

use super::call::{Call, Integer, Role, Scalar, Shaped};
use crate::data_text::{Source, next_data, next_value};
use crate::text::number;
use std::alloc::Global;
use yaml_lines::LineFault;
use yaml_shape::{Schema, Typed};
use yaml_tree::{Tag, TreeFault};
use yaml_write::OpenKind;

// The call that a word says alone.
fn bare(word: &str) -> Option<Call> {
    match word {
        "true" => Some(Call::Scalar(Scalar::Bool(true))),
        "false" => Some(Call::Scalar(Scalar::Bool(false))),
        "unit" => Some(Call::Scalar(Scalar::Unit)),
        "unit_struct" => Some(Call::Scalar(Scalar::UnitStruct)),
        "none" => Some(Call::Scalar(Scalar::None)),
        "end" => Some(Call::End),
        "flush" => Some(Call::Flush),
        _ => None,
    }
}

// The kind of collection that a word opens.
fn kind(word: &str) -> Option<OpenKind> {
    match word {
        "seq" => Some(OpenKind::Seq),
        "tuple" => Some(OpenKind::Tuple),
        "tuple_struct" => Some(OpenKind::TupleStruct),
        "tuple_variant" => Some(OpenKind::TupleVariant),
        "map" => Some(OpenKind::Map),
        "struct" => Some(OpenKind::Struct),
        "struct_variant" => Some(OpenKind::StructVariant),
        _ => None,
    }
}

// The integer with a sign of the type that a word names.
fn signed(word: &str, digits: &str) -> Option<Integer> {
    match word {
        "i8" => Some(Integer::I8(digits.parse::<i8>().ok()?)),
        "i16" => Some(Integer::I16(digits.parse::<i16>().ok()?)),
        "i32" => Some(Integer::I32(digits.parse::<i32>().ok()?)),
        "i64" => Some(Integer::I64(digits.parse::<i64>().ok()?)),
        "i128" => Some(Integer::I128(digits.parse::<i128>().ok()?)),
        _ => None,
    }
}

// The integer without a sign of the type that a word names.
fn unsigned(word: &str, digits: &str) -> Option<Integer> {
    match word {
        "u8" => Some(Integer::U8(digits.parse::<u8>().ok()?)),
        "u16" => Some(Integer::U16(digits.parse::<u16>().ok()?)),
        "u32" => Some(Integer::U32(digits.parse::<u32>().ok()?)),
        "u64" => Some(Integer::U64(digits.parse::<u64>().ok()?)),
        "u128" => Some(Integer::U128(digits.parse::<u128>().ok()?)),
        _ => None,
    }
}

// The integer of the type that a word names.
fn integer(word: &str, source: &mut Source<'_>) -> Result<Call, LineFault> {
    let digits = source.digits()?;
    match signed(word, digits) {
        Some(integer) => Ok(Call::Integer(integer)),
        None => Ok(Call::Integer(unsigned(word, digits).ok_or(LineFault::Bad)?)),
    }
}

// A character between quotes.
fn letter(alloc: Global, source: &mut Source<'_>) -> Result<char, LineFault> {
    let text = source.text(alloc)?;
    text.as_str().chars().next().ok_or(LineFault::Bad)
}

// The call of what stands between quotes behind a word, if it is one.
fn quoted(alloc: Global, word: &str, source: &mut Source<'_>) -> Result<Option<Scalar>, LineFault> {
    match word {
        "char" => Ok(Some(Scalar::Char(letter(alloc, source)?))),
        "str" => Ok(Some(Scalar::Str(source.text(alloc)?))),
        "bytes" => Ok(Some(Scalar::Bytes(source.bytes(alloc)?))),
        "unit_variant" => Ok(Some(Scalar::UnitVariant(source.text(alloc)?))),
        _ => Ok(None),
    }
}

// A name between quotes, and the space behind it.
fn name(alloc: Global, source: &mut Source<'_>) -> Result<String, LineFault> {
    let name = source.text(alloc)?;
    source.want(b" ")?;
    Ok(name)
}

// The role that a word gives data, and the name that is part of it.
fn role(alloc: Global, word: &str, source: &mut Source<'_>) -> Result<Option<Role>, LineFault> {
    let role = match word {
        "typed" => Role::Document,
        "some" => Role::Some,
        "newtype_struct" => Role::NewtypeStruct,
        "newtype_variant" => Role::NewtypeVariant(name(alloc, source)?),
        "element" => Role::Element,
        "field" => Role::Field,
        "struct_field" => Role::NamedField(name(alloc, source)?),
        "key" => Role::Key,
        "value" => Role::Value,
        _ => return Ok(None),
    };
    Ok(Some(role))
}

// The number of a shape, and data of it.
fn shaped(alloc: Global, schema: &Schema, source: &mut Source<'_>) -> Result<Shaped, LineFault> {
    let id = number(source.word()?).ok_or(LineFault::Bad)?;
    source.want(b" ")?;
    let content = next_data(alloc, schema, id, source)?;
    if Typed::new(schema, id, &content).is_none() {
        return Err(LineFault::Bad);
    }
    Ok(Shaped { id, content })
}

// A key and its value, each of which has a shape.
fn entry(alloc: Global, schema: &Schema, source: &mut Source<'_>) -> Result<Call, LineFault> {
    let key = shaped(alloc, schema, source)?;
    source.want(b" ")?;
    Ok(Call::Entry(key, shaped(alloc, schema, source)?))
}

// A tag.
fn tag(alloc: Global, word: &str) -> Result<Tag, LineFault> {
    match Tag::new(alloc, word) {
        Ok(tag) => Ok(tag),
        Err(TreeFault::EmptyTag) => Err(LineFault::Bad),
        Err(TreeFault::Memory) => Err(LineFault::Memory),
    }
}

// A tag and a value.
fn tagged(alloc: Global, source: &mut Source<'_>) -> Result<Call, LineFault> {
    let tag = tag(alloc, source.word()?)?;
    source.want(b" ")?;
    Ok(Call::Tagged(tag, next_value(alloc, source)?))
}

// The call of a variant's collection, whose name stands behind the word, or of another collection.
fn opening(alloc: Global, kind: OpenKind, source: &mut Source<'_>) -> Result<Call, LineFault> {
    let name = match kind {
        OpenKind::TupleVariant | OpenKind::StructVariant => source.text(alloc)?,
        _ => String::new(alloc),
    };
    Ok(Call::Open(kind, name))
}

// The call that a word and what stands behind it say, where it is given data or a value.
fn given(
    alloc: Global,
    schema: &Schema,
    word: &str,
    source: &mut Source<'_>,
) -> Result<Call, LineFault> {
    match word {
        "entry" => entry(alloc, schema, source),
        "tagged" => tagged(alloc, source),
        _ => match role(alloc, word, source)? {
            Some(role) => Ok(Call::Shaped(role, shaped(alloc, schema, source)?)),
            None => integer(word, source),
        },
    }
}

// The call that a word and what stands behind it say.
fn call(
    alloc: Global,
    schema: &Schema,
    word: &str,
    source: &mut Source<'_>,
) -> Result<Call, LineFault> {
    if let Some(call) = bare(word) {
        return Ok(call);
    }
    if let Some(kind) = kind(word) {
        return opening(alloc, kind, source);
    }
    match quoted(alloc, word, source)? {
        Some(scalar) => Ok(Call::Scalar(scalar)),
        None => given(alloc, schema, word, source),
    }
}

/// The call that a line says: a word, and behind it what it is given.
pub fn parse(alloc: Global, schema: &Schema, line: &str) -> Result<Call, LineFault> {
    let mut source = Source::new(line.as_bytes());
    let word = source.word()?;
    let _space = source.take(b" ");
    let call = call(alloc, schema, word, &mut source)?;
    if source.left() == 0 {
        Ok(call)
    } else {
        Err(LineFault::Bad)
    }
}
