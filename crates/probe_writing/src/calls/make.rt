//! Calls that are made. `open_kind` is the test of what they ask.

use super::call::{Call, Integer, Role, Scalar, Shaped};
use yaml_base::Result;
use yaml_shape::{Schema, Typed};
use yaml_write::{OpenKind, Serializer};

/// What a call answers, or that it may not be made now.
pub type Answer = Option<Result<()>>;

// The call that writes a scalar.
fn write_scalar(out: &mut Serializer, scalar: &Scalar) -> Result<()> {
    match scalar {
        Scalar::Bool(truth) => out.serialize_bool(*truth),
        Scalar::Char(letter) => out.serialize_char(*letter),
        Scalar::Str(text) => out.serialize_str(text.as_str()),
        Scalar::Bytes(bytes) => out.serialize_bytes(bytes.as_slice()),
        Scalar::Unit => out.serialize_unit(),
        Scalar::UnitStruct => out.serialize_unit_struct("U"),
        Scalar::UnitVariant(name) => out.serialize_unit_variant("E", 0, name.as_str()),
        Scalar::None => out.serialize_none(),
    }
}

// The call that writes an integer.
fn write_integer(out: &mut Serializer, integer: Integer) -> Result<()> {
    match integer {
        Integer::I8(number) => out.serialize_i8(number),
        Integer::I16(number) => out.serialize_i16(number),
        Integer::I32(number) => out.serialize_i32(number),
        Integer::I64(number) => out.serialize_i64(number),
        Integer::I128(number) => out.serialize_i128(number),
        Integer::U8(number) => out.serialize_u8(number),
        Integer::U16(number) => out.serialize_u16(number),
        Integer::U32(number) => out.serialize_u32(number),
        Integer::U64(number) => out.serialize_u64(number),
        Integer::U128(number) => out.serialize_u128(number),
    }
}

// The calls that write data where any node may stand.
fn write_node(out: &mut Serializer, role: &Role, value: &Typed<'_, '_>) -> Answer {
    match role {
        Role::Document => Some(out.serialize_typed(value)),
        Role::Some => Some(out.serialize_some(value)),
        Role::NewtypeStruct => Some(out.serialize_newtype_struct("N", value)),
        Role::NewtypeVariant(name) => {
            Some(out.serialize_newtype_variant("E", 0, name.as_str(), value))
        }
        _ => None,
    }
}

// The calls that write data as a part of the collection that is open.
fn write_part(out: &mut Serializer, role: &Role, value: &Typed<'_, '_>) -> Answer {
    match (role, out.open_kind()) {
        (Role::Element, Some((OpenKind::Seq | OpenKind::Tuple, _))) => {
            Some(out.serialize_element(value))
        }
        (Role::Field, Some((OpenKind::TupleStruct | OpenKind::TupleVariant, _))) => {
            Some(out.serialize_field(value))
        }
        (Role::NamedField(name), Some((OpenKind::Struct | OpenKind::StructVariant, false))) => {
            Some(out.serialize_struct_field(name.as_str(), value))
        }
        (Role::Key, Some((OpenKind::Map, false))) => Some(out.serialize_key(value)),
        (Role::Value, Some((OpenKind::Map, true))) => Some(out.serialize_value(value)),
        _ => None,
    }
}

// The call that writes data by their shape.
fn write_shaped(out: &mut Serializer, schema: &Schema, role: &Role, data: &Shaped) -> Answer {
    let value = Typed::new(schema, data.id, &data.content)?;
    match write_node(out, role, &value) {
        Some(answer) => Some(answer),
        None => write_part(out, role, &value),
    }
}

// The call that writes an entry.
fn write_entry(out: &mut Serializer, schema: &Schema, key: &Shaped, value: &Shaped) -> Answer {
    let key = Typed::new(schema, key.id, &key.content)?;
    let value = Typed::new(schema, value.id, &value.content)?;
    match out.open_kind() {
        Some((OpenKind::Map, false)) => Some(out.serialize_entry(&key, &value)),
        _ => None,
    }
}

// The call that opens a collection.
fn open(out: &mut Serializer, kind: OpenKind, name: &str) -> Result<()> {
    match kind {
        OpenKind::Seq => out.serialize_seq(None),
        OpenKind::Tuple => out.serialize_tuple(7),
        OpenKind::TupleStruct => out.serialize_tuple_struct("T", 7),
        OpenKind::TupleVariant => out.serialize_tuple_variant("E", 0, name, 7),
        OpenKind::Map => out.serialize_map(Some(7)),
        OpenKind::Struct => out.serialize_struct("S", 7),
        OpenKind::StructVariant => out.serialize_struct_variant("E", 0, name, 7),
    }
}

// The call that closes a collection.
fn end(out: &mut Serializer) -> Answer {
    match out.open_kind() {
        Some((_, false)) => Some(out.end()),
        _ => None,
    }
}

/// Makes a call.
pub fn make(out: &mut Serializer, schema: &Schema, call: &Call) -> Answer {
    match call {
        Call::Scalar(scalar) => Some(write_scalar(out, scalar)),
        Call::Integer(integer) => Some(write_integer(out, *integer)),
        Call::Shaped(role, data) => write_shaped(out, schema, role, data),
        Call::Entry(key, value) => write_entry(out, schema, key, value),
        Call::Tagged(tag, value) => Some(out.serialize_tagged(tag, value)),
        Call::Open(kind, name) => Some(open(out, *kind, name.as_str())),
        Call::End => end(out),
        Call::Flush => Some(out.flush()),
    }
}
