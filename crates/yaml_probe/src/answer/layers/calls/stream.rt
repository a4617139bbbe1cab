//! The calls of a stream for one shape each.

use serde_yaml::Deserializer;
use std::alloc::Global;
use yaml_base::Result;
use yaml_shape::{Data, IntegerType, Schema, Shape, ShapeId};

// The call for an integer type.
fn integer<'de>(alloc: Global, stream: Deserializer<'de>, kind: IntegerType) -> Result<Data<'de>> {
    match kind {
        IntegerType::I8 => stream.deserialize_i8(alloc),
        IntegerType::I16 => stream.deserialize_i16(alloc),
        IntegerType::I32 => stream.deserialize_i32(alloc),
        IntegerType::I64 => stream.deserialize_i64(alloc),
        IntegerType::I128 => stream.deserialize_i128(alloc),
        IntegerType::Isize => stream.deserialize_isize(alloc),
        IntegerType::U8 => stream.deserialize_u8(alloc),
        IntegerType::U16 => stream.deserialize_u16(alloc),
        IntegerType::U32 => stream.deserialize_u32(alloc),
        IntegerType::U64 => stream.deserialize_u64(alloc),
        IntegerType::U128 => stream.deserialize_u128(alloc),
        IntegerType::Usize => stream.deserialize_usize(alloc),
    }
}

// The call for a shape without parts, if it is one.
fn leaf<'de>(
    alloc: Global,
    stream: Deserializer<'de>,
    shape: &Shape,
    owned: bool,
) -> Option<Result<Data<'de>>> {
    match shape {
        Shape::Any => Some(stream.deserialize_any(alloc)),
        Shape::Bool => Some(stream.deserialize_bool(alloc)),
        Shape::Char => Some(stream.deserialize_char(alloc)),
        Shape::Str if owned => Some(stream.deserialize_string(alloc)),
        Shape::Str => Some(stream.deserialize_str(alloc)),
        Shape::Identifier => Some(stream.deserialize_identifier(alloc)),
        Shape::Bytes if owned => Some(stream.deserialize_byte_buf(alloc)),
        Shape::Bytes => Some(stream.deserialize_bytes(alloc)),
        Shape::Unit => Some(stream.deserialize_unit(alloc)),
        Shape::IgnoredAny => Some(stream.deserialize_ignored_any(alloc)),
        _ => match shape.integer() {
            Some(kind) => Some(integer(alloc, stream, kind)),
            None => None,
        },
    }
}

/// What a stream is read as by the call for the shape with this number, if the schema has it. Of two calls for a shape
/// the one is made that gives a text or bytes of their own, if `owned`.
pub fn read_stream<'de>(
    alloc: Global,
    stream: Deserializer<'de>,
    schema: &Schema,
    id: ShapeId,
    owned: bool,
) -> Option<Result<Data<'de>>> {
    match schema.shape(id) {
        Some(Shape::Option(_)) => Some(stream.deserialize_option(alloc, schema, id)),
        Some(Shape::UnitStruct { .. }) => Some(stream.deserialize_unit_struct(alloc, schema, id)),
        Some(Shape::Newtype { .. }) => Some(stream.deserialize_newtype_struct(alloc, schema, id)),
        Some(Shape::Seq(_)) => Some(stream.deserialize_seq(alloc, schema, id)),
        Some(Shape::Tuple(_)) => Some(stream.deserialize_tuple(alloc, schema, id)),
        Some(Shape::TupleStruct { .. }) => Some(stream.deserialize_tuple_struct(alloc, schema, id)),
        Some(Shape::Map(_, _)) => Some(stream.deserialize_map(alloc, schema, id)),
        Some(Shape::Struct { .. }) => Some(stream.deserialize_struct(alloc, schema, id)),
        Some(Shape::StrictStruct { .. }) => Some(stream.deserialize_struct(alloc, schema, id)),
        Some(Shape::Enum { .. }) => Some(stream.deserialize_enum(alloc, schema, id)),
        Some(shape) => leaf(alloc, stream, shape, owned),
        None => None,
    }
}
