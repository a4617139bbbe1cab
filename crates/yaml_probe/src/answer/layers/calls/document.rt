//! The calls of a document for one shape each.

use std::alloc::Global;
use yaml_base::Result;
use yaml_read::Document;
use yaml_shape::{Data, IntegerType, Schema, Shape, ShapeId};

// The call for an integer type.
fn integer<'de>(alloc: Global, document: &Document<'de>, kind: IntegerType) -> Result<Data<'de>> {
    match kind {
        IntegerType::I8 => document.deserialize_i8(alloc),
        IntegerType::I16 => document.deserialize_i16(alloc),
        IntegerType::I32 => document.deserialize_i32(alloc),
        IntegerType::I64 => document.deserialize_i64(alloc),
        IntegerType::I128 => document.deserialize_i128(alloc),
        IntegerType::Isize => document.deserialize_isize(alloc),
        IntegerType::U8 => document.deserialize_u8(alloc),
        IntegerType::U16 => document.deserialize_u16(alloc),
        IntegerType::U32 => document.deserialize_u32(alloc),
        IntegerType::U64 => document.deserialize_u64(alloc),
        IntegerType::U128 => document.deserialize_u128(alloc),
        IntegerType::Usize => document.deserialize_usize(alloc),
    }
}

/// What a document is read as by the call for a shape without parts, if it is one. Of two calls for a shape the one is
/// made that gives a text or bytes of their own, if `owned`.
pub fn read_leaf<'de>(
    alloc: Global,
    document: &Document<'de>,
    shape: &Shape,
    owned: bool,
) -> Option<Result<Data<'de>>> {
    match shape {
        Shape::Any => Some(document.deserialize_any(alloc)),
        Shape::Bool => Some(document.deserialize_bool(alloc)),
        Shape::Char => Some(document.deserialize_char(alloc)),
        Shape::Str if owned => Some(document.deserialize_string(alloc)),
        Shape::Str => Some(document.deserialize_str(alloc)),
        Shape::Identifier => Some(document.deserialize_identifier(alloc)),
        Shape::Bytes if owned => Some(document.deserialize_byte_buf(alloc)),
        Shape::Bytes => Some(document.deserialize_bytes(alloc)),
        Shape::Unit => Some(document.deserialize_unit(alloc)),
        Shape::IgnoredAny => Some(document.deserialize_ignored_any(alloc)),
        _ => match shape.integer() {
            Some(kind) => Some(integer(alloc, document, kind)),
            None => None,
        },
    }
}

/// What a document is read as by the call for the shape with this number, if the schema has it. Of two calls for a
/// shape the one is made that gives a text or bytes of their own, if `owned`.
pub fn read_document<'de>(
    alloc: Global,
    document: &Document<'de>,
    schema: &Schema,
    id: ShapeId,
    owned: bool,
) -> Option<Result<Data<'de>>> {
    match schema.shape(id) {
        Some(Shape::Option(_)) => Some(document.deserialize_option(alloc, schema, id)),
        Some(Shape::UnitStruct { .. }) => Some(document.deserialize_unit_struct(alloc, schema, id)),
        Some(Shape::Newtype { .. }) => Some(document.deserialize_newtype_struct(alloc, schema, id)),
        Some(Shape::Seq(_)) => Some(document.deserialize_seq(alloc, schema, id)),
        Some(Shape::Tuple(_)) => Some(document.deserialize_tuple(alloc, schema, id)),
        Some(Shape::TupleStruct { .. }) => Some(document.deserialize_tuple_struct(
            alloc, schema, id,
        )),
        Some(Shape::Map(_, _)) => Some(document.deserialize_map(alloc, schema, id)),
        Some(Shape::Struct { .. }) => Some(document.deserialize_struct(alloc, schema, id)),
        Some(Shape::StrictStruct { .. }) => Some(document.deserialize_struct(alloc, schema, id)),
        Some(Shape::Enum { .. }) => Some(document.deserialize_enum(alloc, schema, id)),
        Some(shape) => read_leaf(alloc, document, shape, owned),
        None => None,
    }
}
