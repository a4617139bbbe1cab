//! Calls of a serializer, with what they are given.

use yaml_shape::{Data, ShapeId};
use yaml_tree::{Tag, Value};
use yaml_write::OpenKind;

/// An integer of each type that has a call.
#[derive(Clone, Copy)]
pub enum Integer {
    I8(i8),
    I16(i16),
    I32(i32),
    I64(i64),
    I128(i128),
    U8(u8),
    U16(u16),
    U32(u32),
    U64(u64),
    U128(u128),
}

/// What a call writes that is given no shape.
#[derive(Drop)]
pub enum Scalar {
    Bool(bool),
    Char(char),
    Str(String),
    Bytes(Vec<u8>),
    Unit,
    UnitStruct,
    UnitVariant(String),
    None,
}

/// As what a call writes data of a shape.
#[derive(Drop)]
pub enum Role {
    Document,
    Some,
    NewtypeStruct,
    NewtypeVariant(String),
    Element,
    Field,
    NamedField(String),
    Key,
    Value,
}

/// Data, and the number of its shape.
#[derive(Drop)]
pub struct Shaped {
    /// The number of the shape.
    pub id: ShapeId,
    /// The data, which are of that shape.
    pub content: Data<'static>,
}

/// A call.
#[derive(Drop)]
pub enum Call {
    /// Writes a scalar.
    Scalar(Scalar),
    /// Writes an integer.
    Integer(Integer),
    /// Writes data by their shape.
    Shaped(Role, Shaped),
    /// Writes a key and its value.
    Entry(Shaped, Shaped),
    /// Writes a value under a tag.
    Tagged(Tag, Value),
    /// Opens a collection, that of a variant under its name.
    Open(OpenKind, String),
    /// Closes the innermost collection.
    End,
    /// Does nothing.
    Flush,
}
