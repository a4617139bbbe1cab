//! What a node was read as.

use crate::text::Text;
use yaml_tree::Value;

/// Data of a shape.
#[cycle(data)]
#[derive(Drop)]
pub enum Data<'de> {
    /// A value of any kind.
    Any(Value),
    /// A boolean.
    Bool(bool),
    /// A character.
    Char(char),
    /// An integer with a sign.
    Signed(i128),
    /// An integer without a sign.
    Unsigned(u128),
    /// A text.
    Str(Text<'de>),
    /// Bytes.
    Bytes(Vec<u8>),
    /// An optional that is absent.
    None,
    /// An optional that is present, with its content.
    Some(Box<Data<'de>>),
    /// Nothing.
    Unit,
    /// The content of a struct around it.
    Newtype(Box<Data<'de>>),
    /// The elements of a sequence, in order.
    Seq(Vec<Data<'de>>),
    /// The elements of a tuple or the fields of a tuple struct, in order.
    Tuple(Vec<Data<'de>>),
    /// The entries of a mapping, in order.
    Map(Vec<Entry<'de>>),
    /// The fields of a struct, in the order in which its shape has them.
    Struct(Vec<Data<'de>>),
    /// The place of a variant in its enum, and its content.
    Variant(usize, Box<Data<'de>>),
    /// A node that was stepped over.
    Ignored,
}

/// A key of a mapping with its value.
#[cycle(data)]
#[derive(Drop)]
pub struct Entry<'de> {
    /// The key.
    pub key: Data<'de>,
    /// The value.
    pub value: Data<'de>,
}
