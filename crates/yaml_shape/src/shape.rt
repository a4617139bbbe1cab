//! What a node may be read as.

ghost use Rattle.std.specs.Prelude.{◌≡◌, IfSome};
ghost use Rattle.std.specs.Option.{option_map};
ghost use Rattle.yaml_shape.specs.IntegerView.{integer_type_of};
ghost use Rattle.yaml_shape.specs.Leaves.{integer_in, is_leaf};
ghost use Rattle.yaml_shape.specs.PlainShape.{integer_shape};
ghost use Rattle.yaml_shape.specs.ShapeView.{shape_of};

use crate::integer_type::IntegerType;

/// The number of a shape: its place in the table of its schema.
#[derive(Clone, Copy, PartialEq, Eq)]
pub struct ShapeId(pub u32);

/// A shape that data may have. It names others by their numbers, so a shape may lead back to itself.
#[derive(Drop)]
pub enum Shape {
    /// A value of any kind.
    Any,
    /// A boolean.
    Bool,
    /// A character.
    Char,
    /// An integer of 8 bits with a sign.
    I8,
    /// An integer of 16 bits with a sign.
    I16,
    /// An integer of 32 bits with a sign.
    I32,
    /// An integer of 64 bits with a sign.
    I64,
    /// An integer of 128 bits with a sign.
    I128,
    /// An integer of the machine's width, 64 bits, with a sign.
    Isize,
    /// An integer of 8 bits without a sign.
    U8,
    /// An integer of 16 bits without a sign.
    U16,
    /// An integer of 32 bits without a sign.
    U32,
    /// An integer of 64 bits without a sign.
    U64,
    /// An integer of 128 bits without a sign.
    U128,
    /// An integer of the machine's width, 64 bits, without a sign.
    Usize,
    /// A text.
    Str,
    /// The name of a field or a variant.
    Identifier,
    /// Bytes. No event stands for them.
    Bytes,
    /// Nothing, or content of this shape.
    Option(ShapeId),
    /// Nothing.
    Unit,
    /// A struct without fields.
    UnitStruct {
        /// Its name.
        name: String,
    },
    /// A struct around one content.
    Newtype {
        /// Its name.
        name: String,
        /// The shape of the content.
        inner: ShapeId,
    },
    /// A sequence whose elements have this shape.
    Seq(ShapeId),
    /// A sequence of as many elements as there are shapes, each of its own shape.
    Tuple(Vec<ShapeId>),
    /// A struct whose fields have no names.
    TupleStruct {
        /// Its name.
        name: String,
        /// The shapes of its fields.
        items: Vec<ShapeId>,
    },
    /// A mapping from keys of the first shape to values of the second. A repeated key is kept.
    Map(ShapeId, ShapeId),
    /// A struct. A field that it doesn't have is ignored.
    Struct {
        /// Its name.
        name: String,
        /// The name and the shape of each field.
        fields: Vec<(String, ShapeId)>,
    },
    /// A struct. A field that it doesn't have is a fault.
    StrictStruct {
        /// Its name.
        name: String,
        /// The name and the shape of each field.
        fields: Vec<(String, ShapeId)>,
    },
    /// One of several variants.
    Enum {
        /// Its name.
        name: String,
        /// The name and the content of each variant.
        variants: Vec<(String, VariantShape)>,
    },
    /// Any node, stepped over.
    IgnoredAny,
}

/// The content of a variant.
#[derive(Drop)]
pub enum VariantShape {
    /// Nothing.
    Unit,
    /// One content of this shape.
    Newtype(ShapeId),
    /// Fields without names.
    Tuple(Vec<ShapeId>),
    /// Fields with names. A field that it doesn't have is ignored.
    Struct(Vec<(String, ShapeId)>),
    /// Fields with names. A field that it doesn't have is a fault.
    StrictStruct(Vec<(String, ShapeId)>),
}

impl Shape {
    /// The type of the integers that the shape asks for, where it asks for any.
    #[inline(always)]
    pub fn integer(&self) -> Option<IntegerType>
        ensures exactly { option_map integer_type_of result ≡ integer_in (shape_of self.now) }
        ensures asked { IfSome result (λ i. shape_of self.now ≡ integer_shape (integer_type_of i)) }
    {
        match self {
            Shape::I8 => Some(IntegerType::I8),
            Shape::I16 => Some(IntegerType::I16),
            Shape::I32 => Some(IntegerType::I32),
            Shape::I64 => Some(IntegerType::I64),
            Shape::I128 => Some(IntegerType::I128),
            Shape::Isize => Some(IntegerType::Isize),
            Shape::U8 => Some(IntegerType::U8),
            Shape::U16 => Some(IntegerType::U16),
            Shape::U32 => Some(IntegerType::U32),
            Shape::U64 => Some(IntegerType::U64),
            Shape::U128 => Some(IntegerType::U128),
            Shape::Usize => Some(IntegerType::Usize),
            _ => None,
        }
    }

    /// Whether the shape reads scalars alone.
    #[inline(always)]
    pub fn is_leaf(&self) -> bool
        ensures { result ≡ is_leaf (shape_of self.now) }
    {
        match self {
            Shape::Bool
            | Shape::Char
            | Shape::Str
            | Shape::Identifier
            | Shape::Unit
            | Shape::UnitStruct { name: _ } => true,
            _ => self.integer().is_some(),
        }
    }
}
