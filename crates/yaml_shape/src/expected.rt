//! The texts of what was expected, as faults print them.

ghost use Rattle.std.specs.Prelude.{◌≡◌, ◌<◌, length, Some, string_bytes, IfOk, IfErr, IfSome};
ghost use Rattle.yaml_base.specs.declared.error.Cause.TheVariants.{Memory};
ghost use Rattle.yaml_shape.specs.PlainShape.{shape_at};
ghost use Rattle.yaml_shape.specs.ShapeView.{shape_of};
ghost use Rattle.yaml_shape.specs.Expected.{expected_text, elements_text, sequence_text, tuple_struct_text};
ghost use Rattle.yaml_shape.specs.Expected.{tuple_variant_text, tuple_variant_with_text, struct_variant_text};

use crate::schema::Schema;
use crate::shape::{Shape, ShapeId};
use std::alloc::Global;
use std::fmt;
use yaml_base::Result;

// What data of the shape is expected to be.
#[derive(Drop)]
struct Expected<'a>(&'a Shape);

impl fmt::Display for Expected<'_> {
    ghost output = { λ expected. Some (expected_text (shape_of expected.0.now)) };

    fn fmt<W: fmt::Write>(&self, f: &mut fmt::Formatter<W>) -> fmt::Result {
        match self.0 {
            Shape::Any => f.write_str("any YAML value"),
            Shape::Bool => f.write_str("a boolean"),
            Shape::Char => f.write_str("a character"),
            Shape::I8 => f.write_str("i8"),
            Shape::I16 => f.write_str("i16"),
            Shape::I32 => f.write_str("i32"),
            Shape::I64 => f.write_str("i64"),
            Shape::I128 => f.write_str("i128"),
            Shape::Isize => f.write_str("isize"),
            Shape::U8 => f.write_str("u8"),
            Shape::U16 => f.write_str("u16"),
            Shape::U32 => f.write_str("u32"),
            Shape::U64 => f.write_str("u64"),
            Shape::U128 => f.write_str("u128"),
            Shape::Usize => f.write_str("usize"),
            Shape::Str => f.write_str("a string"),
            Shape::Identifier => f.write_str("field identifier"),
            Shape::Bytes => f.write_str("byte array"),
            Shape::Option(_) => f.write_str("option"),
            Shape::Unit => f.write_str("unit"),
            Shape::UnitStruct { name } => write!(f, "unit struct {name}"),
            Shape::Newtype { name, inner: _ } => write!(f, "tuple struct {name}"),
            Shape::Seq(_) => f.write_str("a sequence"),
            Shape::Tuple(items) => {
                let count = items.len();
                write!(f, "a tuple of size {count}")
            }
            Shape::TupleStruct { name, items: _ } => write!(f, "tuple struct {name}"),
            Shape::Map(_, _) => f.write_str("a map"),
            Shape::Struct { name, fields: _ } => write!(f, "struct {name}"),
            Shape::StrictStruct { name, fields: _ } => write!(f, "struct {name}"),
            Shape::Enum { name, variants: _ } => write!(f, "enum {name}"),
            Shape::IgnoredAny => f.write_str("anything at all"),
        }
    }
}

// So many elements.
#[derive(Drop)]
struct Elements(usize);

impl fmt::Display for Elements {
    ghost output = { λ elements. Some (elements_text elements.0) };

    fn fmt<W: fmt::Write>(&self, f: &mut fmt::Formatter<W>) -> fmt::Result {
        let count = self.0;
        if count == 1 {
            write!(f, "{count} element")
        } else {
            write!(f, "{count} elements")
        }
    }
}

impl Shape {
    /// What data of the shape is expected to be, as faults print it. The only fault is want of memory.
    pub fn expected(&self, alloc: Global) -> Result<String>
        ensures text { IfOk result (λ text. string_bytes text ≡ expected_text (shape_of self.now)) }
        ensures memory { IfErr result (λ cause. cause ≡ Memory) }
    {
        let expected = Expected(self);
        Ok(expected.to_string(alloc)?)
    }
}

impl Schema {
    /// What data of the shape with this number is expected to be, as faults print it. `has` is the test of what is
    /// asked. The only fault is want of memory.
    pub fn expected(&self, alloc: Global, id: ShapeId) -> Result<String>
        requires { id.0 < length self.now }
        ensures text { IfOk result
            (λ text. IfSome (shape_at self.now id.0) (λ s. string_bytes text ≡ expected_text s)) }
        ensures memory { IfErr result (λ cause. cause ≡ Memory) }
    {
        self.get(id).expected(alloc)
    }
}

/// The text `sequence of k elements`, or `sequence of 1 element`, for where a node has more elements than its shape.
/// The only fault is want of memory.
pub fn sequence_of(alloc: Global, count: usize) -> Result<String>
    ensures text { IfOk result (λ text. string_bytes text ≡ sequence_text count) }
    ensures memory { IfErr result (λ cause. cause ≡ Memory) }
{
    let elements = Elements(count);
    Ok(format!(in alloc; "sequence of {elements}")?)
}

/// The text `tuple struct N with k elements`, with `1 element` for one, for where a node has fewer elements than its
/// tuple struct. The only fault is want of memory.
pub fn tuple_struct_with(alloc: Global, name: &str, count: usize) -> Result<String>
    ensures text { IfOk result (λ text. string_bytes text ≡ tuple_struct_text name.now count) }
    ensures memory { IfErr result (λ cause. cause ≡ Memory) }
{
    let elements = Elements(count);
    Ok(format!(in alloc; "tuple struct {name} with {elements}")?)
}

/// The text `tuple variant E::V`. The only fault is want of memory.
pub fn tuple_variant(alloc: Global, name: &str, variant: &str) -> Result<String>
    ensures text { IfOk result (λ text. string_bytes text ≡ tuple_variant_text name.now variant.now) }
    ensures memory { IfErr result (λ cause. cause ≡ Memory) }
{
    Ok(format!(in alloc; "tuple variant {name}::{variant}")?)
}

/// The text `tuple variant E::V with k elements`, with `1 element` for one, for where a node has fewer elements than
/// its tuple variant. The only fault is want of memory.
pub fn tuple_variant_with(alloc: Global, name: &str, variant: &str, count: usize) -> Result<String>
    ensures text { IfOk result
        (λ text. string_bytes text ≡ tuple_variant_with_text name.now variant.now count) }
    ensures memory { IfErr result (λ cause. cause ≡ Memory) }
{
    let elements = Elements(count);
    Ok(format!(in alloc; "tuple variant {name}::{variant} with {elements}")?)
}

/// The text `struct variant E::V`. The only fault is want of memory.
pub fn struct_variant(alloc: Global, name: &str, variant: &str) -> Result<String>
    ensures text { IfOk result (λ text. string_bytes text ≡ struct_variant_text name.now variant.now) }
    ensures memory { IfErr result (λ cause. cause ≡ Memory) }
{
    Ok(format!(in alloc; "struct variant {name}::{variant}")?)
}
