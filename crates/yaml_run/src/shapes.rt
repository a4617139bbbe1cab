//! The shapes that an argument of a program may name.

ghost use Rattle.std.specs.Prelude.{◌≡◌, ◌<◌, length, map, true, false, IfOk, IfErr, MatchOption};
ghost use Rattle.yaml_shape.specs.ShapeView.{shape_of, field_of, fields_of, variant_of, content_of};
ghost use Rattle.yaml_shape.specs.declared.fault.SchemaFault.TheVariants.{Memory};
ghost use Rattle.yaml_run.specs.Shapes.{name_of, IsNoName, table_of};
ghost use Rattle.yaml_run.specs.Shapes.{fields_of_basic, shape_of_basic, shape_of_outer, shape_of_inner};

use std::alloc::{AllocError, Global};
use yaml_shape::{Schema, SchemaFault, Shape, ShapeId, VariantShape};

/// A shape with a name.
#[derive(Clone, Copy, PartialEq, Eq, Debug)]
pub enum Named {
    /// A boolean.
    Bool,
    /// An integer of 64 bits with a sign.
    I64,
    /// A text.
    Str,
    /// A sequence of such integers.
    List,
    /// A mapping from texts to such integers.
    Map,
    /// A value of any kind.
    Any,
    /// A node of any kind, which is stepped over.
    Ignored,
    /// An integer of 64 bits without a sign.
    U64,
    /// Nothing, or an integer of 64 bits with a sign.
    Option,
    /// Two such integers.
    Pair,
    /// A struct of two booleans.
    Basic,
    /// The same, in which no other field may stand.
    Strict,
    /// An enum within an enum.
    Outer,
}

// A field with this name, of the shape with this number.
fn field(alloc: Global, name: &str, number: u32) -> Result<(String, ShapeId), AllocError>
    ensures { IfOk result (λ field. field_of field ≡ (name.now, number)) }
{
    Ok((String::from_str(alloc, name)?, ShapeId(number)))
}

// The fields of `Basic`: two booleans, behind it in its table.
fn basic_fields(alloc: Global) -> Result<Vec<(String, ShapeId)>, AllocError>
    ensures { IfOk result (λ fields. fields_of fields.items ≡ fields_of_basic) }
{
    Ok(vec![in alloc; field(alloc, "v", 1)?, field(alloc, "w", 1)?]?)
}

// A struct of two booleans.
fn basic(alloc: Global) -> Result<Shape, AllocError>
    ensures { IfOk result (λ shape. shape_of shape ≡ shape_of_basic false) }
{
    Ok(Shape::Struct {
        name: String::from_str(alloc, "Basic")?,
        fields: basic_fields(alloc)?,
    })
}

// The same, in which no other field may stand.
fn strict(alloc: Global) -> Result<Shape, AllocError>
    ensures { IfOk result (λ shape. shape_of shape ≡ shape_of_basic true) }
{
    Ok(Shape::StrictStruct {
        name: String::from_str(alloc, "Basic")?,
        fields: basic_fields(alloc)?,
    })
}

// A variant with this name and this content.
fn variant(
    alloc: Global,
    name: &str,
    content: VariantShape,
) -> Result<(String, VariantShape), AllocError>
    ensures { IfOk result (λ variant. variant_of variant ≡ (name.now, content_of content)) }
{
    Ok((String::from_str(alloc, name)?, content))
}

// An enum whose variant holds the enum behind it in its table.
fn outer(alloc: Global) -> Result<Shape, AllocError>
    ensures { IfOk result (λ shape. shape_of shape ≡ shape_of_outer) }
{
    Ok(Shape::Enum {
        name: String::from_str(alloc, "Outer")?,
        variants: vec![in alloc; variant(alloc, "Inner", VariantShape::Newtype(ShapeId(1)))?]?,
    })
}

// An enum of a variant that holds a sequence, and one that holds nothing.
fn inner(alloc: Global) -> Result<Shape, AllocError>
    ensures { IfOk result (λ shape. shape_of shape ≡ shape_of_inner) }
{
    let variants = vec![in alloc;
        variant(alloc, "Variant", VariantShape::Newtype(ShapeId(2)))?,
        variant(alloc, "Plain", VariantShape::Unit)?,
    ]?;
    Ok(Shape::Enum {
        name: String::from_str(alloc, "Inner")?,
        variants,
    })
}

impl Named {
    /// The shape with this name.
    pub fn find(name: &str) -> Option<Named>
        ensures { MatchOption result (IsNoName name.now) (λ shape. name_of shape ≡ name.now) }
    {
        match name {
            "bool" => Some(Named::Bool),
            "i64" => Some(Named::I64),
            "str" => Some(Named::Str),
            "list" => Some(Named::List),
            "map" => Some(Named::Map),
            "any" => Some(Named::Any),
            "ignored" => Some(Named::Ignored),
            "u64" => Some(Named::U64),
            "option" => Some(Named::Option),
            "pair" => Some(Named::Pair),
            "basic" => Some(Named::Basic),
            "strict" => Some(Named::Strict),
            "outer" => Some(Named::Outer),
            _ => None,
        }
    }

    // The shapes that this one needs, itself first.
    fn shapes(self, alloc: Global) -> Result<Vec<Shape>, AllocError>
        ensures { IfOk result (λ shapes. map shape_of shapes.items ≡ table_of self) }
    {
        match self {
            Named::Bool => Ok(vec![in alloc; Shape::Bool]?),
            Named::I64 => Ok(vec![in alloc; Shape::I64]?),
            Named::Str => Ok(vec![in alloc; Shape::Str]?),
            Named::List => Ok(vec![in alloc; Shape::Seq(ShapeId(1)), Shape::I64]?),
            Named::Map => Ok(vec![in alloc;
                Shape::Map(ShapeId(1), ShapeId(2)),
                Shape::Str,
                Shape::I64,
            ]?),
            Named::Any => Ok(vec![in alloc; Shape::Any]?),
            Named::Ignored => Ok(vec![in alloc; Shape::IgnoredAny]?),
            Named::U64 => Ok(vec![in alloc; Shape::U64]?),
            Named::Option => Ok(vec![in alloc; Shape::Option(ShapeId(1)), Shape::I64]?),
            Named::Pair => Ok(vec![in alloc;
                Shape::Tuple(vec![in alloc; ShapeId(1), ShapeId(1)]?),
                Shape::I64,
            ]?),
            Named::Basic => Ok(vec![in alloc; basic(alloc)?, Shape::Bool]?),
            Named::Strict => Ok(vec![in alloc; strict(alloc)?, Shape::Bool]?),
            Named::Outer => Ok(vec![in alloc;
                outer(alloc)?,
                inner(alloc)?,
                Shape::Seq(ShapeId(3)),
                Shape::Usize,
            ]?),
        }
    }

    /// A schema whose first shape is this one.
    pub fn schema(self, alloc: Global) -> Result<Schema, SchemaFault>
        ensures ok { IfOk result (λ schema. schema ≡ table_of self) }
        ensures some { IfOk result (λ schema. 0 < length schema) }
        ensures memory { IfErr result (λ fault. fault ≡ Memory) }
    {
        match self.shapes(alloc) {
            Ok(shapes) => Schema::new(alloc, shapes),
            Err(_) => Err(SchemaFault::Memory),
        }
    }
}
