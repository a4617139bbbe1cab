//! Whether the numbers that shapes name are in the table.

ghost use Rattle.std.specs.Prelude.{◌≡◌, ◌<◌, ◌↔◌, map, length, All, IsTrue, IsNone, IfSome};
ghost use Rattle.std.specs.List.{flat_map};
ghost use Rattle.yaml_shape.specs.ShapeView.{ids_of, fields_of, content_of, variants_of, shape_of};
ghost use Rattle.yaml_shape.specs.Validity.{numbers_of, named_in, NamesWithin, AllNameWithin};
ghost use Rattle.yaml_shape.specs.SchemaRefusal.{IsFirstOutside};

use crate::shape::{Shape, ShapeId, VariantShape};

// Whether the number is below the size.
fn is_within(id: ShapeId, size: usize) -> bool
    ensures { IsTrue result ↔ (id.0 < size) }
{
    (id.0 as usize) < size
}

// Whether each number is below the size.
fn all_within(ids: &[ShapeId], size: usize) -> bool
    ensures { IsTrue result ↔ All (λ id. id.0 < size) ids.now }
{
    ids.iter().all(|id| (id.0 as usize) < size)
}

// Whether each number that the fields name is below the size.
fn fields_within(fields: &[(String, ShapeId)], size: usize) -> bool
    ensures { IsTrue result ↔ All (λ field. field.1.0 < size) fields.now }
{
    fields.iter().all(|field| (field.1.0 as usize) < size)
}

// Whether each number that the content of a variant names is below the size.
fn content_within(content: &VariantShape, size: usize) -> bool
    ensures { IsTrue result ↔ All (λ id. id < size) (named_in (content_of content.now)) }
{
    match content {
        VariantShape::Unit => true,
        VariantShape::Newtype(inner) => is_within(*inner, size),
        VariantShape::Tuple(items) => all_within(items, size),
        VariantShape::Struct(fields) => fields_within(fields, size),
        VariantShape::StrictStruct(fields) => fields_within(fields, size),
    }
}

// Whether each number that the variants name is below the size.
fn variants_within(variants: &[(String, VariantShape)], size: usize) -> bool
    ensures { IsTrue result
        ↔ All (λ v. All (λ id. id < size) (named_in (content_of v.1))) variants.now }
{
    variants
        .iter()
        .all(|variant| content_within(&variant.1, size))
}

// Whether each number that the shape names is below the size.
fn names_within(shape: &Shape, size: usize) -> bool
    ensures { IsTrue result ↔ NamesWithin size (shape_of shape.now) }
{
    match shape {
        Shape::Option(id) | Shape::Seq(id) | Shape::Newtype { name: _, inner: id } => is_within(
            *id, size,
        ),
        Shape::Map(key, value) => is_within(*key, size) && is_within(*value, size),
        Shape::Tuple(items) => all_within(items, size),
        Shape::TupleStruct { name: _, items } => all_within(items, size),
        Shape::Struct { name: _, fields } => fields_within(fields, size),
        Shape::StrictStruct { name: _, fields } => fields_within(fields, size),
        Shape::Enum { name: _, variants } => variants_within(variants, size),
        _ => true,
    }
}

/// The first shape that names a number outside the table, if there is one.
pub(crate) fn first_outside(shapes: &[Shape]) -> Option<usize>
    ensures none { IsNone result → AllNameWithin (length shapes.now) (map shape_of shapes.now) }
    ensures first { IfSome result (IsFirstOutside (map shape_of shapes.now)) }
{
    for number in 0..shapes.len() {
        if !names_within(&shapes[number], shapes.len()) {
            return Some(number);
        }
    }
    None
}
