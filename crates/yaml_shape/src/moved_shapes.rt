//! Shapes moved to another place of a table, the numbers that they name with them.

ghost use Rattle.std.specs.Prelude.{◌≡◌, ◌+◌, ◌<◌, ◌≤◌, map, All};
ghost use Rattle.yaml_shape.specs.ShapeView.{ids_of, fields_of, content_of, variants_of, shape_of};
ghost use Rattle.yaml_shape.specs.Validity.{numbers_of, named_in, NamesWithin};
ghost use Rattle.yaml_shape.specs.Join.{raised_ids, raised_fields, raised_content, raised_variants, raised};

use crate::shape::{Shape, ShapeId, VariantShape};

// The number raised by so much.
fn raised_id(id: ShapeId, by: u32) -> ShapeId
    requires small { id.0 < 4096 }
    requires few { by ≤ 4096 }
    ensures { result.0 ≡ by + id.0 }
{
    ShapeId(by + id.0)
}

// Raises each number by so much.
fn raise_ids(ids: &mut Vec<ShapeId>, by: u32)
    requires small { All (λ id. id.0 < 4096) ids.old.items }
    requires few { by ≤ 4096 }
    ensures { ids_of ids.new.items ≡ raised_ids by (ids_of ids.old.items) }
{
    for i in 0..ids.len() {
        ids[i] = raised_id(ids[i], by);
    }
}

// Raises the number of each field by so much.
fn raise_fields(fields: &mut Vec<(String, ShapeId)>, by: u32)
    requires small { All (λ f. f.1.0 < 4096) fields.old.items }
    requires few { by ≤ 4096 }
    ensures { fields_of fields.new.items ≡ raised_fields by (fields_of fields.old.items) }
{
    for i in 0..fields.len() {
        fields[i].1 = raised_id(fields[i].1, by);
    }
}

// Raises each number that the content of a variant names by so much.
fn raise_content(content: &mut VariantShape, by: u32)
    requires small { All (λ id. id < 4096) (named_in (content_of content.old)) }
    requires few { by ≤ 4096 }
    ensures { content_of content.new ≡ raised_content by (content_of content.old) }
{
    match content {
        VariantShape::Unit => {}
        VariantShape::Newtype(inner) => *inner = raised_id(*inner, by),
        VariantShape::Tuple(items) => raise_ids(items, by),
        VariantShape::Struct(fields) => raise_fields(fields, by),
        VariantShape::StrictStruct(fields) => raise_fields(fields, by),
    }
}

// Raises each number that the variants name by so much.
fn raise_variants(variants: &mut Vec<(String, VariantShape)>, by: u32)
    requires small { All (λ v. All (λ id. id < 4096) (named_in (content_of v.1))) variants.old.items }
    requires few { by ≤ 4096 }
    ensures { variants_of variants.new.items ≡ raised_variants by (variants_of variants.old.items) }
{
    for i in 0..variants.len() {
        raise_content(&mut variants[i].1, by);
    }
}

// Raises each number that the shape names by so much.
fn raise_shape(shape: &mut Shape, by: u32)
    requires small { NamesWithin 4096 (shape_of shape.old) }
    requires few { by ≤ 4096 }
    ensures { shape_of shape.new ≡ raised by (shape_of shape.old) }
{
    match shape {
        Shape::Option(id) => *id = raised_id(*id, by),
        Shape::Newtype { name: _, inner } => *inner = raised_id(*inner, by),
        Shape::Seq(element) => *element = raised_id(*element, by),
        Shape::Tuple(items) => raise_ids(items, by),
        Shape::TupleStruct { name: _, items } => raise_ids(items, by),
        Shape::Map(key, value) => {
            *key = raised_id(*key, by);
            *value = raised_id(*value, by);
        }
        Shape::Struct { name: _, fields } => raise_fields(fields, by),
        Shape::StrictStruct { name: _, fields } => raise_fields(fields, by),
        Shape::Enum { name: _, variants } => raise_variants(variants, by),
        _ => {}
    }
}

/// Raises each number that the shapes name by so much.
pub(crate) fn raise_all(shapes: &mut Vec<Shape>, by: u32)
    requires small { All (λ s. NamesWithin 4096 (shape_of s)) shapes.old.items }
    requires few { by ≤ 4096 }
    ensures { map shape_of shapes.new.items ≡ map (raised by) (map shape_of shapes.old.items) }
{
    for i in 0..shapes.len() {
        raise_shape(&mut shapes[i], by);
    }
}
