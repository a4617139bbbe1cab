//! What a shape says of the parts of its data.

ghost use Rattle.std.specs.Prelude.{◌≡◌, ◌<◌, length, slice_get, slice_index_or};
ghost use Rattle.std.specs.Option.{option_map};
ghost use Rattle.yaml_shape.specs.ShapeView.{shape_of, ids_of, fields_of, variant_of, variants_of};
ghost use Rattle.yaml_write.specs.InShape.{inner_shape, element_shape, item_shapes, key_shape};
ghost use Rattle.yaml_write.specs.InShape.{value_shape, named_fields, named_variants};

use yaml_shape::{Shape, ShapeId, VariantShape};

/// The shape of the content of an optional or of a struct around one.
pub fn inner_shape(shape: Option<&Shape>) -> ShapeId
    ensures { result.0 ≡ inner_shape (option_map (λ s. shape_of s.now) shape.entry) }
{
    match shape {
        Some(Shape::Option(content)) => *content,
        Some(Shape::Newtype { name: _, inner }) => *inner,
        _ => ShapeId(0),
    }
}

/// The shape of the elements of a sequence.
pub fn element_shape(shape: Option<&Shape>) -> ShapeId
    ensures { result.0 ≡ element_shape (option_map (λ s. shape_of s.now) shape.entry) }
{
    match shape {
        Some(Shape::Seq(element)) => *element,
        _ => ShapeId(0),
    }
}

/// The shapes of the items of a tuple or of a tuple struct.
pub fn item_shapes(shape: Option<&Shape>) -> &[ShapeId]
    ensures { ids_of result.now ≡ item_shapes (option_map (λ s. shape_of s.now) shape.entry) }
{
    match shape {
        Some(Shape::Tuple(items)) => items,
        Some(Shape::TupleStruct { name: _, items }) => items,
        _ => &[],
    }
}

/// The number of the shape of one item.
pub(crate) fn id_at(ids: &[ShapeId], i: usize) -> ShapeId
    requires { i < length ids.now }
    ensures { result ≡ slice_index_or ids.now i result }
{
    ids[i]
}

/// The shape of the keys of a mapping.
pub fn key_shape(shape: Option<&Shape>) -> ShapeId
    ensures { result.0 ≡ key_shape (option_map (λ s. shape_of s.now) shape.entry) }
{
    match shape {
        Some(Shape::Map(key, _)) => *key,
        _ => ShapeId(0),
    }
}

/// The shape of the values of a mapping.
pub fn value_shape(shape: Option<&Shape>) -> ShapeId
    ensures { result.0 ≡ value_shape (option_map (λ s. shape_of s.now) shape.entry) }
{
    match shape {
        Some(Shape::Map(_, value)) => *value,
        _ => ShapeId(0),
    }
}

/// The names of the fields of a struct, each with its shape.
pub fn named_fields(shape: Option<&Shape>) -> &[(String, ShapeId)]
    ensures { fields_of result.now ≡ named_fields (option_map (λ s. shape_of s.now) shape.entry) }
{
    match shape {
        Some(Shape::Struct { name: _, fields }) => fields,
        Some(Shape::StrictStruct { name: _, fields }) => fields,
        _ => &[],
    }
}

/// The variant of an enum at a place, with its name.
pub(crate) fn variant_at(shape: Option<&Shape>, place: usize) -> Option<&(String, VariantShape)>
    ensures { option_map (λ v. variant_of v.now) result
        ≡ slice_get (named_variants (option_map (λ s. shape_of s.now) shape.entry)) place }
{
    match shape {
        Some(Shape::Enum { name: _, variants }) => nth(variants, place),
        _ => None,
    }
}

fn nth(variants: &[(String, VariantShape)], place: usize) -> Option<&(String, VariantShape)>
    ensures { option_map (λ v. variant_of v.now) result ≡ slice_get (variants_of variants.now) place }
{
    if place < variants.len() {
        Some(&variants[place])
    } else {
        None
    }
}
