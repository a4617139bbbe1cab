//! Whether data is of a shape.

ghost use Rattle.std.specs.Prelude.{◌≡◌, true, slice_get, IsTrue, IfSome, Some};
ghost use Rattle.std.specs.Char.{IsScalar};
ghost use Rattle.std.specs.Option.{option_map};
ghost use Rattle.yaml_tree.specs.Valid.{is_value};
ghost use Rattle.yaml_tree.specs.View.{tree_of};
ghost use Rattle.yaml_shape.specs.IntegerView.{integer_type_of, IsRangeOf};
ghost use Rattle.yaml_shape.specs.PlainShape.{integer_shape, shape_at};
ghost use Rattle.yaml_shape.specs.ShapeView.{ids_of, fields_of, content_of, variants_of, shape_of};
ghost use Rattle.yaml_shape.specs.DataView.{data_of, items_view, entries_view, text_data_of};
ghost use Rattle.yaml_shape.specs.Validity.{numbers_of};
ghost use Rattle.yaml_shape.specs.HasShape.{takes_signed, takes_unsigned, has_shape, has_content, all_have};
ghost use Rattle.yaml_shape.specs.HasShape.{each_has, entries_have, is_any, is_char, is_text};
ghost use Rattle.yaml_shape.specs.Held.{IsHeld, AreHeld, EntriesAreHeld};

use crate::data::{Data, Entry};
use crate::held::{char_is_held, text_is_held, value_is_held};
use crate::integer_type::{IntegerRange, IntegerType};
use crate::schema::Schema;
use crate::shape::{Shape, ShapeId, VariantShape};
use crate::text::Text;
use yaml_tree::Value;

// Whether the integer is one with a sign that the shape takes.
fn takes_signed(shape: &Shape, n: i128) -> bool
    ensures { result ≡ takes_signed n (shape_of shape.now) }
{
    match shape.integer() {
        Some(integer) => integer.takes_signed(n),
        None => false,
    }
}

// Whether the integer is one without a sign that the shape takes.
fn takes_unsigned(shape: &Shape, n: u128) -> bool
    ensures { result ≡ takes_unsigned n (shape_of shape.now) }
{
    match shape.integer() {
        Some(integer) => integer.takes_unsigned(n),
        None => false,
    }
}

// Whether the shape takes values, which are held in memory.
fn takes_value(shape: &Shape, value: &Value) -> bool
    ensures exactly { result ≡ is_any (shape_of shape.now) }
    ensures held { IsTrue (is_value (tree_of value.now)) }
{
    value_is_held(value);
    matches!(shape, Shape::Any)
}

// Whether the shape takes characters, which are held in memory.
fn takes_char(shape: &Shape, character: char) -> bool
    ensures exactly { result ≡ is_char (shape_of shape.now) }
    ensures held { IsScalar character }
{
    char_is_held(character);
    matches!(shape, Shape::Char)
}

// Whether the shape takes texts, which are held in memory.
fn takes_text(shape: &Shape, text: &Text<'_>) -> bool
    ensures exactly { result ≡ is_text (shape_of shape.now) }
    ensures held { IsHeld (text_data_of text.now) }
{
    text_is_held(text);
    matches!(shape, Shape::Str | Shape::Identifier)
}

// The type of the integers that a shape asks for, where there is a shape that asks for any.
fn asked_integer(shape: Option<&Shape>) -> Option<IntegerType>
    ensures { IfSome result (λ i. option_map (λ s. shape_of s.now) shape.entry
        ≡ Some (integer_shape (integer_type_of i))) }
{
    shape?.integer()
}

// Whether the data is an integer of the range of the type that the shape with this number asks for.
#[inline(always)]
fn is_in_range(
    schema: &Schema,
    id: ShapeId,
    integer: IntegerType,
    range: IntegerRange,
    data: &Data,
) -> bool
    requires asked { shape_at schema.now id.0 ≡ Some (integer_shape (integer_type_of integer)) }
    requires range { IsRangeOf (integer_type_of integer) range }
    ensures exactly { result ≡ has_shape schema.now id.0 (data_of data.now) }
    ensures held { result ≡ true → IsHeld (data_of data.now) }
{
    match (data, range) {
        (Data::Signed(n), IntegerRange::Signed { least, greatest }) => least <= *n
            && *n <= greatest,
        (Data::Unsigned(n), IntegerRange::Unsigned { greatest }) => *n <= greatest,
        _ => false,
    }
}

// Whether each element is of a shape of integers, whose range is looked up once for all.
fn all_are_of_type(schema: &Schema, id: ShapeId, integer: IntegerType, items: &[Data]) -> bool
    requires { shape_at schema.now id.0 ≡ Some (integer_shape (integer_type_of integer)) }
    ensures exactly { result ≡ all_have schema.now id.0 (items_view items.now) }
    ensures held { result ≡ true → AreHeld (items_view items.now) }
{
    let range = integer.range();
    for item in items {
        if !is_in_range(schema, id, integer, range, item) {
            return false;
        }
    }
    true
}

// The content of the variant at this place.
fn content_at(variants: &[(String, VariantShape)], place: usize) -> Option<&VariantShape>
    ensures { option_map (λ content. content_of content.now) result
        ≡ option_map (λ v. v.1) (slice_get (variants_of variants.now) place) }
{
    if place < variants.len() {
        Some(&variants[place].1)
    } else {
        None
    }
}

/// Whether the data is of the shape with this number.
#[cycle(has_shape)]
pub(crate) fn has_shape(schema: &Schema, id: ShapeId, data: &Data) -> bool
    ensures exactly { result ≡ has_shape schema.now id.0 (data_of data.now) }
    ensures held { result ≡ true → IsHeld (data_of data.now) }
{
    is_of(schema, id, schema.shape(id), data)
}

// The same, where the shape with this number was looked up.
#[cycle(has_shape)]
fn is_of(schema: &Schema, id: ShapeId, shape: Option<&Shape>, data: &Data) -> bool
    requires { option_map (λ s. shape_of s.now) shape ≡ shape_at schema.now id.0 }
    ensures exactly { result ≡ has_shape schema.now id.0 (data_of data.now) }
    ensures held { result ≡ true → IsHeld (data_of data.now) }
{
    let Some(shape) = shape else {
        return false;
    };
    match data {
        Data::Any(value) => takes_value(shape, value),
        Data::Bool(_) => matches!(shape, Shape::Bool),
        Data::Char(character) => takes_char(shape, *character),
        Data::Signed(n) => takes_signed(shape, *n),
        Data::Unsigned(n) => takes_unsigned(shape, *n),
        Data::Str(text) => takes_text(shape, text),
        Data::Bytes(_) => matches!(shape, Shape::Bytes),
        Data::None => matches!(shape, Shape::Option(_)),
        Data::Some(content) => match shape {
            Shape::Option(inner) => has_shape(schema, *inner, content),
            _ => false,
        },
        Data::Unit => matches!(shape, Shape::Unit | Shape::UnitStruct { name: _ }),
        Data::Newtype(content) => match shape {
            Shape::Newtype { name: _, inner } => has_shape(schema, *inner, content),
            _ => false,
        },
        Data::Seq(items) => match shape {
            Shape::Seq(element) => all_have(schema, *element, items),
            _ => false,
        },
        Data::Tuple(items) => match shape {
            Shape::Tuple(ids) => each_has(schema, ids, items),
            Shape::TupleStruct {
                name: _,
                items: ids,
            } => each_has(schema, ids, items),
            _ => false,
        },
        Data::Map(entries) => match shape {
            Shape::Map(key, value) => entries_have(schema, *key, *value, entries),
            _ => false,
        },
        Data::Struct(items) => match shape {
            Shape::Struct { name: _, fields } => fields_have(schema, fields, items),
            Shape::StrictStruct { name: _, fields } => fields_have(schema, fields, items),
            _ => false,
        },
        Data::Variant(place, content) => match shape {
            Shape::Enum { name: _, variants } => match content_at(variants, *place) {
                Some(variant) => has_content(schema, variant, content),
                None => false,
            },
            _ => false,
        },
        Data::Ignored => matches!(shape, Shape::IgnoredAny),
    }
}

// The same, by the shortest way for texts, which lists hold most of beside integers.
#[cycle(has_shape)]
#[inline(always)]
fn part_is_of(schema: &Schema, id: ShapeId, shape: Option<&Shape>, data: &Data) -> bool
    requires { option_map (λ s. shape_of s.now) shape ≡ shape_at schema.now id.0 }
    ensures exactly { result ≡ has_shape schema.now id.0 (data_of data.now) }
    ensures held { result ≡ true → IsHeld (data_of data.now) }
{
    let Some(found) = shape else {
        return false;
    };
    match data {
        Data::Str(text) => takes_text(found, text),
        _ => is_of(schema, id, shape, data),
    }
}

// Whether the data is what a variant holds.
#[cycle(has_shape)]
fn has_content(schema: &Schema, content: &VariantShape, data: &Data) -> bool
    ensures exactly { result ≡ has_content schema.now (data_of data.now) (content_of content.now) }
    ensures held { result ≡ true → IsHeld (data_of data.now) }
{
    match content {
        VariantShape::Unit => matches!(data, Data::Unit),
        VariantShape::Newtype(inner) => has_shape(schema, *inner, data),
        VariantShape::Tuple(ids) => match data {
            Data::Tuple(items) => each_has(schema, ids, items),
            _ => false,
        },
        VariantShape::Struct(fields) => match data {
            Data::Struct(items) => fields_have(schema, fields, items),
            _ => false,
        },
        VariantShape::StrictStruct(fields) => match data {
            Data::Struct(items) => fields_have(schema, fields, items),
            _ => false,
        },
    }
}

// Whether each element is of the shape.
#[cycle(has_shape)]
fn all_have(schema: &Schema, id: ShapeId, items: &[Data]) -> bool
    ensures exactly { result ≡ all_have schema.now id.0 (items_view items.now) }
    ensures held { result ≡ true → AreHeld (items_view items.now) }
{
    let shape = schema.shape(id);
    if let Some(integer) = asked_integer(shape) {
        return all_are_of_type(schema, id, integer, items);
    }
    for item in items {
        if !part_is_of(schema, id, shape, item) {
            return false;
        }
    }
    true
}

// Whether there are as many elements as shapes, and each is of its own.
#[cycle(has_shape)]
fn each_has(schema: &Schema, ids: &[ShapeId], items: &[Data]) -> bool
    ensures exactly { result ≡ each_has schema.now (ids_of ids.now) (items_view items.now) }
    ensures held { result ≡ true → AreHeld (items_view items.now) }
{
    if ids.len() != items.len() {
        return false;
    }
    for i in 0..items.len() {
        if !has_shape(schema, ids[i], &items[i]) {
            return false;
        }
    }
    true
}

// Whether there are as many elements as fields, and each is of its field's shape.
#[cycle(has_shape)]
fn fields_have(schema: &Schema, fields: &[(String, ShapeId)], items: &[Data]) -> bool
    ensures exactly { result ≡ each_has schema.now (numbers_of (fields_of fields.now)) (items_view items.now) }
    ensures held { result ≡ true → AreHeld (items_view items.now) }
{
    if fields.len() != items.len() {
        return false;
    }
    for i in 0..items.len() {
        if !has_shape(schema, fields[i].1, &items[i]) {
            return false;
        }
    }
    true
}

// Whether each key is of the first shape, and each value of the second.
#[cycle(has_shape)]
fn entries_have(schema: &Schema, key: ShapeId, value: ShapeId, entries: &[Entry]) -> bool
    ensures exactly { result ≡ entries_have schema.now key.0 value.0 (entries_view entries.now) }
    ensures held { result ≡ true → EntriesAreHeld (entries_view entries.now) }
{
    for entry in entries {
        if !has_shape(schema, key, &entry.key) || !has_shape(schema, value, &entry.value) {
            return false;
        }
    }
    true
}
