//! Whether data reads back where it is written.

ghost use Rattle.std.specs.Prelude.{◌≡◌, ◌<◌, ◌↔◌, ℕ, false, IfErr, IfOk, IsTrue, slice_get};
ghost use Rattle.std.specs.Option.{option_map};
ghost use Rattle.yaml_tree.specs.Tree.{mapping, sequence};
ghost use Rattle.yaml_tree.specs.Valid.{pairs_of, tree_of_tagged, values_of};
ghost use Rattle.yaml_tree.specs.View.{tree_of};
ghost use Rattle.yaml_base.specs.Answer.{is_memory};
ghost use Rattle.yaml_shape.specs.DataView.{data_of, entries_view, items_view};
ghost use Rattle.yaml_shape.specs.Join.{IsTooLarge};
ghost use Rattle.yaml_shape.specs.ShapeView.{content_of, fields_of, ids_of, variant_of, variants_of};
ghost use Rattle.yaml_shape.specs.TypedView.{content_in, id_in, schema_in};
ghost use Rattle.yaml_shape.specs.Validity.{numbers_of};
ghost use Rattle.serde_yaml.specs.TypedReads.{no_schema};
ghost use Rattle.yaml_round.specs.Compared.{HasNoData};
ghost use Rattle.yaml_round.specs.Fits.{Fits, begins_with_two, is_variant_name};
ghost use Rattle.yaml_round.specs.Survives.{all_survive, content_survives, each_survives, entries_survive, is_null};
ghost use Rattle.yaml_round.specs.Survives.{survives, value_survives, variant_survives};

use crate::held::data_is_held;
use std::alloc::Global;
use yaml_base::{Cause, Error, Result};
use yaml_read::Limits;
use yaml_shape::{Data, Entry, Schema, SchemaFault, Shape, ShapeId, Typed, VariantShape};
use yaml_tree::{Mapping, Sequence, TaggedValue, Value};
use yaml_types::Serialize;

/// Whether the data, written as a document of its own and rendered in any permitted styles, reads back equal within the
/// limits. It does not where it nests deeper, where it holds bytes or a tag directly under a tag, and where a present
/// optional holds what is written as null. Nor does it where a variant has no name or one that begins with `!`, or
/// where a tag of a value begins with two. Takes no memory.
pub fn fits(typed: &Typed<'_, '_>, limits: Limits) -> bool
    ensures { IsTrue result
        ↔ Fits limits.nesting (schema_in typed.now) (id_in typed.now).0 (data_of (content_in typed.now)) }
{
    let content = typed.content();
    data_is_held(content);
    survives(typed.schema(), typed.id(), false, limits.nesting(), content)
}

// Why a type has no schema, as a fault.
pub(crate) fn refusal(alloc: Global, fault: SchemaFault) -> Error
    ensures { (size : ℕ) → IsTooLarge size fault → is_memory result ≡ false → (4096 < size) × (result ≡ no_schema) }
{
    match fault {
        SchemaFault::Memory => Error::new(Cause::Memory),
        fault => match fault.to_string(alloc) {
            Ok(text) => Error::custom(text),
            Err(refused) => refused.into(),
        },
    }
}

/// The same of a value: whether its data fits. Refused as `to_events` refuses it: where memory runs out, where the type
/// has no schema, or by a message of `to_data`.
pub fn value_fits<T: Serialize>(alloc: Global, value: &T, limits: Limits) -> Result<bool>
    ensures fits { IfOk result (λ does. IsTrue does
        ↔ Fits limits.nesting T.start.0 T.start.1 (T.written value.now)) }
    ensures refused { IfErr result (λ cause. is_memory cause ≡ false
        → HasNoData T.start (T.unwritten value.now) cause) }
{
    let (schema, id) = match T::schema(alloc) {
        Ok(start) => start,
        Err(fault) => return Err(refusal(alloc, fault)),
    };
    let content = match value.to_data(alloc) {
        Ok(content) => content,
        Err(fault) => return Err(fault),
    };
    match Typed::new(&schema, id, &content) {
        Some(typed) => Ok(fits(&typed, limits)),
        None => Ok(false),
    }
}

// Whether a tag begins with two `!`.
fn has_two(tag: &str) -> bool
    ensures { result ≡ begins_with_two tag.now }
{
    match tag.as_bytes() {
        [b'!', b'!', ..] => true,
        _ => false,
    }
}

// Whether a variant can have this name.
fn is_name(name: &str) -> bool
    ensures { result ≡ is_variant_name name.now }
{
    match name.as_bytes().first() {
        Some(byte) => *byte != b'!',
        None => false,
    }
}

// The variant at this place.
fn variant_at(variants: &[(String, VariantShape)], place: usize) -> Option<&(String, VariantShape)>
    ensures { option_map (λ variant. variant_of variant.now) result ≡ slice_get (variants_of variants.now) place }
{
    if place < variants.len() {
        Some(&variants[place])
    } else {
        None
    }
}

// Whether the data is written as null where it has no tag.
#[cycle(is_null)]
fn is_null(data: &Data<'_>) -> bool
    ensures { result ≡ is_null (data_of data.now) }
{
    match data {
        Data::Any(value) => matches!(value, Value::Null),
        Data::None | Data::Unit | Data::Ignored => true,
        Data::Some(content) => is_null(content),
        Data::Newtype(content) => is_null(content),
        _ => false,
    }
}

// Whether a value survives under a tag or under none, within so many nestings.
#[cycle(value_survives)]
fn value_survives(under: bool, depth: u8, value: &Value) -> bool
    ensures { result ≡ value_survives under depth (tree_of value.now) }
{
    match value {
        Value::Sequence(values) => values_survive(depth, values),
        Value::Mapping(pairs) => pairs_survive(depth, pairs),
        Value::Tagged(tagged) => !under && tagged_survives(depth, tagged),
        _ => true,
    }
}

// Whether a sequence does.
#[cycle(value_survives)]
fn values_survive(depth: u8, values: &Sequence) -> bool
    ensures { result ≡ value_survives false depth (sequence (values_of values.now)) }
{
    let Some(within) = depth.checked_sub(1) else {
        return false;
    };
    for value in values.as_slice() {
        if !value_survives(false, within, value) {
            return false;
        }
    }
    true
}

// Whether a mapping does.
#[cycle(value_survives)]
fn pairs_survive(depth: u8, pairs: &Mapping) -> bool
    ensures { result ≡ value_survives false depth (mapping (pairs_of pairs.now)) }
{
    let Some(within) = depth.checked_sub(1) else {
        return false;
    };
    for (key, value) in pairs.iter() {
        if !value_survives(false, within, key) || !value_survives(false, within, value) {
            return false;
        }
    }
    true
}

// Whether a value with a tag does, under none.
#[cycle(value_survives)]
fn tagged_survives(depth: u8, tagged: &TaggedValue) -> bool
    ensures { result ≡ value_survives false depth (tree_of_tagged tagged.now) }
{
    !has_two(tagged.tag.as_str()) && value_survives(true, depth, &tagged.value)
}

// Whether data of the shape with this number survives.
#[cycle(survives)]
fn survives(schema: &Schema, id: ShapeId, under: bool, depth: u8, data: &Data<'_>) -> bool
    ensures { result ≡ survives schema.now id.0 under depth (data_of data.now) }
{
    let shape = schema.shape(id);
    match data {
        Data::Any(value) => value_survives(under, depth, value),
        Data::Bytes(_) => false,
        Data::Some(content) => match shape {
            Some(Shape::Option(inner)) => !is_null(content)
                && survives(schema, *inner, under, depth, content),
            _ => false,
        },
        Data::Newtype(content) => match shape {
            Some(Shape::Newtype { name: _, inner }) => depth > 0
                && survives(schema, *inner, under, depth - 1, content),
            _ => false,
        },
        Data::Seq(items) => match shape {
            Some(Shape::Seq(element)) => depth > 0
                && all_survive(schema, *element, depth - 1, items),
            _ => false,
        },
        Data::Tuple(items) => match shape {
            Some(Shape::Tuple(ids)) => depth > 0 && each_survives(schema, ids, depth - 1, items),
            Some(
                Shape::TupleStruct {
                    name: _,
                    items: ids,
                },
            ) => depth > 0 && each_survives(schema, ids, depth - 1, items),
            _ => false,
        },
        Data::Map(entries) => match shape {
            Some(Shape::Map(key, value)) => depth > 0
                && entries_survive(schema, *key, *value, depth - 1, entries),
            _ => false,
        },
        Data::Struct(items) => match shape {
            Some(Shape::Struct { name: _, fields }) => depth > 0
                && fields_survive(schema, fields, depth - 1, items),
            Some(Shape::StrictStruct { name: _, fields }) => depth > 0
                && fields_survive(schema, fields, depth - 1, items),
            _ => false,
        },
        Data::Variant(place, content) => match shape {
            Some(Shape::Enum { name: _, variants }) => match variant_at(variants, *place) {
                Some(variant) => variant_survives(schema, variant, under, depth, content),
                None => false,
            },
            _ => false,
        },
        Data::Bool(_) => true,
        Data::Char(_) => true,
        Data::Signed(_) => true,
        Data::Unsigned(_) => true,
        Data::Str(_) => true,
        Data::None => true,
        Data::Unit => true,
        Data::Ignored => true,
    }
}

// Whether a variant survives.
#[cycle(survives)]
fn variant_survives(
    schema: &Schema,
    variant: &(String, VariantShape),
    under: bool,
    depth: u8,
    data: &Data<'_>,
) -> bool
    ensures { result ≡ variant_survives schema.now under depth (data_of data.now) (variant_of variant.now) }
{
    is_name(variant.0.as_str()) && content_survives(schema, &variant.1, under, depth, data)
}

// Whether the content of a variant survives, whose name is a tag for it.
#[cycle(survives)]
fn content_survives(
    schema: &Schema,
    variant: &VariantShape,
    under: bool,
    depth: u8,
    data: &Data<'_>,
) -> bool
    ensures { result ≡ content_survives schema.now under depth (data_of data.now) (content_of variant.now) }
{
    match variant {
        VariantShape::Unit => true,
        VariantShape::Newtype(inner) => !under && survives(schema, *inner, true, depth, data),
        VariantShape::Tuple(ids) => match data {
            Data::Tuple(items) => !under
                && depth > 0
                && each_survives(schema, ids, depth - 1, items),
            _ => false,
        },
        VariantShape::Struct(fields) => match data {
            Data::Struct(items) => !under
                && depth > 0
                && fields_survive(schema, fields, depth - 1, items),
            _ => false,
        },
        VariantShape::StrictStruct(fields) => match data {
            Data::Struct(items) => !under
                && depth > 0
                && fields_survive(schema, fields, depth - 1, items),
            _ => false,
        },
    }
}

// Whether each element survives.
#[cycle(survives)]
fn all_survive(schema: &Schema, id: ShapeId, depth: u8, items: &[Data<'_>]) -> bool
    ensures { result ≡ all_survive schema.now id.0 depth (items_view items.now) }
{
    for item in items {
        if !survives(schema, id, false, depth, item) {
            return false;
        }
    }
    true
}

// Whether there are as many elements as shapes, and each survives.
#[cycle(survives)]
fn each_survives(schema: &Schema, ids: &[ShapeId], depth: u8, items: &[Data<'_>]) -> bool
    ensures { result ≡ each_survives schema.now (ids_of ids.now) depth (items_view items.now) }
{
    if ids.len() != items.len() {
        return false;
    }
    for i in 0..items.len() {
        if !survives(schema, ids[i], false, depth, &items[i]) {
            return false;
        }
    }
    true
}

// Whether there are as many elements as fields, and each survives.
#[cycle(survives)]
fn fields_survive(
    schema: &Schema,
    fields: &[(String, ShapeId)],
    depth: u8,
    items: &[Data<'_>],
) -> bool
    ensures { result ≡ each_survives schema.now (numbers_of (fields_of fields.now)) depth (items_view items.now) }
{
    if fields.len() != items.len() {
        return false;
    }
    for i in 0..items.len() {
        if !survives(schema, fields[i].1, false, depth, &items[i]) {
            return false;
        }
    }
    true
}

// Whether each key and each value survives.
#[cycle(survives)]
fn entries_survive(
    schema: &Schema,
    key: ShapeId,
    value: ShapeId,
    depth: u8,
    entries: &[Entry<'_>],
) -> bool
    ensures { result ≡ entries_survive schema.now key.0 value.0 depth (entries_view entries.now) }
{
    for entry in entries {
        let lasts = survives(schema, key, false, depth, &entry.key)
            && survives(schema, value, false, depth, &entry.value);
        if !lasts {
            return false;
        }
    }
    true
}
