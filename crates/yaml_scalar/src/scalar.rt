//! A scalar, and the node of an empty stream, under a shape.

ghost use Rattle.std.specs.Prelude.{◌≡◌, Ok, Err, true, is_ok, option_and_then, if◌then◌else◌};
ghost use Rattle.std.specs.Option.{option_map_or};
ghost use Rattle.yaml_base.specs.DocEventView.{doc_scalar_of};
ghost use Rattle.yaml_base.specs.PlainWords.{boolean_of};
ghost use Rattle.yaml_shape.specs.DataView.{data_of};
ghost use Rattle.yaml_shape.specs.PlainData.{bool_data, none_data, unit_data};
ghost use Rattle.yaml_shape.specs.PlainShape.{any_shape};
ghost use Rattle.yaml_shape.specs.ShapeView.{ids_of, shape_of};
ghost use Rattle.yaml_meaning.specs.CoreTags.{bool_tag};
ghost use Rattle.yaml_meaning.specs.Presence.{is_absent, null_fault};
ghost use Rattle.yaml_meaning.specs.ReadingGives.{Yields};
ghost use Rattle.yaml_meaning.specs.ScalarFound.{scalar_fault};
ghost use Rattle.yaml_meaning.specs.ScalarShapes.{no_elements, plain_text, scalar_answer};
ghost use Rattle.yaml_meaning.specs.ScalarShapes.{takes_no_memory, void_answer};

use crate::any_value::any_scalar;
use crate::character::read_char;
use crate::integer::{read_integer, small_integer};
use crate::mismatch::{found_no_elements, found_no_null, found_scalar};
use crate::presence::{is_absent, is_empty_plain};
use crate::refusal::{Result, ended, refused_bytes};
use crate::sort::{is_plain_or_tagged_literal, text_of};
use crate::text::read_text;
use crate::variant_names::read_variant_name;
use std::alloc::Global;
use yaml_base::{DocScalar, Tag, parse_bool};
use yaml_shape::{Data, Shape, ShapeId};
use yaml_tree::Value;

// The boolean that a scalar is a word for.
#[tactic(auto, unfolding(yaml_meaning::specs::CoreTags::bool_tag))]
fn boolean_of(taken: bool, scalar: &DocScalar<'_>) -> Option<bool>
    ensures { result ≡ option_and_then boolean_of (plain_text bool_tag taken (doc_scalar_of scalar.now)) }
{
    if !is_plain_or_tagged_literal(Tag::BOOL, taken, scalar) {
        return None;
    }
    parse_bool(text_of(scalar)?)
}

// A boolean.
#[inline(never)]
fn read_bool<'de>(
    alloc: Global,
    shape: &Shape,
    taken: bool,
    scalar: &DocScalar<'de>,
) -> Result<Data<'de>>
    ensures gives { Yields data_of result
        (option_map_or (λ b. Ok (bool_data b))
        (option_and_then boolean_of (plain_text bool_tag taken (doc_scalar_of scalar.now)))
        (Err (scalar_fault (shape_of shape.now) taken (doc_scalar_of scalar.now)))) }
    ensures free { is_ok result ≡ is_ok
        (option_map_or (λ b. Ok (bool_data b))
        (option_and_then boolean_of (plain_text bool_tag taken (doc_scalar_of scalar.now)))
        (Err (scalar_fault (shape_of shape.now) taken (doc_scalar_of scalar.now)))) }
{
    match boolean_of(taken, scalar) {
        Some(value) => Ok(Data::Bool(value)),
        None => Err(found_scalar(alloc, shape, taken, scalar)),
    }
}

// Any value.
#[inline(never)]
fn read_any<'de>(alloc: Global, taken: bool, scalar: &DocScalar<'de>) -> Result<Data<'de>>
    ensures { Yields data_of result
        (scalar_answer any_shape taken (doc_scalar_of scalar.now)) }
{
    Ok(Data::Any(any_scalar(alloc, taken, scalar)?))
}

// A unit.
#[inline(never)]
fn read_unit<'de>(alloc: Global, taken: bool, scalar: &DocScalar<'de>) -> Result<Data<'de>>
    ensures gives { Yields data_of result
        (if is_absent taken (doc_scalar_of scalar.now) then Ok unit_data
        else Err (null_fault (doc_scalar_of scalar.now))) }
    ensures free { is_ok result ≡ is_ok
        (if is_absent taken (doc_scalar_of scalar.now) then Ok unit_data
        else Err (null_fault (doc_scalar_of scalar.now))) }
{
    if is_absent(scalar, taken) {
        Ok(Data::Unit)
    } else {
        Err(found_no_null(alloc, scalar))
    }
}

// An optional that is absent.
#[inline(never)]
fn read_none<'de>(alloc: Global, taken: bool, scalar: &DocScalar<'de>) -> Result<Data<'de>>
    ensures gives { Yields data_of result
        (if is_absent taken (doc_scalar_of scalar.now) then Ok none_data
        else Err (null_fault (doc_scalar_of scalar.now))) }
    ensures free { is_ok result ≡ is_ok
        (if is_absent taken (doc_scalar_of scalar.now) then Ok none_data
        else Err (null_fault (doc_scalar_of scalar.now))) }
{
    if is_absent(scalar, taken) {
        Ok(Data::None)
    } else {
        Err(found_no_null(alloc, scalar))
    }
}

// A tuple or a tuple struct without elements.
#[inline(never)]
fn no_elements<'de>(alloc: Global, shape: &Shape, asked: &[ShapeId]) -> Result<Data<'de>>
    ensures { Yields data_of result (no_elements (ids_of asked.now) (shape_of shape.now)) }
{
    if asked.is_empty() {
        Ok(Data::Tuple(Vec::new(alloc)))
    } else {
        Err(found_no_elements(alloc, shape))
    }
}

// A scalar under a shape, whatever it is written as.
#[inline(always)]
fn read_any_form<'de>(
    alloc: Global,
    shape: &Shape,
    taken: bool,
    scalar: &DocScalar<'de>,
) -> Result<Data<'de>>
    ensures gives { Yields data_of result (scalar_answer (shape_of shape.now) taken (doc_scalar_of scalar.now)) }
    ensures free { takes_no_memory (shape_of shape.now) (doc_scalar_of scalar.now) ≡ true
        → is_ok result ≡ is_ok (scalar_answer (shape_of shape.now) taken (doc_scalar_of scalar.now)) }
{
    match shape {
        Shape::Any => read_any(alloc, taken, scalar),
        Shape::Bool => read_bool(alloc, shape, taken, scalar),
        Shape::Char => read_char(alloc, shape, taken, scalar),
        Shape::Str => read_text(alloc, shape, taken, scalar),
        Shape::Identifier => read_text(alloc, shape, taken, scalar),
        Shape::Bytes => Err(refused_bytes(alloc)),
        Shape::Option(_) => read_none(alloc, taken, scalar),
        Shape::Unit | Shape::UnitStruct { name: _ } => read_unit(alloc, taken, scalar),
        Shape::Seq(_) if is_empty_plain(scalar) => Ok(Data::Seq(Vec::new(alloc))),
        Shape::Tuple(items) if is_empty_plain(scalar) => no_elements(alloc, shape, items),
        Shape::TupleStruct { name: _, items } if is_empty_plain(scalar) => {
            no_elements(alloc, shape, items)
        }
        Shape::Map(_, _) if is_empty_plain(scalar) => Ok(Data::Map(Vec::new(alloc))),
        Shape::Enum { name: _, variants } => read_variant_name(alloc, variants, scalar),
        _ => match shape.integer() {
            Some(integer) => read_integer(alloc, shape, integer, taken, scalar),
            None => Err(found_scalar(alloc, shape, taken, scalar)),
        },
    }
}

/// A scalar under a shape. The flag says whether its tag is taken. Under an optional it is asked only of a scalar that
/// is not the optional's content.
pub fn read_scalar<'de>(
    alloc: Global,
    shape: &Shape,
    taken: bool,
    scalar: &DocScalar<'de>,
) -> Result<Data<'de>>
    ensures gives { Yields data_of result (scalar_answer (shape_of shape.now) taken (doc_scalar_of scalar.now)) }
    ensures free { takes_no_memory (shape_of shape.now) (doc_scalar_of scalar.now) ≡ true
        → is_ok result ≡ is_ok (scalar_answer (shape_of shape.now) taken (doc_scalar_of scalar.now)) }
{
    match small_integer(shape, scalar) {
        Some(data) => Ok(data),
        // taken apart and put together, so that no room is cleared for the answer before it is asked for
        None => Ok(read_any_form(alloc, shape, taken, scalar)?),
    }
}

/// The node of an empty stream under a shape.
#[inline(never)]
pub fn read_void<'de>(alloc: Global, shape: &Shape) -> Result<Data<'de>>
    ensures { Yields data_of result (void_answer (shape_of shape.now)) }
{
    match shape {
        Shape::Any => Ok(Data::Any(Value::Null)),
        Shape::Bytes => Err(refused_bytes(alloc)),
        Shape::Option(_) => Ok(Data::None),
        Shape::Unit | Shape::UnitStruct { name: _ } => Ok(Data::Unit),
        Shape::Seq(_) => Ok(Data::Seq(Vec::new(alloc))),
        Shape::Tuple(items) => no_elements(alloc, shape, items),
        Shape::TupleStruct { name: _, items } => no_elements(alloc, shape, items),
        Shape::Map(_, _) => Ok(Data::Map(Vec::new(alloc))),
        _ => Err(ended(alloc)),
    }
}
