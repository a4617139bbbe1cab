//! The fault of a node that its shape has no meaning for: what was found in place of what was expected.

ghost use Rattle.std.specs.Prelude.{IfOk};
ghost use Rattle.yaml_base.specs.DocEventView.{doc_scalar_of};
ghost use Rattle.yaml_base.specs.declared.found.Found.TheVariants.{Map, Seq, Str};
ghost use Rattle.yaml_shape.specs.Expected.{expected_text, tuple_variant_with_text};
ghost use Rattle.yaml_shape.specs.ShapeView.{shape_of};
ghost use Rattle.yaml_meaning.specs.Presence.{null_fault};
ghost use Rattle.yaml_meaning.specs.ReadingGives.{IsRefusedBy};
ghost use Rattle.yaml_meaning.specs.ScalarFound.{wrong_length, wrong_type, wrong_value, fault_in};
ghost use Rattle.yaml_meaning.specs.ScalarFound.{scalar_fault, sequence_fault, mapping_fault};
ghost use Rattle.yaml_meaning.specs.ScalarShapes.{too_few_text};
ghost use Rattle.yaml_meaning.specs.ScalarSorts.{sort_of};
ghost use Rattle.yaml_scalar.specs.Expectations.{expected_of, wanted_of};

use crate::expected::{Expected, words};
use crate::found_kind::{found_in, found_string, found_text, refusal_of, wrong_value};
use crate::refusal::{Refusal, refuse};
use std::alloc::{AllocError, Global};
use yaml_base::{Cause, DocScalar, Error, Found, Words};
use yaml_shape::{Shape, tuple_struct_with, tuple_variant_with};

/// The refusal of a row of another length than is expected, or want of memory.
#[cold]
#[inline(never)]
pub fn wrong_length(alloc: Global, length: usize, expected: Words) -> Refusal
    ensures { IsRefusedBy result (wrong_length length expected) }
{
    let fault = Cause::InvalidLength {
        length,
        expected,
        place: None,
    };
    refuse(alloc, Error::new(fault))
}

// The fault of a node of another type than is expected.
fn wrong_type(alloc: Global, found: Found, expected: &Expected<'_>) -> Result<Refusal, AllocError>
    ensures { IfOk result (λ refusal. IsRefusedBy refusal (wrong_type found (expected_of expected.now))) }
{
    let fault = Cause::InvalidType {
        found,
        expected: expected.text(alloc)?,
        place: None,
    };
    Ok(refuse(alloc, Error::new(fault)))
}

// The fault of a collection where another node is expected.
fn wrong_collection(
    alloc: Global,
    found: Found,
    expected: &Expected<'_>,
) -> Result<Refusal, AllocError>
    ensures { IfOk result (λ refusal. IsRefusedBy refusal (wrong_type found (wanted_of expected.now))) }
{
    let fault = Cause::InvalidType {
        found,
        expected: expected.wanted(alloc)?,
        place: None,
    };
    Ok(refuse(alloc, Error::new(fault)))
}

/// The fault of what was found where something else is expected, or want of memory.
#[cold]
#[inline(never)]
pub(crate) fn found_other(alloc: Global, found: Found, expected: &Expected<'_>) -> Refusal
    ensures { IsRefusedBy result (wrong_type found (expected_of expected.now)) }
{
    refusal_of(wrong_type(alloc, found, expected))
}

/// The fault of a scalar where something else is expected, or want of memory.
#[cold]
#[inline(never)]
pub fn found_scalar_for(
    alloc: Global,
    expected: &Expected<'_>,
    taken: bool,
    scalar: &DocScalar<'_>,
) -> Refusal
    ensures { IsRefusedBy result (fault_in (sort_of taken (doc_scalar_of scalar.now)) scalar.now.value.items
        (expected_of expected.now)) }
{
    match found_in(alloc, taken, scalar) {
        Ok(found) => found_other(alloc, found, expected),
        Err(refusal) => refusal,
    }
}

/// The fault of a sequence where something else is expected, or want of memory.
#[cold]
#[inline(never)]
pub fn found_sequence_for(alloc: Global, expected: &Expected<'_>) -> Refusal
    ensures { IsRefusedBy result (wrong_type Seq (wanted_of expected.now)) }
{
    refusal_of(wrong_collection(alloc, Found::Seq, expected))
}

/// The fault of a mapping where something else is expected, or want of memory.
#[cold]
#[inline(never)]
pub fn found_mapping_for(alloc: Global, expected: &Expected<'_>) -> Refusal
    ensures { IsRefusedBy result (wrong_type Map (wanted_of expected.now)) }
{
    refusal_of(wrong_collection(alloc, Found::Map, expected))
}

/// The fault of a scalar that its shape has no meaning for, or want of memory.
#[cold]
#[inline(never)]
pub(crate) fn found_scalar(
    alloc: Global,
    shape: &Shape,
    taken: bool,
    scalar: &DocScalar<'_>,
) -> Refusal
    ensures { IsRefusedBy result (scalar_fault (shape_of shape.now) taken (doc_scalar_of scalar.now)) }
{
    found_scalar_for(alloc, &Expected::Shape(shape), taken, scalar)
}

/// The fault of a sequence that its shape has no meaning for, or want of memory.
#[cold]
#[inline(never)]
pub fn found_sequence(alloc: Global, shape: &Shape) -> Refusal
    ensures { IsRefusedBy result (sequence_fault (shape_of shape.now)) }
{
    found_sequence_for(alloc, &Expected::Shape(shape))
}

/// The fault of a mapping that its shape has no meaning for, or want of memory.
#[cold]
#[inline(never)]
pub fn found_mapping(alloc: Global, shape: &Shape) -> Refusal
    ensures { IsRefusedBy result (mapping_fault (shape_of shape.now)) }
{
    found_mapping_for(alloc, &Expected::Shape(shape))
}

// The fault of a value that its shape does not expect.
fn wrong_value_of(alloc: Global, found: Found, shape: &Shape) -> Result<Refusal, AllocError>
    ensures { IfOk result
        (λ refusal. IsRefusedBy refusal (wrong_value found (expected_text (shape_of shape.now)))) }
{
    Ok(wrong_value(alloc, found, Expected::Shape(shape).text(alloc)?))
}

/// The fault of an integer that is none of its shape, or want of memory.
#[cold]
#[inline(never)]
pub(crate) fn found_integer_outside(alloc: Global, found: Found, shape: &Shape) -> Refusal
    ensures { IsRefusedBy result (wrong_value found (expected_text (shape_of shape.now))) }
{
    refusal_of(wrong_value_of(alloc, found, shape))
}

// The fault of a text that its shape does not expect.
fn wrong_text_of(alloc: Global, text: &str, shape: &Shape) -> Result<Refusal, AllocError>
    ensures { IfOk result
        (λ refusal. IsRefusedBy refusal (wrong_value (Str text.now) (expected_text (shape_of shape.now)))) }
{
    wrong_value_of(alloc, found_string(alloc, text)?, shape)
}

/// The fault of a text that is none of its shape, or want of memory.
#[cold]
#[inline(never)]
pub(crate) fn found_other_text(alloc: Global, text: &str, shape: &Shape) -> Refusal
    ensures { IsRefusedBy result (wrong_value (Str text.now) (expected_text (shape_of shape.now))) }
{
    refusal_of(wrong_text_of(alloc, text, shape))
}

// The fault of a scalar that should stand for nothing.
fn null_fault(alloc: Global, scalar: &DocScalar<'_>) -> Result<Refusal, AllocError>
    ensures { IfOk result (λ refusal. IsRefusedBy refusal (null_fault (doc_scalar_of scalar.now))) }
{
    Ok(wrong_value(alloc, found_text(alloc, scalar)?, words(alloc, "null")?))
}

/// The fault of a scalar that should stand for nothing, or want of memory.
#[cold]
#[inline(never)]
pub(crate) fn found_no_null(alloc: Global, scalar: &DocScalar<'_>) -> Refusal
    ensures { IsRefusedBy result (null_fault (doc_scalar_of scalar.now)) }
{
    refusal_of(null_fault(alloc, scalar))
}

// The fault of a collection without elements where a tuple or a tuple struct asks for some.
fn no_elements(alloc: Global, shape: &Shape) -> Result<Refusal, AllocError>
    ensures { IfOk result
        (λ refusal. IsRefusedBy refusal (wrong_length 0 (too_few_text (shape_of shape.now)))) }
{
    let expected = match shape {
        Shape::TupleStruct { name, items } => match tuple_struct_with(alloc, name, items.len()) {
            Ok(text) => Words::new(text),
            Err(_) => return Err(AllocError),
        },
        _ => Expected::Shape(shape).text(alloc)?,
    };
    Ok(wrong_length(alloc, 0, expected))
}

/// The fault of no elements where a tuple or a tuple struct asks for some, or want of memory.
#[cold]
#[inline(never)]
pub(crate) fn found_no_elements(alloc: Global, shape: &Shape) -> Refusal
    ensures { IsRefusedBy result (wrong_length 0 (too_few_text (shape_of shape.now))) }
{
    refusal_of(no_elements(alloc, shape))
}

// The fault of a scalar without elements where a tuple variant asks for some.
fn no_variant_elements(
    alloc: Global,
    name: &str,
    variant: &str,
    count: usize,
) -> Result<Refusal, AllocError>
    ensures { IfOk result
        (λ refusal. IsRefusedBy refusal
        (wrong_length 0 (tuple_variant_with_text name.now variant.now count))) }
{
    match tuple_variant_with(alloc, name, variant, count) {
        Ok(text) => Ok(wrong_length(alloc, 0, Words::new(text))),
        Err(_) => Err(AllocError),
    }
}

/// The fault of no elements where a tuple variant asks for some, or want of memory.
#[cold]
#[inline(never)]
pub fn found_no_variant_elements(alloc: Global, name: &str, variant: &str, count: usize) -> Refusal
    ensures { IsRefusedBy result (wrong_length 0 (tuple_variant_with_text name.now variant.now count)) }
{
    refusal_of(no_variant_elements(alloc, name, variant, count))
}
