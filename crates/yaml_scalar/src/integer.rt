//! A scalar under the shape of an integer.

ghost use Rattle.std.specs.Prelude.{◌≡◌, Bool, Ok, IfSome, true, false, is_ok};
ghost use Rattle.yaml_base.specs.DocEventView.{doc_scalar_of};
ghost use Rattle.yaml_shape.specs.DataView.{data_of};
ghost use Rattle.yaml_shape.specs.PlainData.{signed_data, unsigned_data};
ghost use Rattle.yaml_shape.specs.IntegerTypes.{has_sign};
ghost use Rattle.yaml_shape.specs.IntegerView.{integer_type_of};
ghost use Rattle.yaml_shape.specs.PlainShape.{integer_shape};
ghost use Rattle.yaml_shape.specs.ShapeView.{shape_of};
ghost use Rattle.yaml_meaning.specs.ReadingGives.{Yields};
ghost use Rattle.yaml_meaning.specs.ScalarShapes.{scalar_answer};
ghost use Rattle.yaml_scalar.specs.inner.Numbers.{signed_number, unsigned_number};

use crate::integer_text::{signed_in, small_signed_in, small_unsigned_in, unsigned_in};
use crate::mismatch::{found_integer_outside, found_scalar};
use crate::refusal::Result;
use std::alloc::Global;
use yaml_base::{DocScalar, Found};
use yaml_shape::{Data, IntegerType, Shape};

// The integer of a type with a sign, however it is written.
#[inline(never)]
fn read_signed(
    alloc: Global,
    shape: &Shape,
    integer: IntegerType,
    taken: bool,
    scalar: &DocScalar<'_>,
) -> Result<i128>
    requires { has_sign (integer_type_of integer) ≡ true }
    ensures gives { Yields signed_data result
        (signed_number (integer_type_of integer) (shape_of shape.now) taken (doc_scalar_of scalar.now)) }
    ensures free { is_ok result ≡ is_ok
        (signed_number (integer_type_of integer) (shape_of shape.now) taken (doc_scalar_of scalar.now)) }
{
    match signed_in(integer, taken, scalar) {
        Some(value) if integer.takes_signed(value) => Ok(value),
        Some(value) => Err(found_integer_outside(alloc, Found::Signed(value), shape)),
        None => Err(found_scalar(alloc, shape, taken, scalar)),
    }
}

// The integer of a type without a sign, however it is written.
#[inline(never)]
fn read_unsigned(
    alloc: Global,
    shape: &Shape,
    integer: IntegerType,
    taken: bool,
    scalar: &DocScalar<'_>,
) -> Result<u128>
    requires { has_sign (integer_type_of integer) ≡ false }
    ensures gives { Yields unsigned_data result
        (unsigned_number (integer_type_of integer) (shape_of shape.now) taken (doc_scalar_of scalar.now)) }
    ensures free { is_ok result ≡ is_ok
        (unsigned_number (integer_type_of integer) (shape_of shape.now) taken (doc_scalar_of scalar.now)) }
{
    match unsigned_in(integer, taken, scalar) {
        Some(value) if integer.takes_unsigned(value) => Ok(value),
        Some(value) => Err(found_integer_outside(alloc, Found::Unsigned(value), shape)),
        None => Err(found_scalar(alloc, shape, taken, scalar)),
    }
}

/// The integer that a plain scalar writes with a few decimal digits, where the shape asks for one.
#[inline(always)]
pub(crate) fn small_integer<'de>(shape: &Shape, scalar: &DocScalar<'_>) -> Option<Data<'de>>
    ensures { IfSome result (λ d. (taken : Bool) →
        scalar_answer (shape_of shape.now) taken (doc_scalar_of scalar.now) ≡ Ok (data_of d)) }
{
    let integer = shape.integer()?;
    if integer.has_sign() {
        let value = small_signed_in(integer, scalar)?;
        Some(Data::Signed(value as i128))
    } else {
        let value = small_unsigned_in(integer, scalar)?;
        Some(Data::Unsigned(value as u128))
    }
}

/// An integer of the type that the shape asks for, however it is written.
#[inline(never)]
pub(crate) fn read_integer<'de>(
    alloc: Global,
    shape: &Shape,
    integer: IntegerType,
    taken: bool,
    scalar: &DocScalar<'de>,
) -> Result<Data<'de>>
    requires { shape_of shape.now ≡ integer_shape (integer_type_of integer) }
    ensures gives { Yields data_of result (scalar_answer (shape_of shape.now) taken (doc_scalar_of scalar.now)) }
    ensures free { is_ok result ≡ is_ok
        (scalar_answer (shape_of shape.now) taken (doc_scalar_of scalar.now)) }
{
    if integer.has_sign() {
        Ok(Data::Signed(read_signed(alloc, shape, integer, taken, scalar)?))
    } else {
        Ok(Data::Unsigned(read_unsigned(alloc, shape, integer, taken, scalar)?))
    }
}
