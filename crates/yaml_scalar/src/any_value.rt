//! A scalar under the shape of any value.

ghost use Rattle.std.specs.Prelude.{pos};
ghost use Rattle.yaml_base.specs.DocEventView.{doc_scalar_of};
ghost use Rattle.yaml_base.specs.declared.found.Found.TheVariants.{Signed, Unsigned};
ghost use Rattle.yaml_shape.specs.Expected.{expected_text};
ghost use Rattle.yaml_shape.specs.PlainShape.{any_shape};
ghost use Rattle.yaml_tree.specs.View.{tree_of};
ghost use Rattle.yaml_meaning.specs.ReadingGives.{IsRefusedBy, Yields};
ghost use Rattle.yaml_meaning.specs.ScalarAny.{any_found, any_integer, any_scalar};
ghost use Rattle.yaml_meaning.specs.ScalarFound.{wrong_type};

use crate::expected::Expected;
use crate::found_kind::found_in;
use crate::mismatch::found_other;
use crate::refusal::{Refusal, Result, refuse};
use std::alloc::Global;
use yaml_base::{Cause, DocScalar, Error, Found};
use yaml_shape::Shape;
use yaml_tree::{Number, Value};

// The fault of what is no value, or want of memory.
#[cold]
#[inline(never)]
fn no_value(alloc: Global, found: Found) -> Refusal
    ensures { IsRefusedBy result (wrong_type found (expected_text any_shape)) }
{
    found_other(alloc, found, &Expected::Shape(&Shape::Any))
}

// The integer, where it is a number.
fn any_unsigned(alloc: Global, integer: u128) -> Result<Value>
    ensures { Yields tree_of result (any_integer (Unsigned integer) (pos integer)) }
{
    if integer <= u64::MAX as u128 {
        Ok(Value::Number(Number::from_u64(integer as u64)))
    } else {
        Err(no_value(alloc, Found::Unsigned(integer)))
    }
}

// The integer, where it is a number.
fn any_signed(alloc: Global, integer: i128) -> Result<Value>
    ensures { Yields tree_of result (any_integer (Signed integer) integer) }
{
    if integer >= 0 {
        if integer <= u64::MAX as i128 {
            return Ok(Value::Number(Number::from_u64(integer as u64)));
        }
    } else if integer >= i64::MIN as i128 {
        return Ok(Value::Number(Number::from_i64(integer as i64)));
    }
    Err(no_value(alloc, Found::Signed(integer)))
}

// The value that was found.
fn any_found(alloc: Global, found: Found) -> Result<Value>
    ensures { Yields tree_of result (any_found found) }
{
    match found {
        Found::Unit => Ok(Value::Null),
        Found::Bool(value) => Ok(Value::Bool(value)),
        Found::Unsigned(integer) => any_unsigned(alloc, integer),
        Found::Signed(integer) => any_signed(alloc, integer),
        Found::Float(text) => Err(refuse(
            alloc,
            Error::new(Cause::FloatUnsupported { text, place: None }),
        )),
        Found::Str(text) => Ok(Value::String(text.into_string())),
        Found::Bytes => Err(no_value(alloc, Found::Bytes)),
        Found::Seq => Err(no_value(alloc, Found::Seq)),
        Found::Map => Err(no_value(alloc, Found::Map)),
        Found::UnitVariant => Err(no_value(alloc, Found::UnitVariant)),
    }
}

/// The value that a scalar is. The flag says whether its tag is taken.
pub(crate) fn any_scalar(alloc: Global, taken: bool, scalar: &DocScalar<'_>) -> Result<Value>
    ensures { Yields tree_of result (any_scalar taken (doc_scalar_of scalar.now)) }
{
    match found_in(alloc, taken, scalar) {
        Ok(found) => any_found(alloc, found),
        Err(refusal) => Err(refusal),
    }
}
