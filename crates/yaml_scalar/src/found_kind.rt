//! What a scalar is found to be, by its text.

ghost use Rattle.std.specs.Prelude.{◌≡◌, IfOk, MatchResult};
ghost use Rattle.yaml_base.specs.DocEventView.{doc_scalar_of};
ghost use Rattle.yaml_base.specs.declared.found.Found.{Found};
ghost use Rattle.yaml_base.specs.declared.found.Found.TheVariants.{Float, Str};
ghost use Rattle.yaml_meaning.specs.ReadFault.{out_of_memory};
ghost use Rattle.yaml_meaning.specs.ReadingGives.{IsRefusedBy, Yields};
ghost use Rattle.yaml_meaning.specs.ScalarFound.{wrong_value, found_kind, found_integer, string_found};
ghost use Rattle.yaml_meaning.specs.ScalarSorts.{sort_of};
ghost use Rattle.yaml_scalar.specs.Expectations.{found_in, plain_sort};

use crate::expected::words;
use crate::refusal::{Refusal, refuse};
use crate::sort::{ScalarSort, sort_of, text_of};
use std::alloc::{AllocError, Global};
use yaml_base::{
    Cause, DocScalar, Error, Found, Kind, Words, is_float_text, parse_bool, parse_null,
    parse_signed_int, parse_unsigned_int, resolve,
};

/// The text as a string that was found.
pub(crate) fn found_string(alloc: Global, text: &str) -> Result<Found, AllocError>
    ensures { IfOk result (λ found. found ≡ Str text.now) }
{
    Ok(Found::Str(words(alloc, text)?))
}

// The text as a float that was found.
fn found_float(alloc: Global, text: &str) -> Result<Found, AllocError>
    ensures { IfOk result (λ found. found ≡ Float text.now) }
{
    Ok(Found::Float(words(alloc, text)?))
}

// The integer of at most 128 bits that a text writes.
fn found_integer(text: &str) -> Option<Found>
    ensures { result ≡ found_integer text.now }
{
    if let Some(number) = parse_unsigned_int(text, u128::MAX) {
        return Some(Found::Unsigned(number));
    }
    let number = parse_signed_int(text, i128::MIN, i128::MAX)?;
    Some(Found::Signed(number))
}

// What a plain text of the kind is.
fn found_kind(alloc: Global, text: &str, kind: Kind) -> Result<Found, AllocError>
    ensures { IfOk result (λ found. found ≡ found_kind text.now kind) }
{
    match kind {
        Kind::Null => Ok(Found::Unit),
        Kind::Bool(value) => Ok(Found::Bool(value)),
        Kind::Unsigned(number) => Ok(Found::Unsigned(number)),
        Kind::Signed(number) => Ok(Found::Signed(number)),
        Kind::Float => found_float(alloc, text),
        Kind::Str => found_string(alloc, text),
    }
}

/// What the bytes of a scalar are where no other value may stand.
pub(crate) fn found_text(alloc: Global, scalar: &DocScalar<'_>) -> Result<Found, AllocError>
    ensures { IfOk result (λ found. found ≡ string_found scalar.now.value.items) }
{
    match text_of(scalar) {
        Some(text) => found_string(alloc, text),
        None => Ok(Found::Bytes),
    }
}

/// The refusal of a node that has another value than is expected, or want of memory.
pub(crate) fn wrong_value(alloc: Global, found: Found, expected: Words) -> Refusal
    ensures { IsRefusedBy result (wrong_value found expected) }
{
    refuse(
        alloc,
        Error::new(Cause::InvalidValue {
            found,
            expected,
            place: None,
        }),
    )
}

// The refusal of a string that is none of those that are expected.
fn wrong_string(alloc: Global, text: &str, expected: &str) -> Result<Refusal, AllocError>
    ensures { IfOk result (λ refusal. IsRefusedBy refusal (wrong_value (Str text.now) expected.now)) }
{
    Ok(wrong_value(alloc, found_string(alloc, text)?, words(alloc, expected)?))
}

// The refusal of a string that is none of those that are expected, or want of memory.
#[cold]
#[inline(never)]
fn not_such(alloc: Global, text: &str, expected: &str) -> Refusal
    ensures { IsRefusedBy result (wrong_value (Str text.now) expected.now) }
{
    refusal_of(wrong_string(alloc, text, expected))
}

/// The refusal, or want of memory where there was none for its texts.
pub(crate) fn refusal_of(refusal: Result<Refusal, AllocError>) -> Refusal
    ensures { MatchResult refusal (λ r. result ≡ r) (λ _. result ≡ out_of_memory) }
{
    match refusal {
        Ok(refusal) => refusal,
        Err(_) => Refusal::memory(),
    }
}

// What a text in a row is found to be.
fn found_as(alloc: Global, sort: ScalarSort, text: &str) -> Result<Found, Refusal>
    ensures { Yields (λ (f : Found). f) result (found_in (plain_sort sort) text.now) }
{
    match sort {
        ScalarSort::NoText => Ok(Found::Bytes),
        ScalarSort::TaggedBool => match parse_bool(text) {
            Some(value) => Ok(Found::Bool(value)),
            None => Err(not_such(alloc, text, "a boolean")),
        },
        ScalarSort::TaggedInt => match found_integer(text) {
            Some(found) => Ok(found),
            None => Err(not_such(alloc, text, "an integer")),
        },
        ScalarSort::TaggedFloat => {
            if is_float_text(text) {
                Ok(found_float(alloc, text)?)
            } else {
                Err(not_such(alloc, text, "a float"))
            }
        }
        ScalarSort::TaggedNull => {
            if parse_null(text.as_bytes()).is_some() {
                Ok(Found::Unit)
            } else {
                Err(not_such(alloc, text, "null"))
            }
        }
        ScalarSort::Resolved => Ok(found_kind(alloc, text, resolve(text))?),
        ScalarSort::String => Ok(found_string(alloc, text)?),
    }
}

/// What a scalar is found to be. A tag that its text does not bear out is a fault.
pub(crate) fn found_in(alloc: Global, taken: bool, scalar: &DocScalar<'_>) -> Result<Found, Refusal>
    ensures { Yields (λ (f : Found). f) result
        (found_in (sort_of taken (doc_scalar_of scalar.now)) scalar.now.value.items) }
{
    match text_of(scalar) {
        Some(text) => found_as(alloc, sort_of(taken, scalar), text),
        None => Ok(Found::Bytes),
    }
}
