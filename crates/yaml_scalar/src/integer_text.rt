//! The integer that a scalar writes.

ghost use Rattle.std.specs.Prelude.{◌≡◌, ◌<◌, ◌≤◌, ◌≤ℤ◌, ◌^◌, neg_ℤ, pos, Bool, true, false, Some, IfSome, Ok};
ghost use Rattle.std.specs.Prelude.{option_and_then};
ghost use Rattle.std.specs.Str.{IsUtf8};
ghost use Rattle.std.specs.Str.Parse.{AllDigits};
ghost use Rattle.yaml_base.specs.DocEventView.{doc_scalar_of};
ghost use Rattle.yaml_base.specs.Integers.{number_in_base, decimal, integer_of, unsigned_of};
ghost use Rattle.yaml_meaning.specs.CoreTags.{int_tag};
ghost use Rattle.yaml_base.specs.PlainEvent.{PlainScalar};
ghost use Rattle.yaml_meaning.specs.ScalarShapes.{plain_text, scalar_answer, signed_text, unsigned_text, utf8_text};
ghost use Rattle.yaml_meaning.specs.ScalarShapes.{widest};
ghost use Rattle.yaml_meaning.specs.ScalarSorts.{is_plain};
ghost use Rattle.yaml_shape.specs.IntegerTypes.{greatest, has_sign, is_of_type};
ghost use Rattle.yaml_shape.specs.IntegerView.{integer_type_of};
ghost use Rattle.yaml_shape.specs.PlainData.{signed_data, unsigned_data};
ghost use Rattle.yaml_shape.specs.PlainShape.{integer_shape};

use crate::decimal::small_number;
use crate::sort::{is_plain, is_plain_or_tagged_literal, utf8_text};
use yaml_base::{DocScalar, Tag, parse_signed_int, parse_unsigned_int};
use yaml_shape::{IntegerRange, IntegerType};

// The greatest number that is read as one of the type: of a type with 128 bits, that of the same with 64.
fn small_greatest(integer: IntegerType) -> u64
    ensures { pos result ≤ℤ greatest (integer_type_of integer) }
{
    match integer {
        IntegerType::I8 => i8::MAX as u64,
        IntegerType::I16 => i16::MAX as u64,
        IntegerType::I32 => i32::MAX as u64,
        IntegerType::I64 | IntegerType::I128 | IntegerType::Isize => i64::MAX as u64,
        IntegerType::U8 => u8::MAX as u64,
        IntegerType::U16 => u16::MAX as u64,
        IntegerType::U32 => u32::MAX as u64,
        IntegerType::U64 | IntegerType::U128 | IntegerType::Usize => u64::MAX,
    }
}

// The number that a few decimal digits write, without a zero in front, if it is at most the greatest.
#[inline(always)]
fn small_up_to(greatest: u64, digits: &[u8]) -> Option<u64>
    ensures digits { IfSome result (λ n. AllDigits 10 digits.now) }
    ensures number { IfSome result (λ n. number_in_base decimal digits.now ≡ Some n) }
    ensures small { IfSome result (λ n. n < 10 ^ 18) }
    ensures most { IfSome result (λ n. n ≤ greatest) }
{
    match small_number(digits) {
        Some(number) if number <= greatest => Some(number),
        _ => None,
    }
}

// The integer that a few decimal digits write, behind a minus or without a sign, if the greatest is not passed.
#[inline(always)]
fn small_signed(greatest: u64, text: &[u8]) -> Option<i64>
    ensures text { IfSome result (λ z. IsUtf8 text.now) }
    ensures value { IfSome result (λ z. integer_of text.now ≡ Some z) }
    ensures low { IfSome result (λ z. neg_ℤ (pos (10 ^ 18)) ≤ℤ z) }
    ensures high { IfSome result (λ z. z ≤ℤ pos (10 ^ 18)) }
    ensures least { IfSome result (λ z. neg_ℤ (pos greatest) ≤ℤ z) }
    ensures most { IfSome result (λ z. z ≤ℤ pos greatest) }
{
    match text.split_first() {
        Some((sign, digits)) if *sign == b'-' => {
            let number = small_up_to(greatest, digits)?;
            Some(-(number as i64))
        }
        Some((zero, rest)) if *zero == b'0' => if rest.is_empty() { Some(0) } else { None },
        _ => {
            let number = small_up_to(greatest, text)?;
            Some(number as i64)
        }
    }
}

// The integer that a few decimal digits write, if the greatest is not passed.
#[inline(always)]
fn small_unsigned(greatest: u64, text: &[u8]) -> Option<u64>
    ensures text { IfSome result (λ n. IsUtf8 text.now) }
    ensures value { IfSome result (λ n. unsigned_of text.now ≡ Some n) }
    ensures small { IfSome result (λ n. n < 10 ^ 18) }
    ensures most { IfSome result (λ n. n ≤ greatest) }
{
    match text.split_first() {
        Some((zero, rest)) if *zero == b'0' => if rest.is_empty() { Some(0) } else { None },
        _ => small_up_to(greatest, text),
    }
}

/// The integer of a type with a sign that a plain scalar writes with a few decimal digits.
#[inline(always)]
pub(crate) fn small_signed_in(integer: IntegerType, scalar: &DocScalar<'_>) -> Option<i64>
    requires { has_sign (integer_type_of integer) ≡ true }
    ensures held { IfSome result (λ z. is_of_type (integer_type_of integer) z ≡ true) }
    ensures value { IfSome result (λ z. (taken : Bool) →
        option_and_then (signed_text (integer_type_of integer)) (plain_text int_tag taken (doc_scalar_of scalar.now))
        ≡ Some z) }
{
    // asked for first, so that the shape tells it
    let greatest = small_greatest(integer);
    if !is_plain(scalar.style) {
        return None;
    }
    small_signed(greatest, &scalar.value)
}

/// The integer of a type without a sign that a plain scalar writes with a few decimal digits.
#[inline(always)]
pub(crate) fn small_unsigned_in(integer: IntegerType, scalar: &DocScalar<'_>) -> Option<u64>
    requires { has_sign (integer_type_of integer) ≡ false }
    ensures held { IfSome result (λ n. is_of_type (integer_type_of integer) (pos n) ≡ true) }
    ensures value { IfSome result (λ n. (taken : Bool) →
        option_and_then (unsigned_text (integer_type_of integer)) (plain_text int_tag taken (doc_scalar_of scalar.now))
        ≡ Some n) }
{
    // asked for first, so that the shape tells it
    let greatest = small_greatest(integer);
    if !is_plain(scalar.style) {
        return None;
    }
    small_unsigned(greatest, &scalar.value)
}

/// The integer of a type with a sign that a plain scalar with this text writes with a few decimal digits, whatever its
/// tag.
#[inline(always)]
pub fn small_signed_of(integer: IntegerType, text: &[u8]) -> Option<i64>
    requires { has_sign (integer_type_of integer) ≡ true }
    ensures held { IfSome result (λ z. is_of_type (integer_type_of integer) z ≡ true) }
    ensures value { IfSome result (λ z. (s : PlainScalar) (taken : Bool) → s.text ≡ text.now → is_plain s.style ≡ true
        → scalar_answer (integer_shape (integer_type_of integer)) taken s ≡ Ok (signed_data z)) }
{
    small_signed(small_greatest(integer), text)
}

/// The integer of a type without a sign that a plain scalar with this text writes with a few decimal digits, whatever
/// its tag.
#[inline(always)]
pub fn small_unsigned_of(integer: IntegerType, text: &[u8]) -> Option<u64>
    requires { has_sign (integer_type_of integer) ≡ false }
    ensures held { IfSome result (λ n. is_of_type (integer_type_of integer) (pos n) ≡ true) }
    ensures value { IfSome result (λ n. (s : PlainScalar) (taken : Bool) → s.text ≡ text.now → is_plain s.style ≡ true
        → scalar_answer (integer_shape (integer_type_of integer)) taken s ≡ Ok (unsigned_data n)) }
{
    small_unsigned(small_greatest(integer), text)
}

// The type as which an integer is read, before it is known to be one of its own type.
fn widest(integer: IntegerType) -> IntegerType
    ensures { integer_type_of result ≡ widest (integer_type_of integer) }
{
    match integer {
        IntegerType::I128 | IntegerType::U128 => integer,
        _ if integer.has_sign() => IntegerType::I64,
        _ => IntegerType::U64,
    }
}

// The integer that bytes write, of a type with a sign or past it.
fn signed_of(integer: IntegerType, bytes: &[u8]) -> Option<i128>
    requires { has_sign (integer_type_of integer) ≡ true }
    ensures { result ≡ option_and_then (signed_text (integer_type_of integer)) (utf8_text bytes.now) }
{
    match widest(integer).range() {
        IntegerRange::Signed { least, greatest } => {
            parse_signed_int(utf8_text(bytes)?, least, greatest)
        }
        IntegerRange::Unsigned { greatest: _ } => unreachable!(),
    }
}

// The integer that bytes write, of a type without a sign or past it.
fn unsigned_of(integer: IntegerType, bytes: &[u8]) -> Option<u128>
    requires { has_sign (integer_type_of integer) ≡ false }
    ensures { result ≡ option_and_then (unsigned_text (integer_type_of integer)) (utf8_text bytes.now) }
{
    match widest(integer).range() {
        IntegerRange::Unsigned { greatest } => parse_unsigned_int(utf8_text(bytes)?, greatest),
        IntegerRange::Signed {
            least: _,
            greatest: _,
        } => unreachable!(),
    }
}

/// The integer that a scalar writes, of a type with a sign, or past it in the bits that are read.
#[tactic(auto, unfolding(yaml_meaning::specs::CoreTags::int_tag))]
pub(crate) fn signed_in(integer: IntegerType, taken: bool, scalar: &DocScalar<'_>) -> Option<i128>
    requires { has_sign (integer_type_of integer) ≡ true }
    ensures { result ≡ option_and_then (signed_text (integer_type_of integer))
        (plain_text int_tag taken (doc_scalar_of scalar.now)) }
{
    if !is_plain_or_tagged_literal(Tag::INT, taken, scalar) {
        return None;
    }
    signed_of(integer, &scalar.value)
}

/// The integer that a scalar writes, of a type without a sign, or past it in the bits that are read.
#[tactic(auto, unfolding(yaml_meaning::specs::CoreTags::int_tag))]
pub(crate) fn unsigned_in(integer: IntegerType, taken: bool, scalar: &DocScalar<'_>) -> Option<u128>
    requires { has_sign (integer_type_of integer) ≡ false }
    ensures { result ≡ option_and_then (unsigned_text (integer_type_of integer))
        (plain_text int_tag taken (doc_scalar_of scalar.now)) }
{
    if !is_plain_or_tagged_literal(Tag::INT, taken, scalar) {
        return None;
    }
    unsigned_of(integer, &scalar.value)
}
