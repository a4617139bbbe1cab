//! Integer text: an optional sign, then digits of one of four bases.

ghost use Rattle.std.specs.Prelude.{◌≡◌, ◌^◌, ◌-◌, ◌≤◌, ℕ, ℤ, pos, neg_ℤ, ◌≤ℤ◌, ◌↔◌, List, MatchOption, Some};
ghost use Rattle.std.specs.Prelude.{if◌then◌else◌};
ghost use Rattle.yaml_base.specs.Integers.{number_in_base, number_in_any_base, digits_number, decimal as decimal_base};
ghost use Rattle.yaml_base.specs.Integers.{integer_of};
ghost use Rattle.yaml_base.specs.Integers.{unsigned_of, negative_of};
ghost use Rattle.yaml_base.specs.Integers.{in_range, up_to, IsIntegerText, IsUnsignedText, IsNegativeText};

use super::sign::{after_prefix, split_sign};

// The number that the digits write in the base, if it fits.
fn digits_number(digits: &str, base: u32) -> Option<u128>
    requires at_least { 2 ≤ base }
    requires at_most { base ≤ 36 }
    ensures { result ≡ up_to (2 ^ 128 - 1) (digits_number base digits.now) }
{
    if digits.starts_with('+') {
        return None;
    }
    u128::from_str_radix(digits, base).ok()
}

// The number that decimal text writes, if it fits.
fn decimal(text: &str) -> Option<u128>
    ensures { result ≡ up_to (2 ^ 128 - 1) (number_in_base decimal_base text.now) }
{
    if text.len() > 1 && text.starts_with('0') {
        return None;
    }
    digits_number(text, 10)
}

// The number that the text writes without a sign, if it fits.
fn number(text: &str) -> Option<u128>
    ensures { result ≡ up_to (2 ^ 128 - 1) (number_in_any_base text.now) }
{
    if let Some(digits) = after_prefix(text, "0x") {
        return digits_number(digits, 16);
    }
    if let Some(digits) = after_prefix(text, "0o") {
        return digits_number(digits, 8);
    }
    if let Some(digits) = after_prefix(text, "0b") {
        return digits_number(digits, 2);
    }
    decimal(text)
}

// The number, or behind a minus its opposite, if it fits.
fn under_sign(negative: bool, size: u128) -> Option<i128>
    ensures { result ≡ in_range (neg_ℤ (pos (2 ^ 127))) (pos (2 ^ 127 - 1))
        (Some (if negative then neg_ℤ (pos size) else pos size)) }
{
    if !negative {
        return i128::try_from(size).ok();
    }
    if size > 1 << 127 {
        return None;
    }
    Some(size.cast_signed().wrapping_neg())
}

// The integer that the text writes, if it fits.
pub(super) fn integer(text: &str) -> Option<i128>
    ensures { result ≡ in_range (neg_ℤ (pos (2 ^ 127))) (pos (2 ^ 127 - 1)) (integer_of text.now) }
{
    let (negative, body) = split_sign(text);
    let size = number(body)?;
    under_sign(negative, size)
}

// The number that text without a minus writes, if it fits.
pub(super) fn unsigned(text: &str) -> Option<u128>
    ensures { result ≡ up_to (2 ^ 128 - 1) (unsigned_of text.now) }
{
    let (negative, body) = split_sign(text);
    if negative { None } else { number(body) }
}

// The integer that decimal text writes, or text in another base with a minus, if it fits.
fn negative(text: &str) -> Option<i128>
    ensures { result ≡ in_range (neg_ℤ (pos (2 ^ 127))) (pos (2 ^ 127 - 1)) (negative_of text.now) }
{
    let (negative, body) = split_sign(text);
    if negative {
        return integer(text);
    }
    let size = decimal(body)?;
    under_sign(negative, size)
}

// The number, where it is not above `max`.
fn at_most(value: Option<u128>, max: u128) -> Option<u128>
    ensures { result ≡ up_to max value }
{
    value.filter(|value| *value <= max)
}

// The integer, where it lies in the range.
fn within(value: Option<i128>, min: i128, max: i128) -> Option<i128>
    ensures { result ≡ in_range min max value }
{
    value.filter(|value| min <= *value && *value <= max)
}

/// The number that the text writes, where it is integer text without a minus and the number is not above `max`.
pub fn parse_unsigned_int(scalar: &str, max: u128) -> Option<u128>
    ensures value { result ≡ up_to max (unsigned_of scalar.now) }
    ensures exact { MatchOption result
        ((n : ℕ) → n ≤ max → ¬ (IsUnsignedText scalar.now n))
        (λ n. IsUnsignedText scalar.now n × (n ≤ max)) }
{
    at_most(unsigned(scalar), max)
}

/// The integer that the text writes, where it is integer text and the integer lies from `min` to `max`.
pub fn parse_signed_int(scalar: &str, min: i128, max: i128) -> Option<i128>
    ensures value { result ≡ in_range min max (integer_of scalar.now) }
    ensures exact { MatchOption result
        ((z : ℤ) → min ≤ℤ z → z ≤ℤ max → ¬ (IsIntegerText scalar.now z))
        (λ z. IsIntegerText scalar.now z × (min ≤ℤ z) × (z ≤ℤ max)) }
{
    within(integer(scalar), min, max)
}

/// The integer that the text writes, where it is decimal, or has a minus before its prefix, and lies from `min` to
/// `max`.
pub fn parse_negative_int(scalar: &str, min: i128, max: i128) -> Option<i128>
    ensures value { result ≡ in_range min max (negative_of scalar.now) }
    ensures exact { MatchOption result
        ((z : ℤ) → min ≤ℤ z → z ≤ℤ max → ¬ (IsNegativeText scalar.now z))
        (λ z. IsNegativeText scalar.now z × (min ≤ℤ z) × (z ≤ℤ max)) }
{
    within(negative(scalar), min, max)
}

/// A law, and nothing to be run: what is computed of a text is what the grammar of integer text says.
pub fn integers_have_their_grammar()
    ensures any_sign { (text : List ℕ) (z : ℤ) → (integer_of text ≡ Some z) ↔ IsIntegerText text z }
    ensures no_minus { (text : List ℕ) (n : ℕ) → (unsigned_of text ≡ Some n) ↔ IsUnsignedText text n }
    ensures decimal_or_minus { (text : List ℕ) (z : ℤ)
        → (negative_of text ≡ Some z) ↔ IsNegativeText text z }
{}
