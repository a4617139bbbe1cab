//! The float that a text is.

ghost use Rattle.std.specs.Prelude.{◌≡◌, true, false};
ghost use Rattle.std.specs.Float.{binary32, binary64};
ghost use Rattle.std.specs.Float.Ieee.{inf, nan};
ghost use Rattle.yaml_float.specs.Float.{float_of};

use crate::word::{
    has_two_signs, is_infinity_word, is_minus_infinity_word, is_nan_word, unplussed,
};

fn infinity_f64() -> f64
    ensures { result ≡ inf false }
{
    f64::INFINITY
}

fn minus_infinity_f64() -> f64
    ensures { result ≡ inf true }
{
    f64::NEG_INFINITY
}

fn no_number_f64() -> f64
    ensures { result ≡ nan }
{
    f64::NAN
}

fn infinity_f32() -> f32
    ensures { result ≡ inf false }
{
    f32::INFINITY
}

fn minus_infinity_f32() -> f32
    ensures { result ≡ inf true }
{
    f32::NEG_INFINITY
}

fn no_number_f32() -> f32
    ensures { result ≡ nan }
{
    f32::NAN
}

/// The `f64` of a plain text: the one nearest to the decimal that the text is, or the one that a word names. A text
/// beyond the range of finite floats is none.
pub fn parse_f64(text: &[u8]) -> Option<f64>
    ensures { result ≡ float_of binary64 text.now }
{
    if has_two_signs(text) {
        return None;
    }
    let rest = unplussed(text);
    if is_infinity_word(rest) {
        return Some(infinity_f64());
    }
    if is_minus_infinity_word(text) {
        return Some(minus_infinity_f64());
    }
    if is_nan_word(text) {
        return Some(no_number_f64());
    }
    let x: f64 = fast_float::parse(rest).ok()?;
    if x.is_finite() { Some(x) } else { None }
}

/// The `f32` of a plain text: the one nearest to the decimal that the text is, or the one that a word names. A text
/// beyond the range of finite floats is none.
pub fn parse_f32(text: &[u8]) -> Option<f32>
    ensures { result ≡ float_of binary32 text.now }
{
    if has_two_signs(text) {
        return None;
    }
    let rest = unplussed(text);
    if is_infinity_word(rest) {
        return Some(infinity_f32());
    }
    if is_minus_infinity_word(text) {
        return Some(minus_infinity_f32());
    }
    if is_nan_word(text) {
        return Some(no_number_f32());
    }
    let x: f32 = fast_float::parse(rest).ok()?;
    if x.is_finite() { Some(x) } else { None }
}
