//! Float text: digits with an optional point and an optional exponent, or a word.

ghost use Rattle.std.specs.Prelude.{◌≡◌, ◌↔◌, ◌==◌, ◌||◌, ℕ, List, IsTrue, count_by, position};
ghost use Rattle.std.specs.Char.{is_ascii_digit};
ghost use Rattle.std.specs.List.{list_all, list_any};
ghost use Rattle.yaml_base.specs.Floats.{is_numeral, is_mantissa, is_exponent_mark, is_decimal_float};
ghost use Rattle.yaml_base.specs.Floats.{is_infinity_word, is_nan_word, is_float, has_leading_zero};
ghost use Rattle.yaml_base.specs.Floats.{IsFloatText, HasLeadingZero};

use super::sign::after_sign;

fn has_only_digits(text: &[u8]) -> bool
    ensures { result ≡ list_all is_ascii_digit text.now }
{
    text.iter().all(|byte| byte.is_ascii_digit())
}

fn has_only_digits_and_points(text: &[u8]) -> bool
    ensures { result ≡ list_all (λ c. is_ascii_digit c || c == 46) text.now }
{
    text.iter()
        .all(|byte| byte.is_ascii_digit() || *byte == b'.')
}

fn has_digit(text: &[u8]) -> bool
    ensures { result ≡ list_any is_ascii_digit text.now }
{
    text.iter().any(|byte| byte.is_ascii_digit())
}

fn points(text: &[u8]) -> usize
    ensures { result ≡ count_by (λ c. c == 46) text.now }
{
    text.iter().filter(|byte| **byte == b'.').count()
}

fn exponent_place(text: &[u8]) -> Option<usize>
    ensures { result ≡ position is_exponent_mark text.now }
{
    text.iter().position(|byte| *byte == b'e' || *byte == b'E')
}

// One decimal digit or more, and nothing else.
fn is_numeral(text: &[u8]) -> bool
    ensures { result ≡ is_numeral text.now }
{
    !text.is_empty() && has_only_digits(text)
}

// Digits and at most one point, with one digit at least.
fn is_mantissa(text: &[u8]) -> bool
    ensures { result ≡ is_mantissa text.now }
{
    has_only_digits_and_points(text) && points(text) <= 1 && has_digit(text)
}

// A mantissa, and behind an `e` or `E` its exponent.
fn is_decimal_float(text: &[u8]) -> bool
    ensures { result ≡ is_decimal_float text.now }
{
    match exponent_place(text) {
        Some(place) => is_mantissa(&text[..place]) && is_numeral(after_sign(&text[place + 1..])),
        None => is_mantissa(text),
    }
}

fn is_infinity_word(text: &[u8]) -> bool
    ensures { result ≡ is_infinity_word text.now }
{
    matches!(text, b".inf" | b".Inf" | b".INF")
}

fn is_nan_word(text: &[u8]) -> bool
    ensures { result ≡ is_nan_word text.now }
{
    matches!(text, b".nan" | b".NaN" | b".NAN")
}

/// Whether the text is float text: a decimal float or `.inf` behind an optional sign, or `.nan`.
pub fn is_float_text(scalar: &str) -> bool
    ensures value { result ≡ is_float scalar.now }
    ensures exact { IsTrue result ↔ IsFloatText scalar.now }
{
    let text = scalar.as_bytes();
    let body = after_sign(text);
    is_nan_word(text) || is_infinity_word(body) || is_decimal_float(body)
}

/// Whether the text is two decimal digits or more behind an optional sign, of which the first is zero.
pub fn digits_but_not_number(scalar: &str) -> bool
    ensures value { result ≡ has_leading_zero scalar.now }
    ensures exact { IsTrue result ↔ HasLeadingZero scalar.now }
{
    let body = after_sign(scalar.as_bytes());
    body.len() > 1 && body[0] == b'0' && has_only_digits(body)
}

/// A law, and nothing to be run: what is computed of float text, and of digits behind a zero, is what their grammars
/// say.
pub fn floats_have_their_grammar()
    ensures float { (text : List ℕ) → (IsTrue (is_float text) ↔ IsFloatText text) }
    ensures leading_zero { (text : List ℕ) → (IsTrue (has_leading_zero text) ↔ HasLeadingZero text) }
{}
