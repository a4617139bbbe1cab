//! Signs, and the words for floats that are not finite.

ghost use Rattle.std.specs.Prelude.{◌≡◌, ◌==◌, ◌&&◌, drop, slice_index};
ghost use Rattle.yaml_float.specs.Float.{has_sign, has_two_signs, is_infinity_word, is_minus_infinity_word};
ghost use Rattle.yaml_float.specs.Float.{is_nan_word, unplussed};

/// Whether the text is a word for infinity.
pub(crate) fn is_infinity_word(text: &[u8]) -> bool
    ensures { result ≡ is_infinity_word text.now }
{
    matches!(text, b".inf" | b".Inf" | b".INF")
}

/// Whether the text is a word for minus infinity.
pub(crate) fn is_minus_infinity_word(text: &[u8]) -> bool
    ensures { result ≡ is_minus_infinity_word text.now }
{
    matches!(text, b"-.inf" | b"-.Inf" | b"-.INF")
}

/// Whether the text is a word for what is no number.
pub(crate) fn is_nan_word(text: &[u8]) -> bool
    ensures { result ≡ is_nan_word text.now }
{
    matches!(text, b".nan" | b".NaN" | b".NAN")
}

fn has_sign(text: &[u8]) -> bool
    ensures { result ≡ has_sign text.now }
{
    matches!(text, [b'+' | b'-', ..])
}

fn begins_with_plus(text: &[u8]) -> bool
    ensures { result ≡ (slice_index text.now 0 == 43) }
{
    matches!(text, [b'+', ..])
}

/// The text without a plus in front.
pub(crate) fn unplussed(text: &[u8]) -> &[u8]
    ensures { result.now ≡ unplussed text.now }
{
    if begins_with_plus(text) {
        &text[1..]
    } else {
        text
    }
}

/// Whether two signs begin the text, the first of them a plus.
pub(crate) fn has_two_signs(text: &[u8]) -> bool
    ensures { result ≡ has_two_signs text.now }
{
    begins_with_plus(text) && has_sign(&text[1..])
}
