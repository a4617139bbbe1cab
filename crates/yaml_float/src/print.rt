//! The text of a float.

ghost use Rattle.std.specs.Prelude.{◌≡◌, Some, IsTrue, IsFalse};
ghost use Rattle.std.specs.Float.{binary32, binary64, float_is_finite};
ghost use Rattle.ryu.specs.Plain.{IsPlainNumber};
ghost use Rattle.yaml_float.specs.Float.{float_of, word_of};

use ryu::Buffer;

// The word for a float that is not finite.
fn word_f64(x: f64) -> &'static str
    requires { IsFalse (float_is_finite x) }
    ensures { result.now ≡ word_of x }
{
    if x.is_nan() {
        return ".nan";
    }
    if x.is_sign_negative() {
        "-.inf"
    } else {
        ".inf"
    }
}

// The word for a float that is not finite.
fn word_f32(x: f32) -> &'static str
    requires { IsFalse (float_is_finite x) }
    ensures { result.now ≡ word_of x }
{
    if x.is_nan() {
        return ".nan";
    }
    if x.is_sign_negative() {
        "-.inf"
    } else {
        ".inf"
    }
}

/// The text of an `f64`, as short as `ryu` makes it, in the buffer. It is read back as this very float, and as no
/// number where it is none.
pub fn print_f64(buffer: &mut Buffer, x: f64) -> &str
    ensures reads_back { float_of binary64 result.now ≡ Some x }
    ensures plain { IsTrue (float_is_finite x) → IsPlainNumber result.now }
    ensures word { IsFalse (float_is_finite x) → result.now ≡ word_of x }
{
    if x.is_finite() {
        buffer.format_finite(x)
    } else {
        word_f64(x)
    }
}

/// The text of an `f32`, as short as `ryu` makes it, in the buffer. It is read back as this very float, and as no
/// number where it is none.
pub fn print_f32(buffer: &mut Buffer, x: f32) -> &str
    ensures reads_back { float_of binary32 result.now ≡ Some x }
    ensures plain { IsTrue (float_is_finite x) → IsPlainNumber result.now }
    ensures word { IsFalse (float_is_finite x) → result.now ≡ word_of x }
{
    if x.is_finite() {
        buffer.format_finite(x)
    } else {
        word_f32(x)
    }
}
