//! The style that is asked for a string.

ghost use Rattle.std.specs.Prelude.{◌≡◌};
ghost use Rattle.yaml_base.specs.AskedStyles.{asked_style};

use crate::emitter::AskedStyle;
use crate::resolver::{Kind, digits_but_not_number, resolve};

/// The style to ask for the string, so that it reads back as a string: a literal block where it has a line feed, single
/// quotes where it would be read as something else when plain or is digits behind a zero, such as `007`, and otherwise
/// any.
pub fn infer_style(scalar: &str) -> AskedStyle
    ensures { result ≡ asked_style scalar.now }
{
    if scalar.as_bytes().contains(&b'\n') {
        return AskedStyle::Literal;
    }
    if digits_but_not_number(scalar) {
        return AskedStyle::SingleQuoted;
    }
    match resolve(scalar) {
        Kind::Str => AskedStyle::Any,
        _ => AskedStyle::SingleQuoted,
    }
}
