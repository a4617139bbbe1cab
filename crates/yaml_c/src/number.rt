//! The texts of numbers.

ghost use Rattle.std.specs.Prelude.{◌≡◌, IfNone, IfSome, false};
ghost use Rattle.yaml_c.specs.RowEvents.{IsNumberText, boolean_word, is_number, whole};

use crate::rows::{YamlRow, kind};
use std::num::{f32_from_bits_with_nan, f64_from_bits_with_nan};

/// Room for the digits of a number.
#[derive(Drop)]
pub(crate) struct Digits {
    integer: itoa::Buffer,
    float: ryu::Buffer,
}

impl Digits {
    /// Room for one number at a time.
    pub(crate) fn new() -> Digits {
        Digits {
            integer: itoa::Buffer::new(),
            float: ryu::Buffer::new(),
        }
    }
}

// The integer in both halves of a row.
fn unsigned_in(row: &YamlRow) -> u128
    ensures { result ≡ whole row.now }
{
    row.high as u128 * (1 << 64) + row.low as u128
}

// The word for a boolean.
fn boolean_text(row: &YamlRow) -> &'static str
    ensures { result.now ≡ boolean_word row.now }
{
    if row.low == 0 { "false" } else { "true" }
}

/// The text of a row that is null, a boolean, an integer or a float, if it is one of these.
pub(crate) fn text_in<'a>(row: &YamlRow, digits: &'a mut Digits) -> Option<&'a str>
    ensures text { IfSome result (λ text. IsNumberText row.now text.now) }
    ensures none { IfNone result (is_number row.now.kind ≡ false) }
{
    match row.kind {
        kind::NULL | kind::VOID => Some("null"),
        kind::BOOL => Some(boolean_text(row)),
        kind::UNSIGNED => Some(digits.integer.format(unsigned_in(row))),
        kind::SIGNED => Some(digits.integer.format(unsigned_in(row).cast_signed())),
        kind::FLOAT => {
            let number = f64_from_bits_with_nan(row.float_bits);
            Some(yaml_float::print_f64(&mut digits.float, number))
        }
        kind::FLOAT32 => {
            let number = f32_from_bits_with_nan((row.low % (1 << 32)) as u32);
            Some(yaml_float::print_f32(&mut digits.float, number))
        }
        _ => None,
    }
}
