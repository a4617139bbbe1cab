//! Floats as YAML texts: the float that a text is, and a text that is read back as the float.
#![tactic(auto)]

ghost use Rattle.std.specs.Prelude.{◌≡◌, Bool};
ghost use Rattle.std.specs.Float.Ieee.{Format};
ghost use Rattle.yaml_float.specs.Float.{IsFloatOf};
ghost use Rattle.fast_float.specs.Text.{Parts, IsWellFormed};

mod parse;
mod print;
mod word;

pub use parse::{parse_f32, parse_f64};
pub use print::{print_f32, print_f64};

/// A law, and nothing to be run: of digits with a point, a fraction and an exponent, behind a minus or none, the float
/// is the one nearest to that number.
pub fn a_decimal_is_its_nearest_float()
    ensures { (f : Format) (negative : Bool) (p : Parts) → IsWellFormed p → IsFloatOf f negative p }
{}
