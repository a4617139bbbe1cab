//! Laws of what is printed, each the contract of a function that does nothing.

ghost use Rattle.std.specs.Prelude.{ℕ, Bool, List};
ghost use Rattle.std.specs.Str.{IsUtf8};
ghost use Rattle.yaml_base.specs.declared.emitter.AskedStyle.{AskedStyle};
ghost use Rattle.yaml_emit.specs.Says.{Says};
ghost use Rattle.yaml_emit.specs.Scalars.{styled_scalar};
ghost use Rattle.yaml_emit.specs.Styles.{chosen_style};

/// What `push_scalar` prints says the text by the rules of YAML, whatever text it is: without quotes it is the text
/// itself, on one line, and between double quotes its escapes stand for the text. Between single quotes it is said of
/// texts without line breaks, and of literal blocks nothing is said.
pub fn a_printed_scalar_says_its_text()
    ensures { (indent : ℕ) (asked : AskedStyle) (key : Bool) (text : List ℕ) → IsUtf8 text
        → Says (chosen_style text asked key) (styled_scalar indent asked key text) text }
{}
