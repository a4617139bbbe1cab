//! The kind of a plain text.

ghost use Rattle.std.specs.Prelude.{◌≡◌, ℕ, List};
ghost use Rattle.yaml_base.specs.Kinds.{kind_of, begins_as_string, HasKind};
ghost use Rattle.yaml_base.specs.declared.resolver.kind.Kind.{Kind as PlainKind};

use super::float::{digits_but_not_number, is_float_text};
use super::integer::{integer, unsigned};
use super::word::{parse_bool, parse_null};

/// What a plain text is.
#[derive(Clone, Copy, PartialEq, Eq, Debug)]
pub enum Kind {
    /// Null: the empty text, or a word for null.
    Null,
    /// A boolean.
    Bool(bool),
    /// An integer without a minus.
    Unsigned(u128),
    /// An integer with a minus.
    Signed(i128),
    /// A float.
    Float,
    /// A string.
    Str,
}

// Whether the text begins as nothing but a string does: with no digit, no sign, no point and no first letter of a word.
fn begins_as_string(text: &[u8]) -> bool
    ensures { result ≡ begins_as_string text.now }
{
    match text.first() {
        Some(first) => !matches!(
            first,
            b'0'..=b'9' | b'+' | b'-' | b'.' | b'~' | b'n' | b'N' | b't' | b'T' | b'f' | b'F'
        ),
        None => false,
    }
}

/// What the text is where it stands plain: each text has one kind.
pub fn resolve(scalar: &str) -> Kind
    ensures value { result ≡ kind_of scalar.now }
    ensures kind { HasKind scalar.now result }
    ensures only { (kind : PlainKind) → HasKind scalar.now kind → kind ≡ result }
{
    if begins_as_string(scalar.as_bytes()) {
        return Kind::Str;
    }
    if scalar.is_empty() || parse_null(scalar.as_bytes()).is_some() {
        return Kind::Null;
    }
    if let Some(value) = parse_bool(scalar) {
        return Kind::Bool(value);
    }
    if let Some(value) = unsigned(scalar) {
        return Kind::Unsigned(value);
    }
    if let Some(value) = integer(scalar) {
        return Kind::Signed(value);
    }
    if is_float_text(scalar) && !digits_but_not_number(scalar) {
        return Kind::Float;
    }
    Kind::Str
}

/// A law, and nothing to be run: each text has one kind.
pub fn each_text_has_one_kind()
    ensures one { (text : List ℕ) → HasKind text (kind_of text) }
    ensures only { (text : List ℕ) (kind : PlainKind) → HasKind text kind → kind ≡ kind_of text }
{}
