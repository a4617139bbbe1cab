//! What was found in place of what was expected.

ghost use Rattle.std.specs.Prelude.{◌≡◌, IfOk, Some};
ghost use Rattle.yaml_base.specs.FoundText.{found_text};

use crate::words::Words;
use std::alloc::{AllocError, Global};
use std::fmt;
use yaml_tree::Quoted;

/// What was found in place of what was expected.
#[derive(Drop)]
pub enum Found {
    /// A boolean.
    Bool(bool),
    /// An integer that is written without a sign, or with a plus.
    Unsigned(u128),
    /// An integer that is written with a minus.
    Signed(i128),
    /// A floating point number, as its text.
    Float(Words),
    /// A string.
    Str(Words),
    /// Bytes that are no text.
    Bytes,
    /// Null.
    Unit,
    /// A sequence.
    Seq,
    /// A mapping.
    Map,
    /// A variant without content.
    UnitVariant,
}

impl Found {
    // The same. The only error is want of memory.
    pub(crate) fn copy(&self, alloc: Global) -> Result<Found, AllocError>
        ensures { IfOk result (λ found. found ≡ self.now) }
    {
        match self {
            Found::Bool(value) => Ok(Found::Bool(*value)),
            Found::Unsigned(number) => Ok(Found::Unsigned(*number)),
            Found::Signed(number) => Ok(Found::Signed(*number)),
            Found::Float(text) => Ok(Found::Float(text.copy(alloc)?)),
            Found::Str(text) => Ok(Found::Str(text.copy(alloc)?)),
            Found::Bytes => Ok(Found::Bytes),
            Found::Unit => Ok(Found::Unit),
            Found::Seq => Ok(Found::Seq),
            Found::Map => Ok(Found::Map),
            Found::UnitVariant => Ok(Found::UnitVariant),
        }
    }
}

impl fmt::Display for Found {
    ghost output = { λ found. Some (found_text found) };

    fn fmt<W: fmt::Write>(&self, f: &mut fmt::Formatter<W>) -> fmt::Result {
        match self {
            Found::Bool(value) => write!(f, "boolean `{value}`"),
            Found::Unsigned(number) if *number > u64::MAX as u128 => write!(
                f,
                "integer `{number}` as u128"
            ),
            Found::Unsigned(number) => write!(f, "integer `{number}`"),
            Found::Signed(number) if *number < i64::MIN as i128 => write!(
                f,
                "integer `{number}` as i128"
            ),
            Found::Signed(number) => write!(f, "integer `{number}`"),
            Found::Float(text) => write!(f, "floating point `{text}`"),
            Found::Str(text) => {
                let quoted = Quoted(text.as_str());
                write!(f, "string {quoted}")
            }
            Found::Bytes => f.write_str("byte array"),
            Found::Unit => f.write_str("unit value"),
            Found::Seq => f.write_str("sequence"),
            Found::Map => f.write_str("map"),
            Found::UnitVariant => f.write_str("unit variant"),
        }
    }
}
