//! The key that stands twice in a mapping.

ghost use Rattle.std.specs.Prelude.{◌≡◌, IfOk, Some};
ghost use Rattle.yaml_base.specs.CauseText.{key_text};

use crate::words::Words;
use std::alloc::{AllocError, Global};
use std::fmt;
use yaml_tree::{Number, Quoted};

/// The key that stands twice in a mapping.
#[derive(Drop)]
pub enum EntryKey {
    /// Null.
    Null,
    /// A boolean.
    Bool(bool),
    /// A number.
    Number(Number),
    /// A string.
    String(Words),
    /// A key of another kind, which no message shows.
    Other,
}

impl EntryKey {
    // The same key. The only error is want of memory.
    pub(crate) fn copy(&self, alloc: Global) -> Result<EntryKey, AllocError>
        ensures { IfOk result (λ key. key ≡ self.now) }
    {
        match self {
            EntryKey::Null => Ok(EntryKey::Null),
            EntryKey::Bool(value) => Ok(EntryKey::Bool(*value)),
            EntryKey::Number(number) => Ok(EntryKey::Number(*number)),
            EntryKey::String(text) => Ok(EntryKey::String(text.copy(alloc)?)),
            EntryKey::Other => Ok(EntryKey::Other),
        }
    }
}

impl fmt::Display for EntryKey {
    ghost output = { λ key. Some (key_text key) };

    fn fmt<W: fmt::Write>(&self, f: &mut fmt::Formatter<W>) -> fmt::Result {
        match self {
            EntryKey::Null => f.write_str("with null key"),
            EntryKey::Bool(value) => write!(f, "with key `{value}`"),
            EntryKey::Number(number) => write!(f, "with key {number}"),
            EntryKey::String(text) => {
                let quoted = Quoted(text.as_str());
                write!(f, "with key {quoted}")
            }
            EntryKey::Other => f.write_str("in YAML map"),
        }
    }
}
