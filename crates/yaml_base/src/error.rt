//! Why a document was not read, or a value not written.

ghost use Rattle.std.specs.Prelude.{◌≡◌, ◌≢◌, IfErr, IfOk, None, Some, string_bytes};
ghost use Rattle.std.specs.Option.{option_map};
ghost use Rattle.yaml_base.specs.CausePlace.{cause_mark, filled};
ghost use Rattle.yaml_base.specs.PathText.{path_text};
ghost use Rattle.yaml_base.specs.Position.{counted_from_one};
ghost use Rattle.yaml_base.specs.declared.error.Cause.TheVariants.{Custom, Memory};

mod copy;
mod fill;
mod find;
mod message;
mod print;

use crate::entry_key::EntryKey;
use crate::fault::ParserFault;
use crate::found::Found;
use crate::location::Location;
use crate::mark::Mark;
use crate::path::Path;
use crate::words::{WordList, Words};
use std::alloc::{AllocError, AllocFailed, Global};
use std::marker::Model;
use yaml_tree::TreeFault;

/// The answer of a call that may fail.
pub type Result<T> = std::result::Result<T, Error>;

/// Where a fault of reading stands.
#[derive(Drop)]
pub struct Place {
    /// The mark of the node's first event; for an unknown field that of the scalar that names it.
    pub mark: Mark,
    /// The way from the root of the document to the node, as it is printed.
    pub path: Words,
}

/// Why a call failed.
///
/// Those with a field `place` are found in reading a node. They are made without a place, and are given one by
/// `Error::fix_mark`.
#[derive(Drop)]
pub enum Cause {
    /// Memory ran out.
    Memory,
    /// The events are not those of a stream. The number is that of the first event that is wrong, counted from 0, or
    /// how many events there are where only the end is wrong.
    NotAStream(usize),
    /// The events end before the value does.
    EndOfStream,
    /// There is a document after the first, or the stream was iterated.
    MoreThanOneDocument,
    /// Collections and newtypes are nested deeper than the limit allows. The mark is that of the first one too many.
    RecursionLimitExceeded(Mark),
    /// Aliases are followed more often than the limit allows.
    RepetitionLimitExceeded,
    /// Bytes are neither read nor written.
    BytesUnsupported,
    /// An alias at this mark names an anchor that no node before it has.
    UnknownAnchor(Mark),
    /// A value with two tags was to be written.
    SerializeNestedEnum,
    /// The parser failed.
    Parser(ParserFault),
    /// The node is of another type.
    InvalidType {
        /// What is there.
        found: Found,
        /// What was expected.
        expected: Words,
        /// Where it stands, once that is known.
        place: Option<Place>,
    },
    /// The node is of the right type, but has another value.
    InvalidValue {
        /// What is there.
        found: Found,
        /// What was expected.
        expected: Words,
        /// Where it stands, once that is known.
        place: Option<Place>,
    },
    /// The sequence has another length.
    InvalidLength {
        /// The length that was found.
        length: usize,
        /// What was expected.
        expected: Words,
        /// Where it stands, once that is known.
        place: Option<Place>,
    },
    /// No variant has this name.
    UnknownVariant {
        /// The name.
        variant: Words,
        /// The names of the variants.
        known: WordList,
        /// Where it stands, once that is known.
        place: Option<Place>,
    },
    /// No field has this name, and unknown fields are refused.
    UnknownField {
        /// The name.
        name: Words,
        /// The names of the fields.
        known: WordList,
        /// Where it stands, once that is known.
        place: Option<Place>,
    },
    /// A field is missing.
    MissingField {
        /// The name of the field.
        name: Words,
        /// Where it stands, once that is known.
        place: Option<Place>,
    },
    /// A field is there twice.
    DuplicateField {
        /// The name of the field.
        name: Words,
        /// Where it stands, once that is known.
        place: Option<Place>,
    },
    /// A key is there twice.
    DuplicateEntry {
        /// The key.
        key: EntryKey,
        /// Where it stands, once that is known.
        place: Option<Place>,
    },
    /// The content of a variant is itself a variant that needs a tag.
    NestedEnum {
        /// The name of the enum.
        name: Words,
        /// The tag of the outer variant.
        tag: Words,
        /// Where it stands, once that is known.
        place: Option<Place>,
    },
    /// Floating point numbers are not read.
    FloatUnsupported {
        /// The number, as it stands there.
        text: Words,
        /// Where it stands, once that is known.
        place: Option<Place>,
    },
    /// A fault with a text of its own.
    Custom {
        /// The text.
        text: Words,
        /// Where it stands, once that is known.
        place: Option<Place>,
    },
    /// What is to be merged is a scalar.
    ScalarInMerge,
    /// What is to be merged has a tag.
    TaggedInMerge,
    /// An element of what is to be merged is a scalar.
    ScalarInMergeElement,
    /// An element of what is to be merged is a sequence.
    SequenceInMergeElement,
    /// A tag is empty.
    EmptyTag,
    /// A text is no number.
    FailedToParseNumber,
}

/// A fault: why a call failed, and where.
#[derive(Drop)]
pub struct Error {
    cause: Cause,
}

impl Model for Error {
    ghost use Rattle.yaml_base.specs.declared.error.Cause.{Cause};

    ghost Value = { Cause };

    ghost view = { λ e. e.cause };
}

impl Error {
    /// The fault with this cause. Takes no memory.
    pub fn new(cause: Cause) -> Error
        ensures { result ≡ cause }
    {
        Error { cause }
    }

    /// A fault with a text of its own, and no place. Takes no memory.
    pub fn custom(text: String) -> Error
        ensures { result ≡ Custom (string_bytes text) None }
    {
        Error {
            cause: Cause::Custom {
                text: Words::new(text),
                place: None,
            },
        }
    }

    /// Why the call failed. Takes no memory.
    pub fn cause(&self) -> &Cause
        ensures { result.now ≡ self.now }
    {
        &self.cause
    }

    /// Why the call failed, for whoever makes another fault of it. Takes no memory.
    pub fn into_cause(self) -> Cause
        ensures { result ≡ self }
    {
        self.cause
    }

    /// Where the fault is, if that is known. Takes no memory.
    pub fn location(&self) -> Option<Location>
        ensures { result ≡ option_map counted_from_one (cause_mark self.now) }
    {
        let mark = self.cause.mark()?;
        Some(Location::from_mark(mark))
    }

    /// The same fault. The only error is want of memory.
    pub fn copy(&self, alloc: Global) -> Result<Error>
        ensures equal { IfOk result (λ error. error ≡ self.now) }
        ensures err { IfErr result (λ refused. refused ≡ Memory) }
    {
        Ok(Error {
            cause: self.cause.copy(alloc)?,
        })
    }

    /// The fault with this mark and this path as its place, if it is of a kind that carries a place, and carries none
    /// yet; else the fault as it is. The only error is want of memory, and it comes only where a place is filled.
    pub fn fix_mark(self, alloc: Global, mark: Mark, path: &Path<'_>) -> Result<Error>
        ensures filled { IfOk result (λ e.
            e ≡ filled self (record { mark = mark; path = path_text path.now })) }
        ensures err { IfErr result (λ refused. (refused ≡ Memory)
            × (filled self (record { mark = mark; path = path_text path.now }) ≢ self)) }
    {
        Ok(Error {
            cause: self.cause.fill(alloc, mark, path)?,
        })
    }
}

impl From<ParserFault> for Error {
    ghost use Rattle.std.specs.Prelude.{◌≡◌};
    ghost use Rattle.yaml_base.specs.declared.error.Cause.TheVariants.{Parser};

    ghost from_gives = { λ fault e. e ≡ Parser fault };

    fn from(fault: ParserFault) -> Error {
        Error {
            cause: Cause::Parser(fault),
        }
    }
}

impl From<TreeFault> for Error {
    ghost use Rattle.std.specs.Prelude.{◌≡◌};
    ghost use Rattle.yaml_base.specs.TreeFaultCause.{tree_fault_cause};

    ghost from_gives = { λ fault e. e ≡ tree_fault_cause fault };

    fn from(fault: TreeFault) -> Error {
        let cause = match fault {
            TreeFault::Memory => Cause::Memory,
            TreeFault::EmptyTag => Cause::EmptyTag,
        };
        Error { cause }
    }
}

impl From<AllocError> for Error {
    ghost use Rattle.std.specs.Prelude.{◌≡◌};
    ghost use Rattle.yaml_base.specs.declared.error.Cause.TheVariants.{Memory};

    ghost from_gives = { λ _ e. e ≡ Memory };

    fn from(_: AllocError) -> Error {
        Error {
            cause: Cause::Memory,
        }
    }
}

impl<T: Drop> From<AllocFailed<T>> for Error {
    ghost use Rattle.std.specs.Prelude.{◌≡◌};
    ghost use Rattle.yaml_base.specs.declared.error.Cause.TheVariants.{Memory};

    ghost from_gives = { λ _ e. e ≡ Memory };

    fn from(_: AllocFailed<T>) -> Error {
        Error {
            cause: Cause::Memory,
        }
    }
}
