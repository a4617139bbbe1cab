//! Why nothing is written, in little room.

ghost use Rattle.std.specs.Prelude.{◌≡◌};
ghost use Rattle.yaml_base.specs.declared.error.Cause.TheVariants.{BytesUnsupported, SerializeNestedEnum};

use std::alloc::AllocError;
use std::marker::Model;
use yaml_base::{Cause, Error};

/// The answer of a call within a writing.
pub(crate) type Result<T> = std::result::Result<T, Refusal>;

// What is refused.
#[derive(Clone, Copy)]
enum Refused {
    // Memory that a writing asks for.
    Memory,
    // Bytes.
    Bytes,
    // A tag upon a tag.
    TagOnTag,
}

/// Why nothing is written. It is seen as its cause, and handed on in a byte.
#[derive(Drop)]
pub struct Refusal {
    refused: Refused,
}

impl Model for Refusal {
    ghost use Rattle.yaml_base.specs.declared.error.Cause.{Cause};
    ghost use Rattle.yaml_write.specs.WriteRefusals.{refused_cause};

    ghost Value = { Cause };

    ghost view = { λ r. refused_cause r.refused };
}

impl Refusal {
    /// That of bytes.
    pub(crate) fn bytes() -> Refusal
        ensures { result ≡ BytesUnsupported }
    {
        Refusal {
            refused: Refused::Bytes,
        }
    }

    /// That of a tag upon a tag.
    pub(crate) fn tag_on_tag() -> Refusal
        ensures { result ≡ SerializeNestedEnum }
    {
        Refusal {
            refused: Refused::TagOnTag,
        }
    }

    /// The same as a fault.
    pub fn into_error(self) -> Error
        ensures { result ≡ self }
    {
        Error::new(match self.refused {
            Refused::Memory => Cause::Memory,
            Refused::Bytes => Cause::BytesUnsupported,
            Refused::TagOnTag => Cause::SerializeNestedEnum,
        })
    }
}

impl From<AllocError> for Refusal {
    ghost use Rattle.std.specs.Prelude.{◌≡◌};
    ghost use Rattle.yaml_base.specs.declared.error.Cause.TheVariants.{Memory};

    ghost from_gives = { λ _ e. e ≡ Memory };

    fn from(_: AllocError) -> Refusal {
        Refusal {
            refused: Refused::Memory,
        }
    }
}

impl From<Refusal> for Error {
    ghost use Rattle.std.specs.Prelude.{◌≡◌};

    ghost from_gives = { λ refusal e. e ≡ refusal };

    fn from(refusal: Refusal) -> Error {
        refusal.into_error()
    }
}
