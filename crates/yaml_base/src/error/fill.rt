//! Giving a fault its place.

ghost use Rattle.std.specs.Prelude.{◌≡◌, ◌≢◌, IfErr, IfOk, Some};
ghost use Rattle.yaml_base.specs.CausePlace.{filled};
ghost use Rattle.yaml_base.specs.PathText.{path_text};

use crate::error::{Cause, Place};
use crate::mark::Mark;
use crate::path::Path;
use crate::words::Words;
use std::alloc::{AllocError, Global};

// The place with this mark and the path's text. The only error is want of memory.
fn place_at(alloc: Global, mark: Mark, path: &Path<'_>) -> Result<Option<Place>, AllocError>
    ensures { IfOk result (λ place.
        place ≡ Some (record { mark = mark; path = path_text path.now })) }
{
    let text = path.to_string(alloc)?;
    Ok(Some(Place {
        mark,
        path: Words::new(text),
    }))
}

impl Cause {
    // The cause with this mark and this path as its place, if it is of a kind that carries a place, and carries none
    // yet; else the cause as it is. The only error is want of memory, where there is a place to fill.
    pub(crate) fn fill(
        self,
        alloc: Global,
        mark: Mark,
        path: &Path<'_>,
    ) -> Result<Cause, AllocError>
        ensures filled { IfOk result (λ cause.
            cause ≡ filled self (record { mark = mark; path = path_text path.now })) }
        ensures err { IfErr result (λ _. filled self (record { mark = mark; path = path_text path.now }) ≢ self) }
    {
        match self {
            Cause::InvalidType {
                found,
                expected,
                place: None,
            } => {
                let place = place_at(alloc, mark, path)?;
                Ok(Cause::InvalidType {
                    found,
                    expected,
                    place,
                })
            }
            Cause::InvalidValue {
                found,
                expected,
                place: None,
            } => {
                let place = place_at(alloc, mark, path)?;
                Ok(Cause::InvalidValue {
                    found,
                    expected,
                    place,
                })
            }
            Cause::InvalidLength {
                length,
                expected,
                place: None,
            } => {
                let place = place_at(alloc, mark, path)?;
                Ok(Cause::InvalidLength {
                    length,
                    expected,
                    place,
                })
            }
            Cause::UnknownVariant {
                variant,
                known,
                place: None,
            } => {
                let place = place_at(alloc, mark, path)?;
                Ok(Cause::UnknownVariant {
                    variant,
                    known,
                    place,
                })
            }
            Cause::UnknownField {
                name,
                known,
                place: None,
            } => {
                let place = place_at(alloc, mark, path)?;
                Ok(Cause::UnknownField { name, known, place })
            }
            Cause::MissingField { name, place: None } => {
                let place = place_at(alloc, mark, path)?;
                Ok(Cause::MissingField { name, place })
            }
            Cause::DuplicateField { name, place: None } => {
                let place = place_at(alloc, mark, path)?;
                Ok(Cause::DuplicateField { name, place })
            }
            Cause::DuplicateEntry { key, place: None } => {
                let place = place_at(alloc, mark, path)?;
                Ok(Cause::DuplicateEntry { key, place })
            }
            Cause::NestedEnum {
                name,
                tag,
                place: None,
            } => {
                let place = place_at(alloc, mark, path)?;
                Ok(Cause::NestedEnum { name, tag, place })
            }
            Cause::FloatUnsupported { text, place: None } => {
                let place = place_at(alloc, mark, path)?;
                Ok(Cause::FloatUnsupported { text, place })
            }
            Cause::Custom { text, place: None } => {
                let place = place_at(alloc, mark, path)?;
                Ok(Cause::Custom { text, place })
            }
            cause => Ok(cause),
        }
    }
}
