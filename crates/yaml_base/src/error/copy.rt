//! Copying a fault.

ghost use Rattle.std.specs.Prelude.{◌≡◌, IfOk};

use crate::error::{Cause, Place};
use crate::words::Words;
use std::alloc::{AllocError, Global};

// The same place, if there is one. The only error is want of memory.
fn copy_place(place: &Option<Place>, alloc: Global) -> Result<Option<Place>, AllocError>
    ensures { IfOk result (λ copy. copy ≡ place.now) }
{
    match place {
        Some(place) => Ok(Some(Place {
            mark: place.mark,
            path: place.path.copy(alloc)?,
        })),
        None => Ok(None),
    }
}

// The same text and place. The only error is want of memory.
fn copy_both(
    text: &Words,
    place: &Option<Place>,
    alloc: Global,
) -> Result<(Words, Option<Place>), AllocError>
    ensures { IfOk result (λ copies. (copies.0 ≡ text.now) × (copies.1 ≡ place.now)) }
{
    let text = text.copy(alloc)?;
    let place = copy_place(place, alloc)?;
    Ok((text, place))
}

impl Cause {
    // The same cause. The only error is want of memory.
    pub(crate) fn copy(&self, alloc: Global) -> Result<Cause, AllocError>
        ensures { IfOk result (λ cause. cause ≡ self.now) }
    {
        match self {
            Cause::Memory => Ok(Cause::Memory),
            Cause::NotAStream(n) => Ok(Cause::NotAStream(*n)),
            Cause::EndOfStream => Ok(Cause::EndOfStream),
            Cause::MoreThanOneDocument => Ok(Cause::MoreThanOneDocument),
            Cause::RecursionLimitExceeded(mark) => Ok(Cause::RecursionLimitExceeded(*mark)),
            Cause::RepetitionLimitExceeded => Ok(Cause::RepetitionLimitExceeded),
            Cause::BytesUnsupported => Ok(Cause::BytesUnsupported),
            Cause::UnknownAnchor(mark) => Ok(Cause::UnknownAnchor(*mark)),
            Cause::SerializeNestedEnum => Ok(Cause::SerializeNestedEnum),
            Cause::Parser(fault) => Ok(Cause::Parser(fault.copy(alloc)?)),
            Cause::InvalidType {
                found,
                expected,
                place,
            } => {
                let found = found.copy(alloc)?;
                let (expected, place) = copy_both(expected, place, alloc)?;
                Ok(Cause::InvalidType {
                    found,
                    expected,
                    place,
                })
            }
            Cause::InvalidValue {
                found,
                expected,
                place,
            } => {
                let found = found.copy(alloc)?;
                let (expected, place) = copy_both(expected, place, alloc)?;
                Ok(Cause::InvalidValue {
                    found,
                    expected,
                    place,
                })
            }
            Cause::InvalidLength {
                length,
                expected,
                place,
            } => {
                let (expected, place) = copy_both(expected, place, alloc)?;
                Ok(Cause::InvalidLength {
                    length: *length,
                    expected,
                    place,
                })
            }
            Cause::UnknownVariant {
                variant,
                known,
                place,
            } => {
                let known = known.copy(alloc)?;
                let (variant, place) = copy_both(variant, place, alloc)?;
                Ok(Cause::UnknownVariant {
                    variant,
                    known,
                    place,
                })
            }
            Cause::UnknownField { name, known, place } => {
                let known = known.copy(alloc)?;
                let (name, place) = copy_both(name, place, alloc)?;
                Ok(Cause::UnknownField { name, known, place })
            }
            Cause::MissingField { name, place } => {
                let (name, place) = copy_both(name, place, alloc)?;
                Ok(Cause::MissingField { name, place })
            }
            Cause::DuplicateField { name, place } => {
                let (name, place) = copy_both(name, place, alloc)?;
                Ok(Cause::DuplicateField { name, place })
            }
            Cause::DuplicateEntry { key, place } => {
                let key = key.copy(alloc)?;
                let place = copy_place(place, alloc)?;
                Ok(Cause::DuplicateEntry { key, place })
            }
            Cause::NestedEnum { name, tag, place } => {
                let name = name.copy(alloc)?;
                let (tag, place) = copy_both(tag, place, alloc)?;
                Ok(Cause::NestedEnum { name, tag, place })
            }
            Cause::FloatUnsupported { text, place } => {
                let (text, place) = copy_both(text, place, alloc)?;
                Ok(Cause::FloatUnsupported { text, place })
            }
            Cause::Custom { text, place } => {
                let (text, place) = copy_both(text, place, alloc)?;
                Ok(Cause::Custom { text, place })
            }
            Cause::ScalarInMerge => Ok(Cause::ScalarInMerge),
            Cause::TaggedInMerge => Ok(Cause::TaggedInMerge),
            Cause::ScalarInMergeElement => Ok(Cause::ScalarInMergeElement),
            Cause::SequenceInMergeElement => Ok(Cause::SequenceInMergeElement),
            Cause::EmptyTag => Ok(Cause::EmptyTag),
            Cause::FailedToParseNumber => Ok(Cause::FailedToParseNumber),
        }
    }
}
