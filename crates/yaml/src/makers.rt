//! The faults that a type asks for, with what was found and where.

ghost use Rattle.std.specs.Prelude.{◌≡◌};
ghost use Rattle.std.specs.Option.{option_and_then, option_copied};
ghost use Rattle.yaml_base.specs.DocEventView.{doc_event_of};
ghost use Rattle.yaml_base.specs.LocalName.{local_name};
ghost use Rattle.yaml_meaning.specs.NodeTags.{tag_in};

use crate::frame::{Deed, Frame, Kind, Stranger};
use crate::leaf::Leaf;
use crate::reader::Reader;
use serde::{Case, NameKind};
use yaml_base::{Cause, Error, Found, Path, Result, WordList, Words, parse_tag};
use yaml_read::DocEvent;
use yaml_shape::sequence_of;

/// Whether no other reading of the document can succeed.
pub(crate) fn is_fatal(fault: &Error) -> bool {
    matches!(
        fault.cause(),
        Cause::Memory
            | Cause::Parser(_)
            | Cause::UnknownAnchor(_)
            | Cause::RecursionLimitExceeded(_)
            | Cause::RepetitionLimitExceeded
    )
}

/// The name of the local tag of the node that begins with an event.
pub(crate) fn tag_of<'t>(event: &'t DocEvent<'_>) -> Option<&'t str>
    ensures { option_copied result
        ≡ option_and_then local_name (tag_in (doc_event_of event.entry.now)) }
{
    match event {
        DocEvent::Scalar(scalar) => parse_tag(scalar.tag.as_ref()),
        DocEvent::SequenceStart(start) | DocEvent::MappingStart(start) => parse_tag(
            start.tag.as_ref(),
        ),
        _ => None,
    }
}

impl<'a, 'de> Reader<'a, 'de> {
    // Words.
    pub(crate) fn words(&self, text: &str) -> Result<Words> {
        Ok(Words::new(String::from_str(self.alloc, text)?))
    }

    // The fault at the node that begins in one place, and stands in another within so many frames.
    fn at(&self, cause: Cause, start: usize, at: usize, top: usize) -> Result<Error> {
        let Some(mark) = self.mark_at(start) else {
            return Ok(Error::new(cause));
        };
        match self.way_to(at, top)? {
            Some(text) => Error::new(cause).fix_mark(
                self.alloc,
                mark,
                &Path::Map {
                    parent: &Path::Root,
                    key: text.as_str(),
                },
            ),
            None => Error::new(cause).fix_mark(self.alloc, mark, &Path::Root),
        }
    }

    // The fault at the node of the last step.
    pub(crate) fn at_last(&self, cause: Cause) -> Result<Error> {
        self.at(cause, self.last.start, self.last.at, self.last.top)
    }

    // The fault, or want of memory.
    pub(crate) fn made(fault: Result<Error>) -> Error {
        match fault {
            Ok(fault) => fault,
            Err(refused) => refused,
        }
    }

    // A fault with a text of its own.
    pub(crate) fn told(&self, text: &str) -> Error {
        Self::made(self.try_told(text))
    }

    fn try_told(&self, text: &str) -> Result<Error> {
        self.at_last(Cause::Custom {
            text: self.words(text)?,
            place: None,
        })
    }

    // The name that was looked for and not found.
    fn unknown_name(&self, stranger: &Stranger) -> &str {
        match (stranger.last.deed, self.event(stranger.last.start)) {
            (Deed::Tagged, Some(event)) => tag_of(event).unwrap_or(""),
            (_, Some(DocEvent::Scalar(scalar))) => {
                std::str::from_utf8(scalar.value.as_slice()).unwrap_or("")
            }
            _ => "",
        }
    }

    // The names among which it was looked for.
    fn known_names(&self, stranger: &Stranger) -> Result<WordList> {
        let mut names = Vec::new(self.alloc);
        let mut from = 0;
        for end in &stranger.ends {
            names.push(self.words(stranger.known.get(from..*end).unwrap_or(""))?)?;
            from = *end;
        }
        Ok(WordList::new(names))
    }

    /// The fault of the last unknown key.
    pub(crate) fn fault_of_field(&self) -> Error {
        Self::made(self.try_field())
    }

    fn try_field(&self) -> Result<Error> {
        let cause = Cause::UnknownField {
            name: self.words(self.unknown_name(&self.key))?,
            known: self.known_names(&self.key)?,
            place: None,
        };
        self.at(
            cause,
            self.key.last.start,
            self.key.last.at,
            self.key.last.top,
        )
    }

    /// The fault of the last unknown variant.
    pub(crate) fn fault_of_variant(&self) -> Error {
        Self::made(self.try_variant())
    }

    fn try_variant(&self) -> Result<Error> {
        let cause = Cause::UnknownVariant {
            variant: self.words(self.unknown_name(&self.variant))?,
            known: self.known_names(&self.variant)?,
            place: None,
        };
        let last = self.variant.last;
        self.at(cause, last.start, last.at, last.top)
    }

    /// The fault of a node that names no variant.
    pub(crate) fn fault_of_enum(&self) -> Error {
        match self.open_frame() {
            Some(
                Frame {
                    kind: Kind::Tag,
                    start,
                    at,
                    outer,
                    ..
                },
            ) if self.spot.taken => { Self::made(self.try_enum(start, at, outer)) }
            _ => self.fault_of(Leaf::Enum),
        }
    }

    fn try_enum(&self, start: usize, at: usize, top: usize) -> Result<Error> {
        let tag = match self.event(start) {
            Some(event) => tag_of(event).unwrap_or(""),
            None => "",
        };
        let cause = Cause::NestedEnum {
            name: self.words("enum")?,
            tag: self.words(tag)?,
            place: None,
        };
        self.at(cause, start, at, top)
    }

    /// The fault of a struct that lacks the field, whose name is spelled as those of the struct.
    pub(crate) fn fault_of_missing(&self, name: &str) -> Error {
        Self::made(self.try_missing(name))
    }

    fn try_missing(&self, name: &str) -> Result<Error> {
        let mut spelled = String::new(self.alloc);
        self.spelling
            .unwrap_or(Case::AsIs)
            .append(NameKind::Field, name, &mut spelled)?;
        self.at_last(Cause::MissingField {
            name: Words::new(spelled),
            place: None,
        })
    }

    pub(crate) fn fault_of_twice(&self, name: &str) -> Error {
        Self::made(self.try_twice(name))
    }

    fn try_twice(&self, name: &str) -> Result<Error> {
        match self.open_frame() {
            Some(
                Frame {
                    kind: Kind::Entries,
                    start,
                    at,
                    outer,
                    ..
                },
            ) => {
                let key = self.key_before(start, self.spot.place);
                let name = self.words(self.text_at(self.target(key)).unwrap_or(name))?;
                self.at(Cause::DuplicateField { name, place: None }, key, at, outer)
            }
            _ => self.at_last(Cause::DuplicateField {
                name: self.words(name)?,
                place: None,
            }),
        }
    }

    pub(crate) fn fault_of_length(&self) -> Error {
        Self::made(self.try_length())
    }

    // Whether a fault of the document cuts off the collection that begins in a place.
    fn is_cut_off(&self, start: usize) -> bool {
        match self.document.ends().get(start) {
            Some(end) => self.event(*end).is_none(),
            None => false,
        }
    }

    // The fault of a length. How long a sequence is that is cut off nobody knows: there it is the fault that does so.
    fn try_length(&self) -> Result<Error> {
        match (self.last.deed, self.open_frame()) {
            (
                Deed::Item,
                Some(
                    Frame {
                        start,
                        at,
                        outer,
                        ..
                    },
                ),
            ) => {
                if self.is_cut_off(start) {
                    return Ok(self.ended());
                }
                let read = self.part_of(start, self.spot.place).count;
                let length = self.parts_in(start);
                let expected = Words::new(sequence_of(self.alloc, read)?);
                self.at(
                    Cause::InvalidLength {
                        length,
                        expected,
                        place: None,
                    },
                    start,
                    at,
                    outer,
                )
            }
            _ => self.at_last(Cause::InvalidLength {
                length: self.parts_in(self.last.start),
                expected: self.words("another length")?,
                place: None,
            }),
        }
    }

    /// The fault of a variant that is named without the content that it has.
    pub(crate) fn fault_of_content(&self) -> Error {
        Self::made(self.try_content())
    }

    fn try_content(&self) -> Result<Error> {
        self.at_last(Cause::InvalidType {
            found: Found::UnitVariant,
            expected: self.words("variant with content")?,
            place: None,
        })
    }

    pub(crate) fn fault_of_value(&self) -> Error {
        match self.last.deed {
            Deed::NoUnit => self.fault_of(Leaf::Unit),
            Deed::Named | Deed::Tagged | Deed::TagAsked => self.fault_of_content(),
            Deed::SawTag => Self::made(self.try_tag()),
            Deed::WentBack => self.told("data did not match any variant of untagged enum"),
            Deed::Signed(number) => Self::made(self.try_range(Found::Signed(number as i128))),
            Deed::Unsigned(number) => Self::made(self.try_range(Found::Unsigned(number as u128))),
            Deed::Ended | Deed::Item | Deed::Read => self.told("invalid value"),
        }
    }

    fn try_tag(&self) -> Result<Error> {
        let tag = match self.event(self.last.start) {
            Some(event) => tag_of(event).unwrap_or(""),
            None => "",
        };
        let text = format!(in self.alloc;
            "invalid type: tag `!{tag}`, expected a value without a tag"
        )?;
        self.at_last(Cause::Custom {
            text: Words::new(text),
            place: None,
        })
    }

    fn try_range(&self, found: Found) -> Result<Error> {
        self.at_last(Cause::InvalidValue {
            found,
            expected: self.words("a number in the range of its type")?,
            place: None,
        })
    }
}
