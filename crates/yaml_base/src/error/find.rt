//! What a cause carries: its mark, its place, and the parser's fault.

ghost use Rattle.std.specs.Prelude.{◌≡◌};
ghost use Rattle.std.specs.Option.{option_copied};
ghost use Rattle.yaml_base.specs.CausePlace.{cause_mark, cause_place};
ghost use Rattle.yaml_base.specs.ErrorText.{parser_fault};

use crate::error::{Cause, Place};
use crate::fault::ParserFault;
use crate::mark::Mark;

impl Cause {
    // The parser's fault, if that is the cause.
    pub(crate) fn parser_fault(&self) -> Option<&ParserFault>
        ensures { option_copied result ≡ parser_fault self.now }
    {
        match self {
            Cause::Parser(fault) => Some(fault),
            _ => None,
        }
    }

    // Where the fault stands, if it is of a kind that has a place, and the place is known.
    pub(crate) fn place(&self) -> Option<&Place>
        ensures { option_copied result ≡ cause_place self.now }
    {
        match self {
            Cause::InvalidType { place, .. }
            | Cause::InvalidValue { place, .. }
            | Cause::InvalidLength { place, .. }
            | Cause::UnknownVariant { place, .. }
            | Cause::UnknownField { place, .. }
            | Cause::MissingField { place, .. }
            | Cause::DuplicateField { place, .. }
            | Cause::DuplicateEntry { place, .. }
            | Cause::NestedEnum { place, .. }
            | Cause::FloatUnsupported { place, .. }
            | Cause::Custom { place, .. } => place.as_ref(),
            _ => None,
        }
    }

    // The mark of the fault, if it has one: its own, its problem's or its place's.
    pub(crate) fn mark(&self) -> Option<Mark>
        ensures { result ≡ cause_mark self.now }
    {
        match self {
            Cause::RecursionLimitExceeded(mark) | Cause::UnknownAnchor(mark) => Some(*mark),
            Cause::Parser(fault) => Some(fault.mark()),
            _ => {
                let place = self.place()?;
                Some(place.mark)
            }
        }
    }
}
