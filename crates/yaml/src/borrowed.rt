//! Texts that are lent from the input.

ghost use Rattle.std.specs.Prelude.{◌≡◌, slice_range, IfSome};

use crate::reader::Reader;
use yaml_base::{Cause, Error, Found, Result};
use yaml_read::DocEvent;

/// The range of the text in the input, if it ends there.
pub(crate) fn range_to(input: &[u8], to: usize, text: &str) -> Option<(usize, usize)>
    ensures { IfSome result (λ r. slice_range input.now r.0 r.1 ≡ text.now) }
{
    let from = to.checked_sub(text.len())?;
    match input.get(from..to) {
        Some(bytes) if bytes == text.as_bytes() => Some((from, to)),
        _ => None,
    }
}

impl<'a, 'de> Reader<'a, 'de> {
    // The place behind a scalar's source in the input.
    fn end_of_source(&self, place: usize) -> Option<usize> {
        let index = usize::try_from(self.mark_at(place)?.index()).ok()?;
        match self.event(place)? {
            DocEvent::Scalar(scalar) => index.checked_add(scalar.repr?.len()),
            _ => None,
        }
    }

    /// Where the text that the last step read stands in the input, if it stands there as it reads. That is at the end
    /// of the node's source, behind a tag or an anchor, or before the quote there.
    pub(crate) fn range_in(&self, input: &[u8], text: &str) -> Option<(usize, usize)>
        ensures { IfSome result (λ r. slice_range input.now r.0 r.1 ≡ text.now) }
    {
        let end = self.end_of_source(self.last.start)?;
        match range_to(input, end, text) {
            Some(range) => Some(range),
            None => range_to(input, end.checked_sub(1)?, text),
        }
    }

    /// The fault of a text that was to be lent and can't be.
    pub(crate) fn fault_of_borrowing(&self, text: &str) -> Error {
        Self::made(self.try_borrowing(text))
    }

    fn try_borrowing(&self, text: &str) -> Result<Error> {
        self.at_last(Cause::InvalidType {
            found: Found::Str(self.words(text)?),
            expected: self.words("a borrowed string")?,
            place: None,
        })
    }
}
