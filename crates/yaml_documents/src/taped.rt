//! The events that the direct parser gives of a text.

ghost use Rattle.std.specs.Prelude.{◌≡◌, ◌++◌, IfErr, IfNone, IfOk, None, false, option_to_list, true};
ghost use Rattle.std.proofs.Props.{props};
ghost use Rattle.yaml_base.specs.Answer.{is_memory};
ghost use Rattle.yaml_base.specs.MarkedEvents.{plain_events, plain_marked};
ghost use Rattle.yaml_base.specs.Stream.{IsStream};
ghost use Rattle.yaml_checked.specs.OfText.{AreTextsOwn, IsOfText};
ghost use Rattle.yaml_documents.specs.inner.Places.{IsPlaceIn, given_before};
ghost use Rattle.yaml_reading.specs.Refused.{NothingStands};

use std::alloc::Global;
use yaml_base::{Cause, Error, Event, Mark, Result};
use yaml_checked::{Bookmark, Refusal, TapeEvents};
use yaml_parse::Events;

// The events that the direct parser gives.
#[derive(Drop)]
pub(crate) struct Taped<'de> {
    text: &'de [u8],
    pub(crate) events: TapeEvents<'de>,
    // The place to go back to, or none at the text's beginning.
    pub(crate) back: Option<Bookmark<'de>>,
    // Whether it left the text.
    pub(crate) left: bool,
    ghost same: { events.text ≡ text.now } by { Prim.hlevel props },
}

impl<'de> Taped<'de> {
    // The events of a text, of which none was handed out.
    pub(crate) fn new(text: &'de [u8], events: TapeEvents<'de>) -> Taped<'de>
        requires { events.text ≡ text.now }
        ensures events { result.events ≡ events.entry }
        ensures back { result.back ≡ None }
        ensures left { result.left ≡ false }
    {
        Taped {
            text,
            events,
            back: None,
            left: false,
        }
    }

    // The next event, or none behind the last or where the direct parser leaves the text.
    #[inline(always)]
    pub(crate) fn next_event(&mut self, alloc: Global) -> Result<Option<(Event<'de>, Mark)>>
        ensures text { self.new.events.text ≡ self.old.events.text }
        ensures back { self.new.back ≡ self.old.back }
        ensures given { IfOk result (λ found.
            self.new.events.given ≡ self.old.events.given ++ option_to_list found) }
        ensures of_text { IsOfText self.old.events → IsOfText self.new.events }
        ensures over { IsOfText self.old.events → IfOk result (λ found. IfNone found (self.new.left ≡ false →
            IsStream (plain_events self.new.events.given)
            × AreTextsOwn self.new.events.text (plain_marked self.new.events.given))) }
        ensures left { IsOfText self.old.events → (self.old.left ≡ true → NothingStands self.old.events.text)
            → self.new.left ≡ true → NothingStands self.new.events.text }
        ensures memory { IfErr result (λ cause. is_memory cause ≡ true) }
    {
        match self.events.next_event(alloc) {
            Ok(found) => Ok(found),
            Err(Refusal::OutOfMemory) => Err(Error::new(Cause::Memory)),
            Err(_) => {
                self.left = true;
                Ok(None)
            }
        }
    }

    // The events of the text by its tokens, behind the place to go back to.
    pub(crate) fn by_tokens(&self, alloc: Global) -> Result<Events<'de>>
        requires { IsPlaceIn self.now.events.text self.now.back }
        ensures text { IfOk result (λ events. events.text ≡ self.now.events.text) }
        ensures given { IfOk result (λ events. events.given ≡ given_before self.now.back) }
        ensures memory { IfErr result (λ cause. is_memory cause ≡ true) }
    {
        match &self.back {
            Some(place) => Ok(place.by_tokens(alloc)?),
            None => Ok(Events::new(alloc, self.text)?),
        }
    }
}
