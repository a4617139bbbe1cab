//! The events that were handed out, and what is known of them.

ghost use Rattle.std.specs.Prelude.{◌≡◌, ◌++◌, ◌∷◌, ◌≢◌, ◌≤◌, ◌↔◌, [], All, IfErr, IfNone, IfOk, IfSome, IsSomeAnd, None};
ghost use Rattle.std.specs.Prelude.{Some, false, length, true, ℕ};
ghost use Rattle.std.proofs.Props.{props};
ghost use Rattle.yaml_base.specs.MarkedEvents.{plain_events};
ghost use Rattle.yaml_base.specs.Places.{place_of};
ghost use Rattle.yaml_base.specs.PlainEvent.{event_of};
ghost use Rattle.yaml_base.specs.Stream.{IsStream};
ghost use Rattle.yaml_base.specs.StreamMachine.{after_stream, before_stream, between_documents, run};
ghost use Rattle.yaml_checked.specs.declared.place.Refusal.TheVariants as refusal;
ghost use Rattle.yaml_parse.specs.Marks.{MarksAscend};
ghost use Rattle.yaml_parse.specs.Places.{AreInPlace, IsInPlace};
ghost use Rattle.yaml_parse.specs.PlainText.{SaySources, SaysSource, scalar_in};
ghost use Rattle.yaml_parse.specs.Shown.{AreShown, StandsAt};
ghost use Rattle.yaml_scan.specs.AllowedText.{IsAllowed};
ghost use Rattle.yaml_tape.specs.OnTape.{position_at};

use crate::part::Part;
use crate::place::{Refusal, begun, first_mark, reach};
use std::alloc::{AllocError, Global};
use yaml_base::{Event, History, Mark};
use yaml_parse::Events;

// The events of a text that were handed out.
#[derive(Drop)]
pub(crate) struct Given<'a> {
    pub(crate) text: &'a [u8],
    // The mark of the place where the last begins.
    here: Mark,
    pub(crate) events: History<(Event<'a>, Mark)>,
    // Which part of the stream comes next.
    part: Part,
    // Whether no event was refused.
    pub(crate) whole: bool,
    ghost allowed: { IsAllowed text.now } by { Prim.hlevel props },
    ghost begins: { run (Some before_stream) (plain_events events.items) ≢ None },
    ghost ran: { whole ≡ true → run (Some before_stream) (plain_events events.items) ≡ Some part } by { Prim.hlevel props },
    ghost shown: { AreShown text.now events.items } by { Prim.hlevel props },
    ghost plain: { SaySources events.items } by { Prim.hlevel props },
    ghost marks: { MarksAscend text.now events.items },
    ghost last: { All (λ e. e.1.index ≤ here.index) events.items },
    ghost least: { (n : ℕ) → All (λ e. e.1.index ≤ n) events.items → here.index ≤ n },
    ghost between: { (part ≡ between_documents)
        ↔ (run (Some before_stream) (plain_events events.items) ≡ Some between_documents) } by { Prim.hlevel props },
    ghost places: { AreInPlace text.now events.items } by { Prim.hlevel props },
    ghost place: { (here.line, here.column) ≡ place_of text.now here.index },
    ghost within: { here.index ≤ length text.now },
}

impl<'a> Given<'a> {
    // None of the events of a text.
    pub(crate) fn none(alloc: Global, text: &'a [u8]) -> Given<'a>
        requires { IsAllowed text.now }
        ensures text { result.text.now ≡ text.now }
        ensures events { result.events.items ≡ [] }
        ensures whole { result.whole ≡ true }
    {
        Given {
            text,
            here: first_mark(),
            events: History::new(),
            part: Part::first(alloc),
            whole: true,
        }
    }

    // Whether these are all events of a stream.
    pub(crate) fn is_stream(&self) -> bool
        requires { self.now.whole ≡ true }
        ensures stream { result ≡ true → IsStream (plain_events self.now.events.items) }
        ensures only { result ≡ false
            → run (Some before_stream) (plain_events self.now.events.items) ≢ Some after_stream }
    {
        self.part.is_done()
    }

    // The same events, if they are those of whole documents.
    pub(crate) fn behind_documents(&self, alloc: Global) -> Option<Given<'a>>
        ensures text { IfSome result (λ given. given.text.now ≡ self.now.text.now) }
        ensures events { IfSome result (λ given. given.events.items ≡ self.now.events.items) }
        ensures between { IfSome result (λ given.
            run (Some before_stream) (plain_events given.events.items) ≡ Some between_documents) }
        ensures none { IfNone result
            (run (Some before_stream) (plain_events self.now.events.items) ≢ Some between_documents) }
    {
        if !self.part.is_between() {
            return None;
        }
        Some(Given {
            text: self.text,
            here: self.here,
            events: History::copy(&self.events),
            part: Part::between(alloc),
            whole: true,
        })
    }

    // The events of the text by its tokens, of which these were handed out.
    pub(crate) fn by_tokens(&self, alloc: Global) -> Result<Events<'a>, AllocError>
        requires { run (Some before_stream) (plain_events self.now.events.items) ≡ Some between_documents }
        ensures text { IfOk result (λ events. events.text ≡ self.now.text.now) }
        ensures given { IfOk result (λ events. events.given ≡ self.now.events.items) }
    {
        Events::behind(alloc, self.text, &self.events, self.here)
    }

    // Hands out an event that begins at an index, with its mark.
    #[inline(always)]
    pub(crate) fn hand_out(
        &mut self,
        alloc: Global,
        event: Event<'a>,
        index: u32,
        late: bool,
    ) -> Result<(Event<'a>, Mark), Refusal>
        requires whole { self.old.whole ≡ true }
        requires within { index ≤ length self.old.text.now }
        requires shown { IfSome (scalar_in (event_of event)) (λ s.
            IsSomeAnd s.source (StandsAt self.old.text.now index)) }
        requires plain { SaysSource (event_of event) }
        ensures text { self.new.text.now ≡ self.old.text.now }
        ensures whole { IfOk result (λ _. self.new.whole ≡ true) }
        ensures events { IfOk result (λ item. self.new.events.items ≡ self.old.events.items ++ item ∷ []) }
        ensures event { IfOk result (λ item. item.0 ≡ event.entry) }
        ensures mark { IfOk result (λ item. IsInPlace self.old.text.now (position_at self.old.text.now index late)
            → item.1 ≡ position_at self.old.text.now index late) }
        ensures kept { IfErr result (λ _. self.new.events.items ≡ self.old.events.items) }
        ensures untrue { IfErr result (λ r. r ≢ refusal.OutOfMemory
            → All (λ e. e.1.index ≤ index) self.old.events.items
            → run (Some before_stream) (plain_events self.old.events.items ++ event_of event.entry ∷ []) ≢ None → ⊥) }
    {
        let here = reach(self.text, self.here, index as u64)?;
        let mark = begun(self.text, here, late);
        self.whole = false;
        if !self.part.go(alloc, &event)? {
            return Err(Refusal::Untrue);
        }
        let item = (event, mark);
        let events = History::with(&self.events, &item);
        self.here = here;
        self.events = events;
        self.whole = true;
        Ok(item)
    }
}
