//! The events of a text, by the direct parser as far as that takes it, else by its tokens.

ghost use Rattle.std.specs.Prelude.{◌≡◌, ◌≢◌, ◌++◌, [], IfErr, IfNone, IfOk, IsSomeAnd, Some, false, is_some};
ghost use Rattle.std.specs.Prelude.{option_to_list, true};
ghost use Rattle.yaml_base.specs.Answer.{is_memory};
ghost use Rattle.yaml_base.specs.MarkedEvents.{plain_events};
ghost use Rattle.yaml_base.specs.Stream.{IsBeginning, IsWellFormed};
ghost use Rattle.yaml_base.specs.StreamMachine.{before_stream, between_documents, run};
ghost use Rattle.yaml_checked.specs.OfText.{MayBeLeft};
ghost use Rattle.yaml_documents.specs.TextEvents.{AreTheirs};
ghost use Rattle.yaml_documents.specs.inner.Sources.{IsBackIn, IsOfItsText, IsOver, Stays, back_of, given_of, is_tape};
ghost use Rattle.yaml_documents.specs.inner.Sources.{text_of};
ghost use Rattle.yaml_parse.specs.Faults.{IsNotReaders};
ghost use Rattle.yaml_parse.specs.Marks.{MarksAscend};
ghost use Rattle.yaml_parse.specs.Places.{AreInPlace};
ghost use Rattle.yaml_parse.specs.PlainText.{SaySources};
ghost use Rattle.yaml_parse.specs.Shown.{AreShown};
ghost use Rattle.yaml_reading.specs.Refused.{NothingStands};
ghost use Rattle.yaml_scan.specs.AllowedText.{IsAllowed, IsOfReader};

use crate::taped::Taped;
use std::alloc::Global;
use std::marker::Model;
use yaml_base::{Event, Mark, ParserFault, Result};
use yaml_checked::TapeEvents;
use yaml_parse::{Ending, Events};

// Where the events come from.
#[derive(Drop)]
enum Source<'de> {
    Tape(Taped<'de>),
    Tokens(Events<'de>),
}

// The events of a text, of which the first were handed out.
#[derive(Drop)]
pub(crate) struct TextEvents<'de> {
    source: Source<'de>,
    // Whether it was said that no more events come.
    over: bool,
}

impl<'de> Model for TextEvents<'de> {
    ghost use Rattle.yaml_documents.specs.inner.Sources.{PlainSource};

    ghost Value = { PlainSource };

    ghost use Rattle.std.specs.Prelude.{◌≡◌, true};
    ghost use Rattle.yaml_documents.specs.inner.Sources.{IsBackIn, IsOfItsText, IsOver, back_of, given_of, is_tape};
    ghost use Rattle.yaml_documents.specs.inner.Sources.{left_of, text_of};

    ghost view = { λ t. record {
      text = text_of t.source;
      given = given_of t.source;
      back = back_of t.source;
      by_tape = is_tape t.source;
      left = left_of t.source;
      over = t.over;
    } };

    ghost invariant = { λ t. IsBackIn t.source × (t.over ≡ true → IsOver t.source) × IsOfItsText t.source };
}

// The next event from there, with the mark where it begins, or `None` where no more come from there.
#[inline(always)]
fn next_of<'de>(alloc: Global, source: &mut Source<'de>) -> Result<Option<(Event<'de>, Mark)>>
    requires own { IsOfItsText source.old }
    requires back_in { IsBackIn source.old }
    ensures text { text_of source.new ≡ text_of source.old }
    ensures tape { is_tape source.new ≡ is_tape source.old }
    ensures back { is_tape source.old ≡ true → back_of source.new ≡ back_of source.old }
    ensures given { IfOk result (λ found. given_of source.new ≡ given_of source.old ++ option_to_list found) }
    ensures own { IsOfItsText source.new }
    ensures back_in { IsBackIn source.new }
    ensures over { IfOk result (λ found. IfNone found (IsOver source.new)) }
    ensures memory { IfErr result (λ cause. is_memory cause ≡ true) }
{
    match source {
        Source::Tape(taped) => taped.next_event(alloc),
        Source::Tokens(events) => Ok(events.next_event()?),
    }
}

// The events by the text's tokens, behind the place to go back to.
fn tokens_of<'de>(alloc: Global, source: Source<'de>) -> Result<Events<'de>>
    requires { IsBackIn source }
    ensures text { IfOk result (λ events. events.text ≡ text_of source.entry) }
    ensures given { IfOk result (λ events. events.given ≡ back_of source.entry) }
    ensures memory { IfErr result (λ cause. is_memory cause ≡ true) }
{
    match source {
        Source::Tape(taped) => taped.by_tokens(alloc),
        Source::Tokens(events) => Ok(events),
    }
}

// Why no more events come by tokens, where that was said.
fn fault_of(alloc: Global, events: Events<'_>) -> Result<Option<ParserFault>>
    ensures taken { events.entry.over ≡ true → IfOk result (λ fault.
        IsWellFormed (is_some fault) (plain_events events.entry.given)) }
    ensures allowed { IsAllowed events.entry.text → IfOk result (λ fault. IsNotReaders fault) }
    ensures none { (IsAllowed events.entry.text → ⊥) → events.entry.given ≡ [] }
    ensures refused { (IsAllowed events.entry.text → ⊥) → IfOk result (λ fault.
        IsSomeAnd fault (λ f. IsOfReader events.entry.text f.kind f.offset)) }
    ensures memory { IfErr result (λ cause. is_memory cause ≡ true) }
{
    let Ending { fault, .. } = events.finish(alloc)?;
    Ok(fault)
}

impl<'de> TextEvents<'de> {
    // The events of a text, of which none was handed out.
    pub(crate) fn new(alloc: Global, text: &'de [u8]) -> Result<TextEvents<'de>>
        ensures text { IfOk result (λ events. events.text ≡ text.now) }
        ensures none { IfOk result (λ events. events.given ≡ []) }
        ensures back { IfOk result (λ events. events.back ≡ []) }
        ensures memory { IfErr result (λ cause. is_memory cause ≡ true) }
    {
        let source = match TapeEvents::by_document(alloc, text)? {
            Some(events) => Source::Tape(Taped::new(text, events)),
            None => Source::Tokens(Events::new(alloc, text)?),
        };
        Ok(TextEvents {
            source,
            over: false,
        })
    }

    // The next event, with the mark where it begins, or `None` where no more come from there.
    #[inline(always)]
    pub(crate) fn next_event(&mut self, alloc: Global) -> Result<Option<(Event<'de>, Mark)>>
        ensures stays { Stays self.old self.new }
        ensures given { IfOk result (λ found. self.new.given ≡ self.old.given ++ option_to_list found) }
        ensures over { IfOk result (λ found. IfNone found (self.new.over ≡ true)) }
        ensures memory { IfErr result (λ cause. is_memory cause ≡ true) }
    {
        self.over = false;
        let found = next_of(alloc, &mut self.source)?;
        self.over = found.is_none();
        Ok(found)
    }

    // Whether the direct parser left the text: then no documents stand in it.
    pub(crate) fn is_left(&self) -> bool
        ensures left { result ≡ self.now.left }
        ensures nothing { result ≡ true → NothingStands self.now.text }
        ensures by_tape { result ≡ true → self.now.by_tape ≡ true }
    {
        match &self.source {
            Source::Tape(taped) => taped.left,
            Source::Tokens(_) => false,
        }
    }

    // Keeps the place behind the events that were handed out as the one to go back to, and tells whether it could: not
    // amid a document.
    pub(crate) fn keep_place(&mut self, alloc: Global) -> bool
        ensures text { self.new.text ≡ self.old.text }
        ensures given { self.new.given ≡ self.old.given }
        ensures by_tape { self.new.by_tape ≡ self.old.by_tape }
        ensures kept { result ≡ true → self.new.back ≡ self.new.given }
        ensures failed { result ≡ false → (self.old.by_tape ≡ true) × (self.new.back ≡ self.old.back) }
        ensures amid { result ≡ false
            → run (Some before_stream) (plain_events self.old.given) ≢ Some between_documents }
    {
        self.over = false;
        match &mut self.source {
            Source::Tape(taped) => match taped.events.bookmark(alloc) {
                Some(place) => {
                    taped.back = Some(place);
                    true
                }
                None => false,
            },
            Source::Tokens(_) => true,
        }
    }

    // The events by the text's tokens, behind the place to go back to.
    pub(crate) fn by_tokens(self, alloc: Global) -> Result<TextEvents<'de>>
        requires { MayBeLeft self.text }
        ensures text { IfOk result (λ events. events.text ≡ self.entry.text) }
        ensures given { IfOk result (λ events. events.given ≡ self.entry.back) }
        ensures back { IfOk result (λ events. events.back ≡ events.given) }
        ensures by_tape { IfOk result (λ events. events.by_tape ≡ false) }
        ensures memory { IfErr result (λ cause. is_memory cause ≡ true) }
    {
        let events = tokens_of(alloc, self.source)?;
        Ok(TextEvents {
            source: Source::Tokens(events),
            over: false,
        })
    }

    // What is known of the events that were handed out. This is a law: the call does nothing.
    pub(crate) fn has_events(&self)
        ensures begins { IsBeginning (plain_events self.now.given) }
        ensures sources { AreShown self.now.text self.now.given }
        ensures plain { SaySources self.now.given }
        ensures marks { MarksAscend self.now.text self.now.given }
        ensures places { AreInPlace self.now.text self.now.given }
    {
        match &self.source {
            Source::Tape(taped) => taped.events.has_events(),
            Source::Tokens(events) => events.has_events(),
        }
    }

    // Why no more events come, where that was said and the direct parser did not leave the text: the parser's fault, if
    // it met one. Where documents stand in the text it met none, and the events were theirs.
    pub(crate) fn finish(self, alloc: Global) -> Result<Option<ParserFault>>
        ensures taken { self.entry.over ≡ true → self.entry.left ≡ false → IfOk result (λ fault.
            IsWellFormed (is_some fault) (plain_events self.entry.given)) }
        ensures allowed { IsAllowed self.entry.text → IfOk result (λ fault. IsNotReaders fault) }
        ensures none { (IsAllowed self.entry.text → ⊥) → self.entry.given ≡ [] }
        ensures refused { (IsAllowed self.entry.text → ⊥) → IfOk result (λ fault.
            IsSomeAnd fault (λ f. IsOfReader self.entry.text f.kind f.offset)) }
        ensures theirs { self.entry.over ≡ true → self.entry.left ≡ false
            → IfOk result (AreTheirs self.entry.text self.entry.given) }
        ensures memory { IfErr result (λ cause. is_memory cause ≡ true) }
    {
        match self.source {
            Source::Tape(taped) => {
                taped.events.has_events();
                Ok(None)
            }
            Source::Tokens(events) => fault_of(alloc, events),
        }
    }
}
