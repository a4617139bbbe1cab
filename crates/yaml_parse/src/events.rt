//! The events of a text, one after another.

ghost use Rattle.std.specs.Prelude.{◌≡◌, ◌<◌, ◌∷◌, ◌++◌, [], IfErr, IfNone, IfOk, IsSomeAnd, false, is_some};
ghost use Rattle.std.specs.Prelude.{option_to_list, true};
ghost use Rattle.yaml_base.specs.MarkedEvents.{plain_events};
ghost use Rattle.yaml_base.specs.Stream.{IsBeginning, IsWellFormed};
ghost use Rattle.yaml_parse.specs.BehindDocuments.{AreBefore};
ghost use Rattle.yaml_parse.specs.Faults.{IsNotReaders};
ghost use Rattle.yaml_parse.specs.Marks.{MarksAscend};
ghost use Rattle.yaml_parse.specs.Places.{AreInPlace};
ghost use Rattle.yaml_parse.specs.PlainText.{SaySources};
ghost use Rattle.yaml_parse.specs.Shown.{AreShown};
ghost use Rattle.yaml_scan.specs.AllowedText.{IsAllowed, IsOfReader};

use crate::reading::Reading;
use crate::{Ending, Parser, unread};
use std::alloc::{AllocError, Global};
use std::marker::Model;
use yaml_base::{Event, History, Mark};
use yaml_scan::{Fault, Scanned, scan, scan_behind};

// Where the events of a text come from: its tokens, or nowhere, where the text could not be read.
#[derive(Drop)]
enum Source<'a> {
    Text(Reading<'a>),
    Unread(Fault),
}

/// The events of a text, of which the first were handed out. The text is read as far as that takes.
#[derive(Drop)]
pub struct Events<'a> {
    text: &'a [u8],
    source: Source<'a>,
    // Whether it was said that no more events come.
    over: bool,
}

impl<'a> Model for Events<'a> {
    ghost use Rattle.yaml_parse.specs.PlainReading.{PlainReading};

    ghost Value = { PlainReading };

    ghost use Rattle.std.specs.Prelude.{◌≡◌, true};
    ghost use Rattle.yaml_parse.specs.Sources.{IsSourceOf, IsSpent, given_by, waiting_in};

    ghost view = { λ e. record {
      text = e.text.now;
      given = given_by e.source;
      waiting = waiting_in e.source;
      over = e.over;
    } };

    ghost invariant = { λ e. IsSourceOf e.text.now e.source × (e.over ≡ true → IsSpent e.source) };
}

impl<'a> Events<'a> {
    /// The events of a text, of which none was handed out. The only error is want of memory.
    pub fn new(alloc: Global, text: &'a [u8]) -> Result<Events<'a>, AllocError>
        ensures text { IfOk result (λ events. events.text ≡ text.now) }
        ensures none { IfOk result (λ events. events.given ≡ []) }
    {
        let source = match scan(alloc, text)? {
            Scanned::Tokens(tokens) => {
                let parser = Parser::new(alloc, text)?;
                Source::Text(Reading::new(tokens, parser, text.len()))
            }
            Scanned::Unread(fault) => Source::Unread(fault),
        };
        Ok(Events {
            text,
            source,
            over: false,
        })
    }

    /// The events of a text behind those of its first documents, which were found otherwise and count as handed out.
    /// What comes behind this mark is read by its tokens, with no look at the rest. The only error is want of memory.
    pub fn behind(
        alloc: Global,
        text: &'a [u8],
        gone: &History<(Event<'a>, Mark)>,
        here: Mark,
    ) -> Result<Events<'a>, AllocError>
        requires { AreBefore text.now gone.now.items here }
        ensures text { IfOk result (λ events. events.text ≡ text.now) }
        ensures given { IfOk result (λ events. events.given ≡ gone.now.items) }
    {
        let tokens = scan_behind(alloc, text, here)?;
        let parser = Parser::behind(alloc, text, gone, here);
        Ok(Events {
            text,
            source: Source::Text(Reading::new(tokens, parser, text.len())),
            over: false,
        })
    }

    /// The next event, with the mark where it begins, or `None` where no more come, for good. The event borrows from
    /// the text: a scalar's slice is the part of the text that it was read from. The only error is want of memory.
    pub fn next_event(&mut self) -> Result<Option<(Event<'a>, Mark)>, AllocError>
        ensures text { self.new.text ≡ self.old.text }
        ensures given { IfOk result (λ found. self.new.given ≡ self.old.given ++ option_to_list found) }
        ensures kept { IfErr result (λ _. self.new.given ≡ self.old.given) }
        ensures over { IfOk result (λ found. IfNone found (self.new.over ≡ true)) }
    {
        if self.has_next()? {
            Ok(Some(self.take_next()))
        } else {
            Ok(None)
        }
    }

    /// Whether another event comes, which is then read and waits to be taken; if not, none does for good. The only
    /// error is want of memory.
    #[inline(always)]
    pub fn has_next(&mut self) -> Result<bool, AllocError>
        ensures text { self.new.text ≡ self.old.text }
        ensures given { self.new.given ≡ self.old.given }
        ensures waits { IfOk result (λ more. more ≡ true → 0 < self.new.waiting) }
        ensures over { IfOk result (λ more. more ≡ false → self.new.over ≡ true) }
    {
        self.over = false;
        match &mut self.source {
            Source::Text(reading) => {
                let more = reading.has_next()?;
                self.over = !more;
                Ok(more)
            }
            Source::Unread(_) => {
                self.over = true;
                Ok(false)
            }
        }
    }

    /// The event that `has_next` told of, as `next_event` gives it. It goes to where the caller puts it in one move,
    /// where one behind an `Option` and a `Result` is moved more than once.
    #[inline(always)]
    pub fn take_next(&mut self) -> (Event<'a>, Mark)
        requires { 0 < self.old.waiting }
        ensures text { self.new.text ≡ self.old.text }
        ensures given { self.new.given ≡ self.old.given ++ result ∷ [] }
    {
        self.over = false;
        match &mut self.source {
            Source::Text(reading) => reading.take_next(),
            Source::Unread(_) => unreachable!(),
        }
    }

    /// What is known of the events that were handed out. This is a law: the call does nothing.
    pub fn has_events(&self)
        ensures begins { IsBeginning (plain_events self.now.given) }
        ensures sources { AreShown self.now.text self.now.given }
        ensures plain { SaySources self.now.given }
        ensures marks { MarksAscend self.now.text self.now.given }
        ensures places { AreInPlace self.now.text self.now.given }
    {
        match &self.source {
            Source::Text(reading) => reading.parser().has_events(),
            Source::Unread(_) => {}
        }
    }

    /// All events that are left, in a list, and why no more come: the parser's fault, if it met one. The only error is
    /// want of memory.
    pub fn into_list(self, alloc: Global) -> Result<(Vec<(Event<'a>, Mark)>, Ending), AllocError>
        ensures taken { self.entry.given ≡ [] → IfOk result (λ all.
            IsWellFormed (is_some all.1.fault) (plain_events all.0.items)) }
        ensures sources { self.entry.given ≡ [] → IfOk result (λ all. AreShown self.entry.text all.0.items) }
        ensures plain { self.entry.given ≡ [] → IfOk result (λ all. SaySources all.0.items) }
        ensures marks { self.entry.given ≡ [] → IfOk result (λ all. MarksAscend self.entry.text all.0.items) }
        ensures places { self.entry.given ≡ [] → IfOk result (λ all. AreInPlace self.entry.text all.0.items) }
        ensures allowed { IsAllowed self.entry.text → IfOk result (λ all. IsNotReaders all.1.fault) }
        ensures refused { (IsAllowed self.entry.text → ⊥) → IfOk result (λ all. (all.0.items ≡ [])
            × IsSomeAnd all.1.fault (λ f. IsOfReader self.entry.text f.kind f.offset)) }
    {
        match self.source {
            Source::Text(mut reading) => {
                reading.read_all()?;
                let (fault, parser) = reading.into_parts();
                let ending = parser.finish(alloc, fault)?;
                Ok((parser.into_waiting(), ending))
            }
            Source::Unread(fault) => Ok((Vec::new(alloc), unread(alloc, fault)?)),
        }
    }

    /// Why no more events come, once `next_event` answered `None`: the parser's fault, if it met one. A text whose
    /// bytes are not all allowed, by the rules of UTF-8 or of YAML's characters, has no events, and the fault tells
    /// where. The only error is want of memory.
    pub fn finish(self, alloc: Global) -> Result<Ending, AllocError>
        ensures taken { self.entry.over ≡ true → IfOk result (λ ending.
            IsWellFormed (is_some ending.fault) (plain_events self.entry.given)) }
        ensures found { IfOk result (λ ending. is_some ending.found ≡ is_some ending.fault) }
        ensures allowed { IsAllowed self.entry.text → IfOk result (λ ending. IsNotReaders ending.fault) }
        ensures none { (IsAllowed self.entry.text → ⊥) → self.entry.given ≡ [] }
        ensures refused { (IsAllowed self.entry.text → ⊥) → IfOk result (λ ending.
            IsSomeAnd ending.fault (λ f. IsOfReader self.entry.text f.kind f.offset)) }
    {
        match self.source {
            Source::Text(reading) => {
                let (fault, parser) = reading.into_parts();
                parser.finish(alloc, fault)
            }
            Source::Unread(fault) => unread(alloc, fault),
        }
    }
}
