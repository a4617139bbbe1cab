//! A loader that takes the events of a stream one by one.

ghost use Rattle.std.specs.Prelude.{◌≡◌, ◌<◌, ◌∷◌, ◌++◌};
ghost use Rattle.yaml_load.specs.Words.{[], IfOk, IfErr, false, is_some, length, is_memory, event_of, IsWellFormed};
ghost use Rattle.yaml_load.specs.Words.{NotAStream, documents_of, events_in, IsWrongAt, IsWrongNext};

use crate::check::{Phase, is_after, is_inside};
use crate::loader::Loader;
use crate::loader::draft::Draft;
use crate::loader::share::share;
use std::alloc::{AllocError, Global};
use std::marker::Model;
use yaml_base::{Cause, Error, Event, History, Mark, Open, ParserFault};

/// A loader amid a stream: it takes the stream's events one by one, and gives the documents at their end.
#[derive(Drop)]
pub struct LoaderBuilder<'de> {
    alloc: Global,
    draft: Draft<'de>,
    phase: Phase,
    // What the collections around the innermost wait for.
    outer: Vec<Open>,
    // The mark of the last event, and how many there were.
    end: Option<Mark>,
    count: usize,
    // Whether the draft holds all events that were taken: not behind a fault.
    whole: bool,
    taken: History<(Event<'de>, Mark)>,
}

impl<'de> Model for LoaderBuilder<'de> {
    ghost use Rattle.std.specs.Prelude.{List};
    ghost use Rattle.yaml_load.specs.Documents.{Input};

    ghost Value = { Input };

    ghost use Rattle.std.specs.Prelude.{◌≡◌, true};
    ghost use Rattle.yaml_load.specs.MarkedEvents.{plain_marked};
    ghost use Rattle.yaml_load.specs.inner.Intake.{HasTaken};

    ghost view = { λ b. plain_marked b.taken.items };

    ghost invariant = { λ b. b.whole ≡ true
        → HasTaken b.phase b.outer.items b.end b.count (plain_marked b.taken.items) b.draft };
}

impl<'de> LoaderBuilder<'de> {
    /// A loader that took no event, with room for so many. The only error is want of memory.
    pub fn with_capacity(alloc: Global, count: usize) -> Result<LoaderBuilder<'de>, AllocError>
        ensures { IfOk result (λ builder. builder ≡ []) }
    {
        Ok(LoaderBuilder {
            alloc,
            draft: Draft::with_capacity(alloc, count)?,
            phase: Phase::Before,
            outer: Vec::new(alloc),
            end: None,
            count: 0,
            whole: true,
            taken: History::new(),
        })
    }

    /// Takes the next event of the stream, with its mark. An event that may not stand there is refused with its place.
    /// Behind a fault nothing is taken any more: each call answers want of memory, and so it is where a `usize` can't
    /// count the events.
    #[inline(always)]
    pub fn push(&mut self, event: Event<'de>, mark: Mark) -> yaml_base::Result<()>
        ensures taken { IfOk result (λ _. self.new ≡ self.old ++ (event_of event.entry, mark) ∷ []) }
        ensures counted { IfOk result (λ _. length self.new < 0x10000000000000000) }
        ensures wrong { IfErr result (λ cause. is_memory cause ≡ false → (cause ≡ NotAStream (length self.old))
            × IsWrongNext (events_in self.old) (event_of event.entry)) }
    {
        if !self.whole || self.count == usize::MAX {
            return Err(Error::new(Cause::Memory));
        }
        self.whole = false;
        let item = (event, mark);
        let taken = History::with(&self.taken, &item);
        let (event, mark) = item;
        match self
            .draft
            .take(self.alloc, self.phase, &mut self.outer, event, mark)?
        {
            Some(after) => self.phase = after,
            None => return Err(Error::new(Cause::NotAStream(self.count))),
        }
        self.end = Some(mark);
        self.count += 1;
        self.taken = taken;
        self.whole = true;
        Ok(())
    }

    /// The documents of the events that were taken, where these are a stream, or, with a parser's fault, a beginning of
    /// a stream that lacks the end. Others are refused with their number.
    pub fn finish(self, fault: Option<ParserFault>) -> yaml_base::Result<Loader<'de>>
        ensures accepted { IfOk result (λ _. IsWellFormed (is_some fault) (events_in self.entry)) }
        ensures documents { IfOk result (λ documents. documents ≡ documents_of self.entry fault) }
        ensures refused { IfErr result (λ cause. is_memory cause ≡ false
            → IsWellFormed (is_some fault) (events_in self.entry) → ⊥) }
        ensures wrong { IfErr result (λ cause. is_memory cause ≡ false
            → (cause ≡ NotAStream (length self.entry))
            × IsWrongAt (is_some fault) (events_in self.entry) (length self.entry)) }
    {
        let LoaderBuilder {
            alloc,
            mut draft,
            phase,
            end,
            count,
            whole,
            ..
        } = self;
        if !whole {
            return Err(Error::new(Cause::Memory));
        }
        if is_after(phase) == fault.is_some() {
            return Err(Error::new(Cause::NotAStream(count)));
        }
        draft.close(alloc, is_inside(phase), end, fault)?;
        Ok(Loader {
            left: share(alloc, draft)?.into_iter(),
        })
    }
}
