//! How the events of a stream go on.

ghost use Rattle.std.specs.Prelude.{◌≡◌, ◌<◌, ◌≤◌, ◌∷◌, ◌++◌, [], All, IfOk, IsSomeAnd, OnOk, Some, false, length};
ghost use Rattle.std.specs.Prelude.{true};
ghost use Rattle.std.specs.Option.{option_map};
ghost use Rattle.std.specs.VecDeque.{deque_len};
ghost use Rattle.std.proofs.Props.{props};
ghost use Rattle.yaml_base.specs.MarkedEvents.{plain_events};
ghost use Rattle.yaml_base.specs.Places.{place_of};
ghost use Rattle.yaml_base.specs.PlainEvent.{event_of, scalar_of};
ghost use Rattle.yaml_base.specs.Stream.{IsBeginning, IsStream, IsWellFormed};
ghost use Rattle.yaml_base.specs.StreamMachine.{before_stream, next_state, run, within};
ghost use Rattle.yaml_base.specs.declared.open.Open.TheVariants.{Key, Sequence};
ghost use Rattle.yaml_parse.specs.Frames.{open_of, opens, state_of};
ghost use Rattle.yaml_parse.specs.Kept.{Keeps};
ghost use Rattle.yaml_parse.specs.Marks.{MarksAscend};
ghost use Rattle.yaml_parse.specs.Places.{AreInPlace, IsInPlace};
ghost use Rattle.yaml_parse.specs.PlainText.{SaySources, SaysItsSource, SaysSource};
ghost use Rattle.yaml_parse.specs.Shown.{AreShown, IsShown, StandsAt};

use crate::fault::misplaced;
use crate::frame::{Frame, Phase, behind, is_key, is_same, is_sequence};
use crate::place::{mark_at, mark_of_event};
use crate::queue::Queue;
use crate::stream::Stream;
use std::alloc::Global;
use yaml_base::{Anchor, Event, MappingStart, Mark, Scalar, SequenceStart};
use yaml_scan::{Finding, Stop};

impl<'a> Stream<'a> {
    // Keeps what was found.
    pub(crate) fn stop(&mut self, found: Finding) -> Stop
        ensures { Keeps self.old self.new }
    {
        self.found = Some(found);
        Stop
    }

    // The bytes of the text from a mark on up to an index, if the mark lies in the text.
    #[inline(always)]
    pub(crate) fn source(&mut self, start: Mark, end: u64) -> Result<&'a [u8], Stop>
        ensures kept { Keeps self.old self.new }
        ensures source { IfOk result (λ bytes. StandsAt self.old.text.now start.index bytes.now) }
    {
        let text = self.text;
        if start.index() > text.len() as u64 {
            return Err(self.stop(misplaced(start)));
        }
        let from = start.index() as usize;
        let to = (end as usize).min(text.len()).max(from);
        Ok(&text[from..to])
    }

    // Whether the stream has ended.
    #[tactic(auto, using(crate::proofs::Streams::whole_of, crate::proofs::Streams::cut_of))]
    pub(crate) fn is_after(&self) -> bool
        ensures whole { result ≡ true → IsStream (plain_events self.now.events.made.items) }
        ensures cut { result ≡ false → IsWellFormed true (plain_events self.now.events.made.items) }
    {
        matches!(self.phase, Phase::After)
    }

    // What is known of the events that were handed out, always. This is a law: the call does nothing.
    #[tactic(auto, using(crate::proofs::Fronts::begins_front, crate::proofs::Fronts::shown_front, crate::proofs::Fronts::said_front, crate::proofs::Fronts::marks_front, crate::proofs::Fronts::placed_front,))]
    pub(crate) fn has_events(&self)
        ensures begins { IsBeginning (plain_events self.now.events.handed.items) }
        ensures shown { AreShown self.now.text.now self.now.events.handed.items }
        ensures plain { SaySources self.now.events.handed.items }
        ensures marks { MarksAscend self.now.text.now self.now.events.handed.items }
        ensures places { AreInPlace self.now.text.now self.now.events.handed.items }
    {
        let _ = &self.events;
    }

    // How many events wait.
    #[inline(always)]
    pub(crate) fn waiting(&self) -> usize
        ensures { result ≡ deque_len self.now.events.waiting }
    {
        self.events.len()
    }

    // Whether an event waits.
    #[inline(always)]
    pub(crate) fn has_waiting(&self) -> bool
        ensures waits { result ≡ true → 0 < deque_len self.now.events.waiting }
        ensures none { result ≡ false → self.now.events.handed.items ≡ self.now.events.made.items }
    {
        self.events.has_waiting()
    }

    // Hands out the next of the events that wait, of which there is one.
    #[inline(always)]
    pub(crate) fn take(&mut self) -> (Event<'a>, Mark)
        requires { 0 < deque_len self.old.events.waiting }
        ensures text { self.new.text.now ≡ self.old.text.now }
        ensures made { self.new.events.made.items ≡ self.old.events.made.items }
        ensures handed { self.new.events.handed.items ≡ self.old.events.handed.items ++ result ∷ [] }
    {
        self.events.take()
    }

    // The events that were not handed out, in a list.
    pub(crate) fn into_waiting(self) -> Vec<(Event<'a>, Mark)>
        ensures waiting { self.entry.events.made.items ≡ self.entry.events.handed.items ++ result.items }
        ensures shown { AreShown self.entry.text.now self.entry.events.made.items }
        ensures plain { SaySources self.entry.events.made.items }
        ensures marks { MarksAscend self.entry.text.now self.entry.events.made.items }
        ensures places { AreInPlace self.entry.text.now self.entry.events.made.items }
    {
        self.events.into_waiting()
    }

    // The mark at which an event begins that is said to begin here, with the line and the column that the text has
    // there, if it may: within the text, and not before the last one.
    #[inline(always)]
    fn reach(&mut self, said: Mark) -> Result<Mark, Stop>
        ensures kept { Keeps self.old self.new }
        ensures events { self.new.events.made.items ≡ self.old.events.made.items }
        ensures phase { self.new.phase ≡ self.old.phase }
        ensures opened { self.new.opened ≡ self.old.opened }
        ensures outer { self.new.outer.items ≡ self.old.outer.items }
        ensures within { OnOk result (said.index ≤ length self.new.text.now) }
        ensures here { OnOk result (self.new.reached.index ≡ said.index) }
        ensures index { IfOk result (λ mark. mark.index ≡ said.index) }
        ensures place { IfOk result (λ mark. IsInPlace self.new.text.now mark) }
    {
        if said.index() < self.reached.index() || said.index() > self.text.len() as u64 {
            self.found = Some(misplaced(said));
            return Err(Stop);
        }
        if said.index() != self.reached.index() {
            self.reached = mark_at(self.text, self.reached, said.index());
        }
        Ok(mark_of_event(self.text, self.reached, said))
    }

    // An event at which no collection begins or ends.
    #[inline(always)]
    fn add(&mut self, event: Event<'a>, mark: Mark, phase: Phase) -> Result<(), Stop>
        requires moves { next_state (state_of self.old.phase self.old.outer.items) (event_of event)
            ≡ Some (state_of phase self.old.outer.items) }
        requires shown { IsShown self.old.text.now (event_of event) mark }
        requires plain { SaysSource (event_of event) }
        ensures { Keeps self.old self.new }
    {
        let begins = self.reach(mark)?;
        self.events.reserve()?;
        self.events.push_reserved((event, begins));
        self.phase = phase;
        Ok(())
    }

    // The start of the stream.
    pub(crate) fn begin_stream(&mut self, mark: Mark) -> Result<(), Stop>
        ensures { Keeps self.old self.new }
    {
        match self.phase {
            Phase::Before => self.add(Event::StreamStart, mark, Phase::First),
            _ => Err(self.stop(misplaced(mark))),
        }
    }

    // The end of the stream.
    pub(crate) fn end_stream(&mut self, mark: Mark) -> Result<(), Stop>
        ensures { Keeps self.old self.new }
    {
        match self.phase {
            Phase::First | Phase::Next => self.add(Event::StreamEnd, mark, Phase::After),
            _ => Err(self.stop(misplaced(mark))),
        }
    }

    // The directives of a document, or its `---`, begin.
    pub(crate) fn begin_directives(&mut self, mark: Mark)
        ensures { Keeps self.old self.new }
    {
        if matches!(self.phase, Phase::First | Phase::Next) {
            self.phase = Phase::Directives;
            self.opened = mark;
        }
    }

    // A document begins, with `---` or without.
    pub(crate) fn begin_document(&mut self, mark: Mark, marked: bool) -> Result<(), Stop>
        ensures { Keeps self.old self.new }
    {
        let phase = if marked { Phase::Content } else { Phase::Root };
        match self.phase {
            Phase::First | Phase::Next | Phase::Directives => {
                self.add(Event::DocumentStart, mark, phase)
            }
            _ => Err(self.stop(misplaced(mark))),
        }
    }

    // The end of a document.
    pub(crate) fn end_document(&mut self, mark: Mark) -> Result<(), Stop>
        ensures { Keeps self.old self.new }
    {
        match self.phase {
            Phase::Ended => self.add(Event::DocumentEnd, mark, Phase::Next),
            _ => Err(self.stop(misplaced(mark))),
        }
    }

    // A scalar.
    #[tactic(auto, using(crate::proofs::Streams::passes_scalar))]
    #[inline(always)]
    pub(crate) fn scalar(&mut self, scalar: Scalar<'a>, mark: Mark) -> Result<(), Stop>
        requires shown { IsSomeAnd (option_map (λ r. r.now) scalar.repr) (StandsAt self.old.text.now mark.index) }
        requires plain { SaysItsSource (scalar_of scalar) }
        ensures { Keeps self.old self.new }
    {
        match self.phase {
            Phase::Root | Phase::Content => self.add(Event::Scalar(scalar), mark, Phase::Ended),
            Phase::Within(frame) => self.add(
                Event::Scalar(scalar),
                mark,
                Phase::Within(behind(frame)),
            ),
            _ => Err(self.stop(misplaced(mark))),
        }
    }

    // An alias.
    #[tactic(auto, using(crate::proofs::Streams::passes_alias))]
    pub(crate) fn alias(&mut self, anchor: Anchor, mark: Mark) -> Result<(), Stop>
        ensures { Keeps self.old self.new }
    {
        match self.phase {
            Phase::Root | Phase::Content => self.add(Event::Alias(anchor), mark, Phase::Ended),
            Phase::Within(frame) => self.add(
                Event::Alias(anchor),
                mark,
                Phase::Within(behind(frame)),
            ),
            _ => Err(self.stop(misplaced(mark))),
        }
    }

    // An event at which the first collection of a document begins, which waits for `first`.
    fn open_root(
        &mut self,
        event: Event<'a>,
        mark: Mark,
        first: Frame,
        start: Mark,
    ) -> Result<(), Stop>
        requires moves { next_state (state_of self.old.phase self.old.outer.items) (event_of event)
            ≡ Some (within (open_of first ∷ [])) }
        requires shown { IsShown self.old.text.now (event_of event) mark }
        requires plain { SaysSource (event_of event) }
        ensures { Keeps self.old self.new }
    {
        let begins = self.reach(mark)?;
        self.events.reserve()?;
        self.events.push_reserved((event, begins));
        self.outer.clear();
        self.phase = Phase::Within(first);
        self.opened = start;
        Ok(())
    }

    // An event at which a collection begins that waits for `first`, within one that then waits for `back`.
    #[inline(always)]
    fn open_inner(
        &mut self,
        event: Event<'a>,
        mark: Mark,
        back: Frame,
        first: Frame,
        start: Mark,
    ) -> Result<(), Stop>
        requires moves { next_state (state_of self.old.phase self.old.outer.items) (event_of event)
            ≡ Some (within (open_of first ∷ open_of back ∷ opens self.old.outer.items)) }
        requires shown { IsShown self.old.text.now (event_of event) mark }
        requires plain { SaysSource (event_of event) }
        ensures { Keeps self.old self.new }
    {
        let begins = self.reach(mark)?;
        self.events.reserve()?;
        self.outer.reserve(1)?;
        self.events.push_reserved((event, begins));
        self.outer.push_reserved((back, self.opened));
        self.phase = Phase::Within(first);
        self.opened = start;
        Ok(())
    }

    // The start of a sequence.
    #[tactic(auto, using(crate::proofs::Streams::begins_sequence))]
    #[inline(always)]
    pub(crate) fn begin_sequence(
        &mut self,
        sequence: SequenceStart,
        mark: Mark,
        first: Frame,
        start: Mark,
    ) -> Result<(), Stop>
        requires { open_of first ≡ Sequence }
        ensures { Keeps self.old self.new }
    {
        let event = Event::SequenceStart(sequence);
        match self.phase {
            Phase::Root | Phase::Content => self.open_root(event, mark, first, start),
            Phase::Within(frame) => self.open_inner(event, mark, behind(frame), first, start),
            _ => Err(self.stop(misplaced(mark))),
        }
    }

    // The start of a mapping.
    #[tactic(auto, using(crate::proofs::Streams::begins_mapping))]
    #[inline(always)]
    pub(crate) fn begin_mapping(
        &mut self,
        mapping: MappingStart,
        mark: Mark,
        first: Frame,
        start: Mark,
    ) -> Result<(), Stop>
        requires { open_of first ≡ Key }
        ensures { Keeps self.old self.new }
    {
        let event = Event::MappingStart(mapping);
        match self.phase {
            Phase::Root | Phase::Content => self.open_root(event, mark, first, start),
            Phase::Within(frame) => self.open_inner(event, mark, behind(frame), first, start),
            _ => Err(self.stop(misplaced(mark))),
        }
    }

    // An event at which the innermost collection ends.
    #[inline(always)]
    fn close(&mut self, event: Event<'a>, mark: Mark) -> Result<(), Stop>
        requires moves { next_state (state_of self.old.phase self.old.outer.items) (event_of event)
            ≡ Some (within (opens self.old.outer.items)) }
        requires shown { IsShown self.old.text.now (event_of event) mark }
        requires plain { SaysSource (event_of event) }
        ensures { Keeps self.old self.new }
    {
        let begins = self.reach(mark)?;
        self.events.reserve()?;
        self.events.push_reserved((event, begins));
        match self.outer.pop() {
            Some((frame, start)) => {
                self.phase = Phase::Within(frame);
                self.opened = start;
            }
            None => {
                self.phase = Phase::Ended;
            }
        }
        Ok(())
    }

    // The end of a sequence.
    #[tactic(auto, using(crate::proofs::Streams::closes_sequence))]
    pub(crate) fn end_sequence(&mut self, mark: Mark) -> Result<(), Stop>
        ensures { Keeps self.old self.new }
    {
        match self.phase {
            Phase::Within(frame) if is_sequence(frame) => self.close(Event::SequenceEnd, mark),
            _ => Err(self.stop(misplaced(mark))),
        }
    }

    // The end of a mapping.
    #[tactic(auto, using(crate::proofs::Streams::closes_mapping))]
    pub(crate) fn end_mapping(&mut self, mark: Mark) -> Result<(), Stop>
        ensures { Keeps self.old self.new }
    {
        match self.phase {
            Phase::Within(frame) if is_key(frame) => self.close(Event::MappingEnd, mark),
            _ => Err(self.stop(misplaced(mark))),
        }
    }

    // The innermost collection goes on to another frame, which waits for the same.
    #[inline(always)]
    pub(crate) fn go(&mut self, next: Frame)
        ensures { Keeps self.old self.new }
    {
        match self.phase {
            Phase::Within(frame) if is_same(frame, next) => {
                self.phase = Phase::Within(next);
            }
            _ => {}
        }
    }
}
