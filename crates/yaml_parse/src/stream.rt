//! The events of a stream, and which may come next.

mod steps;

ghost use Rattle.std.specs.Prelude.{◌≡◌, ◌≤◌, ◌∷◌, ◌++◌, [], All, IfNone, IfOk, IsSomeAnd, OnOk, Some, false, length};
ghost use Rattle.std.specs.Prelude.{option_to_list, true};
ghost use Rattle.std.specs.Option.{option_map};
ghost use Rattle.std.proofs.Props.{props};
ghost use Rattle.yaml_base.specs.MarkedEvents.{plain_events};
ghost use Rattle.yaml_base.specs.Places.{place_of};
ghost use Rattle.yaml_base.specs.PlainEvent.{event_of, scalar_of};
ghost use Rattle.yaml_base.specs.Stream.{IsStream, IsWellFormed};
ghost use Rattle.yaml_base.specs.StreamMachine.{before_stream, next_state, run, within};
ghost use Rattle.yaml_base.specs.declared.open.Open.TheVariants.{Key, Sequence};
ghost use Rattle.yaml_parse.specs.BehindDocuments.{AreBefore};
ghost use Rattle.yaml_parse.specs.Frames.{open_of, opens, state_of};
ghost use Rattle.yaml_parse.specs.Marks.{MarksAscend};
ghost use Rattle.yaml_parse.specs.Places.{AreInPlace, IsInPlace};
ghost use Rattle.yaml_parse.specs.PlainText.{SaySources, SaysItsSource, SaysSource};
ghost use Rattle.yaml_parse.specs.Shown.{AreShown, IsShown, StandsAt};

use crate::fault::misplaced;
use crate::frame::{Frame, Phase, behind, is_key, is_same, is_sequence};
use crate::place::{mark_at, mark_of_event};
use crate::queue::Queue;
use std::alloc::Global;
use yaml_base::{Anchor, Event, History, MappingStart, Mark, Scalar, SequenceStart};
use yaml_scan::{Finding, Stop};

// Events that are a beginning of a stream, always.
#[derive(Drop)]
pub(crate) struct Stream<'a> {
    text: &'a [u8],
    events: Queue<'a>,
    phase: Phase,
    // Where the innermost collection began, or the directives of a document.
    opened: Mark,
    // What the collections around the innermost wait for, and where they began, the outermost first.
    outer: Vec<(Frame, Mark)>,
    // The place in the text where the last event begins.
    reached: Mark,
    // What is wrong with the text, if that was found.
    found: Option<Finding>,
    ghost ran: { run (Some before_stream) (plain_events events.made.items) ≡ Some (state_of phase outer.items) } by { Prim.hlevel props },
    ghost shown: { AreShown text.now events.made.items } by { Prim.hlevel props },
    ghost plain: { SaySources events.made.items } by { Prim.hlevel props },
    ghost marks: { MarksAscend text.now events.made.items },
    ghost last: { All (λ e. e.1.index ≤ reached.index) events.made.items },
    ghost places: { AreInPlace text.now events.made.items } by { Prim.hlevel props },
    ghost here: { (reached.line, reached.column) ≡ place_of text.now reached.index },
}

impl<'a> Stream<'a> {
    // No events of this text, which begins at this mark. Takes no memory.
    pub(crate) fn new(alloc: Global, text: &'a [u8], start: Mark) -> Stream<'a>
        requires { (start.line, start.column) ≡ place_of text.now start.index }
        ensures text { result.text.now ≡ text.now }
        ensures made { result.events.made.items ≡ [] }
        ensures handed { result.events.handed.items ≡ [] }
    {
        Stream {
            text,
            events: Queue::new(alloc),
            phase: Phase::Before,
            opened: start,
            outer: Vec::new(alloc),
            reached: start,
            found: None,
        }
    }

    // These events were handed out, and this is the mark behind them. Takes no memory.
    pub(crate) fn behind(
        alloc: Global,
        text: &'a [u8],
        gone: &History<(Event<'a>, Mark)>,
        here: Mark,
    ) -> Stream<'a>
        requires { AreBefore text.now gone.now.items here }
        ensures text { result.text.now ≡ text.now }
        ensures made { result.events.made.items ≡ gone.now.items }
        ensures handed { result.events.handed.items ≡ gone.now.items }
    {
        Stream {
            text,
            events: Queue::behind(alloc, gone),
            phase: Phase::Next,
            opened: here,
            outer: Vec::new(alloc),
            reached: here,
            found: None,
        }
    }

    // Which part of the stream comes next.
    #[inline(always)]
    pub(crate) fn phase(&self) -> Phase {
        self.phase
    }

    // Where the innermost collection began, or the directives of a document.
    #[inline(always)]
    pub(crate) fn opened(&self) -> Mark {
        self.opened
    }

    // What is wrong with the text, if that was found.
    pub(crate) fn found(&self) -> Option<Finding> {
        self.found
    }
}
