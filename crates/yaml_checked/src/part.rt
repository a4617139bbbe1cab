//! Which part of a stream comes next.

ghost use Rattle.std.specs.Prelude.{◌≡◌, ◌≢◌, ◌↔◌, IfErr, IfOk, None, Some, false, true};
ghost use Rattle.yaml_base.specs.PlainEvent.{PlainScalar, event_of, scalar};
ghost use Rattle.yaml_base.specs.StreamMachine.{after_stream, before_stream, between_documents, next_state};
ghost use Rattle.yaml_checked.specs.inner.Parts.{IsBetweenLike};
ghost use Rattle.yaml_load.specs.StreamPhases.{IsClean, Moves};

use std::alloc::{AllocError, Global};
use std::marker::Model;
use std::mem;
use yaml_base::{Event, Open};
use yaml_load::check::{
    Phase, after_document_end, after_document_start, after_leaf, after_mapping, after_sequence,
    after_start, after_stream_end, after_stream_start, is_after,
};

// The part of a stream that comes next, and what the collections around the innermost wait for.
#[derive(Drop)]
pub(crate) struct Part {
    phase: Phase,
    outer: Vec<Open>,
}

impl Model for Part {
    ghost use Rattle.yaml_base.specs.StreamMachine.{State};
    ghost use Rattle.yaml_load.specs.StreamPhases.{IsClean, phase_state};

    ghost Value = { State };

    ghost view = { λ p. phase_state p.phase p.outer.items };

    ghost invariant = { λ p. IsClean p.phase p.outer.items };
}

// The phase behind an event, if it may stand there.
#[inline(always)]
pub(crate) fn after(
    phase: Phase,
    outer: &mut Vec<Open>,
    event: &Event<'_>,
) -> Result<Option<Phase>, AllocError>
    requires { IsClean phase outer.old.items }
    ensures { IfOk result (λ found. Moves phase outer.old.items (event_of event.now) outer.new.items found) }
{
    match event {
        Event::StreamStart => Ok(after_stream_start(phase)),
        Event::StreamEnd => Ok(after_stream_end(phase)),
        Event::DocumentStart => Ok(after_document_start(phase)),
        Event::DocumentEnd => Ok(after_document_end(phase)),
        Event::Alias(_) => Ok(after_leaf(phase)),
        Event::Scalar(_) => Ok(after_leaf(phase)),
        Event::SequenceStart(_) => after_start(phase, outer, Open::Sequence),
        Event::SequenceEnd => Ok(after_sequence(phase, outer)),
        Event::MappingStart(_) => after_start(phase, outer, Open::Key),
        Event::MappingEnd => Ok(after_mapping(phase, outer)),
    }
}

impl Part {
    // The start of a stream.
    pub(crate) fn first(alloc: Global) -> Part
        ensures { result ≡ before_stream }
    {
        Part {
            phase: Phase::Before,
            outer: Vec::new(alloc),
        }
    }

    // A document, or the end of the stream.
    pub(crate) fn between(alloc: Global) -> Part
        ensures { result ≡ between_documents }
    {
        Part {
            phase: Phase::Between,
            outer: Vec::new(alloc),
        }
    }

    // Goes over a scalar, which most events are, and tells whether one may stand there. No list is moved for it.
    #[inline(always)]
    fn go_over_leaf(&mut self) -> bool
        ensures on { (s : PlainScalar) → result ≡ true → next_state self.old (scalar s) ≡ Some self.new }
        ensures off { (s : PlainScalar) → result ≡ false → next_state self.old (scalar s) ≡ None }
        ensures stays { result ≡ false → IsBetweenLike self.old self.new }
    {
        match after_leaf(self.phase) {
            Some(phase) => {
                self.phase = phase;
                true
            }
            None => false,
        }
    }

    // Goes over an event, and tells whether it may stand there.
    #[inline(always)]
    pub(crate) fn go(&mut self, alloc: Global, event: &Event<'_>) -> Result<bool, AllocError>
        ensures on { IfOk result (λ on. on ≡ true → next_state self.old (event_of event.now) ≡ Some self.new) }
        ensures off { IfOk result (λ on. on ≡ false → next_state self.old (event_of event.now) ≡ None) }
        ensures stays { IfOk result (λ on. on ≡ false → IsBetweenLike self.old self.new) }
        ensures kept { IfErr result (λ _. IsBetweenLike self.old self.new) }
    {
        if let Event::Scalar(_) = event {
            return Ok(self.go_over_leaf());
        }
        let mut outer = mem::replace(&mut self.outer, Vec::new(alloc));
        match after(self.phase, &mut outer, event)? {
            Some(phase) => {
                self.phase = phase;
                self.outer = outer;
                Ok(true)
            }
            None => Ok(false),
        }
    }

    // Whether nothing comes any more.
    pub(crate) fn is_done(&self) -> bool
        ensures done { result ≡ true → self.now ≡ after_stream }
        ensures only { result ≡ false → self.now ≢ after_stream }
    {
        is_after(self.phase)
    }

    // Whether a document may come, or the end of the stream.
    pub(crate) fn is_between(&self) -> bool
        ensures between { result ≡ true → self.now ≡ between_documents }
        ensures only { result ≡ false → self.now ≢ between_documents }
    {
        matches!(self.phase, Phase::Between)
    }
}
