//! A document anew, with the entries that its mappings have once they are merged.

mod frames;
mod starts;

ghost use Rattle.std.specs.Prelude.{◌≡◌, ◌≤◌, ◌-◌, ◌^◌, ◌∷◌, ◌++◌, [], IfOk, None, Some, length, reverse};
ghost use Rattle.yaml_base.specs.DocEventView.{doc_scalar_of, marked_events_of};
ghost use Rattle.yaml_base.specs.DocTree.{DocNode, IsTreeOf};
ghost use Rattle.yaml_base.specs.MarkedEvents.{events_in};
ghost use Rattle.yaml_base.specs.PlainEvent.{PlainEvent, event_of};
ghost use Rattle.yaml_base.specs.Position.{Position};
ghost use Rattle.yaml_base.specs.Stream.{stream_events};
ghost use Rattle.yaml_base.specs.Tree.{Node};
ghost use Rattle.yaml_load.specs.Resolved.{resolved};
ghost use Rattle.yaml_merge.specs.Names.{IsNamed, name_of};
ghost use Rattle.yaml_merge.specs.Writing.{Begins, GoesOn, IsMappingOf, IsScalarOf, IsSequenceOf, Made, Writes};
ghost use Rattle.yaml_merge.specs.Writing.{end_at, next_to, target_at};

use crate::nodes::Nodes;
use crate::plan::{Entry, Plan};
use crate::writer::starts::anchor;
use std::alloc::Global;
use yaml_base::{Cause, Error, Event, Mark, Result};
use yaml_load::LoaderBuilder;
use yaml_read::{Document, Loader};

// A collection of which the nodes from a place on are still to be written.
#[derive(Clone, Copy)]
pub(crate) enum Frame {
    // A sequence, from the element in a place up to its end.
    Elements {
        at: usize,
        end: usize,
    },
    // The mapping that begins in a place, from the key of an own entry on.
    Keys {
        start: usize,
        key: usize,
        // Whether there was a merge key before.
        merges: bool,
    },
    // The same from the value of one on.
    Values {
        start: usize,
        value: usize,
        merges: bool,
    },
    // The same from an entry on, by its number, that the mapping is given.
    Given {
        start: usize,
        number: usize,
    },
    // The same from the value of one on, which has this number.
    GivenValues {
        start: usize,
        number: usize,
        entry: Entry,
    },
}

// A document that is written.
#[derive(Drop)]
pub(crate) struct Writer<'a, 'de> {
    alloc: Global,
    nodes: Nodes<'a, 'de>,
    plan: &'a Plan,
    written: Vec<bool>,
    frames: Vec<Frame>,
    builder: LoaderBuilder<'de>,
}

impl<'a, 'de> Writer<'a, 'de> {
    // Whether the node in a place was written.
    fn is_written(&self, place: usize) -> bool {
        matches!(self.written.get(place), Some(true))
    }

    // Notes that it was.
    fn note(&mut self, place: usize)
        ensures nodes { self.new.nodes ≡ self.old.nodes }
        ensures frames { self.new.frames ≡ self.old.frames }
        ensures builder { self.new.builder ≡ self.old.builder }
    {
        if place < self.written.len() {
            self.written[place] = true;
        }
    }

    // Writes an event with the mark that the one in a place has.
    pub(crate) fn push(&mut self, event: Event<'de>, place: usize) -> Result<()>
        ensures pushed { IfOk result (λ _. (mark : Position)
            × (self.new.builder ≡ self.old.builder ++ (event_of event.entry, mark) ∷ [])) }
        ensures nodes { self.new.nodes ≡ self.old.nodes }
        ensures frames { self.new.frames ≡ self.old.frames }
    {
        let mark: Option<Mark> = self.nodes.mark(place);
        match mark {
            Some(mark) => self.builder.push(event, mark),
            None => Err(Error::new(Cause::EndOfStream)),
        }
    }

    // Writes the node that the one in a place is or stands for; once it was written an alias, with the mark of what
    // names it.
    pub(crate) fn node(&mut self, place: usize, by: Option<usize>) -> Result<()>
        ensures begins { IfOk result (λ _. (event : PlainEvent) × (mark : Position)
            × (self.new.builder ≡ self.old.builder ++ (event, mark) ∷ [])
            × Begins (marked_events_of self.old.nodes.events.now) self.old.nodes.ends.now
            (reverse self.old.frames.items) (reverse self.new.frames.items) event
            (target_at (marked_events_of self.old.nodes.events.now) place)) }
        ensures nodes { self.new.nodes ≡ self.old.nodes }
    {
        let target = self.nodes.target(place);
        if self.is_written(target) {
            let name = anchor(self.alloc, target)?;
            return self.push(Event::Alias(name), by.unwrap_or(place));
        }
        self.note(target);
        let event = self.first_event(target)?;
        self.push(event, target)
    }

    // Writes the document as a stream.
    fn stream(&mut self) -> Result<()>
        ensures { IfOk result (λ _. self.old.frames.items ≡ [] → self.old.builder ≡ []
            → (n : Node) × (events_in self.new.builder ≡ stream_events (n ∷ []))
            × Made (marked_events_of self.old.nodes.events.now) self.old.nodes.ends.now n
            (target_at (marked_events_of self.old.nodes.events.now) 0)) }
    {
        let last = self.nodes.len().saturating_sub(1);
        self.push(Event::StreamStart, 0)?;
        self.push(Event::DocumentStart, 0)?;
        self.root()?;
        self.push(Event::DocumentEnd, last)?;
        self.push(Event::StreamEnd, last)
    }
}

// The document of these nodes, with the entries of the plan.
pub(crate) fn written<'de>(
    alloc: Global,
    nodes: Nodes<'_, 'de>,
    plan: &Plan,
) -> Result<Document<'de>>
    ensures whole { IfOk result (λ document. document.ending ≡ None) }
    ensures made { IfOk result (λ document. (length nodes.entry.events.now ≤ 2 ^ 64 - 1) × (n : Node) × (tree : DocNode) × (resolved n ≡ Some tree)
        × IsTreeOf document tree × Made (marked_events_of nodes.entry.events.now) nodes.entry.ends.now n
        (target_at (marked_events_of nodes.entry.events.now) 0)) }
{
    let mut writer = Writer {
        alloc,
        nodes,
        plan,
        written: Vec::from_elem(alloc, false, nodes.len())?,
        frames: Vec::new(alloc),
        builder: LoaderBuilder::with_capacity(alloc, nodes.len().saturating_add(4))?,
    };
    writer.stream()?;
    let mut documents = Loader::from(writer.builder.finish(None)?);
    let Some(document) = documents.next_document() else {
        return Err(Error::new(Cause::EndOfStream));
    };
    match document.error() {
        Some(fault) => Err(fault.copy(alloc)?),
        None => Ok(document),
    }
}
