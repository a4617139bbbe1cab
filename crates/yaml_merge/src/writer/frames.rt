//! Collections, node by node.

ghost use Rattle.std.specs.Prelude.{◌≡◌, ◌∷◌, [], IfOk, reverse};
ghost use Rattle.yaml_base.specs.DocEventView.{marked_events_of};
ghost use Rattle.yaml_merge.specs.Writing.{GoesOn, Writes, target_at};

use crate::plan::Entry;
use crate::writer::{Frame, Writer};
use yaml_base::{Cause, Error, Event, Result};

impl<'a, 'de> Writer<'a, 'de> {
    // Writes the next element of a sequence, or its end.
    fn element(&mut self, at: usize, end: usize) -> Result<()>
        ensures goes_on { IfOk result (λ _. GoesOn (marked_events_of self.old.nodes.events.now)
            self.old.nodes.ends.now (Frame.Elements at end ∷ reverse self.old.frames.items)
            (reverse self.new.frames.items) self.old.builder self.new.builder) }
        ensures nodes { self.new.nodes ≡ self.old.nodes }
    {
        if at >= end {
            return self.push(Event::SequenceEnd, end);
        }
        let frame = Frame::Elements {
            at: self.nodes.behind(at),
            end,
        };
        self.frames.push(frame)?;
        self.node(at, None)
    }

    // Writes the next key of a mapping's own entries, or passes over a merge key. Behind them comes what the mapping is
    // given, if it has one.
    fn key(&mut self, start: usize, key: usize, merges: bool) -> Result<()>
        ensures goes_on { IfOk result (λ _. GoesOn (marked_events_of self.old.nodes.events.now)
            self.old.nodes.ends.now (Frame.Keys start key merges ∷ reverse self.old.frames.items)
            (reverse self.new.frames.items) self.old.builder self.new.builder) }
        ensures nodes { self.new.nodes ≡ self.old.nodes }
    {
        let end = self.nodes.end(start);
        if key >= end {
            if merges {
                return self.given(start, 0);
            }
            return self.push(Event::MappingEnd, end);
        }
        let value = self.nodes.behind(key);
        if self.nodes.is_merge_key(key) {
            let key = self.nodes.behind(value);
            self.frames.push(Frame::Keys {
                start,
                key,
                merges: true,
            })?;
            return Ok(());
        }
        self.frames.push(Frame::Values {
            start,
            value,
            merges,
        })?;
        self.node(key, None)
    }

    // Writes the value of an own entry of a mapping.
    fn value(&mut self, start: usize, value: usize, merges: bool) -> Result<()>
        ensures goes_on { IfOk result (λ _. GoesOn (marked_events_of self.old.nodes.events.now)
            self.old.nodes.ends.now (Frame.Values start value merges ∷ reverse self.old.frames.items)
            (reverse self.new.frames.items) self.old.builder self.new.builder) }
        ensures nodes { self.new.nodes ≡ self.old.nodes }
    {
        let key = self.nodes.behind(value);
        self.frames.push(Frame::Keys { start, key, merges })?;
        self.node(value, None)
    }

    // Writes the key of an entry that a mapping is given, or the mapping's end.
    fn given(&mut self, start: usize, number: usize) -> Result<()>
        ensures goes_on { IfOk result (λ _. GoesOn (marked_events_of self.old.nodes.events.now)
            self.old.nodes.ends.now (Frame.Given start number ∷ reverse self.old.frames.items)
            (reverse self.new.frames.items) self.old.builder self.new.builder) }
        ensures nodes { self.new.nodes ≡ self.old.nodes }
    {
        let end = self.nodes.end(start);
        let Some(entry) = self.plan.entry(start, number) else {
            return self.push(Event::MappingEnd, end);
        };
        let frame = Frame::GivenValues {
            start,
            number,
            entry,
        };
        self.frames.push(frame)?;
        self.node(entry.key, entry.by)
    }

    // Writes the value of such an entry.
    fn given_value(&mut self, start: usize, number: usize, entry: Entry) -> Result<()>
        ensures goes_on { IfOk result (λ _. GoesOn (marked_events_of self.old.nodes.events.now)
            self.old.nodes.ends.now (Frame.GivenValues start number entry ∷ reverse self.old.frames.items)
            (reverse self.new.frames.items) self.old.builder self.new.builder) }
        ensures nodes { self.new.nodes ≡ self.old.nodes }
    {
        let number = number.saturating_add(1);
        self.frames.push(Frame::Given { start, number })?;
        self.node(entry.value, entry.by)
    }

    // Goes on with a collection.
    fn go_on(&mut self, frame: Frame) -> Result<()>
        ensures goes_on { IfOk result (λ _. GoesOn (marked_events_of self.old.nodes.events.now)
            self.old.nodes.ends.now (frame ∷ reverse self.old.frames.items)
            (reverse self.new.frames.items) self.old.builder self.new.builder) }
        ensures nodes { self.new.nodes ≡ self.old.nodes }
    {
        match frame {
            Frame::Elements { at, end } => self.element(at, end),
            Frame::Keys { start, key, merges } => self.key(start, key, merges),
            Frame::Values {
                start,
                value,
                merges,
            } => self.value(start, value, merges),
            Frame::Given { start, number } => self.given(start, number),
            Frame::GivenValues {
                start,
                number,
                entry,
            } => self.given_value(start, number, entry),
        }
    }

    // Writes the document's node.
    pub(crate) fn root(&mut self) -> Result<()>
        ensures { IfOk result (λ _. self.old.frames.items ≡ [] → Writes
            (marked_events_of self.old.nodes.events.now) self.old.nodes.ends.now
            (target_at (marked_events_of self.old.nodes.events.now) 0) self.old.builder self.new.builder) }
    {
        self.node(0, None)?;
        'frames: for _ in 0..u64::MAX {
            match self.frames.pop() {
                Some(frame) => self.go_on(frame)?,
                None => return Ok(()),
            }
        }
        // no document is that long
        Err(Error::new(Cause::EndOfStream))
    }
}
