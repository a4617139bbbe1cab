//! The events with which nodes begin anew.

ghost use Rattle.std.specs.Prelude.{◌≡◌, ◌∷◌, ◌++◌, [], IfOk, false, reverse};
ghost use Rattle.yaml_base.specs.DocEventView.{doc_scalar_of, marked_events_of};
ghost use Rattle.yaml_base.specs.PlainEvent.{event_of};
ghost use Rattle.yaml_merge.specs.Names.{IsNamed, name_of};
ghost use Rattle.yaml_merge.specs.Writing.{Begins, IsMappingOf, IsScalarOf, IsSequenceOf, end_at, next_to};

use crate::writer::{Frame, Writer};
use std::alloc::Global;
use yaml_base::{
    Anchor, Cause, DocEvent, DocScalar, DocStart, Error, Event, MappingStart, Result, Scalar,
    SequenceStart, Tag,
};

// The same tag.
fn tag_of(alloc: Global, tag: &Option<Tag>) -> Result<Option<Tag>>
    ensures { IfOk result (λ copy. copy ≡ tag.now) }
{
    match tag {
        Some(tag) => Ok(Some(Tag::new(Vec::from_slice(alloc, tag.as_slice())?))),
        None => Ok(None),
    }
}

// The anchor of the node in a place.
#[tactic(auto, unfolding(crate::specs::Names::name_of))]
pub(crate) fn anchor(alloc: Global, place: usize) -> Result<Anchor>
    ensures { IfOk result (λ anchor. anchor ≡ name_of place) }
{
    Ok(Anchor::new(Vec::from_slice(alloc, place.to_le_bytes().as_slice())?))
}

impl<'a, 'de> Writer<'a, 'de> {
    // The anchor of the node in a place, if another node may stand for it.
    fn anchor_of(&self, place: usize) -> Result<Option<Anchor>>
        ensures { IfOk result (λ anchor. IsNamed anchor place) }
    {
        if self.plan.is_named(place) {
            return Ok(Some(anchor(self.alloc, place)?));
        }
        Ok(None)
    }

    // The scalar in a place.
    fn scalar(&self, place: usize, scalar: &DocScalar<'de>) -> Result<Event<'de>>
        ensures { IfOk result (λ event. IsScalarOf (doc_scalar_of scalar.now) place (event_of event)) }
    {
        Ok(Event::Scalar(Scalar {
            anchor: self.anchor_of(place)?,
            tag: tag_of(self.alloc, &scalar.tag)?,
            value: Vec::from_slice(self.alloc, scalar.value.as_slice())?,
            style: scalar.style,
            repr: scalar.repr,
        }))
    }

    // The sequence that begins in a place.
    fn sequence(&mut self, place: usize, start: &DocStart) -> Result<Event<'de>>
        ensures begun { IfOk result (λ event. IsSequenceOf start.now.tag place (event_of event)
            × (self.new.frames.items ≡ self.old.frames.items
            ++ Frame.Elements (next_to place) (end_at self.old.nodes.ends.now place) ∷ [])) }
        ensures nodes { self.new.nodes ≡ self.old.nodes }
        ensures builder { self.new.builder ≡ self.old.builder }
    {
        let frame = Frame::Elements {
            at: place.saturating_add(1),
            end: self.nodes.end(place),
        };
        self.frames.push(frame)?;
        Ok(Event::SequenceStart(SequenceStart {
            anchor: self.anchor_of(place)?,
            tag: tag_of(self.alloc, &start.tag)?,
        }))
    }

    // The mapping that begins in a place.
    fn mapping(&mut self, place: usize, start: &DocStart) -> Result<Event<'de>>
        ensures begun { IfOk result (λ event. IsMappingOf start.now.tag place (event_of event)
            × (self.new.frames.items ≡ self.old.frames.items ++ Frame.Keys place (next_to place) false ∷ [])) }
        ensures nodes { self.new.nodes ≡ self.old.nodes }
        ensures builder { self.new.builder ≡ self.old.builder }
    {
        let frame = Frame::Keys {
            start: place,
            key: place.saturating_add(1),
            merges: false,
        };
        self.frames.push(frame)?;
        Ok(Event::MappingStart(MappingStart {
            anchor: self.anchor_of(place)?,
            tag: tag_of(self.alloc, &start.tag)?,
        }))
    }

    // The event with which the node in a place begins, which was not written yet.
    pub(crate) fn first_event(&mut self, place: usize) -> Result<Event<'de>>
        ensures begins { IfOk result (λ event. Begins (marked_events_of self.old.nodes.events.now)
            self.old.nodes.ends.now (reverse self.old.frames.items) (reverse self.new.frames.items)
            (event_of event) place) }
        ensures nodes { self.new.nodes ≡ self.old.nodes }
        ensures builder { self.new.builder ≡ self.old.builder }
    {
        match self.nodes.event(place) {
            Some(DocEvent::Scalar(scalar)) => self.scalar(place, scalar),
            Some(DocEvent::SequenceStart(start)) => self.sequence(place, start),
            Some(DocEvent::MappingStart(start)) => self.mapping(place, start),
            _ => Err(Error::new(Cause::EndOfStream)),
        }
    }
}
