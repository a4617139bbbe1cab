//! Reading a stream of events.

mod alone;
mod calls;
mod input;
mod kinds;
mod taped;
mod typed;

ghost use Rattle.std.specs.Prelude.{◌≡◌, ℕ, ◌<◌, length, Option, Result, Some, IfOk, IfErr, false, is_some};
ghost use Rattle.yaml_base.specs.Answer.{Answers, is_memory};
ghost use Rattle.yaml_base.specs.PlainFault.{PlainFault};
ghost use Rattle.yaml_base.specs.Stream.{IsWellFormed};
ghost use Rattle.yaml_base.specs.declared.error.Cause.{Cause};
ghost use Rattle.yaml_base.specs.declared.error.Cause.TheVariants.{NotAStream};
ghost use Rattle.yaml_shape.specs.DataView.{data_of};
ghost use Rattle.yaml_shape.specs.PlainData.{PlainData};
ghost use Rattle.yaml_shape.specs.PlainShape.{PlainShape, shape_at};
ghost use Rattle.yaml_read.specs.Documents.{Input};
ghost use Rattle.yaml_read.specs.MarkedEvents.{events_in, plain_events, plain_marked};
ghost use Rattle.yaml_read.specs.Reads.{DocumentGives};
ghost use Rattle.yaml_read.specs.TreeReader.{default_limits};
ghost use Rattle.yaml_read.specs.WrongPlace.{IsWrongAt};
ghost use Rattle.serde_yaml.specs.Headline.{GivesMeaning};
ghost use Rattle.serde_yaml.specs.StreamReads.{IsFirst, RefusesAll, StreamGives, stream_of, unless_more};

use crate::laws::reading_gives_the_meaning;
pub use input::data_from_events;
pub(crate) use input::data_from_stream;
use std::alloc::Global;
use std::marker::Model;
pub(crate) use taped::value_of_tape;
pub(crate) use typed::{from_stream, from_stream_under};
pub use typed::{from_events, from_events_limited};
use yaml_base::{Cause, Error, Event, Mark, ParserFault, Result};
use yaml_read::{Document, Limits, Loader};
use yaml_shape::{Data, Schema, ShapeId};

// What is read: the documents of a stream that were not handed out, or one of them.
#[derive(Drop)]
enum Source<'de> {
    Stream(Loader<'de>),
    One(Document<'de>),
}

/// A stream of documents that is still to be read, or one document of it.
///
/// A stream of one document is read by `deserialize`. A stream of several is iterated: each item
/// reads its own document, and may outlive the stream.
#[derive(Drop)]
pub struct Deserializer<'de> {
    source: Source<'de>,
    iterated: bool,
}

impl<'de> Model for Deserializer<'de> {
    ghost use Rattle.serde_yaml.specs.PlainStream.{PlainStream};

    ghost Value = { PlainStream };

    ghost use Rattle.serde_yaml.specs.StreamView.{documents_left, is_one};

    ghost view = { λ d. record {
      documents = documents_left d.source;
      is_document = is_one d.source;
      iterated = d.iterated;
    } };
}

// Reads one document, behind which others may follow.
pub(crate) fn read_first<'de>(
    alloc: Global,
    document: &Document<'de>,
    schema: &Schema,
    id: ShapeId,
    limits: Limits,
    others: bool,
) -> Result<Data<'de>>
    requires { id.0 < length schema.now }
    ensures { (s : PlainShape) → shape_at schema.now id.0 ≡ Some s → Answers data_of result (λ given.
        (found : Result PlainData Cause) × DocumentGives limits schema.now s document.now found
        × (given ≡ unless_more others found)) }
{
    match document.deserialize_limited(alloc, schema, id, limits) {
        Ok(found) => {
            if others {
                return Err(Error::new(Cause::MoreThanOneDocument));
            }
            Ok(found)
        }
        Err(fault) => Err(fault),
    }
}

// Whether a document is there.
pub(crate) fn is_there(document: Option<Document<'_>>) -> bool
    ensures { result ≡ is_some document.entry }
{
    document.is_some()
}

// Lets what is read go.
fn discard(_source: Source<'_>) {}

impl<'de> Deserializer<'de> {
    /// Takes the events of a stream, each with its mark, and the parser's fault, if it had one. A list of events that
    /// is no stream, or with a fault no beginning of one that lacks the end, is refused with the least place that is
    /// wrong. The events are dropped on refusal.
    pub fn from_events(
        alloc: Global,
        events: Vec<(Event<'de>, Mark)>,
        fault: Option<ParserFault>,
    ) -> Result<Deserializer<'de>>
        ensures accepted { IfOk result (λ _. IsWellFormed (is_some fault) (plain_events events.entry.items)) }
        ensures documents { IfOk result (λ stream. stream ≡ stream_of (plain_marked events.entry.items) fault) }

        ensures refused { IfErr result (λ cause. is_memory cause ≡ false
            → IsWellFormed (is_some fault) (plain_events events.entry.items) → ⊥) }
        ensures wrong { IfErr result (λ cause. is_memory cause ≡ false → (place : ℕ) × (cause ≡ NotAStream place)
            × IsWrongAt (is_some fault) (plain_events events.entry.items) place) }
    {
        Ok(Deserializer::of_documents(Loader::new(alloc, events, fault)?))
    }

    // A stream of these documents.
    pub(crate) fn of_documents(documents: Loader<'de>) -> Deserializer<'de>
        ensures { result ≡ (record { documents = documents.entry; is_document = false; iterated = false }) }
    {
        Deserializer {
            source: Source::Stream(documents),
            iterated: false,
        }
    }

    /// The data of the stream's one document under the shape with this number, within 128 nestings and 100 follows for
    /// each of its events. Texts are borrowed from the source where the source shows them. `Schema::has` is the test of
    /// what is asked.
    ///
    /// The first document's fault comes first: one of reading it, then the one that cut it off. A stream of several
    /// documents whose first reads as data, and a stream that was iterated, are refused as more than one document.
    pub fn deserialize(self, alloc: Global, schema: &Schema, id: ShapeId) -> Result<Data<'de>>
        requires { id.0 < length schema.now }

        ensures gives { (s : PlainShape) → shape_at schema.now id.0 ≡ Some s
            → Answers data_of result (StreamGives default_limits schema.now s self.entry) }

        // Of what `from_events` gave: data is given exactly where the input reads as that data.
        ensures meaning { (s : PlainShape) → shape_at schema.now id.0 ≡ Some s → (input : Input)
            (fault : Option PlainFault) → self.entry ≡ stream_of input fault
            → IsWellFormed (is_some fault) (events_in input)
            → Answers data_of result (GivesMeaning default_limits schema.now s input fault) }
    {
        self.deserialize_limited(alloc, schema, id, Limits::DEFAULT)
    }

    /// The same within other limits.
    pub fn deserialize_limited(
        self,
        alloc: Global,
        schema: &Schema,
        id: ShapeId,
        limits: Limits,
    ) -> Result<Data<'de>>
        requires { id.0 < length schema.now }

        ensures gives { (s : PlainShape) → shape_at schema.now id.0 ≡ Some s
            → Answers data_of result (StreamGives limits schema.now s self.entry) }

        // Of what `from_events` gave: data is given exactly where the input reads as that data.
        ensures meaning { (s : PlainShape) → shape_at schema.now id.0 ≡ Some s → (input : Input)
            (fault : Option PlainFault) → self.entry ≡ stream_of input fault
            → IsWellFormed (is_some fault) (events_in input)
            → Answers data_of result (GivesMeaning limits schema.now s input fault) }
    {
        reading_gives_the_meaning();
        self.read_within(alloc, schema, id, limits)
    }

    // The first document of the stream, and whether others follow. A stream that was iterated is refused as more than
    // one document.
    fn first(self) -> Result<(Document<'de>, bool)>
        ensures found { IfOk result (λ found. IsFirst self.entry found.0 found.1) }
        ensures refused { IfErr result (RefusesAll self.entry) }
    {
        let Deserializer { source, iterated } = self;
        if iterated {
            discard(source);
            return Err(Error::new(Cause::MoreThanOneDocument));
        }
        match source {
            Source::One(document) => Ok((document, false)),
            Source::Stream(mut documents) => match documents.next_document() {
                Some(document) => {
                    let others = is_there(documents.next_document());
                    Ok((document, others))
                }
                None => Err(Error::new(Cause::EndOfStream)),
            },
        }
    }

    // The data of the stream, within limits.
    fn read_within(
        self,
        alloc: Global,
        schema: &Schema,
        id: ShapeId,
        limits: Limits,
    ) -> Result<Data<'de>>
        requires { id.0 < length schema.now }
        ensures { (s : PlainShape) → shape_at schema.now id.0 ≡ Some s
            → Answers data_of result (StreamGives limits schema.now s self.entry) }
    {
        match self.first() {
            Ok((document, others)) => read_first(alloc, &document, schema, id, limits, others),
            Err(fault) => Err(fault),
        }
    }
}

impl<'de> Iterator for Deserializer<'de> {
    ghost use Rattle.std.specs.Iterator.{item_count};
    ghost use Rattle.serde_yaml.specs.PlainStream.{items_left, GoesOn};

    type Item = Deserializer<'de>;

    ghost next_gives = { GoesOn };

    ghost remaining = { item_count items_left };

    /// The next document of the stream, to be read on its own, or `None` once each was given, for good. Takes no
    /// memory.
    fn next(&mut self) -> Option<Deserializer<'de>> {
        match &mut self.source {
            Source::Stream(documents) => {
                self.iterated = true;
                match documents.next_document() {
                    Some(document) => Some(Deserializer {
                        source: Source::One(document),
                        iterated: false,
                    }),
                    None => None,
                }
            }
            Source::One(_) => None,
        }
    }
}
