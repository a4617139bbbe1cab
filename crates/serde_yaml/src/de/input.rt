//! Reading a list of events as data.

ghost use Rattle.std.specs.Prelude.{◌≡◌, ◌<◌, length, Option, Some, IfOk, is_some};
ghost use Rattle.yaml_base.specs.Answer.{Answers};
ghost use Rattle.yaml_base.specs.PlainFault.{PlainFault};
ghost use Rattle.yaml_base.specs.Stream.{IsWellFormed};
ghost use Rattle.yaml_shape.specs.DataView.{data_of};
ghost use Rattle.yaml_shape.specs.HasShape.{HasShape};
ghost use Rattle.yaml_shape.specs.PlainShape.{PlainShape, shape_at};
ghost use Rattle.yaml_read.specs.Documents.{Input};
ghost use Rattle.yaml_read.specs.MarkedEvents.{events_in, plain_marked};
ghost use Rattle.serde_yaml.specs.Headline.{GivesMeaning};
ghost use Rattle.serde_yaml.specs.StreamReads.{InputGives, IsOfInput, StreamGives, stream_of};

use super::Deserializer;
use crate::laws::reading_gives_the_meaning;
use std::alloc::Global;
use yaml_base::{Event, Mark, ParserFault, Result};
use yaml_read::Limits;
use yaml_read::laws::a_meaning_has_its_shape;
use yaml_shape::{Data, Schema, ShapeId};

/// The data of the one document of these events, each with its mark, and of the parser's fault, if it had one, under
/// the shape with this number and within limits. Texts are borrowed from the source where the source shows them.
/// `Schema::has` is the test of what is asked.
///
/// It is `Deserializer::from_events` and then `deserialize_limited`, with the faults of both. Memory aside, data is
/// given exactly where three things hold: the parser had no fault, the events are a stream of one document, and its
/// tree means that data within the limits. A stream without documents is read as one that stands for nothing.
pub fn data_from_events<'de>(
    alloc: Global,
    events: Vec<(Event<'de>, Mark)>,
    fault: Option<ParserFault>,
    schema: &Schema,
    id: ShapeId,
    limits: Limits,
) -> Result<Data<'de>>
    requires { id.0 < length schema.now }
    ensures meaning { (s : PlainShape) → shape_at schema.now id.0 ≡ Some s → Answers data_of result
        (GivesMeaning limits schema.now s (plain_marked events.entry.items) fault) }
    ensures given { (s : PlainShape) → shape_at schema.now id.0 ≡ Some s → Answers data_of result
        (InputGives limits schema.now s (plain_marked events.entry.items) fault) }
    ensures typed { IfOk result (λ found. HasShape schema.now id.0 (data_of found)) }
{
    reading_gives_the_meaning();
    a_meaning_has_its_shape();
    match Deserializer::from_events(alloc, events, fault) {
        Ok(stream) => stream.deserialize_limited(alloc, schema, id, limits),
        Err(refused) => Err(refused),
    }
}

// The data of the one document of a stream under the shape with this number, within limits.
pub(crate) fn data_from_stream<'de>(
    alloc: Global,
    stream: Deserializer<'de>,
    schema: &Schema,
    id: ShapeId,
    limits: Limits,
) -> Result<Data<'de>>
    requires within { id.0 < length schema.now }
    requires parsed { IsOfInput stream }
    ensures gives { (s : PlainShape) → shape_at schema.now id.0 ≡ Some s
        → Answers data_of result (StreamGives limits schema.now s stream.entry) }
    ensures meaning { (s : PlainShape) → shape_at schema.now id.0 ≡ Some s → (input : Input)
        (fault : Option PlainFault) → stream.entry ≡ stream_of input fault
        → IsWellFormed (is_some fault) (events_in input)
        → Answers data_of result (GivesMeaning limits schema.now s input fault) }
    ensures typed { IfOk result (λ found. HasShape schema.now id.0 (data_of found)) }
{
    reading_gives_the_meaning();
    a_meaning_has_its_shape();
    stream.deserialize_limited(alloc, schema, id, limits)
}
