//! Reading a stream as a value of a type.

ghost use Rattle.std.specs.Prelude.{◌≡◌, Option, is_some};
ghost use Rattle.yaml_base.specs.Answer.{Answers};
ghost use Rattle.yaml_base.specs.PlainFault.{PlainFault};
ghost use Rattle.yaml_base.specs.Stream.{IsWellFormed};
ghost use Rattle.yaml_read.specs.Documents.{Input};
ghost use Rattle.yaml_read.specs.MarkedEvents.{events_in, plain_marked};
ghost use Rattle.yaml_read.specs.TreeReader.{default_limits};
ghost use Rattle.serde_yaml.specs.StreamReads.{IsOfInput, stream_of};
ghost use Rattle.serde_yaml.specs.TypedHeadline.{GivesValue};
ghost use Rattle.serde_yaml.specs.TypedReads.{TypeGives};

use super::Deserializer;
use super::input::{data_from_events, data_from_stream};
use crate::laws::reading_gives_the_meaning;
use crate::type_faults::{build_refusal, schema_refusal};
use std::alloc::Global;
use yaml_base::{Event, Mark, ParserFault, Result};
use yaml_read::Limits;
use yaml_shape::{Schema, ShapeId};
use yaml_types::Deserialize;

/// The stream's one document as a value of the type: what the type's own `build` makes of the data that
/// `Deserializer::deserialize` answers under the type's shape. The value may keep texts that the events lend. Data that
/// `build` refuses is refused by its message, and a type without a schema by the schema's fault, as faults without a
/// place.
///
/// Memory aside, a value is given only where the parser had no fault and the events read as data of which it is built.
/// Where they read as data, such a value is given, or a message by which the type refuses that data.
pub fn from_events<'de, T: Deserialize<'de>>(
    alloc: Global,
    events: Vec<(Event<'de>, Mark)>,
    fault: Option<ParserFault>,
) -> Result<T>
    ensures meaning { Answers (λ value. value) result
        (GivesValue default_limits T.start T.built T.refused (plain_marked events.entry.items) fault) }
    ensures given { Answers (λ value. value) result
        (TypeGives default_limits T.start T.built T.refused (plain_marked events.entry.items) fault) }
{
    from_events_limited(alloc, events, fault, Limits::DEFAULT)
}

/// The same within other limits.
pub fn from_events_limited<'de, T: Deserialize<'de>>(
    alloc: Global,
    events: Vec<(Event<'de>, Mark)>,
    fault: Option<ParserFault>,
    limits: Limits,
) -> Result<T>
    ensures meaning { Answers (λ value. value) result
        (GivesValue limits T.start T.built T.refused (plain_marked events.entry.items) fault) }
    ensures given { Answers (λ value. value) result
        (TypeGives limits T.start T.built T.refused (plain_marked events.entry.items) fault) }
{
    reading_gives_the_meaning();
    let (schema, id) = match T::schema(alloc) {
        Ok(start) => start,
        Err(refused) => return Err(schema_refusal(alloc, refused)),
    };
    schema.is_valid();
    match data_from_events(alloc, events, fault, &schema, id, limits) {
        Ok(found) => match T::build(alloc, found) {
            Ok(value) => Ok(value),
            Err(refused) => Err(build_refusal(refused)),
        },
        Err(refused) => Err(refused),
    }
}

// The value of the type that a stream's one document stands for, within limits.
pub(crate) fn from_stream<'de, T: Deserialize<'de>>(
    alloc: Global,
    stream: Deserializer<'de>,
    limits: Limits,
) -> Result<T>
    requires { IsOfInput stream }
    ensures meaning { (input : Input) (fault : Option PlainFault) → stream.entry ≡ stream_of input fault
        → IsWellFormed (is_some fault) (events_in input) → Answers (λ value. value) result
        (GivesValue limits T.start T.built T.refused input fault) }
    ensures given { (input : Input) (fault : Option PlainFault) → stream.entry ≡ stream_of input fault
        → IsWellFormed (is_some fault) (events_in input) → Answers (λ value. value) result
        (TypeGives limits T.start T.built T.refused input fault) }
{
    reading_gives_the_meaning();
    match T::schema(alloc) {
        Ok((table, id)) => from_stream_under(alloc, stream, &table, id, limits),
        Err(reason) => Err(schema_refusal(alloc, reason)),
    }
}

// The same under the type's shape, which is in this table.
pub(crate) fn from_stream_under<'de, T: Deserialize<'de>>(
    alloc: Global,
    stream: Deserializer<'de>,
    table: &Schema,
    id: ShapeId,
    limits: Limits,
) -> Result<T>
    requires stream { IsOfInput stream }
    requires table { table.now ≡ T.start.0 }
    requires number { id.0 ≡ T.start.1 }
    ensures meaning { (input : Input) (fault : Option PlainFault) → stream.entry ≡ stream_of input fault
        → IsWellFormed (is_some fault) (events_in input) → Answers (λ value. value) result
        (GivesValue limits T.start T.built T.refused input fault) }
    ensures given { (input : Input) (fault : Option PlainFault) → stream.entry ≡ stream_of input fault
        → IsWellFormed (is_some fault) (events_in input) → Answers (λ value. value) result
        (TypeGives limits T.start T.built T.refused input fault) }
{
    reading_gives_the_meaning();
    table.is_valid();
    match data_from_stream(alloc, stream, table, id, limits) {
        Ok(found) => match T::build(alloc, found) {
            Ok(value) => Ok(value),
            Err(reason) => Err(build_refusal(reason)),
        },
        Err(refused) => Err(refused),
    }
}
