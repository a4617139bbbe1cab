//! Writing a value of a type as a stream.

ghost use Rattle.std.specs.Prelude.{◌≡◌, [], map, None, OnOk, IsTrue};
ghost use Rattle.yaml_base.specs.Answer.{Answers, Gives};
ghost use Rattle.yaml_base.specs.EmitEvents.{emit_of};
ghost use Rattle.yaml_shape.specs.DataView.{data_of};
ghost use Rattle.yaml_shape.specs.HasShape.{HasShape};
ghost use Rattle.yaml_shape.specs.Held.{IsHeld, is_table};
ghost use Rattle.yaml_shape.specs.Validity.{IsValidSchema};
ghost use Rattle.yaml_write.specs.Outcomes.{made};
ghost use Rattle.yaml_write.specs.Written.{written};
ghost use Rattle.serde_yaml.specs.TypedWrites.{TypeWrites, written_stream};

use crate::type_faults::schema_refusal;
use std::alloc::Global;
use yaml_base::Result;
use yaml_base::emitter::EmitEvent;
use yaml_emit::EventSink;
use yaml_shape::{Data, Schema, ShapeId, data_is_held};
use yaml_types::Serialize;
use yaml_write::{EventBuffer, NodeWriter};

// A whole stream whose one document is the data, by its shape, into a sink that has taken nothing.
pub(crate) fn write_stream<S: EventSink>(
    sink: S,
    schema: &Schema,
    id: ShapeId,
    content: &Data<'_>,
) -> Result<S>
    requires fresh { S.events sink ≡ [] }
    requires of_shape { HasShape schema.now id.0 (data_of content.now) }
    ensures valid { IsValidSchema schema.now }
    ensures table { OnOk result (IsTrue (is_table schema.now)) }
    ensures held { OnOk result (IsHeld (data_of content.now)) }
    ensures written { Gives S.events result (made written_stream (written schema.now id.0 None (data_of content.now))) }
{
    schema.is_valid();
    schema.is_table();
    data_is_held(content);
    let mut out = NodeWriter::new(sink);
    out.start_stream()?;
    out.typed(None, schema, id, content)?;
    out.end_stream()?;
    Ok(out.into_sink())
}

// A whole stream whose one document is the value, into a sink that has taken nothing.
pub(crate) fn write_value<T: Serialize, S: EventSink>(
    alloc: Global,
    sink: S,
    value: &T,
) -> Result<S>
    requires fresh { S.events sink ≡ [] }
    ensures written { Answers S.events result (TypeWrites T.start (T.written value.now) (T.unwritten value.now)) }
    ensures kept { OnOk result (T.kept value.now) }
    ensures table { OnOk result (IsTrue (is_table T.start.0)) }
    ensures held { OnOk result (IsHeld (T.written value.now)) }
{
    let (schema, id) = match T::schema(alloc) {
        Ok(start) => start,
        Err(refused) => return Err(schema_refusal(alloc, refused)),
    };
    schema.is_valid();
    schema.is_table();
    let mut out = NodeWriter::new(sink);
    out.start_stream()?;
    value.write_node(&mut out, &schema, id)?;
    out.end_stream()?;
    Ok(out.into_sink())
}

/// The events of a whole stream whose one document is the value, as the type's own `to_data` gives it. A value whose
/// data has bytes, or a tag upon a tag, is refused, and so is a type without a schema. A value that `to_data` refuses
/// by a message is refused by that text.
pub fn to_events<T: Serialize>(alloc: Global, value: &T) -> Result<Vec<EmitEvent>>
    ensures written { Answers (λ events. map emit_of events.items) result
        (TypeWrites T.start (T.written value.now) (T.unwritten value.now)) }

    // What was written keeps what the type's laws ask of a value, and what laws of reading it again ask of the type's
    // table and of its data: that their names and texts are UTF-8.
    ensures kept { OnOk result (T.kept value.now) }
    ensures table { OnOk result (IsTrue (is_table T.start.0)) }
    ensures held { OnOk result (IsHeld (T.written value.now)) }
{
    match write_value(alloc, EventBuffer::new(alloc), value) {
        Ok(events) => Ok(events.into_events()),
        Err(refused) => Err(refused),
    }
}
