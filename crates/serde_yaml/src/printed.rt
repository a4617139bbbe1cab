//! Writing YAML text.

ghost use Rattle.std.specs.Prelude.{◌≡◌, false, map, string_bytes, Err, IfErr, IfOk, IsTrue, OnOk};
ghost use Rattle.yaml_base.specs.Answer.{is_memory};
ghost use Rattle.yaml_shape.specs.DataView.{data_of};
ghost use Rattle.yaml_shape.specs.Held.{IsHeld, is_table};
ghost use Rattle.yaml_shape.specs.TypedView.{content_in, id_in, schema_in};
ghost use Rattle.yaml_base.specs.EmitEvents.{emit_of};
ghost use Rattle.yaml_base.specs.EmitTree.{IsEmitStream};
ghost use Rattle.yaml_emit.specs.StreamTexts.{IsStreamText};
ghost use Rattle.yaml_emit.specs.WriteFaults.{IfOfValue};
ghost use Rattle.serde_yaml.specs.Printed.{AddsText, HasEvents, HasText, IsDataWritten, IsOutOfPlace};
ghost use Rattle.serde_yaml.specs.Printed.{IsTextRefused};
ghost use Rattle.serde_yaml.specs.TypedWrites.{TypeWrites};

use crate::ser::{write_stream, write_value};
use std::alloc::Global;
use std::io::Write;
use yaml_base::Result;
use yaml_base::emitter::EmitEvent;
use yaml_emit::{Emitter, WriteFault, emit};
use yaml_shape::Typed;
use yaml_types::Serialize;

// The text of what an emitter has taken.
fn finished(emitter: Emitter) -> Result<String>
    ensures text { IfOk result (λ text. IsStreamText emitter.taken (string_bytes text)) }
    ensures refused { IfErr result (λ cause. is_memory cause ≡ false → IsOutOfPlace cause) }
    ensures no_stream { IfErr result (λ cause. is_memory cause ≡ false → IsEmitStream emitter.taken → ⊥) }
{
    match emitter.finish() {
        Ok(text) => Ok(text),
        Err(fault) => Err(fault),
    }
}

// The text of events.
pub(crate) fn printed(alloc: Global, events: &[EmitEvent]) -> Result<String>
    ensures text { IfOk result (λ text. IsStreamText (map emit_of events.now) (string_bytes text)) }
    ensures refused { IfErr result (λ cause. is_memory cause ≡ false → IsOutOfPlace cause) }
    ensures no_stream { IfErr result (λ cause. is_memory cause ≡ false
        → IsEmitStream (map emit_of events.now) → ⊥) }
{
    match emit(alloc, events) {
        Ok(text) => Ok(text),
        Err(fault) => Err(fault),
    }
}

/// The value as YAML text, a document that ends with a line feed: what `emit` prints for the events of `to_events`.
/// What `to_events` refuses is refused so.
pub fn to_string<T: Serialize>(alloc: Global, value: &T) -> Result<String>
    ensures written { OnOk result (HasEvents (TypeWrites T.start (T.written value.now) (T.unwritten value.now))) }
    ensures text { IfOk result (λ text. HasText (TypeWrites T.start (T.written value.now) (T.unwritten value.now))
        (string_bytes text)) }
    ensures kept { OnOk result (T.kept value.now) }

    // As with events: what laws of reading the text again ask of the type's table and of the data.
    ensures table { OnOk result (IsTrue (is_table T.start.0)) }
    ensures held { OnOk result (IsHeld (T.written value.now)) }
    ensures refused { IfErr result (λ cause. is_memory cause ≡ false
        → IsTextRefused (TypeWrites T.start (T.written value.now) (T.unwritten value.now)) cause) }
    ensures unwritten { IfErr result (λ cause. is_memory cause ≡ false
        → TypeWrites T.start (T.written value.now) (T.unwritten value.now) (Err cause)) }
{
    let emitter = match write_value(alloc, Emitter::new(alloc), value) {
        Ok(emitter) => emitter,
        Err(refused) => return Err(refused),
    };
    match finished(emitter) {
        Ok(text) => Ok(text),
        Err(fault) => Err(fault),
    }
}

/// The same text to a writer, whole and at once, which is then flushed. What has no text leaves the writer as it was.
pub fn to_writer<W: Write, T: Serialize>(
    alloc: Global,
    writer: &mut W,
    value: &T,
) -> std::result::Result<(), WriteFault>
    ensures written { OnOk result (HasEvents (TypeWrites T.start (T.written value.now) (T.unwritten value.now))) }
    ensures text { OnOk result (AddsText (TypeWrites T.start (T.written value.now) (T.unwritten value.now))
        (W.contents writer.old) (W.contents writer.new)) }
    ensures kept { OnOk result (T.kept value.now) }
    ensures unwritten { IfErr result (IfOfValue (λ cause. is_memory cause ≡ false
        → TypeWrites T.start (T.written value.now) (T.unwritten value.now) (Err cause))) }
    ensures untouched { IfErr result (IfOfValue (λ _. W.contents writer.new ≡ W.contents writer.old)) }
{
    let text = match to_string(alloc, value) {
        Ok(text) => text,
        Err(fault) => return Err(WriteFault::Value(fault)),
    };
    if let Err(fault) = writer.write_all(text.as_bytes()) {
        return Err(WriteFault::Writer(fault));
    }
    match writer.flush() {
        Ok(()) => Ok(()),
        Err(fault) => Err(WriteFault::Writer(fault)),
    }
}

/// Data of a shape as YAML text, a document that ends with a line feed. Bytes, and a tag upon a tag, are refused.
pub fn data_to_string(alloc: Global, value: &Typed<'_, '_>) -> Result<String>
    ensures written { OnOk result (HasEvents (IsDataWritten (schema_in value.now) (id_in value.now).0
        (data_of (content_in value.now)))) }
    ensures text { IfOk result (λ text. HasText (IsDataWritten (schema_in value.now) (id_in value.now).0
        (data_of (content_in value.now))) (string_bytes text)) }
    ensures table { OnOk result (IsTrue (is_table (schema_in value.now))) }
    ensures held { OnOk result (IsHeld (data_of (content_in value.now))) }
    ensures refused { IfErr result (λ cause. is_memory cause ≡ false
        → IsTextRefused (IsDataWritten (schema_in value.now) (id_in value.now).0
        (data_of (content_in value.now))) cause) }
    ensures unwritten { IfErr result (λ cause. is_memory cause ≡ false
        → IsDataWritten (schema_in value.now) (id_in value.now).0 (data_of (content_in value.now))
        (Err cause)) }
{
    let sink = Emitter::new(alloc);
    let emitter = match write_stream(sink, value.schema(), value.id(), value.content()) {
        Ok(emitter) => emitter,
        Err(refused) => return Err(refused),
    };
    match finished(emitter) {
        Ok(text) => Ok(text),
        Err(fault) => Err(fault),
    }
}
