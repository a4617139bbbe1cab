//! Writing several values as YAML text, a document for each.

ghost use Rattle.std.specs.Prelude.{◌≡◌, ◌++◌, false, map, string_bytes, Err, IfErr, IfOk, IsTrue, List, OnOk};
ghost use Rattle.std.specs.List.{All};
ghost use Rattle.yaml_base.specs.Answer.{is_memory};
ghost use Rattle.yaml_base.specs.EmitEvents.{emit_of};
ghost use Rattle.yaml_base.specs.EmitTree.{EmitNode, emit_document_events, emit_documents_events};
ghost use Rattle.yaml_shape.specs.Held.{IsHeld, is_table};
ghost use Rattle.yaml_shape.specs.Validity.{IsValidSchema};
ghost use Rattle.yaml_types.specs.NodeWrites.{written_node, IsFaultOf, IsPut};
ghost use Rattle.serde_yaml.specs.Printed.{HasText};
ghost use Rattle.serde_yaml.specs.WrittenDocuments.{AreWrittenAs, IsFirstRefusal, TypeWritesAll};

use crate::type_faults::schema_refusal;
use std::alloc::Global;
use yaml_base::Result;
use yaml_base::emitter::EmitEvent;
use yaml_emit::{Emitter, EventSink};
use yaml_shape::{Schema, ShapeId};
use yaml_types::Serialize;
use yaml_write::NodeWriter;

// Writes a document, whose node is what the value is written as by the shape with this number.
fn write_document<T: Serialize, S: EventSink>(
    out: &mut NodeWriter<S>,
    schema: &Schema,
    id: ShapeId,
    value: &T,
) -> Result<()>
    ensures taken { OnOk result (IsPut emit_document_events
        (written_node schema.now id.0 (T.written value.now)) out.old out.new) }
    ensures kept { OnOk result (T.kept value.now) }
    ensures held { OnOk result (IsHeld (T.written value.now)) }
    ensures refused { IfErr result
        (IsFaultOf (written_node schema.now id.0 (T.written value.now)) (T.unwritten value.now)) }
{
    out.start_document()?;
    value.write_node(out, schema, id)?;
    out.end_document()?;
    Ok(())
}

// Writes a document for each value.
fn write_documents<T: Serialize, S: EventSink>(
    out: &mut NodeWriter<S>,
    schema: &Schema,
    id: ShapeId,
    values: &[T],
) -> Result<()>
    requires table { schema.now ≡ T.start.0 }
    requires number { id.0 ≡ T.start.1 }
    requires valid { IsValidSchema schema.now }
    ensures taken { OnOk result ((roots : List EmitNode) × AreWrittenAs T.start T.written values.now roots
        × (out.new ≡ out.old ++ emit_documents_events roots)) }
    ensures kept { OnOk result (All T.kept values.now) }
    ensures held { OnOk result (All (λ x. IsHeld (T.written x)) values.now) }
    ensures refused { IfErr result (λ cause. is_memory cause ≡ false
        → IsFirstRefusal T.start T.written T.unwritten values.now cause) }
{
    for value in values {
        write_document(out, schema, id, value)?;
    }
    Ok(())
}

/// The values as YAML text, a document for each, with `---` between: what `emit` prints for a stream of the documents
/// that `to_string` writes of each alone. Without values it is the empty text. The first value that `to_string` refuses
/// is refused so. No events are held, but the text of those before.
pub fn documents_to_string<T: Serialize>(alloc: Global, values: &[T]) -> Result<String>
    ensures text { IfOk result (λ text.
        HasText (TypeWritesAll T.start T.written T.unwritten values.now) (string_bytes text)) }
    ensures kept { OnOk result (All T.kept values.now) }

    // As with one: what laws of reading the text again ask of the type's table and of the data.
    ensures table { OnOk result (IsTrue (is_table T.start.0)) }
    ensures held { OnOk result (All (λ x. IsHeld (T.written x)) values.now) }
    ensures unwritten { IfErr result (λ cause. is_memory cause ≡ false
        → TypeWritesAll T.start T.written T.unwritten values.now (Err cause)) }
{
    let (schema, id) = match T::schema(alloc) {
        Ok(start) => start,
        Err(refused) => return Err(schema_refusal(alloc, refused)),
    };
    schema.is_valid();
    schema.is_table();
    let mut emitter = Emitter::new(alloc);
    emitter.push(&EmitEvent::StreamStart)?;
    let mut out = NodeWriter::new(emitter);
    write_documents(&mut out, &schema, id, values)?;
    let mut emitter = out.into_sink();
    emitter.push(&EmitEvent::StreamEnd)?;
    emitter.finish()
}
