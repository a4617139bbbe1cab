//! Whether what was written is one document.

ghost use Rattle.std.specs.Prelude.{◌≡◌, true, map, IfOk};
ghost use Rattle.yaml.specs.WrittenDocument.{IsWrittenDocument, documents_begun};
ghost use Rattle.yaml_base.specs.EmitEvents.{emit_of};
ghost use Rattle.yaml_base.specs.EmitTree.{IsEmitStream};

use crate::told::{NOT_ONE, told};
use std::alloc::Global;
use yaml_base::Result;
use yaml_base::emitter::EmitEvent;

// How many documents begin in the events.
fn documents_begun(events: &[EmitEvent]) -> usize
    ensures { result ≡ documents_begun (map emit_of events.now) }
{
    let mut begun = 0;
    for event in events {
        if matches!(event, EmitEvent::DocumentStart) {
            begun += 1;
        }
    }
    begun
}

// Whether a stream has one document.
fn is_one_document(events: &[EmitEvent]) -> bool
    requires { IsEmitStream (map emit_of events.now) }
    ensures { result ≡ true → IsWrittenDocument (map emit_of events.now) }
{
    documents_begun(events) == 1
}

/// The events of a stream, where it has one document. Else a value wrote nothing, or more than itself.
pub(crate) fn of_one_document(alloc: Global, events: Vec<EmitEvent>) -> Result<Vec<EmitEvent>>
    requires { IsEmitStream (map emit_of events.items) }
    ensures stream { IfOk result (λ events. IsEmitStream (map emit_of events.items)) }
    ensures one { IfOk result (λ events. IsWrittenDocument (map emit_of events.items)) }
{
    if is_one_document(&events) {
        return Ok(events);
    }
    Err(told(alloc, NOT_ONE))
}
