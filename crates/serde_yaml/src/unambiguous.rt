//! Writing YAML text that other readers take as it is meant.

ghost use Rattle.std.specs.Prelude.{◌≡◌, false, map, string_bytes, Err, IfErr, IfOk, OnOk};
ghost use Rattle.yaml_base.specs.Answer.{is_memory};
ghost use Rattle.yaml_base.specs.EmitEvents.{emit_of};
ghost use Rattle.yaml_base.specs.EmitTree.{IsEmitStream};
ghost use Rattle.yaml_ambiguous.specs.Quoting.{unambiguous};
ghost use Rattle.yaml_emit.specs.StreamTexts.{IsStreamText};
ghost use Rattle.serde_yaml.specs.Printed.{HasText};
ghost use Rattle.serde_yaml.specs.Quotes.{Quotes};
ghost use Rattle.serde_yaml.specs.TypedWrites.{TypeWrites};

use crate::printed::printed;
use crate::ser::to_events;
use std::alloc::Global;
use yaml_ambiguous::quote_ambiguous;
use yaml_base::Result;
use yaml_base::emitter::EmitEvent;
use yaml_types::Serialize;

// The text of events, with quotes around their ambiguous texts.
fn quoted(alloc: Global, events: Vec<EmitEvent>) -> Result<String>
    ensures text { IfOk result (λ text.
        IsStreamText (map unambiguous (map emit_of events.items)) (string_bytes text)) }
    ensures no_stream { IfErr result (λ cause. is_memory cause ≡ false
        → IsEmitStream (map emit_of events.items) → ⊥) }
{
    let mut events = events;
    quote_ambiguous(&mut events);
    printed(alloc, events.as_slice())
}

/// The value as YAML text, a document that ends with a line feed, which other readers of YAML take as it is meant. It
/// is as `to_string` prints it, but with quotes around each text that some of them takes for something else where it
/// stands plain, such as `yes`, `12:30` and `2024-01-31`. What `to_events` refuses is refused so.
pub fn to_string_unambiguous<T: Serialize>(alloc: Global, value: &T) -> Result<String>
    ensures text { IfOk result (λ text. HasText
        (Quotes (TypeWrites T.start (T.written value.now) (T.unwritten value.now))) (string_bytes text)) }
    ensures kept { OnOk result (T.kept value.now) }
    ensures unwritten { IfErr result (λ cause. is_memory cause ≡ false
        → TypeWrites T.start (T.written value.now) (T.unwritten value.now) (Err cause)) }
{
    let events = match to_events(alloc, value) {
        Ok(events) => events,
        Err(refused) => return Err(refused),
    };
    match quoted(alloc, events) {
        Ok(text) => Ok(text),
        Err(fault) => Err(fault),
    }
}
