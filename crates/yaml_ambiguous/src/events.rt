//! Quotes around ambiguous texts.

ghost use Rattle.std.specs.Prelude.{◌≡◌, List, map};
ghost use Rattle.yaml_base.specs.EmitEvents.{PlainEmit, emit_of};
ghost use Rattle.yaml_base.specs.EmitTree.{IsEmitStream};
ghost use Rattle.yaml_base.specs.PlainEvent.{PlainEvent};
ghost use Rattle.yaml_base.specs.Renders.{Renders};
ghost use Rattle.yaml_ambiguous.specs.Quoting.{IsUnambiguous, unambiguous};

use crate::text::is_ambiguous;
use yaml_base::emitter::{AskedStyle, EmitEvent};

// Asks for quotes around the text of an event, if it is ambiguous and may stand in any style.
fn quote(event: &mut EmitEvent)
    ensures { emit_of event.new ≡ unambiguous (emit_of event.old) }
{
    match event {
        EmitEvent::Scalar(scalar) => {
            if scalar.style == AskedStyle::Any && is_ambiguous(scalar.value.as_str()) {
                scalar.style = AskedStyle::SingleQuoted;
            }
        }
        _ => {}
    }
}

// Asks for quotes around the texts of events that are ambiguous and may stand in any style.
fn quote_each(events: &mut Vec<EmitEvent>)
    ensures { map emit_of events.new.items ≡ map unambiguous (map emit_of events.old.items) }
{
    for index in 0..events.len() {
        quote(&mut events[index]);
    }
}

/// Asks for single quotes around each ambiguous text that may stand in any style, which is each text that was written
/// as one. Nothing else of the events changes, and a stream stays one.
pub fn quote_ambiguous(events: &mut Vec<EmitEvent>)
    ensures quoted { map emit_of events.new.items ≡ map unambiguous (map emit_of events.old.items) }
    ensures stream { IsEmitStream (map emit_of events.old.items) → IsEmitStream (map emit_of events.new.items) }
{
    quote_each(events);
}

/// A law: with quotes around its text, if that is ambiguous, an event has no ambiguous text that may stand in any style;
/// and each way in which such events come back from a parser is one of the events as they were. So what is read back is
/// the same.
pub fn quoted_events_are_rendered_so()
    ensures quoted { (event : PlainEmit) → IsUnambiguous (unambiguous event) }
    ensures rendered { (events : List PlainEmit) (read : List PlainEvent)
        → Renders (map unambiguous events) read → Renders events read }
{}
