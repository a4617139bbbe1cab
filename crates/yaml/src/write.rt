//! Writing a value of any type that `serde` writes.

ghost use Rattle.std.specs.Prelude.{◌≡◌, ◌+◌, List, map, string_bytes, IfErr, IfOk, OnOk};
ghost use Rattle.yaml.specs.Printed.{AddsText};
ghost use Rattle.yaml.specs.WrittenDocument.{IsWrittenDocument};
ghost use Rattle.yaml_ambiguous.specs.Quoting.{unambiguous};
ghost use Rattle.yaml_base.specs.EmitEvents.{PlainEmit, emit_of};
ghost use Rattle.yaml_base.specs.EmitTree.{IsEmitStream};
ghost use Rattle.yaml_emit.specs.StreamTexts.{IsStreamText};
ghost use Rattle.yaml_emit.specs.WriteFaults.{IfOfValue};

use crate::event_list::EventList;
use crate::printer::Printer;
use crate::sink::Sink;
use serde::Serialize;
use std::alloc::Global;
use std::io::Write;
use yaml_ambiguous::quote_ambiguous;
use yaml_base::Result;
use yaml_base::emitter::EmitEvent;
use yaml_emit::{WriteFault, emit};

/// The events of a whole stream whose one document is the value. A value that writes nothing, or more than one value,
/// is refused.
pub fn to_events<T: Serialize>(alloc: Global, value: &T) -> Result<Vec<EmitEvent>>
    ensures stream { IfOk result (λ events. IsEmitStream (map emit_of events.items)) }
    ensures one { IfOk result (λ events. IsWrittenDocument (map emit_of events.items)) }
{
    let mut sink = Sink::new(EventList::new(alloc)?);
    value.serialize(&mut sink)?;
    sink.into_events()
}

/// Prints the value as a document behind the others. A value that writes nothing, or more than one value, is refused.
pub(crate) fn print_document<T: Serialize>(printer: Printer, value: &T) -> Result<Printer>
    ensures { IfOk result (λ printed. printed.begun ≡ printer.begun + 1) }
{
    let before = printer.begun;
    let mut sink = Sink::new(printer);
    value.serialize(&mut sink)?;
    sink.into_printer(before)
}

/// The value as YAML text, a document that ends with a line feed: what `emit` prints for the events of `to_events`.
pub fn to_string<T: Serialize>(alloc: Global, value: &T) -> Result<String>
    ensures stream { IfOk result (λ text. (events : List PlainEmit) × IsEmitStream events
        × IsStreamText events (string_bytes text)) }
    ensures one { IfOk result (λ text. (events : List PlainEmit) × IsWrittenDocument events
        × IsStreamText events (string_bytes text)) }
{
    print_document(Printer::new(alloc)?, value)?.finish()
}

/// The value as YAML text, a document that ends with a line feed, which other readers of YAML take as it is meant. It
/// is as `to_string` prints it, but with quotes around each text that some of them takes for something else where it
/// stands plain, such as `yes`, `12:30` and `2024-01-31`.
pub fn to_string_unambiguous<T: Serialize>(alloc: Global, value: &T) -> Result<String>
    ensures one { IfOk result (λ text. (events : List PlainEmit) × IsWrittenDocument events
        × IsStreamText (map unambiguous events) (string_bytes text)) }
{
    let mut events = to_events(alloc, value)?;
    quote_ambiguous(&mut events);
    emit(alloc, events.as_slice())
}

/// The text of `to_string` to a writer, whole and at once, which is then flushed. What has no text leaves the writer as
/// it was.
pub fn to_writer<W: Write, T: Serialize>(
    alloc: Global,
    writer: &mut W,
    value: &T,
) -> std::result::Result<(), WriteFault>
    ensures text { OnOk result (AddsText (W.contents writer.old) (W.contents writer.new)) }
    ensures untouched { IfErr result (IfOfValue (λ _. W.contents writer.new ≡ W.contents writer.old)) }
{
    let text = match to_string(alloc, value) {
        Ok(text) => text,
        Err(fault) => return Err(WriteFault::Value(fault)),
    };
    if let Err(fault) = writer.write_all(text.as_bytes()) {
        return Err(WriteFault::Writer(fault));
    }
    match writer.flush() {
        Ok(()) => Ok(()),
        Err(fault) => Err(WriteFault::Writer(fault)),
    }
}
