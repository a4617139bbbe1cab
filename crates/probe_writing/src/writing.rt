//! Data written as events for an emitter.

ghost use Rattle.std.specs.Prelude.{◌≡◌, []};

use crate::data_text::data;
use crate::events::show_events;
use crate::outcome::{Outcome, refused};
use std::alloc::{AllocError, Global};
use yaml_base::Result;
use yaml_lines::{LineFault, first_line};
use yaml_shape::{Data, Schema, ShapeId, Typed};
use yaml_write::Serializer;

/// The data of each line.
pub fn all_data(
    alloc: Global,
    schema: &Schema,
    id: ShapeId,
    lines: &[u8],
) -> std::result::Result<Vec<Data<'static>>, LineFault> {
    let mut all = Vec::new(alloc);
    let mut rest = lines;
    while !rest.is_empty() {
        let (line, after) = first_line(rest);
        let content = data(alloc, schema, id, line)?;
        if Typed::new(schema, id, &content).is_none() {
            return Err(LineFault::Bad);
        }
        all.push(content)?;
        rest = after;
    }
    Ok(all)
}

// Writes each of the data as a document of its own, up to the first that is refused.
fn write_all(out: &mut Serializer, schema: &Schema, id: ShapeId, all: &[Data<'_>]) -> Result<()>
    requires { out.old.opened ≡ [] }
    ensures { out.new.opened ≡ [] }
{
    for content in all {
        if let Some(typed) = Typed::new(schema, id, content) {
            out.serialize_typed(&typed)?;
        }
    }
    Ok(())
}

// Appends the events that were written.
fn show_written(out: Serializer, text: &mut String) -> std::result::Result<(), AllocError>
    requires { out.opened ≡ [] }
{
    match out.into_inner() {
        Ok(events) => show_events(text, events.as_slice()),
        Err(_) => Err(AllocError),
    }
}

// The events that were written, behind why no more were, if they are not all.
fn shown(
    alloc: Global,
    out: Serializer,
    written: Result<()>,
) -> std::result::Result<Outcome, AllocError>
    requires { out.opened ≡ [] }
{
    match written {
        Ok(()) => {
            let mut text = String::new(alloc);
            show_written(out, &mut text)?;
            Ok(Outcome::Done(text))
        }
        Err(fault) => {
            let mut text = format!(in alloc; "fault: {fault}\n-- events by then:\n")?;
            show_written(out, &mut text)?;
            Ok(Outcome::Fault(text))
        }
    }
}

/// What data is written as, each a document of its own.
pub fn write_data(
    alloc: Global,
    schema: &Schema,
    id: ShapeId,
    all: &[Data<'_>],
) -> std::result::Result<Outcome, AllocError> {
    let Ok(mut out) = Serializer::new(alloc) else {
        return Err(AllocError);
    };
    let written = write_all(&mut out, schema, id, all);
    shown(alloc, out, written)
}

/// What lines of data are written as.
pub fn write(
    alloc: Global,
    schema: &Schema,
    id: ShapeId,
    lines: &[u8],
) -> std::result::Result<Outcome, AllocError> {
    match all_data(alloc, schema, id, lines) {
        Ok(all) => write_data(alloc, schema, id, all.as_slice()),
        Err(LineFault::Bad) => refused(alloc, "bad data"),
        Err(LineFault::Memory) => Err(AllocError),
    }
}
