//! Events that are read by the calls for one shape each: of their first document, and of the stream.

mod document;
mod stream;

use super::{agreed, input};
use crate::answer::refused;
use document::read_document;
pub use document::read_leaf;
use serde_yaml::Deserializer;
use std::alloc::Global;
use stream::read_stream;
use yaml_base::{Cause, Error, Result as Answer};
use yaml_lines::{Input, LineFault};
use yaml_read::{Document, Loader};
use yaml_run::{Audience, Told, told_of};
use yaml_shape::{Data, Schema, ShapeId};

/// The first document of events.
pub fn first_document(alloc: Global, input: Input) -> Answer<Document<'static>> {
    let mut loader = Loader::new(alloc, input.events, input.fault)?;
    match loader.next_document() {
        Some(document) => Ok(document),
        None => Err(Error::new(Cause::EndOfStream)),
    }
}

// What the first document of events is read as by the call for a shape, if there is one.
fn of_document(
    alloc: Global,
    schema: &Schema,
    id: ShapeId,
    owned: bool,
    input: Input,
) -> Option<Answer<Data<'static>>> {
    match first_document(alloc, input) {
        Ok(document) => read_document(alloc, &document, schema, id, owned),
        Err(fault) => Some(Err(fault)),
    }
}

// What the stream of events is read as by the call for a shape, if there is one.
fn of_stream(
    alloc: Global,
    schema: &Schema,
    id: ShapeId,
    owned: bool,
    input: Input,
) -> Option<Answer<Data<'static>>> {
    match Deserializer::from_events(alloc, input.events, input.fault) {
        Ok(stream) => read_stream(alloc, stream, schema, id, owned),
        Err(fault) => Some(Err(fault)),
    }
}

// What is told of the call for a shape, of the document or of the stream, and of the call that gives texts or bytes of
// their own, where there are two.
fn told_by(
    alloc: Global,
    schema: &Schema,
    id: ShapeId,
    (whole, owned): (bool, bool),
    lines: &[u8],
) -> Result<Told, LineFault> {
    let input = input(alloc, lines)?;
    let found = if whole {
        of_stream(alloc, schema, id, owned, input)
    } else {
        of_document(alloc, schema, id, owned, input)
    };
    let told = match found {
        Some(answer) => told_of(alloc, Audience::Programs, answer)?,
        None => refused(alloc, "no call")?,
    };
    Ok(told.with_line_feed()?)
}

/// What lines of events are read as by the calls for the shape with this number.
pub fn read_by_calls(
    alloc: Global,
    schema: &Schema,
    id: ShapeId,
    lines: &[u8],
) -> Result<Told, LineFault> {
    let mut of_both = told_by(alloc, schema, id, (false, false), lines)?;
    of_both = agreed(of_both, told_by(alloc, schema, id, (false, true), lines)?)?;
    let mut of_streams = told_by(alloc, schema, id, (true, false), lines)?;
    of_streams = agreed(of_streams, told_by(alloc, schema, id, (true, true), lines)?)?;
    Ok(agreed(of_both, of_streams)?)
}
