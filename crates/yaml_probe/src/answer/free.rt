//! Documents read where there is no memory.

ghost use Rattle.std.specs.Prelude.{◌<◌, length};

use super::layers::read_leaf;
use super::refused;
use super::text::spelled;
use crate::case::Task;
use probe_writing::Shortage;
use std::alloc::{AllocError, Global};
use yaml_base::Result;
use yaml_lines::{Input, InputFault};
use yaml_read::{Document, Loader};
use yaml_run::{Audience, Told, told_of, told_of_bad_line};
use yaml_shape::{Data, Schema, Shape, ShapeId};

// What a document is read as under a shape that has a call of its own which may take no memory.
fn read_alone<'de>(
    alloc: Global,
    document: &Document<'de>,
    shape: &Shape,
) -> Option<Result<Data<'de>>> {
    match shape {
        Shape::Any | Shape::Bytes => None,
        _ => read_leaf(alloc, document, shape, false),
    }
}

// The same where not a byte can be had; no answer where there is still one, or the shape has no such call.
fn read_then<'de>(
    alloc: Global,
    document: &Document<'de>,
    shape: &Shape,
) -> std::result::Result<Option<Result<Data<'de>>>, AllocError> {
    let mut memory = Shortage::new(alloc)?;
    memory.leave(alloc, 0)?;
    let answer = read_alone(alloc, document, shape);
    let used_up = Vec::<u8>::with_capacity(alloc, 1).is_err();
    drop(memory);
    Ok(if used_up { answer } else { None })
}

// What is told of the first document.
fn told_of_first(
    alloc: Global,
    schema: &Schema,
    id: ShapeId,
    loaded: Result<Loader<'_>>,
) -> std::result::Result<Told, AllocError>
    requires { id.0 < length schema.now }
{
    let mut loader = match loaded {
        Ok(loader) => loader,
        Err(fault) => return told_of(alloc, Audience::Programs, Err(fault)),
    };
    let Some(document) = loader.next_document() else {
        return refused(alloc, "no document");
    };
    match read_then(alloc, &document, schema.get(id))? {
        Some(answer) => told_of(alloc, Audience::Programs, answer),
        None => refused(alloc, "not read where there is no memory"),
    }
}

/// What the first document of a stream is read as where there is no memory, by the call for a shape that needs none.
pub fn read_with_nothing(
    alloc: Global,
    schema: &Schema,
    task: Task<'_>,
    lines: &[u8],
) -> std::result::Result<Told, AllocError> {
    match task {
        Task::Read(id) if schema.has(id) => match Input::parse(alloc, lines) {
            Ok(input) => {
                let loaded = Loader::new(alloc, input.events, input.fault);
                told_of_first(alloc, schema, id, loaded)
            }
            Err(InputFault::BadLine(number)) => told_of_bad_line(alloc, number),
            Err(InputFault::Memory) => Err(AllocError),
        },
        Task::ReadText(id) if schema.has(id) => match spelled(alloc, lines)? {
            Some(text) => told_of_first(
                alloc,
                schema,
                id,
                yaml_documents::load(alloc, text.as_slice()),
            ),
            None => refused(alloc, "bad text"),
        },
        _ => refused(alloc, "not read where there is no memory"),
    }
}
