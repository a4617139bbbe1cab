//! What is made of the lines of a case where there is memory, and what is then answered, for which there may be little.

use super::copying::{Original, original_of, told_of_copy};
use super::layers::input;
use super::text::{read_documents, spelled};
use super::turns::read_input;
use super::typed::read_as_type;
use super::{asked, refused, told_of_outcome};
use crate::case::{Case, Task};
use probe_writing::{Prepared, WritingTask, answer_prepared, prepare};
use serde_yaml::{Limits, data_from_events};
use std::alloc::{AllocError, Global};
use yaml_lines::{Input, LineFault};
use yaml_run::{Audience, Told, told_of};
use yaml_shape::{Schema, ShapeId};

/// What is made of the lines of a case.
#[derive(Drop)]
pub enum Made {
    /// Events.
    Events(Input),
    /// A text.
    Text(Vec<u8>),
    /// What is to be copied.
    Original(Original),
    /// What is made for this task, which needs no reader.
    Writing(WritingTask, Prepared),
    /// Nothing: all is made of them as they are answered.
    Nothing,
}

// The text that a line spells.
fn text(alloc: Global, lines: &[u8]) -> Result<Made, LineFault> {
    match spelled(alloc, lines)? {
        Some(text) => Ok(Made::Text(text)),
        None => Err(LineFault::Bad),
    }
}

// What events are read as, to be copied.
fn read_original(
    alloc: Global,
    schema: &Schema,
    id: ShapeId,
    limits: Limits,
    lines: &[u8],
) -> Result<Made, LineFault> {
    if !schema.has(id) {
        return Err(LineFault::Bad);
    }
    let input = input(alloc, lines)?;
    Ok(Made::Original(original_of(alloc, schema, id, limits, input)))
}

// What is made of lines that nothing is wrong with.
fn made_of(
    alloc: Global,
    schema: &Schema,
    case: &Case<'_>,
    lines: &[u8],
) -> Result<Made, LineFault> {
    match case.task {
        Task::Read(_) | Task::ReadInTurn(_) => Ok(Made::Events(input(alloc, lines)?)),
        Task::ReadText(_) | Task::ReadTextInTurn(_) | Task::Typed(_) => text(alloc, lines),
        Task::Copy(id) => read_original(alloc, schema, id, case.limits, lines),
        Task::Writing(task) => Ok(Made::Writing(task, prepare(alloc, schema, task, lines)?)),
        Task::HandOut | Task::Layer(_) => Ok(Made::Nothing),
    }
}

/// What is made of the lines of a case. Nothing is made where something is wrong with them.
pub fn make(
    alloc: Global,
    schema: &Schema,
    case: &Case<'_>,
    lines: &[u8],
) -> Result<Made, AllocError> {
    match made_of(alloc, schema, case, lines) {
        Ok(made) => Ok(made),
        Err(LineFault::Bad) => Ok(Made::Nothing),
        Err(LineFault::Memory) => Err(AllocError),
    }
}

// What events are read as.
fn answer_events(
    alloc: Global,
    schema: &Schema,
    case: &Case<'_>,
    input: Input,
) -> Result<Told, AllocError> {
    match case.task {
        Task::Read(id) if schema.has(id) => told_of(
            alloc,
            Audience::Programs,
            data_from_events(alloc, input.events, input.fault, schema, id, case.limits),
        ),
        Task::ReadInTurn(id) if schema.has(id) => read_input(alloc, schema, id, case.limits, input),
        _ => refused(alloc, "bad shape"),
    }
}

// What a text is read as.
fn answer_text(
    alloc: Global,
    schema: &Schema,
    case: &Case<'_>,
    text: &[u8],
) -> Result<Told, AllocError> {
    match case.task {
        Task::ReadText(id) if schema.has(id) => {
            yaml_run::read_text(alloc, Audience::Programs, schema, id, case.limits, text)
        }
        Task::ReadTextInTurn(id) if schema.has(id) => {
            read_documents(alloc, schema, id, case.limits, text)
        }
        Task::Typed(name) => read_as_type(alloc, name, text),
        _ => refused(alloc, "bad shape"),
    }
}

/// The answer to a case, of whose lines this was made.
pub fn answer(
    alloc: Global,
    schema: &Schema,
    case: &Case<'_>,
    lines: &[u8],
    made: Made,
) -> Result<Told, AllocError> {
    match made {
        Made::Events(input) => answer_events(alloc, schema, case, input),
        Made::Text(text) => answer_text(alloc, schema, case, text.as_slice()),
        Made::Original(original) => told_of_copy(alloc, &original),
        Made::Writing(task, prepared) => Ok(told_of_outcome(answer_prepared(
            alloc, schema, task, lines, prepared,
        )?)),
        Made::Nothing => asked(alloc, schema, case, lines),
    }
}
