//! What the layers below a whole reading tell, in lines.

mod calls;
mod direct;
mod doc_event;
mod events;
mod loaded;
mod parsers;
mod steps;

use super::refused;
use crate::layer_task::LayerTask;
use calls::read_by_calls;
pub use calls::read_leaf;
use direct::step_through;
use events::show_events_of;
use loaded::{load_events, load_text};
use parsers::compare_parsers;
use std::alloc::{AllocError, Global};
use steps::do_steps;
use yaml_lines::{Input, InputFault, LineFault};
use yaml_run::{Status, Told};
use yaml_shape::Schema;

/// What lines of events say.
pub fn input(alloc: Global, lines: &[u8]) -> Result<Input, LineFault> {
    match Input::parse(alloc, lines) {
        Ok(input) => Ok(input),
        Err(InputFault::BadLine(_)) => Err(LineFault::Bad),
        Err(InputFault::Memory) => Err(LineFault::Memory),
    }
}

// This text, of what succeeded.
fn said(alloc: Global, text: &str) -> Result<Told, AllocError> {
    Ok(Told {
        ended: Status::Read,
        text: String::from_str(alloc, text)?,
    })
}

// What is told of two ways of doing one thing: one text, or both where they differ.
fn agreed(first: Told, next: Told) -> Result<Told, AllocError> {
    if first.text.as_str() == next.text.as_str() {
        return Ok(first);
    }
    let Told { ended, mut text } = first;
    text.push_str(next.text.as_str())?;
    Ok(Told {
        ended: ended.and(next.ended),
        text,
    })
}

// What is told of a task.
fn told(alloc: Global, schema: &Schema, task: LayerTask, lines: &[u8]) -> Result<Told, LineFault> {
    match task {
        LayerTask::Call(id) => read_by_calls(alloc, schema, id, lines),
        LayerTask::Load => load_events(alloc, lines, false),
        LayerTask::LoadMarked => load_events(alloc, lines, true),
        LayerTask::LoadText => load_text(alloc, lines),
        LayerTask::Events => show_events_of(alloc, lines),
        LayerTask::Parsers => compare_parsers(alloc, lines),
        LayerTask::Direct => step_through(alloc, lines),
        LayerTask::Steps => do_steps(alloc, schema, lines),
    }
}

/// The answer to what a case asks of the layers below a whole reading.
pub fn answer_layer(
    alloc: Global,
    schema: &Schema,
    task: LayerTask,
    lines: &[u8],
) -> Result<Told, AllocError> {
    match told(alloc, schema, task, lines) {
        Ok(told) => Ok(told),
        Err(LineFault::Bad) => refused(alloc, "bad case"),
        Err(LineFault::Memory) => Err(AllocError),
    }
}
