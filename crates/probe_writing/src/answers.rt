//! The answer to a case that needs no reader: at once, or in two steps, of which the first makes what the lines say.

use crate::calls::make_calls;
use crate::emitting::emit;
use crate::fit::{expected, fit};
use crate::outcome::{Outcome, refused};
use crate::schemas::{make_schema, told_of_table};
use crate::table::{Table, shapes_of};
use crate::task::WritingTask;
use crate::writing::{all_data, write, write_data};
use std::alloc::{AllocError, Global};
use yaml_lines::{InputFault, LineFault};
use yaml_shape::{Data, Schema, Shape, ShapeId};

/// The answer to what a case asks of lines. The only error is that memory runs out.
pub fn answer(
    alloc: Global,
    schema: &Schema,
    task: WritingTask,
    lines: &[u8],
) -> Result<Outcome, AllocError> {
    match task {
        WritingTask::Write(id) if schema.has(id) => write(alloc, schema, id, lines),
        WritingTask::Write(_) => refused(alloc, "bad shape"),
        WritingTask::Calls => make_calls(alloc, schema, lines),
        WritingTask::Emit => emit(alloc, lines),
        WritingTask::MakeSchema => make_schema(alloc, lines),
        WritingTask::Fit(from, to) => fit(alloc, schema, from, to, lines),
        WritingTask::Expect(id) => expected(alloc, schema, id),
    }
}

/// What is made of the lines of a case before it is answered.
#[derive(Drop)]
pub enum Prepared {
    /// Data to be written, which is of the shape with this number.
    Data(ShapeId, Vec<Data<'static>>),
    /// Shapes to be made a schema.
    Shapes(Vec<Shape>),
    /// Nothing: all is made of them as they are answered.
    Nothing,
}

// The shapes of lines.
fn shapes(alloc: Global, lines: &[u8]) -> Result<Prepared, LineFault> {
    match shapes_of(alloc, lines) {
        Ok(shapes) => Ok(Prepared::Shapes(shapes)),
        Err(InputFault::BadLine(_)) => Err(LineFault::Bad),
        Err(InputFault::Memory) => Err(LineFault::Memory),
    }
}

/// What is made of lines before they are answered; a fault where they say no such thing, or memory runs out.
pub fn prepare(
    alloc: Global,
    schema: &Schema,
    task: WritingTask,
    lines: &[u8],
) -> Result<Prepared, LineFault> {
    match task {
        WritingTask::Write(id) => Ok(Prepared::Data(id, all_data(alloc, schema, id, lines)?)),
        WritingTask::MakeSchema => shapes(alloc, lines),
        _ => Ok(Prepared::Nothing),
    }
}

/// The answer to what a case asks of lines, of which this was made. The only error is that memory runs out.
pub fn answer_prepared(
    alloc: Global,
    schema: &Schema,
    task: WritingTask,
    lines: &[u8],
    prepared: Prepared,
) -> Result<Outcome, AllocError> {
    match prepared {
        Prepared::Data(id, all) => write_data(alloc, schema, id, all.as_slice()),
        Prepared::Shapes(shapes) => told_of_table(alloc, &Table::new(alloc, shapes)),
        Prepared::Nothing => answer(alloc, schema, task, lines),
    }
}
