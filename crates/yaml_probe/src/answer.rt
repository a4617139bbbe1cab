//! The answer to a case.

mod budget;
mod copying;
mod free;
mod handed;
mod layers;
mod little;
mod text;
mod turns;
mod typed;

use crate::case::{Case, Room, Task};
use budget::under_budget;
use copying::copy_read;
use free::read_with_nothing;
use handed::hand_out;
use layers::answer_layer;
use probe_writing::{Outcome, Table, quote, told_of_table};
use std::alloc::{AllocError, Global};
use text::{read_text, read_text_in_turn};
use turns::read_in_turn;
use typed::read_typed;
use yaml_run::{Status, Told, read_events};
use yaml_shape::Schema;

// An answer that refuses the lines by this text.
fn refused(alloc: Global, text: &str) -> Result<Told, AllocError> {
    Ok(Told {
        ended: Status::Refused,
        text: String::from_str(alloc, text)?,
    })
}

// What is told of a case that needed no reader.
fn told_of_outcome(outcome: Outcome) -> Told {
    match outcome {
        Outcome::Done(text) => Told {
            ended: Status::Read,
            text,
        },
        Outcome::Fault(text) => Told {
            ended: Status::Fault,
            text,
        },
        Outcome::Refused(text) => Told {
            ended: Status::Refused,
            text,
        },
    }
}

// The answer to what a case asks of lines.
fn asked(
    alloc: Global,
    schema: &Schema,
    case: &Case<'_>,
    lines: &[u8],
) -> Result<Told, AllocError> {
    match case.task {
        Task::Read(id) if schema.has(id) => read_events(alloc, schema, id, case.limits, lines),
        Task::ReadInTurn(id) if schema.has(id) => {
            read_in_turn(alloc, schema, id, case.limits, lines)
        }
        Task::ReadText(id) if schema.has(id) => read_text(alloc, schema, id, case.limits, lines),
        Task::ReadTextInTurn(id) if schema.has(id) => {
            read_text_in_turn(alloc, schema, id, case.limits, lines)
        }
        Task::Typed(name) => read_typed(alloc, name, lines),
        Task::Copy(id) if schema.has(id) => copy_read(alloc, schema, id, case.limits, lines),
        Task::HandOut => hand_out(alloc, lines),
        Task::Layer(task) => answer_layer(alloc, schema, task, lines),
        Task::Writing(task) => Ok(told_of_outcome(probe_writing::answer(
            alloc, schema, task, lines,
        )?)),
        _ => refused(alloc, "bad shape"),
    }
}

// The lines of a case, the last one with its line feed or without.
fn kept<'a>(case: &Case<'_>, lines: &'a [u8]) -> &'a [u8] {
    match lines.split_last() {
        Some((_, rest)) if case.cut => rest,
        _ => lines,
    }
}

// The answer to what a case asks of lines, with as much memory as the case says.
fn asked_within(
    alloc: Global,
    schema: &Schema,
    case: &Case<'_>,
    lines: &[u8],
) -> Result<Told, AllocError> {
    match case.room {
        Room::Ample => asked(alloc, schema, case, lines),
        Room::Little => under_budget(alloc, schema, case, lines),
        Room::Nothing => read_with_nothing(alloc, schema, case.task, lines),
    }
}

// The answer to a case of a table.
fn answer_of(
    alloc: Global,
    table: &Table,
    case: &Case<'_>,
    lines: &[u8],
) -> Result<Told, AllocError> {
    match table {
        Table::Schema(schema) => asked_within(alloc, schema, case, kept(case, lines)),
        _ => Ok(told_of_outcome(told_of_table(alloc, table)?)),
    }
}

/// Appends the line that answers a case, which its first line and the lines behind it say: its name, the status and the
/// text between quotes, with tabs between.
pub fn append_answer(
    alloc: Global,
    table: &Table,
    header: &[u8],
    lines: &[u8],
    out: &mut String,
) -> Result<(), AllocError> {
    let Some(case) = Case::parse(header) else {
        return out.push_str("?\t2\t\"bad case\"\n");
    };
    let told = answer_of(alloc, table, &case, lines)?;
    let status = told.ended.code();
    out.push_str(case.id)?;
    write!(out, "\t{status}\t")?;
    quote(out, told.text.as_str())?;
    out.push('\n')
}
