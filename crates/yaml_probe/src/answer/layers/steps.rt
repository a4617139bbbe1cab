//! A document that is gone through and read by a cursor, step by step.

use super::calls::first_document;
use super::doc_event::push_event;
use super::{input, said};
use crate::answer::refused;
use crate::case::limits_of;
use probe_writing::{number, until};
use std::alloc::{AllocError, Global};
use std::str;
use yaml_base::{Mark, Result as Answer};
use yaml_lines::{LineFault, first_line};
use yaml_read::{Cursor, DocEvent, Document};
use yaml_run::{Audience, Status, Told, told_of};
use yaml_shape::{Schema, ShapeId};

// An event with its mark, or why there is none.
fn shown(alloc: Global, answer: Answer<&(DocEvent<'_>, Mark)>) -> Result<Told, AllocError> {
    let mut text = String::new(alloc);
    let ended = match answer {
        Ok((event, mark)) => {
            push_event(&mut text, event)?;
            write!(text, " at {mark}")?;
            Status::Read
        }
        Err(fault) => {
            write!(text, "fault: {fault}")?;
            Status::Fault
        }
    };
    Ok(Told { ended, text })
}

// What the document is read as by the cursor, under this shape and, if some are said, within limits.
fn read(
    alloc: Global,
    document: &Document<'_>,
    schema: &Schema,
    id: ShapeId,
    limits: &str,
    cursor: &mut Cursor,
) -> Result<Told, AllocError> {
    if !schema.has(id) {
        return refused(alloc, "bad shape");
    }
    if limits.is_empty() {
        return told_of(
            alloc,
            Audience::Programs,
            document.deserialize_with(alloc, schema, id, cursor),
        );
    }
    match limits_of(limits) {
        Some(limits) => told_of(
            alloc,
            Audience::Programs,
            document.deserialize_limited_with(alloc, schema, id, limits, cursor),
        ),
        None => refused(alloc, "bad limits"),
    }
}

// What comes of a step: `new`, `fresh`, `peek`, `next`, or `read:` with a shape, and with limits behind `:`.
fn told_of_step(
    alloc: Global,
    document: &Document<'_>,
    schema: &Schema,
    step: &str,
    cursor: &mut Cursor,
) -> Result<Told, AllocError> {
    match step {
        "new" => {
            *cursor = Cursor::new();
            said(alloc, "new")
        }
        "fresh" if cursor.is_fresh() => said(alloc, "fresh"),
        "fresh" => said(alloc, "used"),
        "peek" => shown(alloc, cursor.peek_event(alloc, document)),
        "next" => shown(alloc, cursor.next_event(alloc, document)),
        _ => {
            let (id, limits) = until(step.strip_prefix("read:").unwrap_or(""), ':');
            match number(id) {
                Some(id) => read(alloc, document, schema, id, limits, cursor),
                None => refused(alloc, "bad step"),
            }
        }
    }
}

/// What comes of the steps in the first of some lines, by a cursor in the first document of the events behind it: a
/// line each.
pub fn do_steps(alloc: Global, schema: &Schema, lines: &[u8]) -> Result<Told, LineFault> {
    if lines.is_empty() {
        return Err(LineFault::Bad);
    }
    let (steps, rest) = first_line(lines);
    let Ok(steps) = str::from_utf8(steps) else {
        return Err(LineFault::Bad);
    };
    let document = match first_document(alloc, input(alloc, rest)?) {
        Ok(document) => document,
        Err(fault) => return Ok(told_of(alloc, Audience::Programs, Err(fault))?),
    };
    document.has_tree();
    let mut cursor = Cursor::new();
    let mut ended = Status::Read;
    let mut text = String::new(alloc);
    for step in steps.split(' ') {
        let told = told_of_step(alloc, &document, schema, step, &mut cursor)?.with_line_feed()?;
        text.push_str(told.text.as_str())?;
        ended = ended.and(told.ended);
    }
    Ok(Told { ended, text })
}
