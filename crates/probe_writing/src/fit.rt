//! Whether data is of a shape, and what is expected of one.

use crate::data_text::data;
use crate::outcome::{Outcome, refused};
use std::alloc::{AllocError, Global};
use yaml_lines::{LineFault, first_line, show};
use yaml_shape::{Data, Schema, ShapeId, Typed};

// What is told of data, if it is of this shape.
fn told_of_fit(
    alloc: Global,
    schema: &Schema,
    id: ShapeId,
    content: &Data<'_>,
) -> Result<Outcome, AllocError> {
    let mut text = String::new(alloc);
    match Typed::new(schema, id, content) {
        Some(typed) => show(&mut text, typed.content())?,
        None => text.push_str("does not fit")?,
    }
    text.push('\n')?;
    Ok(Outcome::Done(text))
}

/// The data of one shape that a line says, if it is of another shape.
pub fn fit(
    alloc: Global,
    schema: &Schema,
    from: ShapeId,
    to: ShapeId,
    lines: &[u8],
) -> Result<Outcome, AllocError> {
    if lines.is_empty() {
        return refused(alloc, "bad case");
    }
    match data(alloc, schema, from, first_line(lines).0) {
        Ok(content) => told_of_fit(alloc, schema, to, &content),
        Err(LineFault::Bad) => refused(alloc, "bad case"),
        Err(LineFault::Memory) => Err(AllocError),
    }
}

/// What is expected of a shape.
pub fn expected(alloc: Global, schema: &Schema, id: ShapeId) -> Result<Outcome, AllocError> {
    if !schema.has(id) {
        return refused(alloc, "bad case");
    }
    match schema.expected(alloc, id) {
        Ok(mut text) => {
            text.push('\n')?;
            Ok(Outcome::Done(text))
        }
        Err(_) => Err(AllocError),
    }
}
