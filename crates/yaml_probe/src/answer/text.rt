//! YAML text read as data of a shape.

ghost use Rattle.std.specs.Prelude.{◌<◌, length};

use super::refused;
use serde_yaml::{Deserializer, Limits};
use std::alloc::{AllocError, Global};
use yaml_lines::{LineFault, first_line, unescape};
use yaml_run::{Audience, Told, read_in_turn, told_of};
use yaml_shape::{Schema, ShapeId};

/// The text that the first of some lines spells; none where there is no line or an escape is wrong.
pub fn spelled(alloc: Global, lines: &[u8]) -> Result<Option<Vec<u8>>, AllocError> {
    if lines.is_empty() {
        return Ok(None);
    }
    let (line, _) = first_line(lines);
    match unescape(alloc, line) {
        Ok(text) => Ok(Some(text)),
        Err(LineFault::Bad) => Ok(None),
        Err(LineFault::Memory) => Err(AllocError),
    }
}

/// What the text is read as that a line spells, under the shape with this number and within limits.
pub fn read_text(
    alloc: Global,
    schema: &Schema,
    id: ShapeId,
    limits: Limits,
    lines: &[u8],
) -> Result<Told, AllocError>
    requires { id.0 < length schema.now }
{
    match spelled(alloc, lines)? {
        Some(text) => yaml_run::read_text(
            alloc,
            Audience::Programs,
            schema,
            id,
            limits,
            text.as_slice(),
        ),
        None => refused(alloc, "bad text"),
    }
}

/// What each document of a text is read as, under the shape with this number and within limits: a line each.
pub fn read_documents(
    alloc: Global,
    schema: &Schema,
    id: ShapeId,
    limits: Limits,
    text: &[u8],
) -> Result<Told, AllocError>
    requires { id.0 < length schema.now }
{
    match Deserializer::from_slice(alloc, text) {
        Ok(stream) => read_in_turn(alloc, Audience::Programs, stream, schema, id, limits),
        Err(fault) => told_of(alloc, Audience::Programs, Err(fault)),
    }
}

/// What each document of the text is read as that a line spells: a line each.
pub fn read_text_in_turn(
    alloc: Global,
    schema: &Schema,
    id: ShapeId,
    limits: Limits,
    lines: &[u8],
) -> Result<Told, AllocError>
    requires { id.0 < length schema.now }
{
    match spelled(alloc, lines)? {
        Some(text) => read_documents(alloc, schema, id, limits, text.as_slice()),
        None => refused(alloc, "bad text"),
    }
}
