//! Events read document by document.

ghost use Rattle.std.specs.Prelude.{◌<◌, length};

use serde_yaml::{Deserializer, Limits};
use std::alloc::{AllocError, Global};
use yaml_lines::{Input, InputFault};
use yaml_run::{Audience, Told, told_of, told_of_bad_line};
use yaml_shape::{Schema, ShapeId};

/// What each document of events is read as, under the shape with this number and within limits: a line each.
pub fn read_input(
    alloc: Global,
    schema: &Schema,
    id: ShapeId,
    limits: Limits,
    input: Input,
) -> Result<Told, AllocError>
    requires { id.0 < length schema.now }
{
    match Deserializer::from_events(alloc, input.events, input.fault) {
        Ok(stream) => yaml_run::read_in_turn(alloc, Audience::Programs, stream, schema, id, limits),
        Err(fault) => told_of(alloc, Audience::Programs, Err(fault)),
    }
}

/// What each document of lines of events is read as, under the shape with this number and within limits: a line each.
pub fn read_in_turn(
    alloc: Global,
    schema: &Schema,
    id: ShapeId,
    limits: Limits,
    lines: &[u8],
) -> Result<Told, AllocError>
    requires { id.0 < length schema.now }
{
    match Input::parse(alloc, lines) {
        Ok(input) => read_input(alloc, schema, id, limits, input),
        Err(InputFault::BadLine(number)) => told_of_bad_line(alloc, number),
        Err(InputFault::Memory) => Err(AllocError),
    }
}
