//! What was read, copied.

ghost use Rattle.std.specs.Prelude.{◌<◌, length};

use super::refused;
use serde_yaml::{Limits, data_from_events};
use std::alloc::{AllocError, Global};
use yaml_base::{Cause, Error, Result};
use yaml_lines::{Input, InputFault};
use yaml_run::{Audience, Told, told_of, told_of_bad_line};
use yaml_shape::{Data, Schema, ShapeId};
use yaml_tree::Value;

/// What was read, as far as it can be copied.
#[derive(Drop)]
pub enum Original {
    /// A value of any kind.
    Value(Value),
    /// A fault.
    Fault(Error),
    /// Other data.
    Other,
}

/// What events are read as, under the shape with this number and within limits.
pub fn original_of(
    alloc: Global,
    schema: &Schema,
    id: ShapeId,
    limits: Limits,
    input: Input,
) -> Original
    requires { id.0 < length schema.now }
{
    match data_from_events(alloc, input.events, input.fault, schema, id, limits) {
        Ok(Data::Any(value)) => Original::Value(value),
        Ok(_) => Original::Other,
        Err(fault) => Original::Fault(fault),
    }
}

// A copy of a value.
fn copy_of_value(alloc: Global, value: &Value) -> Result<Data<'static>> {
    match value.copy(alloc) {
        Ok(copy) => Ok(Data::Any(copy)),
        Err(_) => Err(Error::new(Cause::Memory)),
    }
}

/// What is told of a copy.
pub fn told_of_copy(alloc: Global, original: &Original) -> std::result::Result<Told, AllocError> {
    match original {
        Original::Value(value) => told_of(alloc, Audience::Programs, copy_of_value(alloc, value)),
        Original::Fault(fault) => match fault.copy(alloc) {
            Ok(copy) => told_of(alloc, Audience::Programs, Err(copy)),
            Err(refusal) => told_of(alloc, Audience::Programs, Err(refusal)),
        },
        Original::Other => refused(alloc, "not copied"),
    }
}

/// What is told of a copy of what lines of events are read as, under the shape with this number and within limits.
pub fn copy_read(
    alloc: Global,
    schema: &Schema,
    id: ShapeId,
    limits: Limits,
    lines: &[u8],
) -> std::result::Result<Told, AllocError>
    requires { id.0 < length schema.now }
{
    match Input::parse(alloc, lines) {
        Ok(input) => told_of_copy(alloc, &original_of(alloc, schema, id, limits, input)),
        Err(InputFault::BadLine(number)) => told_of_bad_line(alloc, number),
        Err(InputFault::Memory) => Err(AllocError),
    }
}
