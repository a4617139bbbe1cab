//! Lines of events read as data of a shape.

ghost use Rattle.std.specs.Prelude.{◌≡◌, ◌<◌, length, string_bytes, IfOk, Some};
ghost use Rattle.yaml_base.specs.Answer.{Answers};
ghost use Rattle.yaml_lines.specs.InputText.{marked_events_of};
ghost use Rattle.yaml_shape.specs.DataView.{data_of};
ghost use Rattle.yaml_shape.specs.PlainShape.{PlainShape, shape_at};
ghost use Rattle.serde_yaml.specs.StreamReads.{InputGives};
ghost use Rattle.yaml_run.specs.EventReadings.{IsReading};

use crate::audience::Audience;
use crate::told::{Told, told_of, told_of_bad_line};
use serde_yaml::{Limits, data_from_events};
use std::alloc::{AllocError, Global};
use yaml_base::Result;
use yaml_lines::{Input, InputFault};
use yaml_shape::{Data, Schema, ShapeId};

// Reads the one document of an input within limits.
fn content_of(
    alloc: Global,
    schema: &Schema,
    id: ShapeId,
    limits: Limits,
    input: Input,
) -> Result<Data<'static>>
    requires { id.0 < length schema.now }
    ensures { (s : PlainShape) → shape_at schema.now id.0 ≡ Some s → Answers data_of result
        (InputGives limits schema.now s (marked_events_of input.events.items) input.fault) }
{
    data_from_events(alloc, input.events, input.fault, schema, id, limits)
}

/// What programs are told that lines of events are read as, under the shape with this number and within limits. No line
/// feed stands behind it. The only error is that memory runs out.
pub fn read_events(
    alloc: Global,
    schema: &Schema,
    id: ShapeId,
    limits: Limits,
    lines: &[u8],
) -> std::result::Result<Told, AllocError>
    requires { id.0 < length schema.now }
    ensures { (s : PlainShape) → shape_at schema.now id.0 ≡ Some s → IfOk result (λ told.
        IsReading limits schema.now s lines.now told.ended (string_bytes told.text)) }
{
    match Input::parse(alloc, lines) {
        Ok(input) => {
            let found = content_of(alloc, schema, id, limits, input);
            told_of(alloc, Audience::Programs, found)
        }
        Err(InputFault::BadLine(number)) => told_of_bad_line(alloc, number),
        Err(InputFault::Memory) => Err(AllocError),
    }
}
