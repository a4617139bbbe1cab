//! YAML text read as data of a shape.

ghost use Rattle.std.specs.Prelude.{◌≡◌, ◌<◌, length, string_bytes, IfOk, Some};
ghost use Rattle.yaml_shape.specs.PlainShape.{PlainShape, shape_at};
ghost use Rattle.yaml_run.specs.TextReadings.{IsTextReading};

use crate::audience::Audience;
use crate::told::{Told, told_of};
use serde_yaml::{Limits, data_from_slice};
use std::alloc::{AllocError, Global};
use yaml_shape::{Schema, ShapeId};

/// What an audience is told that the one document of a text is read as, under the shape with this number and within
/// limits. No line feed stands behind it. The only error is that memory runs out.
pub fn read_text(
    alloc: Global,
    audience: Audience,
    schema: &Schema,
    id: ShapeId,
    limits: Limits,
    text: &[u8],
) -> Result<Told, AllocError>
    requires { id.0 < length schema.now }
    ensures { (s : PlainShape) → shape_at schema.now id.0 ≡ Some s → IfOk result (λ told.
        IsTextReading audience limits schema.now s text.now told.ended (string_bytes told.text)) }
{
    let found = data_from_slice(alloc, text, schema, id, limits);
    told_of(alloc, audience, found)
}
