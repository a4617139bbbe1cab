//! Documents read in turn.

ghost use Rattle.std.specs.Prelude.{◌≡◌, ◌<◌, ◌∷◌, ◌++◌, [], false, length, string_bytes, IfOk, OnOk, Some};
ghost use Rattle.yaml_base.specs.PlainDocument.{PlainDocument};
ghost use Rattle.yaml_shape.specs.PlainShape.{PlainShape, shape_at};
ghost use Rattle.serde_yaml.specs.PlainStream.{document_alone};
ghost use Rattle.yaml_run.specs.Turns.{in_all, AreToldInTurn, IsToldOf};

use crate::audience::Audience;
use crate::status::Status;
use crate::told::{Told, told_of};
use serde_yaml::{Deserializer, Limits};
use std::alloc::{AllocError, Global};
use yaml_shape::{Schema, ShapeId};

// What a document is read as.
fn read_document(
    alloc: Global,
    audience: Audience,
    document: Deserializer<'_>,
    schema: &Schema,
    id: ShapeId,
    limits: Limits,
) -> Result<Told, AllocError>
    requires { id.0 < length schema.now }
    ensures { (s : PlainShape) (d : PlainDocument) → shape_at schema.now id.0 ≡ Some s
        → document.entry ≡ document_alone d → IfOk result (λ told.
        IsToldOf audience limits schema.now s d told.ended (string_bytes told.text)) }
{
    let found = document.deserialize_limited(alloc, schema, id, limits);
    told_of(alloc, audience, found)
}

// Appends a line, with its line feed.
fn push_line(out: &mut String, line: &str) -> Result<(), AllocError>
    ensures { OnOk result (string_bytes out.new ≡ string_bytes out.old ++ (line.now ++ 10 ∷ [])) }
{
    out.push_str(line)?;
    out.push('\n')
}

// How two readings ended in all.
fn in_all(first: Status, next: Status) -> Status
    ensures { result ≡ in_all first next }
{
    match first {
        Status::Read => next,
        _ => first,
    }
}

/// What an audience is told that each document of a stream is read as, under the shape with this number and within
/// limits: a line each, with its line feed. It ends as a fault where one of them has one. The only error is that memory
/// runs out.
pub fn read_in_turn(
    alloc: Global,
    audience: Audience,
    stream: Deserializer<'_>,
    schema: &Schema,
    id: ShapeId,
    limits: Limits,
) -> Result<Told, AllocError>
    requires { id.0 < length schema.now }
    ensures { (s : PlainShape) → shape_at schema.now id.0 ≡ Some s → stream.entry.is_document ≡ false
        → IfOk result (λ told. AreToldInTurn audience limits schema.now s stream.entry.documents told.ended
        (string_bytes told.text)) }
{
    let mut documents = stream;
    let mut ended = Status::Read;
    let mut text = String::new(alloc);
    while let Some(document) = documents.next() {
        let told = read_document(alloc, audience, document, schema, id, limits)?;
        push_line(&mut text, told.text.as_str())?;
        ended = in_all(ended, told.ended);
    }
    Ok(Told { ended, text })
}
