//! Documents printed as YAML text.

ghost use Rattle.std.specs.Prelude.{◌≡◌, ◌<◌, [], length};

use serde_yaml::{Deserializer, Limits};
use std::alloc::{AllocError, Global};
use yaml_base::emitter::EmitEvent;
use yaml_base::{Cause, Error, Result};
use yaml_emit::emit;
use yaml_run::Named;
use yaml_shape::{Data, Schema, ShapeId, Typed};
use yaml_write::Serializer;

// Writes the data of a document. Data is of the shape that it was read as, so it has its type.
fn write_document(out: &mut Serializer, schema: &Schema, content: &Data<'_>) -> Result<()>
    requires { out.old.opened ≡ [] }
    ensures { out.new.opened ≡ [] }
{
    let Some(value) = Typed::new(schema, ShapeId(0), content) else {
        return Err(Error::new(Cause::NotAStream(0)));
    };
    out.serialize_typed(&value)?;
    Ok(())
}

// Writes the data of each document, up to the first that is refused.
fn write_documents(
    alloc: Global,
    out: &mut Serializer,
    stream: Deserializer<'_>,
    schema: &Schema,
    limits: Limits,
) -> Result<()>
    requires opened { out.old.opened ≡ [] }
    requires some { 0 < length schema.now }
    ensures { out.new.opened ≡ [] }
{
    for document in stream {
        let content = document.deserialize_limited(alloc, schema, ShapeId(0), limits)?;
        write_document(out, schema, &content)?;
    }
    Ok(())
}

// The events of the documents of a text.
fn events_of(alloc: Global, limits: Limits, text: &[u8]) -> Result<Vec<EmitEvent>> {
    let Ok(schema) = Named::Any.schema(alloc) else {
        return Err(Error::new(Cause::Memory));
    };
    let stream = Deserializer::from_slice(alloc, text)?;
    let mut out = Serializer::new(alloc)?;
    write_documents(alloc, &mut out, stream, &schema, limits)?;
    match out.into_inner() {
        Ok(events) => Ok(events),
        Err(_) => Err(Error::new(Cause::Memory)),
    }
}

/// The documents of a text, each read as a value of any kind within limits, as YAML text. Where one is refused, that is
/// told, and no other.
pub fn converted(alloc: Global, limits: Limits, text: &[u8]) -> Result<String> {
    let events = events_of(alloc, limits, text)?;
    emit(alloc, events.as_slice())
}
