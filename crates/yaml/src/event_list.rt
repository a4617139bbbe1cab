//! Values as events.

ghost use Rattle.std.specs.Prelude.{map, IfOk};
ghost use Rattle.yaml.specs.WrittenDocument.{IsWrittenDocument};
ghost use Rattle.yaml_base.specs.EmitEvents.{emit_of};
ghost use Rattle.yaml_base.specs.EmitTree.{IsEmitStream};

use crate::target::{Scalar, Target};
use crate::told::{UNENDED, told};
use crate::written::of_one_document;
use std::alloc::Global;
use yaml_base::emitter::EmitEvent;
use yaml_base::{Cause, Error, Result};
use yaml_shape::{Data, Schema, Shape, ShapeId, Text, Typed};
use yaml_write::Serializer;

/// Makes events of a value's nodes.
#[derive(Drop)]
pub(crate) struct EventList {
    alloc: Global,
    events: Serializer,
}

// The shape of a scalar that is no number's text, and its data.
fn typed_parts(scalar: Scalar<'_>) -> (Shape, Data<'_>) {
    match scalar {
        Scalar::Null => (Shape::Unit, Data::Unit),
        Scalar::Bool(v) => (Shape::Bool, Data::Bool(v)),
        Scalar::Signed(v) => (Shape::I64, Data::Signed(v as i128)),
        Scalar::Unsigned(v) => (Shape::U64, Data::Unsigned(v as u128)),
        Scalar::LongSigned(v) => (Shape::I128, Data::Signed(v)),
        Scalar::LongUnsigned(v) => (Shape::U128, Data::Unsigned(v)),
        Scalar::Char(v) => (Shape::Char, Data::Char(v)),
        Scalar::Str(v) | Scalar::Number(v) => (Shape::Str, Data::Str(Text::Borrowed(v))),
    }
}

// A schema of one shape.
fn schema_of(alloc: Global, shape: Shape) -> Result<Schema> {
    match Schema::new(alloc, vec![in alloc; shape]?) {
        Ok(schema) => Ok(schema),
        Err(_) => Err(Error::new(Cause::Memory)),
    }
}

impl EventList {
    /// One that holds the start of a stream. The only fault is `Memory`.
    pub(crate) fn new(alloc: Global) -> Result<EventList> {
        Ok(EventList {
            alloc,
            events: Serializer::new(alloc)?,
        })
    }

    /// All events, with the end of the stream behind them, where nothing is open and they are one document.
    pub(crate) fn into_events(self) -> Result<Vec<EmitEvent>>
        ensures stream { IfOk result (λ events. IsEmitStream (map emit_of events.items)) }
        ensures one { IfOk result (λ events. IsWrittenDocument (map emit_of events.items)) }
    {
        if self.events.open_kind().is_some() {
            return Err(told(self.alloc, UNENDED));
        }
        let alloc = self.alloc;
        match self.events.into_inner() {
            Ok(events) => of_one_document(alloc, events),
            Err((fault, _)) => Err(fault),
        }
    }
}

impl Target for EventList {
    fn alloc(&self) -> Global {
        self.alloc
    }

    fn scalar(&mut self, scalar: Scalar<'_>) -> Result<()> {
        match scalar {
            Scalar::Null => self.events.serialize_unit(),
            Scalar::Bool(v) => self.events.serialize_bool(v),
            Scalar::Signed(v) => self.events.serialize_i64(v),
            Scalar::Unsigned(v) => self.events.serialize_u64(v),
            Scalar::LongSigned(v) => self.events.serialize_i128(v),
            Scalar::LongUnsigned(v) => self.events.serialize_u128(v),
            Scalar::Char(v) => self.events.serialize_char(v),
            Scalar::Str(v) => self.events.serialize_str(v),
            Scalar::Number(v) => self.events.serialize_number(None, v),
        }
    }

    fn variant_scalar(&mut self, variant: &str, scalar: Scalar<'_>) -> Result<()> {
        if let Scalar::Number(text) = scalar {
            return self.events.serialize_number(Some(variant), text);
        }
        let (shape, content) = typed_parts(scalar);
        let schema = schema_of(self.alloc, shape)?;
        match Typed::new(&schema, ShapeId(0), &content) {
            Some(typed) => self
                .events
                .serialize_newtype_variant("", 0, variant, &typed),
            None => Err(Error::new(Cause::Memory)),
        }
    }

    fn open_sequence(&mut self, variant: Option<String>) -> Result<()> {
        match variant {
            Some(variant) => self
                .events
                .serialize_tuple_variant("", 0, variant.as_str(), 0),
            None => self.events.serialize_seq(None),
        }
    }

    fn open_mapping(&mut self, variant: Option<String>) -> Result<()> {
        match variant {
            Some(variant) => self
                .events
                .serialize_struct_variant("", 0, variant.as_str(), 0),
            None => self.events.serialize_map(None),
        }
    }

    fn close(&mut self) -> Result<bool> {
        match self.events.open_kind() {
            Some((_, false)) => {
                self.events.end()?;
                Ok(true)
            }
            _ => Ok(false),
        }
    }
}
