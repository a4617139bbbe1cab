//! Data with its shape.

ghost use Rattle.std.specs.Prelude.{◌≡◌, ◌↔◌, IsSome, IfSome};
ghost use Rattle.yaml_shape.specs.DataView.{data_of};
ghost use Rattle.yaml_shape.specs.HasShape.{HasShape};
ghost use Rattle.yaml_shape.specs.Held.{IsHeld};

use crate::data::Data;
use crate::has_shape::has_shape;
use crate::schema::Schema;
use crate::shape::ShapeId;

/// Data with the schema and the number of a shape that it has.
#[derive(Drop)]
pub struct Typed<'a, 'de> {
    schema: &'a Schema,
    id: ShapeId,
    content: &'a Data<'de>,
    ghost typed: { HasShape schema.now id.0 (data_of content.now) },
}

impl<'a, 'de> Typed<'a, 'de> {
    ghost use Rattle.yaml_shape.specs.TypedView.{schema_in, id_in, content_in, IsOf};

    /// The data with its shape, or `None` where the data isn't of the shape, or the schema has none with this number.
    /// Takes no memory.
    pub fn new(schema: &'a Schema, id: ShapeId, content: &'a Data<'de>) -> Option<Typed<'a, 'de>>
        ensures exactly { IsSome result ↔ HasShape schema.now id.0 (data_of content.now) }
        ensures parts { IfSome result (IsOf schema.now id content.now) }

        // Of data that is of the shape, the texts are UTF-8, the characters are characters, and the values are values.
        ensures held { IfSome result (λ _. IsHeld (data_of content.now)) }
    {
        if has_shape(schema, id, content) {
            Some(Typed {
                schema,
                id,
                content,
            })
        } else {
            None
        }
    }

    /// The schema.
    pub fn schema(&self) -> &'a Schema
        ensures { result.now ≡ schema_in self.now }
    {
        self.schema
    }

    /// The number of the shape.
    pub fn id(&self) -> ShapeId
        ensures { result ≡ id_in self.now }
    {
        self.id
    }

    /// The data. It is of the shape.
    pub fn content(&self) -> &'a Data<'de>
        ensures content { result.now ≡ content_in self.now }
        ensures typed { HasShape (schema_in self.now) (id_in self.now).0 (data_of result.now) }
    {
        self.content
    }
}
