//! Readings of a stream under a shape of one kind each, within the default limits. `Schema::shape` tells the kind.

ghost use Rattle.std.specs.Prelude.{◌≡◌, Some, true};
ghost use Rattle.yaml_base.specs.Answer.{Answers};
ghost use Rattle.yaml_shape.specs.DataView.{data_of};
ghost use Rattle.yaml_shape.specs.PlainShape.{PlainShape, shape_at};
ghost use Rattle.yaml_meaning.specs.Kinds.{has_kind, is_option, is_unit_struct, is_newtype_struct, is_seq, is_tuple};
ghost use Rattle.yaml_meaning.specs.Kinds.{is_tuple_struct, is_map, is_struct, is_enum};
ghost use Rattle.yaml_read.specs.TreeReader.{default_limits};
ghost use Rattle.serde_yaml.specs.StreamReads.{StreamGives};

use crate::de::Deserializer;
use std::alloc::Global;
use yaml_base::Result;
use yaml_shape::{Data, Schema, ShapeId};

#[tactic(auto, using(crate::proofs::KindLaws::kind_within))]
impl<'de> Deserializer<'de> {
    /// The data of the stream's one document as an optional, under the shape with this number, which is of that kind.
    pub fn deserialize_option(
        self,
        alloc: Global,
        schema: &Schema,
        id: ShapeId,
    ) -> Result<Data<'de>>
        requires { has_kind is_option schema.now id.0 ≡ true }
        ensures { (s : PlainShape) → shape_at schema.now id.0 ≡ Some s
            → Answers data_of result (StreamGives default_limits schema.now s self.entry) }
    {
        self.deserialize(alloc, schema, id)
    }

    /// The data of the stream's one document as a struct without fields, under the shape with this number, which is of
    /// that kind.
    pub fn deserialize_unit_struct(
        self,
        alloc: Global,
        schema: &Schema,
        id: ShapeId,
    ) -> Result<Data<'de>>
        requires { has_kind is_unit_struct schema.now id.0 ≡ true }
        ensures { (s : PlainShape) → shape_at schema.now id.0 ≡ Some s
            → Answers data_of result (StreamGives default_limits schema.now s self.entry) }
    {
        self.deserialize(alloc, schema, id)
    }

    /// The data of the stream's one document as a struct around one content, under the shape with this number, which is
    /// of that kind.
    pub fn deserialize_newtype_struct(
        self,
        alloc: Global,
        schema: &Schema,
        id: ShapeId,
    ) -> Result<Data<'de>>
        requires { has_kind is_newtype_struct schema.now id.0 ≡ true }
        ensures { (s : PlainShape) → shape_at schema.now id.0 ≡ Some s
            → Answers data_of result (StreamGives default_limits schema.now s self.entry) }
    {
        self.deserialize(alloc, schema, id)
    }

    /// The data of the stream's one document as a sequence, under the shape with this number, which is of that kind.
    pub fn deserialize_seq(self, alloc: Global, schema: &Schema, id: ShapeId) -> Result<Data<'de>>
        requires { has_kind is_seq schema.now id.0 ≡ true }
        ensures { (s : PlainShape) → shape_at schema.now id.0 ≡ Some s
            → Answers data_of result (StreamGives default_limits schema.now s self.entry) }
    {
        self.deserialize(alloc, schema, id)
    }

    /// The data of the stream's one document as a tuple, under the shape with this number, which is of that kind.
    pub fn deserialize_tuple(self, alloc: Global, schema: &Schema, id: ShapeId) -> Result<Data<'de>>
        requires { has_kind is_tuple schema.now id.0 ≡ true }
        ensures { (s : PlainShape) → shape_at schema.now id.0 ≡ Some s
            → Answers data_of result (StreamGives default_limits schema.now s self.entry) }
    {
        self.deserialize(alloc, schema, id)
    }

    /// The data of the stream's one document as a struct whose fields have no names, under the shape with this number,
    /// which is of that kind.
    pub fn deserialize_tuple_struct(
        self,
        alloc: Global,
        schema: &Schema,
        id: ShapeId,
    ) -> Result<Data<'de>>
        requires { has_kind is_tuple_struct schema.now id.0 ≡ true }
        ensures { (s : PlainShape) → shape_at schema.now id.0 ≡ Some s
            → Answers data_of result (StreamGives default_limits schema.now s self.entry) }
    {
        self.deserialize(alloc, schema, id)
    }

    /// The data of the stream's one document as a mapping, under the shape with this number, which is of that kind.
    pub fn deserialize_map(self, alloc: Global, schema: &Schema, id: ShapeId) -> Result<Data<'de>>
        requires { has_kind is_map schema.now id.0 ≡ true }
        ensures { (s : PlainShape) → shape_at schema.now id.0 ≡ Some s
            → Answers data_of result (StreamGives default_limits schema.now s self.entry) }
    {
        self.deserialize(alloc, schema, id)
    }

    /// The data of the stream's one document as a struct, strict or not, under the shape with this number, which is of
    /// that kind.
    pub fn deserialize_struct(
        self,
        alloc: Global,
        schema: &Schema,
        id: ShapeId,
    ) -> Result<Data<'de>>
        requires { has_kind is_struct schema.now id.0 ≡ true }
        ensures { (s : PlainShape) → shape_at schema.now id.0 ≡ Some s
            → Answers data_of result (StreamGives default_limits schema.now s self.entry) }
    {
        self.deserialize(alloc, schema, id)
    }

    /// The data of the stream's one document as one of several variants, under the shape with this number, which is of
    /// that kind.
    pub fn deserialize_enum(self, alloc: Global, schema: &Schema, id: ShapeId) -> Result<Data<'de>>
        requires { has_kind is_enum schema.now id.0 ≡ true }
        ensures { (s : PlainShape) → shape_at schema.now id.0 ≡ Some s
            → Answers data_of result (StreamGives default_limits schema.now s self.entry) }
    {
        self.deserialize(alloc, schema, id)
    }
}
