//! Integers with a sign, of 8, 16 and 32 bits.

ghost use Rattle.std.specs.Prelude.{refl};
ghost use Rattle.yaml_shape.specs.PlainShape.{i8, i16, i32};
ghost use Rattle.yaml_shape.specs.PlainData.{signed_data};
ghost use Rattle.yaml_types.specs.Built.{BuiltSigned};
ghost use Rattle.yaml_types.specs.BuildRefusal.{NeverRefused};
ghost use Rattle.yaml_types.specs.Integers.{integer_start, closed_integer, IsSignedOf};
ghost use Rattle.yaml_types.specs.PlainLaws.{signed_returned};

use crate::fault::BuildFault;
use crate::leaf::leaf_schema;
use crate::tape_leaf::signed_at;
use crate::traits::{Deserialize, RoundTrip, Serialize};
use std::alloc::Global;
use yaml_base::Error;
use yaml_emit::EventSink;
use yaml_shape::{Data, IntegerType, Schema, SchemaFault, Shape, ShapeId};
use yaml_tape::Tape;
use yaml_write::NodeWriter;

impl<'de> Deserialize<'de> for i8 {
    ghost start = { integer_start i8 };

    ghost built = { BuiltSigned };

    ghost refused = { NeverRefused };

    ghost closed = { closed_integer i8 };

    fn schema(alloc: Global) -> Result<(Schema, ShapeId), SchemaFault> {
        leaf_schema(alloc, Shape::I8)
    }

    fn build(_alloc: Global, found: Data<'de>) -> Result<i8, BuildFault> {
        match found {
            Data::Signed(n) => Ok(n as i8),
            _ => unreachable!(),
        }
    }

    #[tactic(auto, using(crate::proofs::LeafReads::leaf_means))]
    fn read_node(_alloc: Global, tape: &Tape<'de>, place: &mut usize, _depth: usize) -> Option<i8> {
        let found = signed_at(IntegerType::I8, tape, *place)?;
        *place += 1;
        Some(found as i8)
    }
}

impl Serialize for i8 {
    ghost start = { integer_start i8 };

    ghost kept = { IsSignedOf i8 };

    ghost written = { signed_data };

    ghost closed = { closed_integer i8 };

    ghost of_shape = { λ _ within. within };

    fn schema(alloc: Global) -> Result<(Schema, ShapeId), SchemaFault> {
        leaf_schema(alloc, Shape::I8)
    }

    fn to_data<'a>(&'a self, _alloc: Global) -> Result<Data<'a>, Error> {
        Ok(Data::Signed(*self as i128))
    }

    fn write_node<W: EventSink>(
        &self,
        out: &mut NodeWriter<W>,
        _schema: &Schema,
        _id: ShapeId,
    ) -> Result<(), Error> {
        out.integer(None, *self)?;
        Ok(())
    }
}

impl<'de> RoundTrip<'de> for i8 {
    ghost one_schema = { refl };

    ghost returned = { λ x y d _ equal built. signed_returned x y d equal built };

    ghost accepted = { λ _ _ _ _ refused. refused };
}

impl<'de> Deserialize<'de> for i16 {
    ghost start = { integer_start i16 };

    ghost built = { BuiltSigned };

    ghost refused = { NeverRefused };

    ghost closed = { closed_integer i16 };

    fn schema(alloc: Global) -> Result<(Schema, ShapeId), SchemaFault> {
        leaf_schema(alloc, Shape::I16)
    }

    fn build(_alloc: Global, found: Data<'de>) -> Result<i16, BuildFault> {
        match found {
            Data::Signed(n) => Ok(n as i16),
            _ => unreachable!(),
        }
    }

    #[tactic(auto, using(crate::proofs::LeafReads::leaf_means))]
    fn read_node(
        _alloc: Global,
        tape: &Tape<'de>,
        place: &mut usize,
        _depth: usize,
    ) -> Option<i16> {
        let found = signed_at(IntegerType::I16, tape, *place)?;
        *place += 1;
        Some(found as i16)
    }
}

impl Serialize for i16 {
    ghost start = { integer_start i16 };

    ghost kept = { IsSignedOf i16 };

    ghost written = { signed_data };

    ghost closed = { closed_integer i16 };

    ghost of_shape = { λ _ within. within };

    fn schema(alloc: Global) -> Result<(Schema, ShapeId), SchemaFault> {
        leaf_schema(alloc, Shape::I16)
    }

    fn to_data<'a>(&'a self, _alloc: Global) -> Result<Data<'a>, Error> {
        Ok(Data::Signed(*self as i128))
    }

    fn write_node<W: EventSink>(
        &self,
        out: &mut NodeWriter<W>,
        _schema: &Schema,
        _id: ShapeId,
    ) -> Result<(), Error> {
        out.integer(None, *self)?;
        Ok(())
    }
}

impl<'de> RoundTrip<'de> for i16 {
    ghost one_schema = { refl };

    ghost returned = { λ x y d _ equal built. signed_returned x y d equal built };

    ghost accepted = { λ _ _ _ _ refused. refused };
}

impl<'de> Deserialize<'de> for i32 {
    ghost start = { integer_start i32 };

    ghost built = { BuiltSigned };

    ghost refused = { NeverRefused };

    ghost closed = { closed_integer i32 };

    fn schema(alloc: Global) -> Result<(Schema, ShapeId), SchemaFault> {
        leaf_schema(alloc, Shape::I32)
    }

    fn build(_alloc: Global, found: Data<'de>) -> Result<i32, BuildFault> {
        match found {
            Data::Signed(n) => Ok(n as i32),
            _ => unreachable!(),
        }
    }

    #[tactic(auto, using(crate::proofs::LeafReads::leaf_means))]
    fn read_node(
        _alloc: Global,
        tape: &Tape<'de>,
        place: &mut usize,
        _depth: usize,
    ) -> Option<i32> {
        let found = signed_at(IntegerType::I32, tape, *place)?;
        *place += 1;
        Some(found as i32)
    }
}

impl Serialize for i32 {
    ghost start = { integer_start i32 };

    ghost kept = { IsSignedOf i32 };

    ghost written = { signed_data };

    ghost closed = { closed_integer i32 };

    ghost of_shape = { λ _ within. within };

    fn schema(alloc: Global) -> Result<(Schema, ShapeId), SchemaFault> {
        leaf_schema(alloc, Shape::I32)
    }

    fn to_data<'a>(&'a self, _alloc: Global) -> Result<Data<'a>, Error> {
        Ok(Data::Signed(*self as i128))
    }

    fn write_node<W: EventSink>(
        &self,
        out: &mut NodeWriter<W>,
        _schema: &Schema,
        _id: ShapeId,
    ) -> Result<(), Error> {
        out.integer(None, *self)?;
        Ok(())
    }
}

impl<'de> RoundTrip<'de> for i32 {
    ghost one_schema = { refl };

    ghost returned = { λ x y d _ equal built. signed_returned x y d equal built };

    ghost accepted = { λ _ _ _ _ refused. refused };
}
