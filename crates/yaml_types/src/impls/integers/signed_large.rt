//! Integers with a sign, of 64 and 128 bits and of the machine's width, 64 bits.

ghost use Rattle.std.specs.Prelude.{refl};
ghost use Rattle.yaml_shape.specs.PlainShape.{i64, i128, isize};
ghost use Rattle.yaml_shape.specs.PlainData.{signed_data};
ghost use Rattle.yaml_types.specs.Built.{BuiltSigned};
ghost use Rattle.yaml_types.specs.BuildRefusal.{NeverRefused};
ghost use Rattle.yaml_types.specs.Integers.{integer_start, closed_integer, IsSignedOf};
ghost use Rattle.yaml_types.specs.PlainLaws.{signed_returned};

use crate::fault::BuildFault;
use crate::leaf::leaf_schema;
use crate::tape_leaf::signed_at;
use crate::traits::{Deserialize, RoundTrip, Serialize};
use std::alloc::Global;
use yaml_base::Error;
use yaml_emit::EventSink;
use yaml_shape::{Data, IntegerType, Schema, SchemaFault, Shape, ShapeId};
use yaml_tape::Tape;
use yaml_write::NodeWriter;

impl<'de> Deserialize<'de> for i64 {
    ghost start = { integer_start i64 };

    ghost built = { BuiltSigned };

    ghost refused = { NeverRefused };

    ghost closed = { closed_integer i64 };

    fn schema(alloc: Global) -> Result<(Schema, ShapeId), SchemaFault> {
        leaf_schema(alloc, Shape::I64)
    }

    fn build(_alloc: Global, found: Data<'de>) -> Result<i64, BuildFault> {
        match found {
            Data::Signed(n) => Ok(n as i64),
            _ => unreachable!(),
        }
    }

    #[tactic(auto, using(crate::proofs::LeafReads::leaf_means))]
    fn read_node(
        _alloc: Global,
        tape: &Tape<'de>,
        place: &mut usize,
        _depth: usize,
    ) -> Option<i64> {
        let found = signed_at(IntegerType::I64, tape, *place)?;
        *place += 1;
        Some(found)
    }
}

impl Serialize for i64 {
    ghost start = { integer_start i64 };

    ghost kept = { IsSignedOf i64 };

    ghost written = { signed_data };

    ghost closed = { closed_integer i64 };

    ghost of_shape = { λ _ within. within };

    fn schema(alloc: Global) -> Result<(Schema, ShapeId), SchemaFault> {
        leaf_schema(alloc, Shape::I64)
    }

    fn to_data<'a>(&'a self, _alloc: Global) -> Result<Data<'a>, Error> {
        Ok(Data::Signed(*self as i128))
    }

    fn write_node<W: EventSink>(
        &self,
        out: &mut NodeWriter<W>,
        _schema: &Schema,
        _id: ShapeId,
    ) -> Result<(), Error> {
        out.integer(None, *self)?;
        Ok(())
    }
}

impl<'de> RoundTrip<'de> for i64 {
    ghost one_schema = { refl };

    ghost returned = { λ x y d _ equal built. signed_returned x y d equal built };

    ghost accepted = { λ _ _ _ _ refused. refused };
}

impl<'de> Deserialize<'de> for i128 {
    ghost start = { integer_start i128 };

    ghost built = { BuiltSigned };

    ghost refused = { NeverRefused };

    ghost closed = { closed_integer i128 };

    fn schema(alloc: Global) -> Result<(Schema, ShapeId), SchemaFault> {
        leaf_schema(alloc, Shape::I128)
    }

    fn build(_alloc: Global, found: Data<'de>) -> Result<i128, BuildFault> {
        match found {
            Data::Signed(n) => Ok(n),
            _ => unreachable!(),
        }
    }

    #[tactic(auto, using(crate::proofs::LeafReads::leaf_means))]
    fn read_node(
        _alloc: Global,
        tape: &Tape<'de>,
        place: &mut usize,
        _depth: usize,
    ) -> Option<i128> {
        let found = signed_at(IntegerType::I128, tape, *place)?;
        *place += 1;
        Some(found as i128)
    }
}

impl Serialize for i128 {
    ghost start = { integer_start i128 };

    ghost kept = { IsSignedOf i128 };

    ghost written = { signed_data };

    ghost closed = { closed_integer i128 };

    ghost of_shape = { λ _ within. within };

    fn schema(alloc: Global) -> Result<(Schema, ShapeId), SchemaFault> {
        leaf_schema(alloc, Shape::I128)
    }

    fn to_data<'a>(&'a self, _alloc: Global) -> Result<Data<'a>, Error> {
        Ok(Data::Signed(*self))
    }

    fn write_node<W: EventSink>(
        &self,
        out: &mut NodeWriter<W>,
        _schema: &Schema,
        _id: ShapeId,
    ) -> Result<(), Error> {
        out.integer(None, *self)?;
        Ok(())
    }
}

impl<'de> RoundTrip<'de> for i128 {
    ghost one_schema = { refl };

    ghost returned = { λ x y d _ equal built. signed_returned x y d equal built };

    ghost accepted = { λ _ _ _ _ refused. refused };
}

impl<'de> Deserialize<'de> for isize {
    ghost start = { integer_start isize };

    ghost built = { BuiltSigned };

    ghost refused = { NeverRefused };

    ghost closed = { closed_integer isize };

    fn schema(alloc: Global) -> Result<(Schema, ShapeId), SchemaFault> {
        leaf_schema(alloc, Shape::Isize)
    }

    fn build(_alloc: Global, found: Data<'de>) -> Result<isize, BuildFault> {
        match found {
            Data::Signed(n) => Ok(n as isize),
            _ => unreachable!(),
        }
    }

    #[tactic(auto, using(crate::proofs::LeafReads::leaf_means))]
    fn read_node(
        _alloc: Global,
        tape: &Tape<'de>,
        place: &mut usize,
        _depth: usize,
    ) -> Option<isize> {
        let found = signed_at(IntegerType::Isize, tape, *place)?;
        *place += 1;
        Some(found as isize)
    }
}

impl Serialize for isize {
    ghost start = { integer_start isize };

    ghost kept = { IsSignedOf isize };

    ghost written = { signed_data };

    ghost closed = { closed_integer isize };

    ghost of_shape = { λ _ within. within };

    fn schema(alloc: Global) -> Result<(Schema, ShapeId), SchemaFault> {
        leaf_schema(alloc, Shape::Isize)
    }

    fn to_data<'a>(&'a self, _alloc: Global) -> Result<Data<'a>, Error> {
        Ok(Data::Signed(*self as i128))
    }

    fn write_node<W: EventSink>(
        &self,
        out: &mut NodeWriter<W>,
        _schema: &Schema,
        _id: ShapeId,
    ) -> Result<(), Error> {
        out.integer(None, *self)?;
        Ok(())
    }
}

impl<'de> RoundTrip<'de> for isize {
    ghost one_schema = { refl };

    ghost returned = { λ x y d _ equal built. signed_returned x y d equal built };

    ghost accepted = { λ _ _ _ _ refused. refused };
}
