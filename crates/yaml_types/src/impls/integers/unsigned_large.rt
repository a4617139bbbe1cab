//! Integers without a sign, of 64 and 128 bits and of the machine's width, 64 bits.

ghost use Rattle.std.specs.Prelude.{refl};
ghost use Rattle.yaml_shape.specs.PlainShape.{u64, u128, usize};
ghost use Rattle.yaml_shape.specs.PlainData.{unsigned_data};
ghost use Rattle.yaml_types.specs.Built.{BuiltUnsigned};
ghost use Rattle.yaml_types.specs.BuildRefusal.{NeverRefused};
ghost use Rattle.yaml_types.specs.Integers.{integer_start, closed_integer, IsUnsignedOf};
ghost use Rattle.yaml_types.specs.PlainLaws.{unsigned_returned};

use crate::fault::BuildFault;
use crate::leaf::leaf_schema;
use crate::tape_leaf::unsigned_at;
use crate::traits::{Deserialize, RoundTrip, Serialize};
use std::alloc::Global;
use yaml_base::Error;
use yaml_emit::EventSink;
use yaml_shape::{Data, IntegerType, Schema, SchemaFault, Shape, ShapeId};
use yaml_tape::Tape;
use yaml_write::NodeWriter;

impl<'de> Deserialize<'de> for u64 {
    ghost start = { integer_start u64 };

    ghost built = { BuiltUnsigned };

    ghost refused = { NeverRefused };

    ghost closed = { closed_integer u64 };

    fn schema(alloc: Global) -> Result<(Schema, ShapeId), SchemaFault> {
        leaf_schema(alloc, Shape::U64)
    }

    fn build(_alloc: Global, found: Data<'de>) -> Result<u64, BuildFault> {
        match found {
            Data::Unsigned(n) => Ok(n as u64),
            _ => unreachable!(),
        }
    }

    #[tactic(auto, using(crate::proofs::LeafReads::leaf_means))]
    fn read_node(
        _alloc: Global,
        tape: &Tape<'de>,
        place: &mut usize,
        _depth: usize,
    ) -> Option<u64> {
        let found = unsigned_at(IntegerType::U64, tape, *place)?;
        *place += 1;
        Some(found)
    }
}

impl Serialize for u64 {
    ghost start = { integer_start u64 };

    ghost kept = { IsUnsignedOf u64 };

    ghost written = { unsigned_data };

    ghost closed = { closed_integer u64 };

    ghost of_shape = { λ _ within. within };

    fn schema(alloc: Global) -> Result<(Schema, ShapeId), SchemaFault> {
        leaf_schema(alloc, Shape::U64)
    }

    fn to_data<'a>(&'a self, _alloc: Global) -> Result<Data<'a>, Error> {
        Ok(Data::Unsigned(*self as u128))
    }

    fn write_node<W: EventSink>(
        &self,
        out: &mut NodeWriter<W>,
        _schema: &Schema,
        _id: ShapeId,
    ) -> Result<(), Error> {
        out.integer(None, *self)?;
        Ok(())
    }
}

impl<'de> RoundTrip<'de> for u64 {
    ghost one_schema = { refl };

    ghost returned = { λ x y d _ equal built. unsigned_returned x y d equal built };

    ghost accepted = { λ _ _ _ _ refused. refused };
}

impl<'de> Deserialize<'de> for u128 {
    ghost start = { integer_start u128 };

    ghost built = { BuiltUnsigned };

    ghost refused = { NeverRefused };

    ghost closed = { closed_integer u128 };

    fn schema(alloc: Global) -> Result<(Schema, ShapeId), SchemaFault> {
        leaf_schema(alloc, Shape::U128)
    }

    fn build(_alloc: Global, found: Data<'de>) -> Result<u128, BuildFault> {
        match found {
            Data::Unsigned(n) => Ok(n),
            _ => unreachable!(),
        }
    }

    #[tactic(auto, using(crate::proofs::LeafReads::leaf_means))]
    fn read_node(
        _alloc: Global,
        tape: &Tape<'de>,
        place: &mut usize,
        _depth: usize,
    ) -> Option<u128> {
        let found = unsigned_at(IntegerType::U128, tape, *place)?;
        *place += 1;
        Some(found as u128)
    }
}

impl Serialize for u128 {
    ghost start = { integer_start u128 };

    ghost kept = { IsUnsignedOf u128 };

    ghost written = { unsigned_data };

    ghost closed = { closed_integer u128 };

    ghost of_shape = { λ _ within. within };

    fn schema(alloc: Global) -> Result<(Schema, ShapeId), SchemaFault> {
        leaf_schema(alloc, Shape::U128)
    }

    fn to_data<'a>(&'a self, _alloc: Global) -> Result<Data<'a>, Error> {
        Ok(Data::Unsigned(*self))
    }

    fn write_node<W: EventSink>(
        &self,
        out: &mut NodeWriter<W>,
        _schema: &Schema,
        _id: ShapeId,
    ) -> Result<(), Error> {
        out.integer(None, *self)?;
        Ok(())
    }
}

impl<'de> RoundTrip<'de> for u128 {
    ghost one_schema = { refl };

    ghost returned = { λ x y d _ equal built. unsigned_returned x y d equal built };

    ghost accepted = { λ _ _ _ _ refused. refused };
}

impl<'de> Deserialize<'de> for usize {
    ghost start = { integer_start usize };

    ghost built = { BuiltUnsigned };

    ghost refused = { NeverRefused };

    ghost closed = { closed_integer usize };

    fn schema(alloc: Global) -> Result<(Schema, ShapeId), SchemaFault> {
        leaf_schema(alloc, Shape::Usize)
    }

    fn build(_alloc: Global, found: Data<'de>) -> Result<usize, BuildFault> {
        match found {
            Data::Unsigned(n) => Ok(n as usize),
            _ => unreachable!(),
        }
    }

    #[tactic(auto, using(crate::proofs::LeafReads::leaf_means))]
    fn read_node(
        _alloc: Global,
        tape: &Tape<'de>,
        place: &mut usize,
        _depth: usize,
    ) -> Option<usize> {
        let found = unsigned_at(IntegerType::Usize, tape, *place)?;
        *place += 1;
        Some(found as usize)
    }
}

impl Serialize for usize {
    ghost start = { integer_start usize };

    ghost kept = { IsUnsignedOf usize };

    ghost written = { unsigned_data };

    ghost closed = { closed_integer usize };

    ghost of_shape = { λ _ within. within };

    fn schema(alloc: Global) -> Result<(Schema, ShapeId), SchemaFault> {
        leaf_schema(alloc, Shape::Usize)
    }

    fn to_data<'a>(&'a self, _alloc: Global) -> Result<Data<'a>, Error> {
        Ok(Data::Unsigned(*self as u128))
    }

    fn write_node<W: EventSink>(
        &self,
        out: &mut NodeWriter<W>,
        _schema: &Schema,
        _id: ShapeId,
    ) -> Result<(), Error> {
        out.integer(None, *self)?;
        Ok(())
    }
}

impl<'de> RoundTrip<'de> for usize {
    ghost one_schema = { refl };

    ghost returned = { λ x y d _ equal built. unsigned_returned x y d equal built };

    ghost accepted = { λ _ _ _ _ refused. refused };
}
