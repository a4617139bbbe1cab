//! Integers without a sign, of 8, 16 and 32 bits.

ghost use Rattle.std.specs.Prelude.{refl};
ghost use Rattle.yaml_shape.specs.PlainShape.{u8, u16, u32};
ghost use Rattle.yaml_shape.specs.PlainData.{unsigned_data};
ghost use Rattle.yaml_types.specs.Built.{BuiltUnsigned};
ghost use Rattle.yaml_types.specs.BuildRefusal.{NeverRefused};
ghost use Rattle.yaml_types.specs.Integers.{integer_start, closed_integer, IsUnsignedOf};
ghost use Rattle.yaml_types.specs.PlainLaws.{unsigned_returned};

use crate::fault::BuildFault;
use crate::leaf::leaf_schema;
use crate::tape_leaf::unsigned_at;
use crate::traits::{Deserialize, RoundTrip, Serialize};
use std::alloc::Global;
use yaml_base::Error;
use yaml_emit::EventSink;
use yaml_shape::{Data, IntegerType, Schema, SchemaFault, Shape, ShapeId};
use yaml_tape::Tape;
use yaml_write::NodeWriter;

impl<'de> Deserialize<'de> for u8 {
    ghost start = { integer_start u8 };

    ghost built = { BuiltUnsigned };

    ghost refused = { NeverRefused };

    ghost closed = { closed_integer u8 };

    fn schema(alloc: Global) -> Result<(Schema, ShapeId), SchemaFault> {
        leaf_schema(alloc, Shape::U8)
    }

    fn build(_alloc: Global, found: Data<'de>) -> Result<u8, BuildFault> {
        match found {
            Data::Unsigned(n) => Ok(n as u8),
            _ => unreachable!(),
        }
    }

    #[tactic(auto, using(crate::proofs::LeafReads::leaf_means))]
    fn read_node(_alloc: Global, tape: &Tape<'de>, place: &mut usize, _depth: usize) -> Option<u8> {
        let found = unsigned_at(IntegerType::U8, tape, *place)?;
        *place += 1;
        Some(found as u8)
    }
}

impl Serialize for u8 {
    ghost start = { integer_start u8 };

    ghost kept = { IsUnsignedOf u8 };

    ghost written = { unsigned_data };

    ghost closed = { closed_integer u8 };

    ghost of_shape = { λ _ within. within };

    fn schema(alloc: Global) -> Result<(Schema, ShapeId), SchemaFault> {
        leaf_schema(alloc, Shape::U8)
    }

    fn to_data<'a>(&'a self, _alloc: Global) -> Result<Data<'a>, Error> {
        Ok(Data::Unsigned(*self as u128))
    }

    fn write_node<W: EventSink>(
        &self,
        out: &mut NodeWriter<W>,
        _schema: &Schema,
        _id: ShapeId,
    ) -> Result<(), Error> {
        out.integer(None, *self)?;
        Ok(())
    }
}

impl<'de> RoundTrip<'de> for u8 {
    ghost one_schema = { refl };

    ghost returned = { λ x y d _ equal built. unsigned_returned x y d equal built };

    ghost accepted = { λ _ _ _ _ refused. refused };
}

impl<'de> Deserialize<'de> for u16 {
    ghost start = { integer_start u16 };

    ghost built = { BuiltUnsigned };

    ghost refused = { NeverRefused };

    ghost closed = { closed_integer u16 };

    fn schema(alloc: Global) -> Result<(Schema, ShapeId), SchemaFault> {
        leaf_schema(alloc, Shape::U16)
    }

    fn build(_alloc: Global, found: Data<'de>) -> Result<u16, BuildFault> {
        match found {
            Data::Unsigned(n) => Ok(n as u16),
            _ => unreachable!(),
        }
    }

    #[tactic(auto, using(crate::proofs::LeafReads::leaf_means))]
    fn read_node(
        _alloc: Global,
        tape: &Tape<'de>,
        place: &mut usize,
        _depth: usize,
    ) -> Option<u16> {
        let found = unsigned_at(IntegerType::U16, tape, *place)?;
        *place += 1;
        Some(found as u16)
    }
}

impl Serialize for u16 {
    ghost start = { integer_start u16 };

    ghost kept = { IsUnsignedOf u16 };

    ghost written = { unsigned_data };

    ghost closed = { closed_integer u16 };

    ghost of_shape = { λ _ within. within };

    fn schema(alloc: Global) -> Result<(Schema, ShapeId), SchemaFault> {
        leaf_schema(alloc, Shape::U16)
    }

    fn to_data<'a>(&'a self, _alloc: Global) -> Result<Data<'a>, Error> {
        Ok(Data::Unsigned(*self as u128))
    }

    fn write_node<W: EventSink>(
        &self,
        out: &mut NodeWriter<W>,
        _schema: &Schema,
        _id: ShapeId,
    ) -> Result<(), Error> {
        out.integer(None, *self)?;
        Ok(())
    }
}

impl<'de> RoundTrip<'de> for u16 {
    ghost one_schema = { refl };

    ghost returned = { λ x y d _ equal built. unsigned_returned x y d equal built };

    ghost accepted = { λ _ _ _ _ refused. refused };
}

impl<'de> Deserialize<'de> for u32 {
    ghost start = { integer_start u32 };

    ghost built = { BuiltUnsigned };

    ghost refused = { NeverRefused };

    ghost closed = { closed_integer u32 };

    fn schema(alloc: Global) -> Result<(Schema, ShapeId), SchemaFault> {
        leaf_schema(alloc, Shape::U32)
    }

    fn build(_alloc: Global, found: Data<'de>) -> Result<u32, BuildFault> {
        match found {
            Data::Unsigned(n) => Ok(n as u32),
            _ => unreachable!(),
        }
    }

    #[tactic(auto, using(crate::proofs::LeafReads::leaf_means))]
    fn read_node(
        _alloc: Global,
        tape: &Tape<'de>,
        place: &mut usize,
        _depth: usize,
    ) -> Option<u32> {
        let found = unsigned_at(IntegerType::U32, tape, *place)?;
        *place += 1;
        Some(found as u32)
    }
}

impl Serialize for u32 {
    ghost start = { integer_start u32 };

    ghost kept = { IsUnsignedOf u32 };

    ghost written = { unsigned_data };

    ghost closed = { closed_integer u32 };

    ghost of_shape = { λ _ within. within };

    fn schema(alloc: Global) -> Result<(Schema, ShapeId), SchemaFault> {
        leaf_schema(alloc, Shape::U32)
    }

    fn to_data<'a>(&'a self, _alloc: Global) -> Result<Data<'a>, Error> {
        Ok(Data::Unsigned(*self as u128))
    }

    fn write_node<W: EventSink>(
        &self,
        out: &mut NodeWriter<W>,
        _schema: &Schema,
        _id: ShapeId,
    ) -> Result<(), Error> {
        out.integer(None, *self)?;
        Ok(())
    }
}

impl<'de> RoundTrip<'de> for u32 {
    ghost one_schema = { refl };

    ghost returned = { λ x y d _ equal built. unsigned_returned x y d equal built };

    ghost accepted = { λ _ _ _ _ refused. refused };
}
