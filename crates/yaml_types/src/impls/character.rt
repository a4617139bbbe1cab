//! Characters.

use crate::fault::BuildFault;
use crate::leaf::leaf_schema;
use crate::tape_leaf::character_at;
use crate::traits::{Deserialize, RoundTrip, Serialize};
use std::alloc::Global;
use yaml_base::Error;
use yaml_emit::EventSink;
use yaml_shape::{Data, Schema, SchemaFault, Shape, ShapeId};
use yaml_tape::Tape;
use yaml_write::NodeWriter;

impl<'de> Deserialize<'de> for char {
    ghost use Rattle.yaml_shape.specs.PlainShape.{char_shape};
    ghost use Rattle.yaml_types.specs.Start.{leaf_start};
    ghost use Rattle.yaml_types.specs.Built.{BuiltChar};
    ghost use Rattle.yaml_types.specs.BuildRefusal.{NeverRefused};
    ghost use Rattle.yaml_types.specs.StartLaws.{closed_leaf};

    ghost start = { leaf_start char_shape };

    ghost built = { BuiltChar };

    ghost refused = { NeverRefused };

    ghost closed = { closed_leaf char_shape tt };

    fn schema(alloc: Global) -> Result<(Schema, ShapeId), SchemaFault> {
        leaf_schema(alloc, Shape::Char)
    }

    fn build(_alloc: Global, found: Data<'de>) -> Result<char, BuildFault> {
        match found {
            Data::Char(character) => Ok(character),
            _ => unreachable!(),
        }
    }

    #[tactic(auto, using(crate::proofs::LeafReads::leaf_means))]
    fn read_node(
        _alloc: Global,
        tape: &Tape<'de>,
        place: &mut usize,
        _depth: usize,
    ) -> Option<char> {
        let found = character_at(tape, *place)?;
        *place += 1;
        Some(found)
    }
}

impl Serialize for char {
    ghost use Rattle.std.specs.Prelude.{refl};
    ghost use Rattle.yaml_shape.specs.PlainShape.{char_shape};
    ghost use Rattle.yaml_shape.specs.PlainData.{char_data};
    ghost use Rattle.yaml_types.specs.Start.{leaf_start};
    ghost use Rattle.yaml_types.specs.StartLaws.{closed_leaf};

    ghost start = { leaf_start char_shape };

    ghost written = { char_data };

    ghost closed = { closed_leaf char_shape tt };

    ghost of_shape = { λ _ _. refl };

    fn schema(alloc: Global) -> Result<(Schema, ShapeId), SchemaFault> {
        leaf_schema(alloc, Shape::Char)
    }

    fn to_data<'a>(&'a self, _alloc: Global) -> Result<Data<'a>, Error> {
        Ok(Data::Char(*self))
    }

    fn write_node<W: EventSink>(
        &self,
        out: &mut NodeWriter<W>,
        _schema: &Schema,
        _id: ShapeId,
    ) -> Result<(), Error> {
        out.character(None, *self)?;
        Ok(())
    }
}

impl<'de> RoundTrip<'de> for char {
    ghost use Rattle.std.specs.Prelude.{refl};
    ghost use Rattle.yaml_types.specs.PlainLaws.{char_returned};

    ghost one_schema = { refl };

    ghost returned = { λ x y d _ equal built. char_returned x y d equal built };

    ghost accepted = { λ _ _ _ _ refused. refused };
}
