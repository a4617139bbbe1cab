//! The unit type.

use crate::fault::BuildFault;
use crate::leaf::leaf_schema;
use crate::tape_leaf::is_nothing;
use crate::traits::{Deserialize, RoundTrip, Serialize};
use std::alloc::Global;
use yaml_base::Error;
use yaml_emit::EventSink;
use yaml_shape::{Data, Schema, SchemaFault, Shape, ShapeId};
use yaml_tape::Tape;
use yaml_write::NodeWriter;

impl<'de> Deserialize<'de> for () {
    ghost use Rattle.yaml_shape.specs.PlainShape.{unit_shape};
    ghost use Rattle.yaml_types.specs.Start.{leaf_start};
    ghost use Rattle.yaml_types.specs.Built.{BuiltUnit};
    ghost use Rattle.yaml_types.specs.BuildRefusal.{NeverRefused};
    ghost use Rattle.yaml_types.specs.StartLaws.{closed_leaf};

    ghost start = { leaf_start unit_shape };

    ghost built = { BuiltUnit };

    ghost refused = { NeverRefused };

    ghost closed = { closed_leaf unit_shape tt };

    fn schema(alloc: Global) -> Result<(Schema, ShapeId), SchemaFault> {
        leaf_schema(alloc, Shape::Unit)
    }

    fn build(_alloc: Global, found: Data<'de>) -> Result<(), BuildFault> {
        match found {
            Data::Unit => Ok(()),
            _ => unreachable!(),
        }
    }

    #[tactic(auto, using(crate::proofs::LeafReads::leaf_means))]
    fn read_node(_alloc: Global, tape: &Tape<'de>, place: &mut usize, _depth: usize) -> Option<()> {
        if !is_nothing(tape, *place)? {
            return None;
        }
        *place += 1;
        Some(())
    }
}

impl Serialize for () {
    ghost use Rattle.std.specs.Prelude.{refl};
    ghost use Rattle.yaml_shape.specs.PlainShape.{unit_shape};
    ghost use Rattle.yaml_shape.specs.PlainData.{unit_data};
    ghost use Rattle.yaml_types.specs.Start.{leaf_start};
    ghost use Rattle.yaml_types.specs.StartLaws.{closed_leaf};

    ghost start = { leaf_start unit_shape };

    ghost written = { λ _. unit_data };

    ghost closed = { closed_leaf unit_shape tt };

    ghost of_shape = { λ _ _. refl };

    fn schema(alloc: Global) -> Result<(Schema, ShapeId), SchemaFault> {
        leaf_schema(alloc, Shape::Unit)
    }

    fn to_data<'a>(&'a self, _alloc: Global) -> Result<Data<'a>, Error> {
        Ok(Data::Unit)
    }

    fn write_node<W: EventSink>(
        &self,
        out: &mut NodeWriter<W>,
        _schema: &Schema,
        _id: ShapeId,
    ) -> Result<(), Error> {
        out.null(None)?;
        Ok(())
    }
}

impl<'de> RoundTrip<'de> for () {
    ghost use Rattle.std.specs.Prelude.{refl};

    ghost one_schema = { refl };

    ghost returned = { λ _ _ _ _ _ _. refl };

    ghost accepted = { λ _ _ _ _ refused. refused };
}
