//! Booleans.

use crate::fault::BuildFault;
use crate::leaf::leaf_schema;
use crate::tape_leaf::boolean_at;
use crate::traits::{Deserialize, RoundTrip, Serialize};
use std::alloc::Global;
use yaml_base::Error;
use yaml_emit::EventSink;
use yaml_shape::{Data, Schema, SchemaFault, Shape, ShapeId};
use yaml_tape::Tape;
use yaml_write::NodeWriter;

impl<'de> Deserialize<'de> for bool {
    ghost use Rattle.yaml_shape.specs.PlainShape.{bool_shape};
    ghost use Rattle.yaml_types.specs.Start.{leaf_start};
    ghost use Rattle.yaml_types.specs.Built.{BuiltBool};
    ghost use Rattle.yaml_types.specs.BuildRefusal.{NeverRefused};
    ghost use Rattle.yaml_types.specs.StartLaws.{closed_leaf};

    ghost start = { leaf_start bool_shape };

    ghost built = { BuiltBool };

    ghost refused = { NeverRefused };

    ghost closed = { closed_leaf bool_shape tt };

    fn schema(alloc: Global) -> Result<(Schema, ShapeId), SchemaFault> {
        leaf_schema(alloc, Shape::Bool)
    }

    fn build(_alloc: Global, found: Data<'de>) -> Result<bool, BuildFault> {
        match found {
            Data::Bool(truth) => Ok(truth),
            _ => unreachable!(),
        }
    }

    #[tactic(auto, using(crate::proofs::LeafReads::leaf_means))]
    fn read_node(
        _alloc: Global,
        tape: &Tape<'de>,
        place: &mut usize,
        _depth: usize,
    ) -> Option<bool> {
        let found = boolean_at(tape, *place)?;
        *place += 1;
        Some(found)
    }
}

impl Serialize for bool {
    ghost use Rattle.std.specs.Prelude.{refl};
    ghost use Rattle.yaml_shape.specs.PlainShape.{bool_shape};
    ghost use Rattle.yaml_shape.specs.PlainData.{bool_data};
    ghost use Rattle.yaml_types.specs.Start.{leaf_start};
    ghost use Rattle.yaml_types.specs.StartLaws.{closed_leaf};

    ghost start = { leaf_start bool_shape };

    ghost written = { bool_data };

    ghost closed = { closed_leaf bool_shape tt };

    ghost of_shape = { λ _ _. refl };

    fn schema(alloc: Global) -> Result<(Schema, ShapeId), SchemaFault> {
        leaf_schema(alloc, Shape::Bool)
    }

    fn to_data<'a>(&'a self, _alloc: Global) -> Result<Data<'a>, Error> {
        Ok(Data::Bool(*self))
    }

    fn write_node<W: EventSink>(
        &self,
        out: &mut NodeWriter<W>,
        _schema: &Schema,
        _id: ShapeId,
    ) -> Result<(), Error> {
        out.boolean(None, *self)?;
        Ok(())
    }
}

impl<'de> RoundTrip<'de> for bool {
    ghost use Rattle.std.specs.Prelude.{refl};
    ghost use Rattle.yaml_types.specs.PlainLaws.{bool_returned};

    ghost one_schema = { refl };

    ghost returned = { λ x y d _ equal built. bool_returned x y d equal built };

    ghost accepted = { λ _ _ _ _ refused. refused };
}
