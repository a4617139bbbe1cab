//! Values of any kind.

use crate::fault::BuildFault;
use crate::leaf::leaf_schema;
use crate::tape_value::value_at;
use crate::traits::{Deserialize, RoundTrip, Serialize};
use std::alloc::Global;
use yaml_base::{Cause, Error};
use yaml_emit::EventSink;
use yaml_shape::{Data, Schema, SchemaFault, Shape, ShapeId};
use yaml_tape::Tape;
use yaml_tree::Value;
use yaml_write::NodeWriter;

impl<'de> Deserialize<'de> for Value {
    ghost use Rattle.yaml_shape.specs.PlainShape.{any_shape};
    ghost use Rattle.yaml_types.specs.Start.{leaf_start};
    ghost use Rattle.yaml_types.specs.Built.{BuiltValue};
    ghost use Rattle.yaml_types.specs.BuildRefusal.{NeverRefused};
    ghost use Rattle.yaml_types.specs.StartLaws.{closed_leaf};

    ghost start = { leaf_start any_shape };

    ghost built = { BuiltValue };

    ghost refused = { NeverRefused };

    ghost closed = { closed_leaf any_shape tt };

    fn schema(alloc: Global) -> Result<(Schema, ShapeId), SchemaFault> {
        leaf_schema(alloc, Shape::Any)
    }

    fn build(_alloc: Global, found: Data<'de>) -> Result<Value, BuildFault> {
        match found {
            Data::Any(value) => Ok(value),
            _ => unreachable!(),
        }
    }

    #[tactic(auto, using(crate::proofs::AnyReads::value_means))]
    fn read_node(
        alloc: Global,
        tape: &Tape<'de>,
        place: &mut usize,
        depth: usize,
    ) -> Option<Value> {
        value_at(alloc, tape, place, depth)
    }
}

impl Serialize for Value {
    ghost use Rattle.std.specs.Prelude.{refl};
    ghost use Rattle.yaml_shape.specs.PlainShape.{any_shape};
    ghost use Rattle.yaml_tree.specs.View.{tree_of};
    ghost use Rattle.yaml_shape.specs.PlainData.{any_data};
    ghost use Rattle.yaml_types.specs.Start.{leaf_start};
    ghost use Rattle.yaml_types.specs.StartLaws.{closed_leaf};

    ghost start = { leaf_start any_shape };

    ghost written = { λ v. any_data (tree_of v) };

    ghost closed = { closed_leaf any_shape tt };

    ghost of_shape = { λ _ _. refl };

    fn schema(alloc: Global) -> Result<(Schema, ShapeId), SchemaFault> {
        leaf_schema(alloc, Shape::Any)
    }

    fn to_data<'a>(&'a self, alloc: Global) -> Result<Data<'a>, Error> {
        match self.copy(alloc) {
            Ok(copied) => Ok(Data::Any(copied)),
            Err(_) => Err(Error::new(Cause::Memory)),
        }
    }

    fn write_node<W: EventSink>(
        &self,
        out: &mut NodeWriter<W>,
        _schema: &Schema,
        _id: ShapeId,
    ) -> Result<(), Error> {
        out.value(None, self)?;
        Ok(())
    }
}

impl<'de> RoundTrip<'de> for Value {
    ghost use Rattle.std.specs.Prelude.{refl};
    ghost use Rattle.yaml_types.specs.PlainLaws.{value_returned};

    ghost one_schema = { refl };

    ghost returned = { λ x y d _ equal built. value_returned x y d equal built };

    ghost accepted = { λ _ _ _ _ refused. refused };
}
