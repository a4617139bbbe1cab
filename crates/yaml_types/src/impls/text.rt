//! Texts, owned and borrowed.

ghost use Rattle.std.specs.Prelude.{[], ◌∷◌, IfOk, IfErr};
ghost use Rattle.yaml_shape.specs.DataView.{data_of};
ghost use Rattle.yaml_shape.specs.HasShape.{HasShape};
ghost use Rattle.yaml_shape.specs.Join.{IsTooLarge};
ghost use Rattle.yaml_shape.specs.PlainShape.{str_shape};
ghost use Rattle.yaml_types.specs.Built.{BuiltStr};
ghost use Rattle.yaml_types.specs.BuildRefusal.{IsBuildRefusal, RefusedStr};
ghost use Rattle.yaml_types.specs.Start.{IsStart, leaf_start};

use crate::fault::BuildFault;
use crate::leaf::{leaf_schema, put_text};
use crate::tape_leaf::{lent_at, text_at};
use crate::traits::{Deserialize, RoundTrip, Serialize};
use std::alloc::Global;
use yaml_base::Error;
use yaml_emit::EventSink;
use yaml_shape::{Data, Schema, SchemaFault, Shape, ShapeId, Text};
use yaml_tape::Tape;
use yaml_write::NodeWriter;

impl<'de> Deserialize<'de> for String {
    ghost use Rattle.yaml_shape.specs.PlainShape.{str_shape};
    ghost use Rattle.yaml_types.specs.Start.{leaf_start};
    ghost use Rattle.yaml_types.specs.Built.{BuiltString};
    ghost use Rattle.yaml_types.specs.BuildRefusal.{NeverRefused};
    ghost use Rattle.yaml_types.specs.StartLaws.{closed_leaf};

    ghost start = { leaf_start str_shape };

    ghost built = { BuiltString };

    ghost refused = { NeverRefused };

    ghost closed = { closed_leaf str_shape tt };

    fn schema(alloc: Global) -> Result<(Schema, ShapeId), SchemaFault> {
        leaf_schema(alloc, Shape::Str)
    }

    fn build(alloc: Global, found: Data<'de>) -> Result<String, BuildFault> {
        match found {
            Data::Str(Text::Owned(text)) => Ok(text),
            Data::Str(Text::Borrowed(text)) => Ok(String::from_str(alloc, text)?),
            _ => unreachable!(),
        }
    }

    #[tactic(auto, using(crate::proofs::LeafReads::leaf_means))]
    fn read_node(
        alloc: Global,
        tape: &Tape<'de>,
        place: &mut usize,
        _depth: usize,
    ) -> Option<String> {
        let text = text_at(tape, *place)?;
        let found = String::from_str(alloc, text).ok()?;
        *place += 1;
        Some(found)
    }
}

impl Serialize for String {
    ghost use Rattle.std.specs.Prelude.{refl};
    ghost use Rattle.yaml_shape.specs.PlainShape.{str_shape};
    ghost use Rattle.std.specs.Prelude.{true, string_bytes};
    ghost use Rattle.yaml_shape.specs.PlainData.{text_data};
    ghost use Rattle.yaml_types.specs.Start.{leaf_start};
    ghost use Rattle.yaml_types.specs.StartLaws.{closed_leaf};

    ghost start = { leaf_start str_shape };

    ghost written = { λ s. text_data true (string_bytes s) };

    ghost closed = { closed_leaf str_shape tt };

    ghost of_shape = { λ _ _. refl };

    fn schema(alloc: Global) -> Result<(Schema, ShapeId), SchemaFault> {
        leaf_schema(alloc, Shape::Str)
    }

    fn to_data<'a>(&'a self, _alloc: Global) -> Result<Data<'a>, Error> {
        Ok(Data::Str(Text::Borrowed(self.as_str())))
    }

    fn write_node<W: EventSink>(
        &self,
        out: &mut NodeWriter<W>,
        _schema: &Schema,
        _id: ShapeId,
    ) -> Result<(), Error> {
        put_text(out, self.as_str())
    }
}

impl<'de> RoundTrip<'de> for String {
    ghost use Rattle.std.specs.Prelude.{refl};
    ghost use Rattle.yaml_types.specs.PlainLaws.{text_returned};

    ghost one_schema = { refl };

    ghost returned = { λ x y d _ equal built. text_returned x y d equal built };

    ghost accepted = { λ _ _ _ _ refused. refused };
}

/// A text that the data borrows. Owned text is refused, since no value could keep it.
impl<'de> Deserialize<'de> for &'de str {
    ghost use Rattle.yaml_shape.specs.PlainShape.{str_shape};
    ghost use Rattle.yaml_types.specs.Start.{leaf_start};
    ghost use Rattle.yaml_types.specs.Built.{BuiltStr};
    ghost use Rattle.yaml_types.specs.BuildRefusal.{RefusedStr};
    ghost use Rattle.yaml_types.specs.StartLaws.{closed_leaf};

    ghost start = { leaf_start str_shape };

    ghost built = { BuiltStr };

    ghost refused = { RefusedStr };

    ghost closed = { closed_leaf str_shape tt };

    fn schema(alloc: Global) -> Result<(Schema, ShapeId), SchemaFault>
        ensures ok { IfOk result (IsStart (leaf_start str_shape)) }
        ensures refused { IfErr result (IsTooLarge 1) }
    {
        leaf_schema(alloc, Shape::Str)
    }

    fn build(alloc: Global, found: Data<'de>) -> Result<&'de str, BuildFault>
        requires { HasShape (str_shape ∷ []) 0 (data_of found) }
        ensures ok { IfOk result (BuiltStr (data_of found.entry)) }
        ensures refused { IfErr result (IsBuildRefusal (RefusedStr (data_of found.entry))) }
    {
        match found {
            Data::Str(Text::Borrowed(text)) => Ok(text),
            Data::Str(Text::Owned(_)) => {
                let message = String::from_str(alloc, "expected a borrowed string")?;
                Err(BuildFault::Message(message))
            }
            _ => unreachable!(),
        }
    }

    #[tactic(auto, using(crate::proofs::LeafReads::leaf_means))]
    fn read_node(
        _alloc: Global,
        tape: &Tape<'de>,
        place: &mut usize,
        _depth: usize,
    ) -> Option<&'de str> {
        let found = lent_at(tape, *place)?;
        *place += 1;
        Some(found)
    }
}
