//! Texts that are borrowed where the data borrows them, which Rust writes `Cow<str>`.

ghost use Rattle.std.specs.Prelude.{◌≡◌, [], ◌∷◌, true, refl, IfOk, IfErr, OnOk};
ghost use Rattle.std.specs.Cow.{cow_str_bytes};
ghost use Rattle.yaml_shape.specs.PlainShape.{str_shape};
ghost use Rattle.yaml_shape.specs.PlainData.{text_data};
ghost use Rattle.yaml_shape.specs.DataView.{data_of};
ghost use Rattle.yaml_shape.specs.HasShape.{HasShape};
ghost use Rattle.yaml_shape.specs.Join.{IsTooLarge};
ghost use Rattle.yaml_types.specs.Start.{IsStart, leaf_start};
ghost use Rattle.yaml_types.specs.StartLaws.{closed_leaf};
ghost use Rattle.yaml_types.specs.BuildRefusal.{IsBuildRefusal, NeverRefused};
ghost use Rattle.yaml_types.specs.Texts.{BuiltCow, cow_returned};
ghost use Rattle.yaml_base.specs.EmitTree.{emit_node_events};
ghost use Rattle.yaml_shape.specs.Held.{IsHeld};
ghost use Rattle.yaml_types.specs.NodeWrites.{written_node, IsPut, IsFaultOf};
ghost use Rattle.yaml_types.specs.WriteRefusal.{IsWriteRefusal};

use crate::fault::BuildFault;
use crate::leaf::{leaf_schema, put_text};
use crate::tape_leaf::shown_at;
use crate::traits::{Deserialize, RoundTrip, Serialize};
use std::alloc::Global;
use std::borrow::CowStr;
use yaml_base::Error;
use yaml_emit::EventSink;
use yaml_shape::{Data, Schema, SchemaFault, Shape, ShapeId, Text};
use yaml_tape::Tape;
use yaml_write::NodeWriter;

/// A text that is borrowed where the data borrows it, and owned where it does not.
impl<'de> Deserialize<'de> for CowStr<'de> {
    ghost start = { leaf_start str_shape };

    ghost built = { BuiltCow };

    ghost refused = { NeverRefused };

    ghost closed = { closed_leaf str_shape tt };

    fn schema(alloc: Global) -> Result<(Schema, ShapeId), SchemaFault>
        ensures ok { IfOk result (IsStart (leaf_start str_shape)) }
        ensures refused { IfErr result (IsTooLarge 1) }
    {
        leaf_schema(alloc, Shape::Str)
    }

    fn build(_alloc: Global, found: Data<'de>) -> Result<CowStr<'de>, BuildFault>
        requires { HasShape (str_shape ∷ []) 0 (data_of found) }
        ensures ok { IfOk result (BuiltCow (data_of found.entry)) }
        ensures refused { IfErr result (IsBuildRefusal (NeverRefused (data_of found.entry))) }
    {
        match found {
            Data::Str(Text::Borrowed(text)) => Ok(CowStr::Borrowed(text)),
            Data::Str(Text::Owned(text)) => Ok(CowStr::Owned(text)),
            _ => unreachable!(),
        }
    }

    #[tactic(auto, using(crate::proofs::LeafReads::leaf_means))]
    fn read_node(
        alloc: Global,
        tape: &Tape<'de>,
        place: &mut usize,
        _depth: usize,
    ) -> Option<CowStr<'de>> {
        let found = shown_at(alloc, tape, *place)?;
        *place += 1;
        Some(found)
    }
}

impl<'b> Serialize for CowStr<'b> {
    ghost start = { leaf_start str_shape };

    ghost written = { λ s. text_data true (cow_str_bytes s) };

    ghost closed = { closed_leaf str_shape tt };

    ghost of_shape = { λ _ _. refl };

    fn schema(alloc: Global) -> Result<(Schema, ShapeId), SchemaFault>
        ensures ok { IfOk result (IsStart (leaf_start str_shape)) }
        ensures refused { IfErr result (IsTooLarge 1) }
    {
        leaf_schema(alloc, Shape::Str)
    }

    fn to_data<'a>(&'a self, _alloc: Global) -> Result<Data<'a>, Error>
        ensures ok { IfOk result (λ made. data_of made ≡ text_data true (cow_str_bytes self.now)) }
        ensures kept { OnOk result (Unit {0}) }
        ensures refused { IfErr result (IsWriteRefusal (λ _. ⊥)) }
    {
        Ok(Data::Str(Text::Borrowed(self.as_str())))
    }

    fn write_node<W: EventSink>(
        &self,
        out: &mut NodeWriter<W>,
        schema: &Schema,
        id: ShapeId,
    ) -> Result<(), Error>
        ensures put { OnOk result (IsPut emit_node_events
            (written_node schema.now id.0 (text_data true (cow_str_bytes self.now))) out.old out.new) }
        ensures kept { OnOk result (Unit {0}) }
        ensures held { OnOk result (IsHeld (text_data true (cow_str_bytes self.now))) }
        ensures refused { IfErr result (IsFaultOf
            (written_node schema.now id.0 (text_data true (cow_str_bytes self.now))) (λ _. ⊥)) }
    {
        put_text(out, self.as_str())
    }
}

impl<'de> RoundTrip<'de> for CowStr<'de> {
    ghost one_schema = { refl };

    ghost returned = { λ x y d _ equal built. cow_returned x y d equal built };

    ghost accepted = { λ _ _ _ _ refused. refused };
}
