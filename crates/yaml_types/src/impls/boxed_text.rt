//! Boxed texts, which Rust writes `Box<str>`.

ghost use Rattle.std.specs.Prelude.{true, refl};
ghost use Rattle.std.specs.Box.{boxed_str_bytes};
ghost use Rattle.yaml_shape.specs.PlainShape.{str_shape};
ghost use Rattle.yaml_shape.specs.PlainData.{text_data};
ghost use Rattle.yaml_types.specs.Start.{leaf_start};
ghost use Rattle.yaml_types.specs.StartLaws.{closed_leaf};
ghost use Rattle.yaml_types.specs.BuildRefusal.{NeverRefused};
ghost use Rattle.yaml_types.specs.Texts.{BuiltText, bytes_returned};

use crate::fault::BuildFault;
use crate::leaf::{leaf_schema, put_text};
use crate::tape_leaf::text_at;
use crate::traits::{Deserialize, RoundTrip, Serialize};
use std::alloc::Global;
use std::boxed::BoxedStr;
use yaml_base::Error;
use yaml_emit::EventSink;
use yaml_shape::{Data, Schema, SchemaFault, Shape, ShapeId, Text};
use yaml_tape::Tape;
use yaml_write::NodeWriter;

impl<'de> Deserialize<'de> for BoxedStr {
    ghost start = { leaf_start str_shape };

    ghost built = { λ d s. BuiltText d (boxed_str_bytes s) };

    ghost refused = { NeverRefused };

    ghost closed = { closed_leaf str_shape tt };

    fn schema(alloc: Global) -> Result<(Schema, ShapeId), SchemaFault> {
        leaf_schema(alloc, Shape::Str)
    }

    fn build(alloc: Global, found: Data<'de>) -> Result<BoxedStr, BuildFault> {
        match found {
            Data::Str(Text::Owned(text)) => Ok(text.into_boxed_str()),
            Data::Str(Text::Borrowed(text)) => Ok(BoxedStr::from_str(alloc, text)?),
            _ => unreachable!(),
        }
    }

    #[tactic(auto, using(crate::proofs::LeafReads::leaf_means))]
    fn read_node(
        alloc: Global,
        tape: &Tape<'de>,
        place: &mut usize,
        _depth: usize,
    ) -> Option<BoxedStr> {
        let text = text_at(tape, *place)?;
        let found = BoxedStr::from_str(alloc, text).ok()?;
        *place += 1;
        Some(found)
    }
}

impl Serialize for BoxedStr {
    ghost start = { leaf_start str_shape };

    ghost written = { λ s. text_data true (boxed_str_bytes s) };

    ghost closed = { closed_leaf str_shape tt };

    ghost of_shape = { λ _ _. refl };

    fn schema(alloc: Global) -> Result<(Schema, ShapeId), SchemaFault> {
        leaf_schema(alloc, Shape::Str)
    }

    fn to_data<'a>(&'a self, _alloc: Global) -> Result<Data<'a>, Error> {
        Ok(Data::Str(Text::Borrowed(self.as_str())))
    }

    fn write_node<W: EventSink>(
        &self,
        out: &mut NodeWriter<W>,
        _schema: &Schema,
        _id: ShapeId,
    ) -> Result<(), Error> {
        put_text(out, self.as_str())
    }
}

impl<'de> RoundTrip<'de> for BoxedStr {
    ghost one_schema = { refl };

    ghost returned = { λ x y d _ equal built. bytes_returned (boxed_str_bytes x) (boxed_str_bytes y) d equal built };

    ghost accepted = { λ _ _ _ _ refused. refused };
}
