//! What a type is to have to be read from data and written as data.

ghost use Rattle.std.specs.Prelude.{◌≡◌, ℕ, List, true, length, IfOk, IfErr, IfSome, OnOk};
ghost use Rattle.yaml_shape.specs.PlainData.{PlainData};
ghost use Rattle.yaml_shape.specs.DataView.{data_of};
ghost use Rattle.yaml_shape.specs.HasShape.{HasShape};
ghost use Rattle.yaml_shape.specs.EqualData.{EqualData};
ghost use Rattle.yaml_shape.specs.Join.{IsTooLarge};
ghost use Rattle.yaml_types.specs.NodeMeans.{NodeMeans};
ghost use Rattle.yaml_types.specs.Start.{Start, IsStart, IsClosed};
ghost use Rattle.yaml_types.specs.Tables.{IsShapeIn};
ghost use Rattle.yaml_types.specs.BuildRefusal.{IsBuildRefusal};
ghost use Rattle.yaml_base.specs.EmitTree.{emit_node_events};
ghost use Rattle.yaml_shape.specs.Held.{IsHeld};
ghost use Rattle.yaml_types.specs.NodeWrites.{written_node, IsPut, IsFaultOf};
ghost use Rattle.yaml_types.specs.WriteRefusal.{IsWriteRefusal};

use crate::fault::BuildFault;
use std::alloc::Global;
use yaml_base::Error;
use yaml_emit::EventSink;
use yaml_shape::{Data, Schema, SchemaFault, ShapeId, data_is_held};
use yaml_tape::Tape;
use yaml_write::NodeWriter;

/// A type whose values are built of data of one shape. `'de` is how long a value may keep borrowed texts.
pub trait Deserialize<'de>: Sized {
    // The table of shapes, and the number of the one of the type.
    ghost start: { Start };

    // Which values are those of data.
    ghost built: { PlainData → Self → Type 0 };

    // By which messages data is refused.
    ghost refused: { PlainData → List ℕ → Type 0 };

    /// The shape of the type: a schema, and its number there. Refused by `TooManyShapes` where the table would have
    /// more than 4,096 shapes, and by `Memory`.
    fn schema(alloc: Global) -> Result<(Schema, ShapeId), SchemaFault>
        ensures ok { IfOk result (IsStart start) }
        ensures refused { IfErr result (IsTooLarge (length start.0)) };

    /// The value of data of the shape; `Typed::new` is the test of what is asked. The value may keep texts that
    /// the data borrows. The data is dropped on refusal.
    fn build(alloc: Global, found: Data<'de>) -> Result<Self, BuildFault>
        requires { HasShape start.0 start.1 (data_of found) }
        ensures ok { IfOk result (built (data_of found.entry)) }
        ensures refused { IfErr result (IsBuildRefusal (refused (data_of found.entry))) };

    /// The value of the node in a place of a tape, which then is the place behind the node; or nothing, which says
    /// nothing of the node: it is read in another way then. Of a node with an alias in it, or with more nestings than
    /// there are, nothing. A type may always answer nothing: then each of its values is built of data.
    fn read_node(alloc: Global, tape: &Tape<'de>, place: &mut usize, depth: usize) -> Option<Self>
        ensures read { IfSome result (NodeMeans (IsShapeIn start) built tape.now place.old place.new depth) };

    // The shape is in the table, which names no shape outside.
    ghost closed: { IsClosed start };
}

/// A type whose values are written as data of one shape.
pub trait Serialize {
    // The table of shapes, and the number of the one of the type.
    ghost start: { Start };

    // What a value of the type keeps that is written, as an integer its range.
    ghost kept: { Self → Type 0 } = { λ _. Unit {0} };

    // The data of a value.
    ghost written: { Self → PlainData };

    // By which messages a value is not written.
    ghost unwritten: { Self → List ℕ → Type 0 } = { λ _ _. ⊥ };

    /// The shape of the type: a schema, and its number there. Refused by `TooManyShapes` where the table would have
    /// more than 4,096 shapes, and by `Memory`.
    fn schema(alloc: Global) -> Result<(Schema, ShapeId), SchemaFault>
        ensures ok { IfOk result (IsStart start) }
        ensures refused { IfErr result (IsTooLarge (length start.0)) };

    /// The value as data, which borrows its texts from the value. Refused where memory runs out, or by a message, as
    /// `Error::custom` makes one.
    fn to_data<'a>(&'a self, alloc: Global) -> Result<Data<'a>, Error>
        ensures ok { IfOk result (λ made. data_of made ≡ written self.now) }
        ensures kept { OnOk result (kept self.now) }
        ensures refused { IfErr result (IsWriteRefusal (unwritten self.now)) };

    /// Writes the value as a node behind the events that are there, as its data is written by the shape with this
    /// number. Where nothing else is said, the data is made first. Refused where memory runs out, by a message, or for
    /// bytes or a tag upon a tag in the data; then part of the node may be there.
    fn write_node<W: EventSink>(
        &self,
        out: &mut NodeWriter<W>,
        schema: &Schema,
        id: ShapeId,
    ) -> Result<(), Error>
        ensures put { OnOk result
            (IsPut emit_node_events (written_node schema.now id.0 (written self.now)) out.old out.new) }
        ensures kept { OnOk result (kept self.now) }

        // The texts of its data are UTF-8, the characters are characters, and the values are values.
        ensures held { OnOk result (IsHeld (written self.now)) }
        ensures refused { IfErr result
            (IsFaultOf (written_node schema.now id.0 (written self.now)) (unwritten self.now)) }
    {
        let content = self.to_data(out.alloc())?;
        data_is_held(&content);
        out.typed(None, schema, id, &content)?;
        Ok(())
    }

    // The shape is in the table, which names no shape outside.
    ghost closed: { IsClosed start };

    // The data is of the shape.
    ghost of_shape: { (x : Self) → kept x → HasShape start.0 start.1 (written x) };
}

/// A type whose values are equal again once they were written as data, and built of data that is equal to it.
pub trait RoundTrip<'de>: Deserialize<'de> + Serialize + PartialEq {
    // Both have the same shape.
    ghost one_schema: { Self.Deserialize.start ≡ Self.Serialize.start };

    // Of data that is equal to what a value is written as, only values equal to it are built.
    ghost returned: { (x y : Self) (d : PlainData) → Self.kept x → EqualData (Self.written x) d → Self.built d y
        → Self.eq x y ≡ true };

    // Such data is not refused by a message.
    ghost accepted: { (x : Self) (d : PlainData) (message : List ℕ) → EqualData (Self.written x) d
        → Self.refused d message → ⊥ };
}
