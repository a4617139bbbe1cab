//! Sequences of a type.

ghost use Rattle.std.specs.Prelude.{◌≡◌, ◌<◌, ◌+◌, ◌∷◌, map, length, IsTrue, All, IfOk, IfErr, IfSome, OnOk, Some};
ghost use Rattle.yaml_shape.specs.DataView.{items_of, items_view};
ghost use Rattle.yaml_shape.specs.HasShape.{all_have};
ghost use Rattle.yaml_shape.specs.Held.{AreHeld};
ghost use Rattle.yaml_base.specs.EmitTree.{emit_nodes_events};
ghost use Rattle.yaml_write.specs.Written.{written_elements};
ghost use Rattle.yaml_base.specs.PlainDocEvent.{sequence_ends};
ghost use Rattle.yaml_tape.specs.OnDocs.{docs_from};
ghost use Rattle.yaml_types.specs.NodeMeans.{ItemsMean};
ghost use Rattle.yaml_types.specs.NodeWrites.{IsPut, IsFaultOf};
ghost use Rattle.yaml_types.specs.BuiltParts.{BuiltItems};
ghost use Rattle.yaml_types.specs.BuildRefusal.{IsBuildRefusal};
ghost use Rattle.yaml_types.specs.RefusalParts.{RefusedItems};
ghost use Rattle.yaml_types.specs.Tables.{IsShapeIn};
ghost use Rattle.yaml_types.specs.WriteRefusal.{IsWriteRefusal, SomeUnwritten};

use crate::fault::BuildFault;
use crate::tape::{begins_sequence, ends_sequence};
use crate::traits::{Deserialize, RoundTrip, Serialize};
use std::alloc::Global;
use yaml_base::Error;
use yaml_emit::EventSink;
use yaml_shape::{Data, Schema, SchemaFault, ShapeId, seq_of};
use yaml_tape::Tape;
use yaml_write::{NodeWriter, element_shape};

// The values of the items, in order.
pub(super) fn build_items<'de, T: Deserialize<'de> + Drop>(
    alloc: Global,
    items: Vec<Data<'de>>,
) -> Result<Vec<T>, BuildFault>
    requires { IsTrue (all_have T.start.0 T.start.1 (items_view items.items)) }
    ensures ok { IfOk result (λ values. BuiltItems T.built (items_view items.entry.items) values.items) }
    ensures refused { IfErr result (IsBuildRefusal (RefusedItems T.built T.refused (items_view items.entry.items))) }
{
    let mut values = Vec::with_capacity(alloc, items.len())?;
    for item in items {
        values.push(T::build(alloc, item)?)?;
    }
    Ok(values)
}

// The values of the items from a place of a tape on, up to the end of their sequence.
#[tactic(auto, using(crate::proofs::NodeReads::items_start, crate::proofs::NodeReads::items_next, crate::proofs::NodeReads::items_all))]
pub(super) fn read_items<'de, T: Deserialize<'de> + Drop>(
    alloc: Global,
    tape: &Tape<'de>,
    place: &mut usize,
    depth: usize,
) -> Option<Vec<T>>
    ensures items { IfSome result (λ xs.
        ItemsMean (IsShapeIn T.start) T.built tape.now place.old place.new depth xs.items) }
    ensures ended { IfSome result (λ _.
        docs_from tape.now place.new ≡ Some sequence_ends ∷ docs_from tape.now (place.new + 1)) }
    ensures there { IfSome result (λ _. place.new < length tape.now.entries.items) }
{
    let mut items = Vec::new(alloc);
    'items: for _ in 0..tape.entries.len() {
        if ends_sequence(tape, *place) {
            return Some(items);
        }
        let item = T::read_node(alloc, tape, place, depth)?;
        items.push(item).ok()?;
    }
    None
}

// The data of the values, in order, which borrows its texts from them. Refused where memory runs out, or by a message
// of a value.
pub(super) fn write_items<'a, T: Serialize>(
    alloc: Global,
    values: &'a [T],
) -> Result<Vec<Data<'a>>, Error>
    ensures ok { IfOk result (λ items. items_view items.items ≡ items_of (map T.written values.now)) }
    ensures kept { OnOk result (All T.kept values.now) }
    ensures refused { IfErr result (IsWriteRefusal (SomeUnwritten T.unwritten values.now)) }
{
    let mut items = Vec::with_capacity(alloc, values.len())?;
    for value in values {
        items.push(value.to_data(alloc)?)?;
    }
    Ok(items)
}

// The values as nodes behind the events that are there, in order, each by the shape with this number.
fn put_elements<T: Serialize, W: EventSink>(
    values: &[T],
    out: &mut NodeWriter<W>,
    schema: &Schema,
    id: ShapeId,
) -> Result<(), Error>
    ensures put { OnOk result (IsPut emit_nodes_events
        (written_elements schema.now id.0 (items_of (map T.written values.now))) out.old out.new) }
    ensures kept { OnOk result (All T.kept values.now) }
    ensures held { OnOk result (AreHeld (items_of (map T.written values.now))) }
    ensures refused { IfErr result (IsFaultOf
        (written_elements schema.now id.0 (items_of (map T.written values.now)))
        (SomeUnwritten T.unwritten values.now)) }
{
    for value in values {
        value.write_node(out, schema, id)?;
    }
    Ok(())
}

impl<'de, T: Deserialize<'de> + Drop> Deserialize<'de> for Vec<T> {
    ghost use Rattle.yaml_types.specs.Start.{seq_start};
    ghost use Rattle.yaml_types.specs.BuiltParts.{BuiltSeq};
    ghost use Rattle.yaml_types.specs.RefusalParts.{RefusedSeq};
    ghost use Rattle.yaml_types.specs.StartLaws.{closed_seq};

    ghost start = { seq_start T.start };

    ghost built = { λ d xs. BuiltSeq T.built d xs.items };

    ghost refused = { RefusedSeq T.built T.refused };

    ghost closed = { closed_seq T.start T.closed };

    fn schema(alloc: Global) -> Result<(Schema, ShapeId), SchemaFault> {
        let (schema, element) = T::schema(alloc)?;
        seq_of(alloc, schema, element)
    }

    fn build(alloc: Global, found: Data<'de>) -> Result<Vec<T>, BuildFault> {
        match found {
            Data::Seq(items) => build_items(alloc, items),
            _ => unreachable!(),
        }
    }

    fn read_node(
        alloc: Global,
        tape: &Tape<'de>,
        place: &mut usize,
        depth: usize,
    ) -> Option<Vec<T>> {
        if depth == 0 || !begins_sequence(tape, *place) {
            return None;
        }
        *place += 1;
        let items = read_items(alloc, tape, place, depth - 1)?;
        *place += 1;
        Some(items)
    }
}

impl<T: Serialize> Serialize for Vec<T> {
    ghost use Rattle.std.specs.Prelude.{All};
    ghost use Rattle.yaml_types.specs.Start.{seq_start};
    ghost use Rattle.yaml_types.specs.WrittenParts.{seq_written};
    ghost use Rattle.yaml_types.specs.StartLaws.{closed_seq};
    ghost use Rattle.yaml_types.specs.WrittenLaws.{seq_of_shape};
    ghost use Rattle.yaml_types.specs.WriteRefusal.{SomeUnwritten};

    ghost start = { seq_start T.start };

    ghost kept = { λ xs. All T.kept xs.items };

    ghost written = { λ xs. seq_written T.written xs.items };

    ghost unwritten = { λ xs. SomeUnwritten T.unwritten xs.items };

    ghost closed = { closed_seq T.start T.closed };

    ghost of_shape = { λ xs. seq_of_shape T.start T.kept T.written T.closed T.of_shape xs.items };

    fn schema(alloc: Global) -> Result<(Schema, ShapeId), SchemaFault> {
        let (schema, element) = T::schema(alloc)?;
        seq_of(alloc, schema, element)
    }

    fn to_data<'a>(&'a self, alloc: Global) -> Result<Data<'a>, Error> {
        match write_items(alloc, self) {
            Ok(items) => Ok(Data::Seq(items)),
            Err(fault) => Err(fault),
        }
    }

    fn write_node<W: EventSink>(
        &self,
        out: &mut NodeWriter<W>,
        schema: &Schema,
        id: ShapeId,
    ) -> Result<(), Error> {
        let element = element_shape(schema.shape(id));
        out.start_sequence(None, self.len())?;
        put_elements(self, out, schema, element)?;
        out.end_sequence()?;
        Ok(())
    }
}

impl<'de, T: RoundTrip<'de> + Drop> RoundTrip<'de> for Vec<T> {
    ghost use Rattle.std.proofs.Common.{ap};
    ghost use Rattle.yaml_types.specs.Start.{seq_start};
    ghost use Rattle.yaml_types.specs.ReturnLaws.{seq_returned, seq_accepted};

    ghost one_schema = { ap seq_start T.one_schema };

    ghost returned = { λ xs ys. seq_returned T.kept T.written T.built T.eq T.returned xs.items ys.items };

    ghost accepted = { λ xs. seq_accepted T.written T.refused T.built T.accepted xs.items };
}
