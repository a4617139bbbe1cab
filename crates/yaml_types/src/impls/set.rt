//! Sets in the order of their elements.

ghost use Rattle.std.specs.Prelude.{◌≡◌, [], ◌∷◌, map, All, IsTrue, IfOk, IfErr, OnOk};
ghost use Rattle.std.specs.BTreeSet.{insert_key};
ghost use Rattle.yaml_base.specs.EmitTree.{emit_nodes_events};
ghost use Rattle.yaml_shape.specs.DataView.{items_of, items_view};
ghost use Rattle.yaml_shape.specs.HasShape.{all_have};
ghost use Rattle.yaml_shape.specs.Held.{AreHeld};
ghost use Rattle.yaml_write.specs.Written.{written_elements};
ghost use Rattle.yaml_types.specs.NodeWrites.{IsPut, IsFaultOf};
ghost use Rattle.yaml_types.specs.WriteRefusal.{SomeUnwritten};
ghost use Rattle.yaml_types.specs.Start.{seq_start};
ghost use Rattle.yaml_types.specs.StartLaws.{closed_seq};
ghost use Rattle.yaml_types.specs.Sets.{BuiltMembers, BuiltSet, SetKeeps, inserted_all};
ghost use Rattle.yaml_types.specs.BuildRefusal.{IsBuildRefusal};
ghost use Rattle.yaml_types.specs.RefusalParts.{RefusedItems, RefusedSeq};

use crate::fault::BuildFault;
use crate::impls::list::read_items;
use crate::tape::begins_sequence;
use crate::traits::{Deserialize, RoundTrip, Serialize};
use std::alloc::{AllocError, Global};
use std::cmp::Ordering;
use std::collections::BTreeSet;
use yaml_base::Error;
use yaml_emit::EventSink;
use yaml_shape::{Data, Schema, SchemaFault, ShapeId, seq_of};
use yaml_tape::Tape;
use yaml_write::{NodeWriter, element_shape};

// The set of the items, put in one after another.
fn build_in_turn<'de, T: Deserialize<'de> + Ord + Drop>(
    alloc: Global,
    items: Vec<Data<'de>>,
) -> Result<BTreeSet<T>, BuildFault>
    requires { IsTrue (all_have T.start.0 T.start.1 (items_view items.items)) }
    ensures ok { IfOk result (λ set. BuiltMembers T.cmp T.built (items_view items.entry.items) set.keys) }
    ensures refused { IfErr result (IsBuildRefusal (RefusedItems T.built T.refused (items_view items.entry.items))) }
{
    let mut set = BTreeSet::new(alloc);
    for item in items {
        let _ = set.insert(T::build(alloc, item)?)?;
    }
    Ok(set)
}

// Whether the element is below all that are there.
fn comes_first<T: Ord>(member: &T, set: &BTreeSet<T>) -> bool
    ensures { IsTrue result → insert_key T.cmp set.now.keys member.now ≡ member.now ∷ set.now.keys }
{
    match set.first() {
        Some(first) => match member.cmp(first) {
            Ordering::Less => true,
            _ => false,
        },
        None => true,
    }
}

// Puts in the elements of another set, one after another.
fn insert_all<T: Ord + Drop>(set: &mut BTreeSet<T>, others: BTreeSet<T>) -> Result<(), AllocError>
    ensures { OnOk result (set.new.keys ≡ inserted_all T.cmp set.old.keys others.keys) }
{
    for member in others {
        let _ = set.insert(member)?;
    }
    Ok(())
}

// The set of the items, as if they were put in one after another. The last is put in first as long as elements fall so:
// one below all others is compared with one of each node on its way down, and one above all others with each.
fn build_members<'de, T: Deserialize<'de> + Ord + Drop>(
    alloc: Global,
    items: Vec<Data<'de>>,
) -> Result<BTreeSet<T>, BuildFault>
    requires { IsTrue (all_have T.start.0 T.start.1 (items_view items.items)) }
    ensures ok { IfOk result (λ set. BuiltMembers T.cmp T.built (items_view items.entry.items) set.keys) }
    ensures refused { IfErr result (IsBuildRefusal (RefusedItems T.built T.refused (items_view items.entry.items))) }
{
    let mut front = items;
    let mut behind = BTreeSet::new(alloc);
    while let Some(item) = front.pop() {
        let member = match T::build(alloc, item) {
            Ok(member) => member,
            Err(fault) => {
                // a fault of an item in front goes before this one
                let _: BTreeSet<T> = build_in_turn(alloc, front)?;
                return Err(fault);
            }
        };
        if !comes_first(&member, &behind) {
            let mut set = build_in_turn(alloc, front)?;
            let _ = set.insert(member)?;
            insert_all(&mut set, behind)?;
            return Ok(set);
        }
        let _ = behind.insert(member)?;
    }
    Ok(behind)
}

// The set of the members, put in one after another.
fn set_in_turn<T: Ord + Drop>(alloc: Global, members: Vec<T>) -> Result<BTreeSet<T>, AllocError>
    ensures { IfOk result (λ set. set.keys ≡ inserted_all T.cmp [] members.items) }
{
    let mut set = BTreeSet::new(alloc);
    for member in members {
        let _ = set.insert(member)?;
    }
    Ok(set)
}

// The set of the members, as if they were put in one after another: from the last on, as long as they fall.
fn set_of_members<T: Ord + Drop>(alloc: Global, members: Vec<T>) -> Result<BTreeSet<T>, AllocError>
    ensures { IfOk result (λ set. set.keys ≡ inserted_all T.cmp [] members.items) }
{
    let mut front = members;
    let mut later = BTreeSet::new(alloc);
    while let Some(member) = front.pop() {
        if !comes_first(&member, &later) {
            let mut set = set_in_turn(alloc, front)?;
            let _ = set.insert(member)?;
            insert_all(&mut set, later)?;
            return Ok(set);
        }
        let _ = later.insert(member)?;
    }
    Ok(later)
}

// The members as nodes behind the events that are there, in order, each by the shape with this number.
fn put_members<T: Serialize + Ord, W: EventSink>(
    members: &BTreeSet<T>,
    out: &mut NodeWriter<W>,
    schema: &Schema,
    id: ShapeId,
) -> Result<(), Error>
    ensures put { OnOk result (IsPut emit_nodes_events
        (written_elements schema.now id.0 (items_of (map T.written members.now.keys))) out.old out.new) }
    ensures kept { OnOk result (All T.kept members.now.keys) }
    ensures held { OnOk result (AreHeld (items_of (map T.written members.now.keys))) }
    ensures refused { IfErr result (IsFaultOf
        (written_elements schema.now id.0 (items_of (map T.written members.now.keys)))
        (SomeUnwritten T.unwritten members.now.keys)) }
{
    for member in members.iter() {
        member.write_node(out, schema, id)?;
    }
    Ok(())
}

/// A sequence. Of equal elements the first stays.
impl<'de, T: Deserialize<'de> + Ord + Drop> Deserialize<'de> for BTreeSet<T> {
    ghost start = { seq_start T.start };

    ghost built = { λ d s. BuiltSet T.cmp T.built d s.keys };

    ghost refused = { RefusedSeq T.built T.refused };

    ghost closed = { closed_seq T.start T.closed };

    fn schema(alloc: Global) -> Result<(Schema, ShapeId), SchemaFault> {
        let (schema, element) = T::schema(alloc)?;
        seq_of(alloc, schema, element)
    }

    fn build(alloc: Global, found: Data<'de>) -> Result<BTreeSet<T>, BuildFault> {
        match found {
            Data::Seq(items) => build_members(alloc, items),
            _ => unreachable!(),
        }
    }

    fn read_node(
        alloc: Global,
        tape: &Tape<'de>,
        place: &mut usize,
        depth: usize,
    ) -> Option<BTreeSet<T>> {
        if depth == 0 || !begins_sequence(tape, *place) {
            return None;
        }
        *place += 1;
        let members = read_items(alloc, tape, place, depth - 1)?;
        *place += 1;
        match set_of_members(alloc, members) {
            Ok(set) => Some(set),
            Err(_) => None,
        }
    }
}

/// A sequence of the elements in their order.
impl<T: Serialize + Ord> Serialize for BTreeSet<T> {
    ghost use Rattle.yaml_types.specs.WrittenParts.{seq_written};
    ghost use Rattle.yaml_types.specs.WrittenLaws.{seq_of_shape};
    ghost use Rattle.yaml_types.specs.WriteRefusal.{SomeUnwritten};

    ghost start = { seq_start T.start };

    ghost kept = { SetKeeps T.cmp T.kept };

    ghost written = { λ s. seq_written T.written s.keys };

    ghost unwritten = { λ s. SomeUnwritten T.unwritten s.keys };

    ghost closed = { closed_seq T.start T.closed };

    ghost of_shape = { λ s k. seq_of_shape T.start T.kept T.written T.closed T.of_shape s.keys k.0 };

    fn schema(alloc: Global) -> Result<(Schema, ShapeId), SchemaFault> {
        let (schema, element) = T::schema(alloc)?;
        seq_of(alloc, schema, element)
    }

    fn to_data<'a>(&'a self, alloc: Global) -> Result<Data<'a>, Error> {
        let mut items = Vec::with_capacity(alloc, self.len())?;
        for member in self.iter() {
            items.push(member.to_data(alloc)?)?;
        }
        Ok(Data::Seq(items))
    }

    fn write_node<W: EventSink>(
        &self,
        out: &mut NodeWriter<W>,
        schema: &Schema,
        id: ShapeId,
    ) -> Result<(), Error> {
        let element = element_shape(schema.shape(id));
        out.start_sequence(None, self.len())?;
        put_members(self, out, schema, element)?;
        out.end_sequence()?;
        Ok(())
    }
}

impl<'de, T: RoundTrip<'de> + Ord + Drop> RoundTrip<'de> for BTreeSet<T> {
    ghost use Rattle.std.proofs.Common.{ap};
    ghost use Rattle.yaml_types.specs.ReturnLaws.{seq_accepted};
    ghost use Rattle.yaml_types.specs.SetLaws.{set_returned};

    ghost one_schema = { ap seq_start T.one_schema };

    ghost returned = { set_returned T.cmp T.total T.eq T.matches_eq T.kept T.written T.built T.returned };

    ghost accepted = { λ s. seq_accepted T.written T.refused T.built T.accepted s.keys };
}
