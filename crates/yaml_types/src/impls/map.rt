//! Maps in the order of their keys.

ghost use Rattle.std.specs.Prelude.{◌≡◌, ◌<◌, ◌+◌, [], ◌∷◌, length, IsTrue, IfOk, IfErr, IfSome, OnOk, Some};
ghost use Rattle.std.specs.BTreeMap.{insert_entry};
ghost use Rattle.yaml_base.specs.EmitTree.{emit_pairs_events};
ghost use Rattle.yaml_shape.specs.DataView.{entry_of, entries_view};
ghost use Rattle.yaml_shape.specs.HasShape.{HasShape};
ghost use Rattle.yaml_shape.specs.Held.{IsHeld, EntriesAreHeld};
ghost use Rattle.yaml_write.specs.Outcomes.{joined};
ghost use Rattle.yaml_write.specs.Written.{written_entries};
ghost use Rattle.yaml_write.specs.WrittenEvents.{pair_events};
ghost use Rattle.yaml_write.specs.WrittenValue.{pair_node};
ghost use Rattle.yaml_base.specs.PlainDocEvent.{mapping_ends};
ghost use Rattle.yaml_tape.specs.OnDocs.{docs_from};
ghost use Rattle.yaml_types.specs.NodeMeans.{PairsMean};
ghost use Rattle.yaml_types.specs.Tables.{IsShapeIn};
ghost use Rattle.yaml_types.specs.NodeWrites.{written_node, IsPut, IsFaultOf};
ghost use Rattle.yaml_types.specs.WriteRefusal.{PairUnwritten, SomeUnwritten};
ghost use Rattle.yaml_types.specs.WrittenParts.{pairs_written, PairsKeep};
ghost use Rattle.yaml_types.specs.BuiltParts.{BuiltBoth, BuiltEntries};
ghost use Rattle.yaml_types.specs.Inserted.{inserted_pairs};
ghost use Rattle.yaml_types.specs.PartShapes.{entries_match};
ghost use Rattle.yaml_types.specs.BuildRefusal.{IsBuildRefusal};
ghost use Rattle.yaml_types.specs.RefusalParts.{RefusedBoth, RefusedEntries};

use crate::fault::BuildFault;
use crate::tape::{begins_mapping, ends_mapping};
use crate::traits::{Deserialize, RoundTrip, Serialize};
use std::alloc::{AllocError, Global};
use std::cmp::Ordering;
use std::collections::BTreeMap;
use yaml_base::Error;
use yaml_emit::EventSink;
use yaml_shape::{Data, Entry, Schema, SchemaFault, ShapeId, map_of};
use yaml_tape::Tape;
use yaml_write::{NodeWriter, key_shape, value_shape};

// The key and the value of an entry.
fn build_both<'de, K: Deserialize<'de> + Drop, V: Deserialize<'de>>(
    alloc: Global,
    pair: Entry<'de>,
) -> Result<(K, V), BuildFault>
    requires key { HasShape K.start.0 K.start.1 (entry_of pair).0 }
    requires value { HasShape V.start.0 V.start.1 (entry_of pair).1 }
    ensures ok { IfOk result (BuiltBoth K.built V.built (entry_of pair.entry)) }
    ensures refused { IfErr result (IsBuildRefusal (RefusedBoth K.built K.refused V.refused (entry_of pair.entry))) }
{
    let Entry { key, value } = pair;
    let key = match K::build(alloc, key) {
        Ok(key) => key,
        Err(fault) => {
            drop(value);
            return Err(fault);
        }
    };
    Ok((key, V::build(alloc, value)?))
}

// The map of the entries, put in one after another.
fn build_in_turn<'de, K: Deserialize<'de> + Ord + Drop, V: Deserialize<'de> + Drop>(
    alloc: Global,
    entries: Vec<Entry<'de>>,
) -> Result<BTreeMap<K, V>, BuildFault>
    requires { IsTrue (entries_match K.start V.start (entries_view entries.items)) }
    ensures ok { IfOk result (λ map. BuiltEntries K.cmp K.built V.built (entries_view entries.entry.items) []
        map.entries) }
    ensures refused { IfErr result (IsBuildRefusal (RefusedEntries K.built V.built K.refused V.refused
        (entries_view entries.entry.items))) }
{
    let mut map = BTreeMap::new(alloc);
    for pair in entries {
        let (key, value) = build_both(alloc, pair)?;
        let _ = map.insert(key, value)?;
    }
    Ok(map)
}

// Whether the key is below all that are there.
fn comes_first<K: Ord, V>(key: &K, map: &BTreeMap<K, V>) -> bool
    ensures { IsTrue result → (value : V)
        → insert_entry K.cmp map.now.entries key.now value ≡ (key.now, value) ∷ map.now.entries }
{
    match map.first_key_value() {
        Some((first, _)) => match key.cmp(first) {
            Ordering::Less => true,
            _ => false,
        },
        None => true,
    }
}

// Puts in the pairs of another map, one after another.
fn insert_all<K: Ord + Drop, V: Drop>(
    map: &mut BTreeMap<K, V>,
    others: BTreeMap<K, V>,
) -> Result<(), AllocError>
    ensures { OnOk result (map.new.entries ≡ inserted_pairs K.cmp map.old.entries others.entries) }
{
    for (key, value) in others {
        let _ = map.insert(key, value)?;
    }
    Ok(())
}

// The map of the entries, as if they were put in one after another. The last is put in first as long as keys fall so. A
// key below all others is compared with one key of each node on its way down, and a key above all others with each.
fn build_entries<'de, K: Deserialize<'de> + Ord + Drop, V: Deserialize<'de> + Drop>(
    alloc: Global,
    entries: Vec<Entry<'de>>,
) -> Result<BTreeMap<K, V>, BuildFault>
    requires { IsTrue (entries_match K.start V.start (entries_view entries.items)) }
    ensures ok { IfOk result (λ map. BuiltEntries K.cmp K.built V.built (entries_view entries.entry.items) []
        map.entries) }
    ensures refused { IfErr result (IsBuildRefusal (RefusedEntries K.built V.built K.refused V.refused
        (entries_view entries.entry.items))) }
{
    let mut front = entries;
    let mut behind = BTreeMap::new(alloc);
    while let Some(pair) = front.pop() {
        let (key, value) = match build_both(alloc, pair) {
            Ok(built) => built,
            Err(fault) => {
                // a fault of an entry in front goes before this one
                let _: BTreeMap<K, V> = build_in_turn(alloc, front)?;
                return Err(fault);
            }
        };
        if !comes_first(&key, &behind) {
            let mut map = build_in_turn(alloc, front)?;
            let _ = map.insert(key, value)?;
            insert_all(&mut map, behind)?;
            return Ok(map);
        }
        let _ = behind.insert(key, value)?;
    }
    Ok(behind)
}

// The keys and values from a place of a tape on, up to the end of their mapping.
#[tactic(auto, using(crate::proofs::NodeReads::pairs_start, crate::proofs::NodeReads::pairs_next, crate::proofs::NodeReads::pairs_all))]
fn read_pairs<'de, K: Deserialize<'de> + Drop, V: Deserialize<'de> + Drop>(
    alloc: Global,
    tape: &Tape<'de>,
    place: &mut usize,
    depth: usize,
) -> Option<Vec<(K, V)>>
    ensures pairs { IfSome result (λ xs. PairsMean (IsShapeIn K.start) (IsShapeIn V.start) K.built V.built tape.now
        place.old place.new depth xs.items) }
    ensures ended { IfSome result (λ _.
        docs_from tape.now place.new ≡ Some mapping_ends ∷ docs_from tape.now (place.new + 1)) }
    ensures there { IfSome result (λ _. place.new < length tape.now.entries.items) }
{
    let mut pairs = Vec::new(alloc);
    'pairs: for _ in 0..tape.entries.len() {
        if ends_mapping(tape, *place) {
            return Some(pairs);
        }
        let key = K::read_node(alloc, tape, place, depth)?;
        let value = V::read_node(alloc, tape, place, depth)?;
        pairs.push((key, value)).ok()?;
    }
    None
}

// The map of the pairs, put in one after another.
fn map_in_turn<K: Ord + Drop, V: Drop>(
    alloc: Global,
    pairs: Vec<(K, V)>,
) -> Result<BTreeMap<K, V>, AllocError>
    ensures { IfOk result (λ map. map.entries ≡ inserted_pairs K.cmp [] pairs.items) }
{
    let mut map = BTreeMap::new(alloc);
    for (key, value) in pairs {
        let _ = map.insert(key, value)?;
    }
    Ok(map)
}

// The map of the pairs, as if they were put in one after another: from the last on, as long as keys fall.
fn map_of_pairs<K: Ord + Drop, V: Drop>(
    alloc: Global,
    pairs: Vec<(K, V)>,
) -> Result<BTreeMap<K, V>, AllocError>
    ensures { IfOk result (λ map. map.entries ≡ inserted_pairs K.cmp [] pairs.items) }
{
    let mut front = pairs;
    let mut later = BTreeMap::new(alloc);
    while let Some((key, value)) = front.pop() {
        if !comes_first(&key, &later) {
            let mut map = map_in_turn(alloc, front)?;
            let _ = map.insert(key, value)?;
            insert_all(&mut map, later)?;
            return Ok(map);
        }
        let _ = later.insert(key, value)?;
    }
    Ok(later)
}

// A key and its value as nodes behind the events that are there, each by the shape with its number.
fn put_pair<K: Serialize, V: Serialize, W: EventSink>(
    out: &mut NodeWriter<W>,
    schema: &Schema,
    ids: (ShapeId, ShapeId),
    key: &K,
    value: &V,
) -> Result<(), Error>
    ensures put { OnOk result (IsPut pair_events (joined pair_node (written_node schema.now ids.0.0 (K.written key.now))
        (written_node schema.now ids.1.0 (V.written value.now))) out.old out.new) }
    ensures kept { OnOk result (K.kept key.now × V.kept value.now) }
    ensures held { OnOk result (IsHeld (K.written key.now) × IsHeld (V.written value.now)) }
    ensures refused { IfErr result (IsFaultOf (joined pair_node (written_node schema.now ids.0.0 (K.written key.now))
        (written_node schema.now ids.1.0 (V.written value.now)))
        (PairUnwritten K.unwritten V.unwritten (key.now, value.now))) }
{
    key.write_node(out, schema, ids.0)?;
    value.write_node(out, schema, ids.1)
}

// The entries as pairs of nodes behind the events that are there, in the order of their keys.
fn put_entries<K: Serialize + Ord, V: Serialize, W: EventSink>(
    entries: &BTreeMap<K, V>,
    out: &mut NodeWriter<W>,
    schema: &Schema,
    ids: (ShapeId, ShapeId),
) -> Result<(), Error>
    ensures put { OnOk result (IsPut emit_pairs_events (written_entries schema.now ids.0.0 ids.1.0
        (pairs_written K.written V.written entries.now.entries)) out.old out.new) }
    ensures kept { OnOk result (PairsKeep K.kept V.kept entries.now.entries) }
    ensures held { OnOk result (EntriesAreHeld (pairs_written K.written V.written entries.now.entries)) }
    ensures refused { IfErr result (IsFaultOf (written_entries schema.now ids.0.0 ids.1.0
        (pairs_written K.written V.written entries.now.entries))
        (SomeUnwritten (PairUnwritten K.unwritten V.unwritten) entries.now.entries)) }
{
    for (key, value) in entries.iter() {
        put_pair(out, schema, ids, key, value)?;
    }
    Ok(())
}

/// A mapping. Of entries with equal keys the first key stays, and takes the last value.
impl<'de, K: Deserialize<'de> + Ord + Drop, V: Deserialize<'de> + Drop> Deserialize<'de>
    for BTreeMap<K, V> {
    ghost use Rattle.yaml_types.specs.Start.{map_start};
    ghost use Rattle.yaml_types.specs.BuiltParts.{BuiltMap};
    ghost use Rattle.yaml_types.specs.RefusalParts.{RefusedMap};
    ghost use Rattle.yaml_types.specs.StartLaws.{closed_map};

    ghost start = { map_start K.start V.start };

    ghost built = { λ d m. BuiltMap K.cmp K.built V.built d m.entries };

    ghost refused = { RefusedMap K.built V.built K.refused V.refused };

    ghost closed = { closed_map K.start V.start K.closed V.closed };

    fn schema(alloc: Global) -> Result<(Schema, ShapeId), SchemaFault> {
        let (keys, key) = K::schema(alloc)?;
        let (values, value) = V::schema(alloc)?;
        map_of(alloc, keys, key, values, value)
    }

    fn build(alloc: Global, found: Data<'de>) -> Result<BTreeMap<K, V>, BuildFault> {
        match found {
            Data::Map(entries) => build_entries(alloc, entries),
            _ => unreachable!(),
        }
    }

    fn read_node(
        alloc: Global,
        tape: &Tape<'de>,
        place: &mut usize,
        depth: usize,
    ) -> Option<BTreeMap<K, V>> {
        if depth == 0 || !begins_mapping(tape, *place) {
            return None;
        }
        *place += 1;
        let pairs = read_pairs(alloc, tape, place, depth - 1)?;
        *place += 1;
        match map_of_pairs(alloc, pairs) {
            Ok(map) => Some(map),
            Err(_) => None,
        }
    }
}

impl<K: Serialize + Ord, V: Serialize> Serialize for BTreeMap<K, V> {
    ghost use Rattle.yaml_types.specs.Start.{map_start};
    ghost use Rattle.yaml_types.specs.WrittenParts.{map_written, MapKeeps};
    ghost use Rattle.yaml_types.specs.StartLaws.{closed_map};
    ghost use Rattle.yaml_types.specs.WrittenLaws.{map_of_shape};
    ghost use Rattle.yaml_types.specs.WriteRefusal.{PairUnwritten, SomeUnwritten};

    ghost start = { map_start K.start V.start };

    ghost kept = { MapKeeps K.cmp K.kept V.kept };

    ghost written = { λ m. map_written K.written V.written m.entries };

    ghost unwritten = { λ m. SomeUnwritten (PairUnwritten K.unwritten V.unwritten) m.entries };

    ghost closed = { closed_map K.start V.start K.closed V.closed };

    ghost of_shape = { λ m kept. map_of_shape K.start V.start K.kept V.kept K.written V.written K.closed V.closed
        K.of_shape V.of_shape m.entries kept.0 };

    fn schema(alloc: Global) -> Result<(Schema, ShapeId), SchemaFault> {
        let (keys, key) = K::schema(alloc)?;
        let (values, value) = V::schema(alloc)?;
        map_of(alloc, keys, key, values, value)
    }

    fn to_data<'a>(&'a self, alloc: Global) -> Result<Data<'a>, Error> {
        let mut entries = Vec::with_capacity(alloc, self.len())?;
        for (key, value) in self.iter() {
            let key = key.to_data(alloc)?;
            let value = match value.to_data(alloc) {
                Ok(value) => value,
                Err(fault) => {
                    drop(key);
                    return Err(fault);
                }
            };
            entries.push(Entry { key, value })?;
        }
        Ok(Data::Map(entries))
    }

    fn write_node<W: EventSink>(
        &self,
        out: &mut NodeWriter<W>,
        schema: &Schema,
        id: ShapeId,
    ) -> Result<(), Error> {
        let shape = schema.shape(id);
        out.start_mapping(None, self.len())?;
        put_entries(self, out, schema, (key_shape(shape), value_shape(shape)))?;
        out.end_mapping()?;
        Ok(())
    }
}

impl<'de, K: RoundTrip<'de> + Ord + Drop, V: RoundTrip<'de> + Drop> RoundTrip<'de>
    for BTreeMap<K, V> {
    ghost use Rattle.yaml_types.specs.Start.{map_start};
    ghost use Rattle.yaml_types.specs.MapLaws.{map_returned, map_accepted};

    ghost one_schema = { λ t. map_start (K.one_schema t) (V.one_schema t) };

    ghost returned = { map_returned K.cmp K.total K.kept V.kept K.written V.written K.built V.built K.eq V.eq
        K.matches_eq K.returned V.returned };

    ghost accepted = { map_accepted K.written V.written K.built V.built K.refused V.refused K.accepted V.accepted };
}
