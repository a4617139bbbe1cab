//! Merge keys.

ghost use Rattle.std.specs.Prelude.{◌≡◌, ◌<◌, length, None, Some};
ghost use Rattle.yaml_value.specs.Index.{IsSound};
ghost use Rattle.yaml_value.specs.Merge.{Leaves, LeavesItem, LeavesPair, each_item, each_value};
ghost use Rattle.yaml_value.specs.Merge.{merge_nestings, merged, own_merged};
ghost use Rattle.yaml_value.specs.Merge.{then_left, with_element, with_elements, with_merged, with_missing};
ghost use Rattle.yaml_value.specs.Merge.{with_new};
ghost use Rattle.yaml_value.specs.View.{entry_pairs, plain, plain_entry, plain_items, plain_pairs};
ghost use Rattle.yaml_value.specs.View.{plain_sequence, plain_tagged};

use crate::mapping::{Entry, Mapping};
use crate::sequence::Sequence;
use crate::value::{TaggedValue, Value};
use yaml_base::{Cause, Error, Result};

// So many values one within the other are gone into.
const NESTINGS: usize = 1_000;

impl Value {
    /// Puts the pairs of what stands at each key `<<`, a mapping or a sequence of mappings, into the mapping around
    /// it, behind its own, and takes the key out. A key that is there already keeps its value, and of two mappings the
    /// first wins. It goes into all parts of the value, in order.
    ///
    /// What is merged may be no scalar, sequence in a sequence, or tagged value. At the first that is, it stops: what
    /// came before is merged, the key is out, and what comes behind is as it was. Where memory is wanting, the value is
    /// merged in part.
    pub fn apply_merge(&mut self) -> Result<()>
        ensures { Leaves result (plain self.new) (merged merge_nestings (plain self.old)) }
    {
        merge_value(self, NESTINGS)
    }
}

// Adds a pair, unless its key is there.
fn add_pair(mapping: &mut Mapping, key: Value, value: Value) -> Result<()>
    ensures { let old = plain_pairs mapping.old in
        Leaves result (plain_pairs mapping.new) (with_new old (plain key) (plain value), None) }
{
    if mapping.has(&key) {
        return Ok(());
    }
    mapping.append(key, value)?;
    Ok(())
}

// The same of the pair of an entry.
fn add_entry(mapping: &mut Mapping, entry: Entry) -> Result<()>
    ensures { let old = plain_pairs mapping.old in let added = plain_entry entry in
        Leaves result (plain_pairs mapping.new) (with_new old added.0 added.1, None) }
{
    let (key, value) = entry.into_pair();
    add_pair(mapping, key, value)
}

// Adds pairs whose keys are not there yet.
fn add_missing(mapping: &mut Mapping, more: Vec<Entry>) -> Result<()>
    ensures { let left = with_missing (plain_pairs mapping.old) (entry_pairs more.items) in
        Leaves result (plain_pairs mapping.new) (left, None) }
{
    for entry in more {
        add_entry(mapping, entry)?;
    }
    Ok(())
}

// The same of an element of what is to be merged.
fn add_element(mapping: &mut Mapping, element: Value) -> Result<()>
    ensures { let left = with_element (plain_pairs mapping.old) (plain element) in
        Leaves result (plain_pairs mapping.new) left }
{
    match element {
        Value::Mapping(more) => add_missing(mapping, more.entries),
        Value::Sequence(_) => Err(Error::new(Cause::SequenceInMergeElement)),
        Value::Tagged(_) => Err(Error::new(Cause::TaggedInMerge)),
        _ => Err(Error::new(Cause::ScalarInMergeElement)),
    }
}

// The same of each element.
fn add_elements(mapping: &mut Mapping, elements: Vec<Value>) -> Result<()>
    ensures { let left = with_elements (plain_pairs mapping.old) (plain_items elements.items) in
        Leaves result (plain_pairs mapping.new) left }
{
    for element in elements {
        add_element(mapping, element)?;
    }
    Ok(())
}

// The same of what stands at a merge key.
fn add_merged(mapping: &mut Mapping, merged: Value) -> Result<()>
    ensures { let left = with_merged (plain_pairs mapping.old) (Some (plain merged)) in
        Leaves result (plain_pairs mapping.new) left }
{
    match merged {
        Value::Mapping(more) => add_missing(mapping, more.entries),
        Value::Sequence(sequence) => add_elements(mapping, sequence.items),
        Value::Tagged(_) => Err(Error::new(Cause::TaggedInMerge)),
        _ => Err(Error::new(Cause::ScalarInMerge)),
    }
}

// Takes the merge key out of a mapping, and adds what stood there.
fn merge_own(mapping: &mut Mapping) -> Result<()>
    ensures { let left = own_merged (plain_pairs mapping.old) in
        Leaves result (plain_pairs mapping.new) left }
{
    match mapping.remove("<<") {
        Some(merged) => add_merged(mapping, merged),
        None => Ok(()),
    }
}

#[cycle(merge)]
fn merge_value(value: &mut Value, nestings: usize) -> Result<()>
    ensures { let left = merged nestings (plain value.old) in
        Leaves result (plain value.new) left }
{
    if nestings == 0 {
        return Err(Error::new(Cause::RepetitionLimitExceeded));
    }
    let left = nestings - 1;
    match value.take() {
        Value::Mapping(mut mapping) => {
            let done = merge_mapping(&mut mapping, left);
            *value = Value::Mapping(mapping);
            done
        }
        Value::Sequence(mut sequence) => {
            let done = merge_sequence(&mut sequence, left);
            *value = Value::Sequence(sequence);
            done
        }
        Value::Tagged(mut tagged) => {
            let done = merge_tagged(&mut *tagged, left);
            *value = Value::Tagged(tagged);
            done
        }
        whole => {
            *value = whole;
            Ok(())
        }
    }
}

// The same of what a tag is around.
#[cycle(merge)]
fn merge_tagged(tagged: &mut TaggedValue, nestings: usize) -> Result<()>
    ensures tag { (plain_tagged tagged.new).0 ≡ (plain_tagged tagged.old).0 }
    ensures value { let left = merged nestings (plain_tagged tagged.old).1 in
        Leaves result (plain_tagged tagged.new).1 left }
{
    merge_value(&mut tagged.value, nestings)
}

// The same of the values in a sequence.
#[cycle(merge)]
fn merge_sequence(sequence: &mut Sequence, nestings: usize) -> Result<()>
    ensures { let left = each_item (merged nestings) (plain_sequence sequence.old) in
        Leaves result (plain_sequence sequence.new) left }
{
    merge_items(&mut sequence.items, nestings)
}

#[cycle(merge)]
fn merge_items(items: &mut Vec<Value>, nestings: usize) -> Result<()>
    ensures { let left = each_item (merged nestings) (plain_items items.old.items) in
        Leaves result (plain_items items.new.items) left }
{
    let count = items.len();
    for i in 0..count {
        merge_item(items, i, nestings)?;
    }
    Ok(())
}

// The same of the item in a place.
#[cycle(merge)]
fn merge_item(items: &mut Vec<Value>, i: usize, nestings: usize) -> Result<()>
    requires { i < length items.old.items }
    ensures count { length items.new.items ≡ length items.old.items }
    ensures value { LeavesItem i (merged nestings) result (plain_items items.old.items)
        (plain_items items.new.items) }
{
    merge_value(&mut items[i], nestings)
}

#[cycle(merge)]
fn merge_mapping(mapping: &mut Mapping, nestings: usize) -> Result<()>
    ensures { let old = plain_pairs mapping.old in
        let left = then_left (own_merged old) (each_value (merged nestings)) in
        Leaves result (plain_pairs mapping.new) left }
{
    merge_own(mapping)?;
    merge_values(mapping, nestings)
}

// The same of the values of its pairs.
#[cycle(merge)]
fn merge_values(mapping: &mut Mapping, nestings: usize) -> Result<()>
    ensures { let left = each_value (merged nestings) (plain_pairs mapping.old) in
        Leaves result (plain_pairs mapping.new) left }
{
    merge_entries(&mut mapping.entries, nestings)
}

#[cycle(merge)]
fn merge_entries(entries: &mut Vec<Entry>, nestings: usize) -> Result<()>
    ensures left { let left = each_value (merged nestings) (entry_pairs entries.old.items) in
        Leaves result (entry_pairs entries.new.items) left }
    ensures sound { IsSound entries.old.items → IsSound entries.new.items }
{
    let count = entries.len();
    for i in 0..count {
        merge_pair(entries, i, nestings)?;
    }
    Ok(())
}

// The same of the pair in a place.
#[cycle(merge)]
fn merge_pair(entries: &mut Vec<Entry>, i: usize, nestings: usize) -> Result<()>
    requires { i < length entries.old.items }
    ensures count { length entries.new.items ≡ length entries.old.items }
    ensures value { LeavesPair i (merged nestings) result (entry_pairs entries.old.items)
        (entry_pairs entries.new.items) }
    ensures sound { IsSound entries.old.items → IsSound entries.new.items }
{
    merge_entry(&mut entries[i], nestings)
}

#[cycle(merge)]
fn merge_entry(entry: &mut Entry, nestings: usize) -> Result<()>
    ensures key { (plain_entry entry.new).0 ≡ (plain_entry entry.old).0 }
    ensures value { let left = merged nestings (plain_entry entry.old).1 in
        Leaves result (plain_entry entry.new).1 left }
    ensures last { entry.new.last ≡ entry.old.last }
    ensures earlier { entry.new.earlier ≡ entry.old.earlier }
{
    merge_value(&mut entry.value, nestings)
}
