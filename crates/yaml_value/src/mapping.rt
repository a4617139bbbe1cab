//! Mappings of values to values.

ghost use Rattle.std.specs.Borrow.{Lends, sem};
ghost use Rattle.std.specs.Prelude.{◌≡◌, ◌<◌, ◌++◌, ◌∷◌, [], None, Some, length};
ghost use Rattle.std.specs.Prelude.{option_and_then, option_map};
ghost use Rattle.std.specs.Prelude.{IfOk, IfSome, OnErr, OnOk, slice_index_or};
ghost use Rattle.std.specs.List.{remove};
ghost use Rattle.yaml_value.specs.Entries.{with_value_in};
ghost use Rattle.yaml_value.specs.Find.{place_where, value_at, value_in_place};
ghost use Rattle.yaml_value.specs.Find.{with_pair, with_value, without_found, without_key, without_place};
ghost use Rattle.yaml_value.specs.Index.{IsSound};
ghost use Rattle.yaml_value.specs.PlainEqual.{plain_eq};
ghost use Rattle.yaml_value.specs.PlainValue.{pair_count, text, with_last};
ghost use Rattle.yaml_value.specs.View.{entry_pairs, plain, plain_entry};
ghost use Rattle.yaml_value.specs.contracts.mapping.Entry.{the_row};
ghost use Rattle.yaml_value.specs.contracts.value.Value.{the_row as value_row};

use crate::index::{index_all, index_last};
use crate::value::Value;
use crate::value::equal::{place_of, place_of_text};
use std::alloc::{AllocError, Global};
use std::marker::Model;
use std::{mem, slice, vec};

/// One pair of a mapping.
#[cycle(value)]
#[derive(Drop)]
pub struct Entry {
    pub(crate) key: Value,
    pub(crate) value: Value,
    // What it keeps for the mapping's index.
    pub(crate) last: usize,
    pub(crate) earlier: usize,
}

impl Entry {
    /// The key.
    pub fn key(&self) -> &Value
        ensures { plain result.now ≡ (plain_entry self.now).0 }
    {
        &self.key
    }

    /// The value at the key.
    pub fn value(&self) -> &Value
        ensures { plain result.now ≡ (plain_entry self.now).1 }
    {
        &self.value
    }

    /// The key and the value.
    pub fn into_pair(self) -> (Value, Value)
        ensures { (plain result.0, plain result.1) ≡ plain_entry self }
    {
        let Entry { key, value, .. } = self;
        (key, value)
    }
}

/// Pairs of a key and a value, in order, no two of whose keys are equal.
#[cycle(value)]
#[derive(Drop)]
pub struct Mapping {
    pub(crate) entries: Vec<Entry>,
}

impl Model for Mapping {
    ghost use Rattle.yaml_value.specs.Distinct.{DistinctPairs, distinct_pairs, distinct_pairs_code};
    ghost use Rattle.yaml_value.specs.Distinct.{plain_pairs, plain_pairs-distinct_pairs};
    ghost use Rattle.yaml_value.specs.Sizes.{pairs_size};

    ghost Value = { DistinctPairs };

    ghost coded = { distinct_pairs_code };

    ghost use Rattle.yaml_value.specs.Index.{IsSound};
    ghost use Rattle.yaml_value.specs.View.{entry_pairs, are_pairs_distinct-entry_pairs};

    ghost view = { λ m.
        let es = m.entries.items in
        distinct_pairs (entry_pairs es) (are_pairs_distinct-entry_pairs es) };

    ghost invariant = { λ m. IsSound m.entries.items };

    ghost size = { λ m. pairs_size (plain_pairs m) };

    ghost use Rattle.std.proofs.Common.{arith};
    ghost use Rattle.yaml_value.specs.Falls.{most-Entry_le};

    ghost size_decreases = { λ m h.
        let es = m.entries.items in
        rw (plain_pairs-distinct_pairs (entry_pairs es) (are_pairs_distinct-entry_pairs es) h.1)
        (omega (arith, most-Entry_le es)) };
}

fn discard(_value: Value) {}

// How many entries there are.
pub(crate) fn count(entries: &[Entry]) -> usize
    ensures pairs { result ≡ pair_count (entry_pairs entries.now) }
    ensures len { result ≡ length entries.now }
{
    entries.len()
}

// The value of the entry in a place.
fn value_in(entries: &[Entry], place: Option<usize>) -> Option<&Value>
    ensures { option_map (λ value. plain value.now) result
        ≡ option_and_then (λ i. value_in_place i (entry_pairs entries.now)) place }
{
    match place {
        Some(i) => {
            if i < entries.len() {
                Some(entries[i].value())
            } else {
                None
            }
        }
        None => None,
    }
}

// The value at the key that is this text.
fn value_of_text<'e>(entries: &'e [Entry], key: &str) -> Option<&'e Value>
    requires { IsSound entries.now }
    ensures { option_map (λ value. plain value.now) result ≡ value_at (text key.now) (entry_pairs entries.now) }
{
    value_in(entries, place_of_text(key, entries))
}

// The value at a key of any kind.
fn value_of_key<'e>(entries: &'e [Entry], key: &Value) -> Option<&'e Value>
    requires { IsSound entries.now }
    ensures { option_map (λ value. plain value.now) result ≡ value_at (plain key.now) (entry_pairs entries.now) }
{
    value_in(entries, place_of(key, entries))
}

// Takes the entry out of its place. The others stay in their order.
fn removed(entries: &mut Vec<Entry>, i: usize) -> Entry
    requires { i < length entries.old.items }
    ensures items { entries.new.items ≡ remove entries.old.items i }
    ensures value { result ≡ slice_index_or entries.old.items i result }
{
    entries.remove(i)
}

// The entry in a place, taken out of these. The index is made anew.
fn take_out(entries: &mut Vec<Entry>, i: usize) -> Entry
    requires { i < length entries.old.items }
    ensures after { entry_pairs entries.new.items ≡ without_place i (entry_pairs entries.old.items) }
    ensures answer { value_in_place i (entry_pairs entries.old.items) ≡ Some (plain_entry result).1 }
    ensures sound { IsSound entries.old.items → IsSound entries.new.items }
{
    let entry = removed(entries, i);
    index_all(entries);
    entry
}

// The same, where the place is one of theirs.
fn taken_from(entries: &mut Vec<Entry>, place: Option<usize>) -> Option<Entry>
    ensures after { entry_pairs entries.new.items ≡ without_found place (entry_pairs entries.old.items) }
    ensures answer { option_map (λ entry. (plain_entry entry).1) result
        ≡ option_and_then (λ i. value_in_place i (entry_pairs entries.old.items)) place }
    ensures sound { IsSound entries.old.items → IsSound entries.new.items }
{
    match place {
        Some(i) => {
            if i < entries.len() {
                Some(take_out(entries, i))
            } else {
                None
            }
        }
        None => None,
    }
}

// The value of the entry that was taken out.
fn value_taken(entry: Option<Entry>) -> Option<Value>
    ensures { option_map plain result ≡ option_map (λ taken. (plain_entry taken).1) entry }
{
    match entry {
        Some(entry) => Some(entry.into_pair().1),
        None => None,
    }
}

// The place of the key that is this text.
fn place_in(entries: &Vec<Entry>, key: &str) -> Option<usize>
    requires { IsSound entries.now.items }
    ensures place { result ≡ place_where (plain_eq (text key.now)) (entry_pairs entries.now.items) }
    ensures within { IfSome result (λ i. i < length entries.now.items) }
{
    place_of_text(key, entries.as_slice())
}

// The place of a key.
fn place_among(entries: &Vec<Entry>, key: &Value) -> Option<usize>
    requires { IsSound entries.now.items }
    ensures place { result ≡ place_where (plain_eq (plain key.now)) (entry_pairs entries.now.items) }
    ensures within { IfSome result (λ i. i < length entries.now.items) }
{
    place_of(key, entries.as_slice())
}

// The value of an entry, to be changed.
fn lend_value(entry: &mut Entry) -> &mut Value
    ensures* writes_back { sem 𝓛 (Lends the_row value_row entry.entry result (with_value_in entry.old)) }
    ensures value { plain result.now ≡ (plain_entry entry.old).1 }
{
    &mut entry.value
}

// Takes the entry out whose key is this text, and answers its value.
fn remove_text(entries: &mut Vec<Entry>, key: &str) -> Option<Value>
    requires { IsSound entries.old.items }
    ensures after { let old = entry_pairs entries.old.items in
        entry_pairs entries.new.items ≡ without_key (text key.now) old }
    ensures answer { option_map plain result ≡ value_at (text key.now) (entry_pairs entries.old.items) }
    ensures sound { IsSound entries.new.items }
{
    let place = place_in(entries, key);
    value_taken(taken_from(entries, place))
}

// The same of a key of any kind.
fn remove_key(entries: &mut Vec<Entry>, key: &Value) -> Option<Value>
    requires { IsSound entries.old.items }
    ensures after { let old = entry_pairs entries.old.items in
        entry_pairs entries.new.items ≡ without_key (plain key.now) old }
    ensures answer { option_map plain result ≡ value_at (plain key.now) (entry_pairs entries.old.items) }
    ensures sound { IsSound entries.new.items }
{
    let place = place_among(entries, key);
    value_taken(taken_from(entries, place))
}

// An entry that is in no chain.
fn new_entry(key: Value, value: Value) -> Entry
    ensures { plain_entry result ≡ (plain key, plain value) }
{
    Entry {
        key,
        value,
        last: 0,
        earlier: 0,
    }
}

// Adds an entry at the end, and leaves the index.
fn push_entry(entries: &mut Vec<Entry>, entry: Entry) -> Result<(), AllocError>
    ensures ok { let pair = plain_entry entry in
        OnOk result (entry_pairs entries.new.items ≡ with_last (entry_pairs entries.old.items) pair.0 pair.1) }
    ensures err { OnErr result (entry_pairs entries.new.items ≡ entry_pairs entries.old.items) }
    ensures last { OnOk result (entries.new.items ≡ entries.old.items ++ entry ∷ []) }
    ensures same { OnErr result (entries.new.items ≡ entries.old.items) }
{
    entries.push(entry)?;
    Ok(())
}

// Adds a pair whose key is not there yet.
fn add(entries: &mut Vec<Entry>, key: Value, value: Value) -> Result<(), AllocError>
    ensures ok { let old = entry_pairs entries.old.items in
        OnOk result (entry_pairs entries.new.items ≡ with_last old (plain key) (plain value)) }
    ensures err { OnErr result (entry_pairs entries.new.items ≡ entry_pairs entries.old.items) }
    ensures sound { let old = entry_pairs entries.old.items in IsSound entries.old.items
        → place_where (plain_eq (plain key)) old ≡ None → IsSound entries.new.items }
{
    push_entry(entries, new_entry(key, value))?;
    index_last(entries);
    Ok(())
}

// Puts another value into an entry, and answers the one that was there.
fn put_value(entry: &mut Entry, value: Value) -> Value
    ensures after { plain_entry entry.new ≡ ((plain_entry entry.old).0, plain value) }
    ensures answer { plain result ≡ (plain_entry entry.old).1 }
    ensures last { entry.new.last ≡ entry.old.last }
    ensures earlier { entry.new.earlier ≡ entry.old.earlier }
{
    mem::replace(&mut entry.value, value)
}

// The same of the entry in a place.
fn put_in(entries: &mut Vec<Entry>, i: usize, value: Value) -> Value
    requires { i < length entries.old.items }
    ensures after { entry_pairs entries.new.items ≡ with_value i (plain value) (entry_pairs entries.old.items) }
    ensures answer { value_in_place i (entry_pairs entries.old.items) ≡ Some (plain result) }
    ensures sound { IsSound entries.old.items → IsSound entries.new.items }
{
    put_value(&mut entries[i], value)
}

// Puts a value at a key, and answers the one that was there.
fn insert_pair(
    entries: &mut Vec<Entry>,
    key: Value,
    value: Value,
) -> Result<Option<Value>, AllocError>
    requires { IsSound entries.old.items }
    ensures ok { let old = entry_pairs entries.old.items in
        OnOk result (entry_pairs entries.new.items ≡ with_pair (plain key) (plain value) old) }
    ensures told { let old = entry_pairs entries.old.items in
        IfOk result (λ told. option_map plain told ≡ value_at (plain key) old) }
    ensures err { OnErr result (entry_pairs entries.new.items ≡ entry_pairs entries.old.items) }
    ensures sound { IsSound entries.new.items }
{
    match place_among(entries, &key) {
        Some(place) => {
            discard(key);
            Ok(Some(put_in(entries, place, value)))
        }
        None => {
            add(entries, key, value)?;
            Ok(None)
        }
    }
}

impl Mapping {
    ghost use Rattle.std.specs.Prelude.{◌≡◌, ◌==◌, ◌<◌, None, Some, is_some, option_map};
    ghost use Rattle.std.specs.Prelude.{IfOk, IfSome, OnErr, OnOk, pos};
    ghost use Rattle.std.specs.Slice.Iter.{iter_rest};
    ghost use Rattle.yaml_value.specs.Find.{IsPut, IsTakenOut, IsValueAt};
    ghost use Rattle.yaml_value.specs.Find.{place_where, value_at, value_in_place, with_pair, without_key};
    ghost use Rattle.yaml_value.specs.PlainEqual.{plain_eq};
    ghost use Rattle.yaml_value.specs.PlainValue.{integer, no_pairs, pair_count, text, with_last};
    ghost use Rattle.yaml_value.specs.View.{entry_pairs, plain, plain_pairs};

    /// The empty mapping. It takes no memory until a pair goes in.
    pub fn new(alloc: Global) -> Mapping
        ensures { plain_pairs result ≡ no_pairs }
    {
        Mapping {
            entries: Vec::new(alloc),
        }
    }

    /// How many pairs there are.
    pub fn len(&self) -> usize
        ensures { result ≡ pair_count (plain_pairs self.now) }
    {
        count(self.entries.as_slice())
    }

    /// Whether there is no pair.
    pub fn is_empty(&self) -> bool
        ensures { result ≡ (pair_count (plain_pairs self.now) == 0) }
    {
        self.len() == 0
    }

    /// The value at the key that is this text. Takes no memory.
    pub fn get(&self, key: &str) -> Option<&Value>
        ensures found { let pairs = plain_pairs self.now in
            IfSome result (λ value. IsValueAt (text key.now) pairs (plain value.now)) }
        ensures value { option_map (λ value. plain value.now) result
            ≡ value_at (text key.now) (plain_pairs self.now) }
    {
        value_of_text(self.entries.as_slice(), key)
    }

    /// The value at a key of any kind. Takes no memory.
    pub fn get_at(&self, key: &Value) -> Option<&Value>
        ensures found { let pairs = plain_pairs self.now in
            IfSome result (λ value. IsValueAt (plain key.now) pairs (plain value.now)) }
        ensures value { option_map (λ value. plain value.now) result
            ≡ value_at (plain key.now) (plain_pairs self.now) }
    {
        value_of_key(self.entries.as_slice(), key)
    }

    /// The value at the key that is this number.
    pub(crate) fn at_number(&self, number: usize) -> Option<&Value>
        ensures { option_map (λ value. plain value.now) result
            ≡ value_at (integer (pos number)) (plain_pairs self.now) }
    {
        let key = Value::from(number);
        let found = value_of_key(self.entries.as_slice(), &key);
        discard(key);
        found
    }

    /// Whether there is a pair with this key.
    pub fn contains_key(&self, key: &str) -> bool
        ensures { result ≡ is_some (value_at (text key.now) (plain_pairs self.now)) }
    {
        self.get(key).is_some()
    }

    // Whether there is a pair with a key of any kind.
    pub(crate) fn has(&self, key: &Value) -> bool
        ensures { result ≡ is_some (value_at (plain key.now) (plain_pairs self.now)) }
    {
        self.get_at(key).is_some()
    }

    // The value of the pair in a place, to be changed.
    fn value_mut(&mut self, place: usize) -> &mut Value
        requires { place < pair_count (plain_pairs self.old) }
        ensures { value_in_place place (plain_pairs self.old) ≡ Some (plain result.now) }
    {
        lend_value(&mut self.entries[place])
    }

    /// The value at the key that is this text, to be changed.
    pub fn get_mut(&mut self, key: &str) -> Option<&mut Value>
        ensures found { let pairs = plain_pairs self.old in
            IfSome result (λ value. IsValueAt (text key.now) pairs (plain value.now)) }
        ensures value { option_map (λ value. plain value.now) result
            ≡ value_at (text key.now) (plain_pairs self.old) }
    {
        match self.place_of(key) {
            Some(place) => Some(self.value_mut(place)),
            None => None,
        }
    }

    // The place of the key that is this text.
    fn place_of(&self, key: &str) -> Option<usize>
        ensures place { result ≡ place_where (plain_eq (text key.now)) (plain_pairs self.now) }
        ensures within { IfSome result (λ i. i < pair_count (plain_pairs self.now)) }
    {
        place_in(&self.entries, key)
    }

    /// Puts a value at a key, and answers the one that was there. A new key goes last, and a key that is there keeps
    /// its place. Where memory is wanting, the mapping stays as it was.
    pub fn insert(&mut self, key: Value, value: Value) -> Result<Option<Value>, AllocError>
        ensures put { IfOk result (λ told. IsPut (plain key) (plain value) (plain_pairs self.old)
            (plain_pairs self.new) (option_map plain told)) }
        ensures ok { let old = plain_pairs self.old in
            OnOk result (plain_pairs self.new ≡ with_pair (plain key) (plain value) old) }
        ensures told { let old = plain_pairs self.old in
            IfOk result (λ told. option_map plain told ≡ value_at (plain key) old) }
        ensures err { OnErr result (plain_pairs self.new ≡ plain_pairs self.old) }
    {
        insert_pair(&mut self.entries, key, value)
    }

    // Adds a pair whose key is not there yet.
    pub(crate) fn append(&mut self, key: Value, value: Value) -> Result<(), AllocError>
        requires { value_at (plain key) (plain_pairs self.old) ≡ None }
        ensures ok { let old = plain_pairs self.old in
            OnOk result (plain_pairs self.new ≡ with_last old (plain key) (plain value)) }
        ensures err { OnErr result (plain_pairs self.new ≡ plain_pairs self.old) }
    {
        add(&mut self.entries, key, value)
    }

    /// Takes the pair out whose key is this text, and answers its value. The others stay in their order.
    pub fn remove(&mut self, key: &str) -> Option<Value>
        ensures taken { let old = plain_pairs self.old in
            IsTakenOut (text key.now) old (plain_pairs self.new) (option_map plain result) }
        ensures after { let old = plain_pairs self.old in plain_pairs self.new ≡ without_key (text key.now) old }
        ensures answer { option_map plain result ≡ value_at (text key.now) (plain_pairs self.old) }
    {
        remove_text(&mut self.entries, key)
    }

    /// The same of a key of any kind.
    pub fn remove_at(&mut self, key: &Value) -> Option<Value>
        ensures taken { let old = plain_pairs self.old in
            IsTakenOut (plain key.now) old (plain_pairs self.new) (option_map plain result) }
        ensures after { let old = plain_pairs self.old in plain_pairs self.new ≡ without_key (plain key.now) old }
        ensures answer { option_map plain result ≡ value_at (plain key.now) (plain_pairs self.old) }
    {
        remove_key(&mut self.entries, key)
    }

    /// The pairs in order.
    pub fn iter(&self) -> slice::Iter<'_, Entry>
        ensures { entry_pairs (iter_rest result) ≡ plain_pairs self.now }
    {
        self.entries.iter()
    }
}

impl IntoIterator for Mapping {
    type Item = Entry;

    type IntoIter = vec::IntoIter<Entry>;

    /// The pairs in order, handed out. Takes no memory.
    fn into_iter(self) -> vec::IntoIter<Entry> {
        self.entries.into_iter()
    }
}

impl<'a> IntoIterator for &'a Mapping {
    type Item = &'a Entry;

    type IntoIter = slice::Iter<'a, Entry>;

    /// The pairs in order, as `iter` gives them.
    fn into_iter(self) -> slice::Iter<'a, Entry> {
        self.iter()
    }
}
