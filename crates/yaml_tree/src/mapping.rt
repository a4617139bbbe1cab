//! Mappings of values to values.
mod into_iter;

ghost use Rattle.std.specs.Prelude.{◌≡◌, ◌<◌, ◌++◌, ◌∷◌, [], None, length, true};
ghost use Rattle.std.specs.Prelude.{option_map, slice_index_or, slice_set};
ghost use Rattle.std.specs.Prelude.{IfErr, IfOk, OnErr, OnOk};
ghost use Rattle.yaml_tree.specs.Entries.{new_entry, with_value};
ghost use Rattle.yaml_tree.specs.Index.{IsIndexed};
ghost use Rattle.yaml_tree.specs.Mapping.{keys_distinct, value_at, with_pair};
ghost use Rattle.yaml_tree.specs.View.{entry_pairs, tree_of};

use crate::fault::TreeFault;
use crate::index::index_last;
use crate::look_up::MappingIndex;
use crate::value::Value;
use crate::value::equal::find;
use crate::value::text::find_text;
pub use into_iter::IntoIter;
use std::alloc::Global;
use std::marker::Model;
use std::mem;

/// One pair of a mapping, and what it keeps for the mapping's index.
#[cycle(value)]
#[derive(Drop)]
pub(crate) struct Entry {
    pub(crate) key: Value,
    pub(crate) value: Value,
    pub(crate) last: usize,
    pub(crate) earlier: usize,
}

/// Pairs of a key and a value, in order, no two of whose keys are equal.
#[cycle(value)]
#[derive(Drop)]
pub struct Mapping {
    pub(crate) entries: Vec<Entry>,
}

impl Model for Mapping {
    ghost use Rattle.std.specs.Prelude.{◌≡◌, true};
    ghost use Rattle.yaml_tree.specs.Mapping.{keys_distinct};
    ghost use Rattle.yaml_tree.specs.Tree.{pairs_size};
    ghost use Rattle.yaml_tree.specs.Valid.{ValuePairs, pairs_of, value_pairs, value_pairs_code};
    ghost use Rattle.yaml_tree.specs.Valid.{pairs_of-value_pairs};

    ghost Value = { ValuePairs };

    ghost coded = { value_pairs_code };

    ghost use Rattle.yaml_tree.specs.Index.{IsIndexed};
    ghost use Rattle.yaml_tree.specs.View.{entry_pairs, are_pairs-entry_pairs};

    ghost view = { λ m.
        let es = m.entries.items in
        value_pairs (entry_pairs es) (are_pairs-entry_pairs es) };

    ghost invariant = { λ m. let es = m.entries.items in
        (keys_distinct (entry_pairs es) ≡ true) × IsIndexed es };

    ghost size = { λ m. pairs_size (pairs_of m) };

    ghost use Rattle.std.proofs.Common.{arith};
    ghost use Rattle.yaml_tree.specs.Falls.{most-Entry_le};

    ghost size_decreases = { λ m h.
        let es = m.entries.items in
        rw (pairs_of-value_pairs (entry_pairs es) (are_pairs-entry_pairs es) h.0)
        (omega (arith, most-Entry_le es)) };
}

impl Mapping {
    ghost use Rattle.std.specs.Prelude.{◌≡◌, ◌↔◌, None, option_map};
    ghost use Rattle.std.specs.Prelude.{IfErr, IfOk, IsTrue, OnErr, OnOk};
    ghost use Rattle.yaml_tree.specs.Mapping.{value_at, with_pair};
    ghost use Rattle.yaml_tree.specs.Tree.{no_pairs, pair_count, pair_list, string};
    ghost use Rattle.yaml_tree.specs.Valid.{pairs_of};
    ghost use Rattle.yaml_tree.specs.View.{tree_of};

    /// The empty mapping. It takes no memory until a pair goes in.
    pub fn new(alloc: Global) -> Mapping
        ensures { pairs_of result ≡ no_pairs }
    {
        Mapping {
            entries: Vec::new(alloc),
        }
    }

    /// How many pairs there are.
    pub fn len(&self) -> usize
        ensures { result ≡ pair_count (pairs_of self.now) }
    {
        self.entries.len()
    }

    /// Whether there is no pair.
    pub fn is_empty(&self) -> bool
        ensures { IsTrue result ↔ (pairs_of self.now ≡ no_pairs) }
    {
        self.len() == 0
    }

    /// The value at a key, which is a `&Value`, or a `&str` or `&String` for the string of that text. Takes no memory.
    pub fn get<I: MappingIndex>(&self, index: I) -> Option<&Value>
    where
        I: Drop,
        ensures { option_map (λ v. tree_of v.now) result
            ≡ value_at (I.MappingIndex.key index) (pairs_of self.now) }
    {
        index.index_into(self)
    }

    // The value at the key of a text.
    pub(crate) fn value_of_text(&self, text: &str) -> Option<&Value>
        ensures { option_map (λ v. tree_of v.now) result
            ≡ value_at (string text.now) (pairs_of self.now) }
    {
        let entries = self.entries.as_slice();
        match find_text(text, entries) {
            Some(i) => Some(&entries[i].value),
            None => None,
        }
    }

    // The value at a key.
    pub(crate) fn value_of(&self, key: &Value) -> Option<&Value>
        ensures { option_map (λ v. tree_of v.now) result
            ≡ value_at (tree_of key.now) (pairs_of self.now) }
    {
        let entries = self.entries.as_slice();
        match find(key, entries) {
            Some(i) => Some(&entries[i].value),
            None => None,
        }
    }

    /// Puts a value at a key, and answers the one that was there. A new key goes last. A key that
    /// is there keeps its place, and then no memory is taken. The only fault is `Memory`: the mapping is as it was, and
    /// the key and the value are dropped.
    pub fn insert(&mut self, key: Value, value: Value) -> Result<Option<Value>, TreeFault>
        ensures ok { let old = pairs_of self.old in
            OnOk result (pairs_of self.new ≡ with_pair (tree_of key) (tree_of value) old) }
        ensures replaced { let found = value_at (tree_of key) (pairs_of self.old) in
            IfOk result (λ replaced. option_map tree_of replaced ≡ found) }

        ensures memory { IfErr result (λ e. e ≡ TreeFault.Memory) }
        // A key that is there is never refused.
        ensures only_new { OnErr result (value_at (tree_of key) (pairs_of self.old) ≡ None) }
        ensures err { OnErr result (self.new ≡ self.old) }
    {
        put(&mut self.entries, key, value)
    }

    /// The pairs in order.
    pub fn iter(&self) -> Iter<'_>
        ensures { result ≡ pair_list (pairs_of self.now) }
    {
        Iter {
            rest: self.entries.as_slice(),
        }
    }
}

fn put(entries: &mut Vec<Entry>, key: Value, value: Value) -> Result<Option<Value>, TreeFault>
    requires distinct { keys_distinct (entry_pairs entries.old.items) ≡ true }
    requires indexed { IsIndexed entries.old.items }
    ensures ok { let old = entry_pairs entries.old.items in
        OnOk result (entry_pairs entries.new.items ≡ with_pair (tree_of key) (tree_of value) old) }
    ensures replaced { let found = value_at (tree_of key) (entry_pairs entries.old.items) in
        IfOk result (λ replaced. option_map tree_of replaced ≡ found) }
    ensures memory { IfErr result (λ e. e ≡ TreeFault.Memory) }
    ensures only_new { let found = value_at (tree_of key) (entry_pairs entries.old.items) in
        OnErr result (found ≡ None) }
    ensures err { OnErr result (entries.new.items ≡ entries.old.items) }
    ensures still_indexed { IsIndexed entries.new.items }
{
    match find(&key, entries.as_slice()) {
        Some(i) => {
            discard(key);
            Ok(Some(replace_value(entries, i, value)))
        }
        None => match add(entries, key, value) {
            Ok(()) => Ok(None),
            Err(fault) => Err(fault),
        },
    }
}

fn replace_value(entries: &mut Vec<Entry>, i: usize, value: Value) -> Value
    requires { i < length entries.old.items }
    ensures after { (d : _) → entries.new.items
        ≡ slice_set entries.old.items i (with_value (slice_index_or entries.old.items i d) value) }
    ensures answer { (d : _) → result ≡ (slice_index_or entries.old.items i d).value }
{
    let entry = &mut entries[i];
    mem::replace(&mut entry.value, value)
}

fn add(entries: &mut Vec<Entry>, key: Value, value: Value) -> Result<(), TreeFault>
    requires { IsIndexed entries.old.items }
    ensures ok { let more = entries.old.items ++ new_entry key value ∷ [] in
        OnOk result (entry_pairs entries.new.items ≡ entry_pairs more) }
    ensures memory { IfErr result (λ e. e ≡ TreeFault.Memory) }
    ensures err { OnErr result (entries.new.items ≡ entries.old.items) }
    ensures still_indexed { IsIndexed entries.new.items }
{
    let entry = Entry {
        key,
        value,
        last: 0,
        earlier: 0,
    };
    match entries.push(entry) {
        Ok(()) => {
            index_last(entries);
            Ok(())
        }
        Err(_) => Err(TreeFault::Memory),
    }
}

fn discard(_value: Value) {}

/// The pairs of a mapping that are left to go over.
#[derive(Drop)]
pub struct Iter<'a> {
    rest: &'a [Entry],
}

impl<'a> Model for Iter<'a> {
    ghost use Rattle.std.specs.Prelude.{List};
    ghost use Rattle.std.specs.Coded.{coded×, coded_list};
    ghost use Rattle.yaml_tree.specs.Code.{tree_code};
    ghost use Rattle.yaml_tree.specs.Tree.{Tree, pair_list};

    ghost Value = { List (Tree × Tree) };

    ghost coded = { coded_list (coded× tree_code tree_code) };

    ghost use Rattle.yaml_tree.specs.View.{entry_pairs};

    ghost view = { λ pairs. pair_list (entry_pairs pairs.rest.now) };
}

impl<'a> Iterator for Iter<'a> {
    type Item = (&'a Value, &'a Value);

    ghost use Rattle.std.specs.Iterator.{item_count, YieldsFirstBy};
    ghost use Rattle.yaml_tree.specs.View.{tree_of};

    ghost next_gives = { YieldsFirstBy (λ p. (tree_of p.0.now, tree_of p.1.now)) (λ left. left) };

    ghost remaining = { item_count (λ left. left) };

    fn next(&mut self) -> Option<(&'a Value, &'a Value)> {
        let (first, others) = self.rest.split_first()?;
        self.rest = others;
        Some((&first.key, &first.value))
    }
}
