//! Equality of values.
ghost use Rattle.std.specs.Prelude.{◌≡◌, true, ◌<◌, ◌≤◌, length, IfSome};
ghost use Rattle.yaml_tree.specs.Entries.{IsOtherKey};
ghost use Rattle.yaml_tree.specs.Equal.{pairs_eq, tree_eq, trees_eq};
ghost use Rattle.yaml_tree.specs.Index.{IsChained, IsIndexed};
ghost use Rattle.yaml_tree.specs.Lookup.{has_all_pairs, has_pair, place_of_key};
ghost use Rattle.yaml_tree.specs.Mapping.{keys_distinct};
ghost use Rattle.yaml_tree.specs.Valid.{pairs_of, tree_of_tagged, values_of};
ghost use Rattle.yaml_tree.specs.View.{entry_pairs, tree_of};

use crate::index::{chain_count, chain_of};
use crate::mapping::{Entry, Mapping};
use crate::sequence::Sequence;
use crate::value::{TaggedValue, Value};

impl PartialEq for Value {
    ghost use Rattle.std.specs.Cmp.{on_per, partial_equiv_from_equiv};
    ghost use Rattle.yaml_tree.specs.Equal.{tree_eq};
    ghost use Rattle.yaml_tree.specs.View.{tree_of};
    ghost use Rattle.yaml_tree.specs.EqualLaws.{tree_equiv};

    ghost eq = { λ a b. tree_eq (tree_of a) (tree_of b) };

    ghost laws = { on_per tree_of (partial_equiv_from_equiv tree_equiv) };

    fn eq(&self, other: &Value) -> bool {
        same_value(self, other)
    }
}

impl Eq for Value {
    ghost use Rattle.std.specs.Cmp.{on_equiv};
    ghost use Rattle.yaml_tree.specs.View.{tree_of};
    ghost use Rattle.yaml_tree.specs.EqualLaws.{tree_equiv};

    ghost laws = { on_equiv tree_of tree_equiv };
}

impl PartialEq for Sequence {
    ghost use Rattle.std.specs.Cmp.{on_per, partial_equiv_from_equiv};
    ghost use Rattle.yaml_tree.specs.Equal.{trees_eq};
    ghost use Rattle.yaml_tree.specs.Valid.{values_of};
    ghost use Rattle.yaml_tree.specs.EqualLaws.{trees_equiv};

    ghost eq = { λ a b. trees_eq (values_of a) (values_of b) };

    ghost laws = { on_per values_of (partial_equiv_from_equiv trees_equiv) };

    fn eq(&self, other: &Sequence) -> bool {
        same_items(self, other)
    }
}

impl Eq for Sequence {
    ghost use Rattle.std.specs.Cmp.{on_equiv};
    ghost use Rattle.yaml_tree.specs.Valid.{values_of};
    ghost use Rattle.yaml_tree.specs.EqualLaws.{trees_equiv};

    ghost laws = { on_equiv values_of trees_equiv };
}

impl PartialEq for Mapping {
    ghost use Rattle.std.specs.Cmp.{on_per, partial_equiv_from_equiv};
    ghost use Rattle.yaml_tree.specs.Equal.{pairs_eq};
    ghost use Rattle.yaml_tree.specs.Valid.{pairs_of};
    ghost use Rattle.yaml_tree.specs.EqualLaws.{pairs_equiv};

    ghost eq = { λ a b. pairs_eq (pairs_of a) (pairs_of b) };

    ghost laws = { on_per pairs_of (partial_equiv_from_equiv pairs_equiv) };

    fn eq(&self, other: &Mapping) -> bool {
        same_pairs(self, other)
    }
}

impl Eq for Mapping {
    ghost use Rattle.std.specs.Cmp.{on_equiv};
    ghost use Rattle.yaml_tree.specs.Valid.{pairs_of};
    ghost use Rattle.yaml_tree.specs.EqualLaws.{pairs_equiv};

    ghost laws = { on_equiv pairs_of pairs_equiv };
}

impl PartialEq for TaggedValue {
    ghost use Rattle.std.specs.Cmp.{on_per, partial_equiv_from_equiv};
    ghost use Rattle.yaml_tree.specs.Equal.{tree_eq};
    ghost use Rattle.yaml_tree.specs.EqualLaws.{tree_equiv};
    ghost use Rattle.yaml_tree.specs.Valid.{tree_of_tagged};

    ghost eq = { λ a b. tree_eq (tree_of_tagged a) (tree_of_tagged b) };

    ghost laws = { on_per tree_of_tagged (partial_equiv_from_equiv tree_equiv) };

    fn eq(&self, other: &TaggedValue) -> bool {
        same_tagged(self, other)
    }
}

impl Eq for TaggedValue {
    ghost use Rattle.std.specs.Cmp.{on_equiv};
    ghost use Rattle.yaml_tree.specs.EqualLaws.{tree_equiv};
    ghost use Rattle.yaml_tree.specs.Valid.{tree_of_tagged};

    ghost laws = { on_equiv tree_of_tagged tree_equiv };
}

#[cycle(same)]
fn same_value(a: &Value, b: &Value) -> bool
    ensures { result ≡ tree_eq (tree_of a.now) (tree_of b.now) }
{
    match (a, b) {
        (Value::Null, Value::Null) => true,
        (Value::Bool(x), Value::Bool(y)) => *x == *y,
        (Value::Number(x), Value::Number(y)) => *x == *y,
        (Value::String(x), Value::String(y)) => x.as_bytes() == y.as_bytes(),
        (Value::Sequence(x), Value::Sequence(y)) => same_items(x, y),
        (Value::Mapping(x), Value::Mapping(y)) => same_pairs(x, y),
        (Value::Tagged(x), Value::Tagged(y)) => same_tagged(x, y),
        _ => false,
    }
}

#[cycle(same)]
fn same_tagged(a: &TaggedValue, b: &TaggedValue) -> bool
    ensures { result ≡ tree_eq (tree_of_tagged a.now) (tree_of_tagged b.now) }
{
    a.tag == b.tag && same_value(&a.value, &b.value)
}

#[cycle(same)]
fn same_items(a: &Sequence, b: &Sequence) -> bool
    ensures { result ≡ trees_eq (values_of a.now) (values_of b.now) }
{
    let left = a.items.as_slice();
    let right = b.items.as_slice();
    if left.len() != right.len() {
        return false;
    }
    for i in 0..left.len() {
        if !same_value(&left[i], &right[i]) {
            return false;
        }
    }
    true
}

#[cycle(same)]
fn same_pairs(a: &Mapping, b: &Mapping) -> bool
    ensures { result ≡ pairs_eq (pairs_of a.now) (pairs_of b.now) }
{
    let wanted = a.entries.as_slice();
    let entries = b.entries.as_slice();
    if wanted.len() != entries.len() {
        return false;
    }
    has_all_entries(wanted, entries)
}

// Whether each of these entries is among the others, whose keys are distinct.
#[cycle(same)]
fn has_all_entries(wanted: &[Entry], entries: &[Entry]) -> bool
    requires distinct { keys_distinct (entry_pairs entries.now) ≡ true }
    requires indexed { IsIndexed entries.now }
    ensures { result ≡ has_all_pairs (entry_pairs wanted.now) (entry_pairs entries.now) }
{
    for (i, entry) in wanted.iter().enumerate() {
        if !is_among(entry, entries, i) {
            return false;
        }
    }
    true
}

// Whether an entry is among these, whose keys are distinct. It is looked for at the guess first.
#[cycle(same)]
fn is_among(wanted: &Entry, entries: &[Entry], guess: usize) -> bool
    requires distinct { keys_distinct (entry_pairs entries.now) ≡ true }
    requires indexed { IsIndexed entries.now }
    ensures { let key = tree_of wanted.now.key in
        result ≡ has_pair key (tree_of wanted.now.value) (entry_pairs entries.now) }
{
    match find_near(&wanted.key, entries, guess) {
        Some(i) => same_value(&wanted.value, &entries[i].value),
        None => false,
    }
}

// The place of a key among entries with distinct keys. It is looked for at the guess first, and no
// key is compared twice, since a comparison of deep keys makes such comparisons again.
#[cycle(same)]
fn find_near(key: &Value, entries: &[Entry], guess: usize) -> Option<usize>
    requires distinct { keys_distinct (entry_pairs entries.now) ≡ true }
    requires indexed { IsIndexed entries.now }
    ensures place { result ≡ place_of_key (tree_of key.now) (entry_pairs entries.now) }
    ensures within { IfSome result (λ i. i < length entries.now) }
{
    if guess >= entries.len() {
        return find_besides(key, entries, guess);
    }
    if same_value(key, &entries[guess].key) {
        return Some(guess);
    }
    find_besides(key, entries, guess)
}

// The place of a key among entries with distinct keys, where the entry at one place has another
// key.
#[cycle(same)]
fn find_besides(key: &Value, entries: &[Entry], other: usize) -> Option<usize>
    requires distinct { keys_distinct (entry_pairs entries.now) ≡ true }
    requires indexed { IsIndexed entries.now }
    requires other { IsOtherKey (tree_of key.now) entries.now other }
    ensures place { result ≡ place_of_key (tree_of key.now) (entry_pairs entries.now) }
    ensures within { IfSome result (λ i. i < length entries.now) }
{
    let chains = chain_count(entries.len());
    if chains == 0 {
        find_in_order(key, entries, other)
    } else {
        find_in_chain(key, entries, other, chains)
    }
}

// The place of the first entry with this key, where the entry at one place has another key.
#[cycle(same)]
fn find_in_order(key: &Value, entries: &[Entry], other: usize) -> Option<usize>
    requires { IsOtherKey (tree_of key.now) entries.now other }
    ensures place { result ≡ place_of_key (tree_of key.now) (entry_pairs entries.now) }
    ensures within { IfSome result (λ i. i < length entries.now) }
{
    for (i, entry) in entries.iter().enumerate() {
        if i != other && same_value(key, &entry.key) {
            return Some(i);
        }
    }
    None
}

// The same of entries with distinct keys in so many chains: only the key's chain is gone along,
// from its last entry to its first.
#[cycle(same)]
fn find_in_chain(key: &Value, entries: &[Entry], other: usize, chains: usize) -> Option<usize>
    requires distinct { keys_distinct (entry_pairs entries.now) ≡ true }
    requires some { 0 < chains }
    requires within { chains ≤ length entries.now }
    requires chained { IsChained chains (length entries.now) entries.now }
    requires other { IsOtherKey (tree_of key.now) entries.now other }
    ensures place { result ≡ place_of_key (tree_of key.now) (entry_pairs entries.now) }
    ensures within { IfSome result (λ i. i < length entries.now) }
{
    let mut left = entries[chain_of(key, chains)].last;
    while left > 0 {
        let place = left - 1;
        let entry = &entries[place];
        if place != other && same_value(key, &entry.key) {
            return Some(place);
        }
        left = entry.earlier;
    }
    None
}

/// The place of a key among entries with distinct keys.
pub(crate) fn find(key: &Value, entries: &[Entry]) -> Option<usize>
    requires distinct { keys_distinct (entry_pairs entries.now) ≡ true }
    requires indexed { IsIndexed entries.now }
    ensures place { result ≡ place_of_key (tree_of key.now) (entry_pairs entries.now) }
    ensures within { IfSome result (λ i. i < length entries.now) }
{
    find_besides(key, entries, entries.len())
}
