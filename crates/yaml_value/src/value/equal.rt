//! Equality of values.

ghost use Rattle.std.specs.Prelude.{◌≡◌, ◌<◌, length, IfSome};
ghost use Rattle.yaml_tree.specs.Index.{chain_count};
ghost use Rattle.yaml_value.specs.Find.{place_where};
ghost use Rattle.yaml_value.specs.Hash.{hash_of, text_hash};
ghost use Rattle.yaml_value.specs.Index.{IsSound, chain_end};
ghost use Rattle.yaml_value.specs.PlainEqual.{entry_eq, has_all_pairs, has_pair, items_eq, pairs_eq};
ghost use Rattle.yaml_value.specs.PlainEqual.{plain_eq, tagged_eq};
ghost use Rattle.yaml_value.specs.PlainValue.{text as plain_text};
ghost use Rattle.yaml_value.specs.View.{entry_pairs, plain, plain_entry, plain_pairs, plain_sequence, plain_tagged};

use crate::index::{chain_count, earlier_at, first_of};
use crate::mapping::{Entry, Mapping, count};
use crate::sequence::Sequence;
use crate::value::hash::{hash_text, hash_value};
use crate::value::{TaggedValue, Value};

impl Value {
    /// Whether both are the same value: mappings in whatever order their pairs stand, tags by their names, integers by
    /// value, and a float that is no number as itself. An integer is no float.
    pub fn equals(&self, other: &Value) -> bool
        ensures { result ≡ plain_eq (plain self.now) (plain other.now) }
    {
        same_value(self, other)
    }
}

impl Mapping {
    /// Whether both have the same pairs, in whatever order.
    pub fn equals(&self, other: &Mapping) -> bool
        ensures { result ≡ pairs_eq (plain_pairs self.now) (plain_pairs other.now) }
    {
        same_pairs(self, other)
    }
}

#[cycle(same)]
fn same_value(a: &Value, b: &Value) -> bool
    ensures { result ≡ plain_eq (plain a.now) (plain b.now) }
{
    match (a, b) {
        (Value::Null, Value::Null) => true,
        (Value::Bool(x), Value::Bool(y)) => *x == *y,
        (Value::Number(x), Value::Number(y)) => x.equals(*y),
        (Value::String(x), Value::String(y)) => x.as_bytes() == y.as_bytes(),
        (Value::Sequence(x), Value::Sequence(y)) => same_items(x, y),
        (Value::Mapping(x), Value::Mapping(y)) => same_pairs(x, y),
        (Value::Tagged(x), Value::Tagged(y)) => same_tagged(x, y),
        _ => false,
    }
}

#[cycle(same)]
fn same_tagged(a: &TaggedValue, b: &TaggedValue) -> bool
    ensures { result ≡ tagged_eq (plain_tagged a.now) (plain_tagged b.now) }
{
    a.tag.equals(&b.tag) && same_value(&a.value, &b.value)
}

#[cycle(same)]
fn same_items(a: &Sequence, b: &Sequence) -> bool
    ensures { result ≡ items_eq (plain_sequence a.now) (plain_sequence b.now) }
{
    let left = a.items.as_slice();
    let right = b.items.as_slice();
    if left.len() != right.len() {
        return false;
    }
    for i in 0..left.len() {
        if !same_value(&left[i], &right[i]) {
            return false;
        }
    }
    true
}

#[cycle(same)]
fn same_pairs(a: &Mapping, b: &Mapping) -> bool
    ensures { result ≡ pairs_eq (plain_pairs a.now) (plain_pairs b.now) }
{
    let wanted = a.entries.as_slice();
    let entries = b.entries.as_slice();
    if wanted.len() != entries.len() {
        return false;
    }
    has_all_entries(wanted, entries)
}

// Whether each of these entries is among the others.
#[cycle(same)]
fn has_all_entries(wanted: &[Entry], entries: &[Entry]) -> bool
    requires { IsSound entries.now }
    ensures { result ≡ has_all_pairs (entry_pairs wanted.now) (entry_pairs entries.now) }
{
    for i in 0..wanted.len() {
        if !is_among(&wanted[i], entries) {
            return false;
        }
    }
    true
}

// Whether an entry is among these, whose keys are distinct.
#[cycle(same)]
fn is_among(wanted: &Entry, entries: &[Entry]) -> bool
    requires { IsSound entries.now }
    ensures { result ≡ has_pair (plain_entry wanted.now) (entry_pairs entries.now) }
{
    let chains = chain_count(count(entries));
    if chains == 0 {
        is_among_few(wanted, entries)
    } else {
        is_among_many(wanted, entries)
    }
}

// The same, one by one.
#[cycle(same)]
fn is_among_few(wanted: &Entry, entries: &[Entry]) -> bool
    ensures { result ≡ has_pair (plain_entry wanted.now) (entry_pairs entries.now) }
{
    for i in 0..entries.len() {
        if same_entry(wanted, &entries[i]) {
            return true;
        }
    }
    false
}

#[cycle(same)]
fn same_entry(a: &Entry, b: &Entry) -> bool
    ensures { result ≡ entry_eq (plain_entry a.now) (plain_entry b.now) }
{
    same_value(&a.key, &b.key) && same_value(&a.value, &b.value)
}

// The same, by the index.
#[cycle(same)]
fn is_among_many(wanted: &Entry, entries: &[Entry]) -> bool
    requires sound { IsSound entries.now }
    requires some { 0 < chain_count (length entries.now) }
    ensures { result ≡ has_pair (plain_entry wanted.now) (entry_pairs entries.now) }
{
    let first = first_of(hash_value(&wanted.key), entries);
    match place_in_chain(&wanted.key, entries, first) {
        Some(place) => same_value(&wanted.value, &entries[place].value),
        None => false,
    }
}

/// The place of a key among entries with distinct keys: among few it is looked for one by one, among many in its chain
/// alone.
pub(crate) fn place_of(key: &Value, entries: &[Entry]) -> Option<usize>
    requires { IsSound entries.now }
    ensures place { result ≡ place_where (plain_eq (plain key.now)) (entry_pairs entries.now) }
    ensures within { IfSome result (λ i. i < length entries.now) }
{
    let chains = chain_count(count(entries));
    if chains == 0 {
        return place_in_order(key, entries);
    }
    place_in_chain(key, entries, first_of(hash_value(key), entries))
}

fn place_in_order(key: &Value, entries: &[Entry]) -> Option<usize>
    ensures within { IfSome result (λ i. i < length entries.now) }
    ensures place { result ≡ place_where (plain_eq (plain key.now)) (entry_pairs entries.now) }
{
    for i in 0..entries.len() {
        if same_value(key, &entries[i].key) {
            return Some(i);
        }
    }
    None
}

// The same by the index: only the chain of the key is gone along, from its last entry to its first.
#[cycle(same)]
fn place_in_chain(key: &Value, entries: &[Entry], first: usize) -> Option<usize>
    requires sound { IsSound entries.now }
    requires some { 0 < chain_count (length entries.now) }
    requires first { first ≡ chain_end (hash_of (plain key.now)) entries.now }
    ensures within { IfSome result (λ i. i < length entries.now) }
    ensures place { result ≡ place_where (plain_eq (plain key.now)) (entry_pairs entries.now) }
{
    let mut left = first;
    for turn in 0..entries.len() {
        if left == 0 {
            return None;
        }
        let place = left - 1;
        if place >= entries.len() {
            return None;
        }
        if same_value(key, &entries[place].key) {
            return Some(place);
        }
        left = earlier_at(entries, place);
    }
    None
}

// Whether a value is the string of this text.
fn is_text(key: &Value, text: &str) -> bool
    ensures { result ≡ plain_eq (plain_text text.now) (plain key.now) }
{
    match key {
        Value::String(own) => text.as_bytes() == own.as_bytes(),
        _ => false,
    }
}

// Whether the key of an entry is.
fn has_text(entry: &Entry, text: &str) -> bool
    ensures { result ≡ plain_eq (plain_text text.now) (plain_entry entry.now).0 }
{
    is_text(entry.key(), text)
}

/// The place of the key of a text among entries with distinct keys. No key is made of the text.
pub(crate) fn place_of_text(text: &str, entries: &[Entry]) -> Option<usize>
    requires { IsSound entries.now }
    ensures place { result ≡ place_where (plain_eq (plain_text text.now)) (entry_pairs entries.now) }
    ensures within { IfSome result (λ i. i < length entries.now) }
{
    let chains = chain_count(count(entries));
    if chains == 0 {
        return text_in_order(text, entries);
    }
    text_in_chain(text, entries, first_of(hash_text(text), entries))
}

fn text_in_order(text: &str, entries: &[Entry]) -> Option<usize>
    ensures within { IfSome result (λ i. i < length entries.now) }
    ensures place { result ≡ place_where (plain_eq (plain_text text.now)) (entry_pairs entries.now) }
{
    for i in 0..entries.len() {
        if has_text(&entries[i], text) {
            return Some(i);
        }
    }
    None
}

// The same by the index: only the chain of the text is gone along, from its last entry to its first.
fn text_in_chain(text: &str, entries: &[Entry], first: usize) -> Option<usize>
    requires sound { IsSound entries.now }
    requires some { 0 < chain_count (length entries.now) }
    requires first { first ≡ chain_end (text_hash text.now) entries.now }
    ensures within { IfSome result (λ i. i < length entries.now) }
    ensures place { result ≡ place_where (plain_eq (plain_text text.now)) (entry_pairs entries.now) }
{
    let mut left = first;
    for turn in 0..entries.len() {
        if left == 0 {
            return None;
        }
        let place = left - 1;
        if place >= entries.len() {
            return None;
        }
        if has_text(&entries[place], text) {
            return Some(place);
        }
        left = earlier_at(entries, place);
    }
    None
}
