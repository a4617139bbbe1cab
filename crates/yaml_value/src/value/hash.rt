//! Hashes of keys.

ghost use Rattle.std.specs.Prelude.{◌≡◌, ◌+◌, ◌%◌, ◌^◌};
ghost use Rattle.yaml_value.specs.Hash.{hash_of, pair_hash, tagged_hash, text_hash};
ghost use Rattle.yaml_value.specs.PlainValue.{mapping as plain_mapping, sequence as sequence_of};
ghost use Rattle.yaml_value.specs.View.{plain, plain_entry, plain_pairs, plain_sequence, plain_tagged};

use crate::mapping::{Entry, Mapping};
use crate::sequence::Sequence;
use crate::value::{TaggedValue, Value};
use std::hash::{FoldHasher, Hasher};

/// The hash of a key: equal keys have one hash.
#[cycle(hash)]
pub(crate) fn hash_value(key: &Value) -> u64
    ensures { result ≡ hash_of (plain key.now) }
{
    match key {
        Value::Null => 0,
        Value::Bool(false) => 1,
        Value::Bool(true) => 2,
        Value::Number(number) => number.hash(),
        Value::String(text) => hash_text(text.as_str()),
        Value::Sequence(sequence) => hash_items(sequence),
        Value::Mapping(mapping) => hash_mapping(mapping),
        Value::Tagged(tagged) => hash_tagged(tagged),
    }
}

#[cycle(hash)]
fn hash_tagged(tagged: &TaggedValue) -> u64
    ensures { result ≡ tagged_hash (plain_tagged tagged.now).0 (hash_of (plain_tagged tagged.now).1) }
{
    let content = hash_value(&tagged.value);
    let mut hasher = FoldHasher::default();
    hasher.write(tagged.tag.as_str().as_bytes());
    hasher.write_u64(content);
    hasher.finish()
}

#[cycle(hash)]
fn hash_items(sequence: &Sequence) -> u64
    ensures { result ≡ hash_of (sequence_of (plain_sequence sequence.now)) }
{
    let mut hasher = FoldHasher::default();
    for item in &sequence.items {
        let hash = hash_value(item);
        hasher.write_u64(hash);
    }
    hasher.finish()
}

// In whatever order the pairs stand.
#[cycle(hash)]
fn hash_mapping(mapping: &Mapping) -> u64
    ensures { result ≡ hash_of (plain_mapping (plain_pairs mapping.now)) }
{
    let mut sum = 4u64;
    for entry in &mapping.entries {
        let hash = hash_entry(entry);
        let more = plus(sum, hash);
        sum = more;
    }
    sum
}

// The sum in 64 bits.
fn plus(a: u64, b: u64) -> u64
    ensures { result ≡ (a + b) % 2 ^ 64 }
{
    a.wrapping_add(b)
}

#[cycle(hash)]
fn hash_entry(entry: &Entry) -> u64
    ensures { result ≡ pair_hash (hash_of (plain_entry entry.now).0) (hash_of (plain_entry entry.now).1) }
{
    let key = hash_value(&entry.key);
    let value = hash_value(&entry.value);
    let mut hasher = FoldHasher::default();
    hasher.write_u64(key);
    hasher.write_u64(value);
    hasher.finish()
}

/// The hash of the key of a text.
pub(crate) fn hash_text(text: &str) -> u64
    ensures { result ≡ text_hash text.now }
{
    let mut hasher = FoldHasher::default();
    hasher.write(text.as_bytes());
    hasher.finish()
}
