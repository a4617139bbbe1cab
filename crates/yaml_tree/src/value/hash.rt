//! Hashes of keys.
ghost use Rattle.std.specs.Prelude.{◌≡◌};
ghost use Rattle.yaml_tree.specs.Hash.{hash_of, integer_hash, text_hash};
ghost use Rattle.yaml_tree.specs.Number.{number_of};
ghost use Rattle.yaml_tree.specs.Valid.{tree_of_tagged};
ghost use Rattle.yaml_tree.specs.View.{tree_of};

use crate::number::{Integer, Number};
use crate::value::{TaggedValue, Value};
use std::hash::{FoldHasher, Hasher};

/// The hash of a key: equal keys have one hash. All sequences have one, and all mappings.
#[cycle(hash)]
pub(crate) fn hash_value(key: &Value) -> u64
    ensures { result ≡ hash_of (tree_of key.now) }
{
    match key {
        Value::Null => 0,
        Value::Bool(false) => 1,
        Value::Bool(true) => 2,
        Value::Number(number) => hash_number(*number),
        Value::String(text) => hash_text(text.as_bytes()),
        Value::Sequence(_) => 3,
        Value::Mapping(_) => 4,
        Value::Tagged(tagged) => hash_tagged(tagged),
    }
}

#[cycle(hash)]
fn hash_tagged(tagged: &TaggedValue) -> u64
    ensures { result ≡ hash_of (tree_of_tagged tagged.now) }
{
    let mut hasher = FoldHasher::default();
    hasher.write(tagged.tag.name());
    hasher.write_u64(hash_value(&tagged.value));
    hasher.finish()
}

/// The hash of the key of a text.
pub(crate) fn hash_text(text: &[u8]) -> u64
    ensures { result ≡ text_hash text.now }
{
    let mut hasher = FoldHasher::default();
    hasher.write(text);
    hasher.finish()
}

fn hash_number(number: Number) -> u64
    ensures { result ≡ integer_hash (number_of number) }
{
    let mut hasher = FoldHasher::default();
    hasher.write_u64(match number.integer {
        Integer::Unsigned(n) => n,
        Integer::Negative(n) => n.unsigned_abs(),
    });
    hasher.finish()
}
