//! Values of any kind that stand on a tape.

ghost use Rattle.std.specs.Prelude.{◌≡◌, ◌<◌, ◌+◌, ◌∷◌, ◌*◌, ℕ, IfSome, Ok, Some, length, pos};
ghost use Rattle.yaml_base.specs.Kinds.{kind_of};
ghost use Rattle.yaml_base.specs.PlainDocEvent.{mapping_ends, sequence_ends};
ghost use Rattle.yaml_base.specs.declared.found.Found.TheVariants.{Signed, Unsigned};
ghost use Rattle.yaml_meaning.specs.ScalarAny.{any_found, any_integer};
ghost use Rattle.yaml_meaning.specs.ScalarFound.{found_kind};
ghost use Rattle.yaml_tape.specs.OnDocs.{docs_from};
ghost use Rattle.yaml_tree.specs.Tree.{string};
ghost use Rattle.yaml_tree.specs.Valid.{pairs_of};
ghost use Rattle.yaml_tree.specs.View.{tree_of};
ghost use Rattle.yaml_types.specs.AnyNodes.{AnyShaped, ArePairs, IsValue};
ghost use Rattle.yaml_types.specs.NodeMeans.{ItemsMean, NodeMeans};

use crate::tape::{
    begins_mapping, begins_sequence, ends_mapping, ends_sequence, scalar_at, text_of,
};
use simdutf8::basic::from_utf8;
use std::alloc::Global;
use yaml_base::{Kind, ScalarStyle, resolve};
use yaml_tape::Tape;
use yaml_tree::{Mapping, Number, Sequence, Value};

// The integer as a value, where it is a number.
fn unsigned_value(integer: u128) -> Option<Value>
    ensures { IfSome result (λ v. any_integer (Unsigned integer) (pos integer) ≡ Ok (tree_of v)) }
{
    if integer <= u64::MAX as u128 {
        Some(Value::Number(Number::from_u64(integer as u64)))
    } else {
        None
    }
}

// The integer as a value, where it is a number.
fn signed_value(integer: i128) -> Option<Value>
    ensures { IfSome result (λ v. any_integer (Signed integer) integer ≡ Ok (tree_of v)) }
{
    if integer >= 0 {
        if integer <= u64::MAX as i128 {
            return Some(Value::Number(Number::from_u64(integer as u64)));
        }
    } else if integer >= i64::MIN as i128 {
        return Some(Value::Number(Number::from_i64(integer as i64)));
    }
    None
}

// The text as a value.
fn string_value(alloc: Global, text: &str) -> Option<Value>
    ensures { IfSome result (λ v. tree_of v ≡ string text.now) }
{
    let text = String::from_str(alloc, text).ok()?;
    Some(Value::String(text))
}

// The value that a plain text is, unless it is a float.
fn plain_value(alloc: Global, text: &str) -> Option<Value>
    ensures { IfSome result (λ v. any_found (found_kind text.now (kind_of text.now)) ≡ Ok (tree_of v)) }
{
    match resolve(text) {
        Kind::Null => Some(Value::Null),
        Kind::Bool(value) => Some(Value::Bool(value)),
        Kind::Unsigned(integer) => unsigned_value(integer),
        Kind::Signed(integer) => signed_value(integer),
        Kind::Float => None,
        Kind::Str => string_value(alloc, text),
    }
}

// The value of the scalar in a place, if one without a tag stands there.
fn scalar_value(alloc: Global, tape: &Tape<'_>, place: usize) -> Option<Value>
    ensures gives { IfSome result (λ v. (depth : ℕ)
        → NodeMeans AnyShaped IsValue tape.now place (place + 1) depth v) }
    ensures there { IfSome result (λ _. place < length tape.now.entries.items) }
{
    let entry = scalar_at(tape, place)?;
    let text = from_utf8(text_of(tape, entry)).ok()?;
    if entry.style == ScalarStyle::Plain {
        plain_value(alloc, text)
    } else {
        string_value(alloc, text)
    }
}

/// The value of the node in a place of a tape, which then is the place behind the node; or nothing. Nothing is answered
/// of a node with a tag, an alias, a float or an integer beyond 64 bits in it, with equal keys, or with more nestings
/// than there are.
#[cycle(values)]
pub(crate) fn value_at(
    alloc: Global,
    tape: &Tape<'_>,
    place: &mut usize,
    depth: usize,
) -> Option<Value>
    ensures read { IfSome result (NodeMeans AnyShaped IsValue tape.now place.old place.new depth) }
{
    if let Some(value) = scalar_value(alloc, tape, *place) {
        *place += 1;
        return Some(value);
    }
    if depth == 0 {
        return None;
    }
    if begins_sequence(tape, *place) {
        *place += 1;
        let items = values_at(alloc, tape, place, depth - 1)?;
        *place += 1;
        return Some(Value::Sequence(Sequence::from(items)));
    }
    if begins_mapping(tape, *place) {
        *place += 1;
        let pairs = pairs_at(alloc, tape, place, depth - 1)?;
        *place += 1;
        return Some(Value::Mapping(pairs));
    }
    None
}

// The values from a place of a tape on, up to the end of their sequence.
#[cycle(values)]
#[tactic(auto, using(crate::proofs::NodeReads::items_start, crate::proofs::NodeReads::items_next, crate::proofs::NodeReads::items_all))]
fn values_at(alloc: Global, tape: &Tape<'_>, place: &mut usize, depth: usize) -> Option<Vec<Value>>
    ensures items { IfSome result (λ xs.
        ItemsMean AnyShaped IsValue tape.now place.old place.new depth xs.items) }
    ensures ended { IfSome result (λ _.
        docs_from tape.now place.new ≡ Some sequence_ends ∷ docs_from tape.now (place.new + 1)) }
    ensures there { IfSome result (λ _. place.new < length tape.now.entries.items) }
{
    let mut items = Vec::new(alloc);
    'items: for _ in 0..tape.entries.len() {
        if ends_sequence(tape, *place) {
            return Some(items);
        }
        let item = value_at(alloc, tape, place, depth)?;
        items.push(item).ok()?;
    }
    None
}

// The pairs from a place of a tape on, up to the end of their mapping, if no two keys are equal.
#[cycle(values)]
#[tactic(auto, using(crate::proofs::AnyReads::pairs_begun, crate::proofs::AnyReads::pair_added, crate::proofs::AnyReads::pairs_read))]
fn pairs_at(alloc: Global, tape: &Tape<'_>, place: &mut usize, depth: usize) -> Option<Mapping>
    ensures pairs { IfSome result (λ m. ArePairs tape.now place.old place.new depth (pairs_of m)) }
    ensures ended { IfSome result (λ _.
        docs_from tape.now place.new ≡ Some mapping_ends ∷ docs_from tape.now (place.new + 1)) }
    ensures there { IfSome result (λ _. place.new < length tape.now.entries.items) }
{
    let mut pairs = Mapping::new(alloc);
    'pairs: for _ in 0..tape.entries.len() {
        if ends_mapping(tape, *place) {
            return Some(pairs);
        }
        let key = value_at(alloc, tape, place, depth)?;
        let value = value_at(alloc, tape, place, depth)?;
        match pairs.insert(key, value) {
            Ok(None) => (),
            _ => return None,
        }
    }
    None
}
