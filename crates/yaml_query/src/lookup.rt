//! What a path leads to.

ghost use Rattle.std.specs.Prelude.{◌≡◌, pos, option_map};
ghost use Rattle.std.specs.Result.{result_ok};
ghost use Rattle.yaml_query.specs.AtPath.{found_at, step_in};
ghost use Rattle.yaml_query.specs.Found.{seen};
ghost use Rattle.yaml_query.specs.Steps.{plain_step, plain_steps};
ghost use Rattle.yaml_value.specs.Find.{at, get, item_in_place, value_at};
ghost use Rattle.yaml_value.specs.PlainEqual.{plain_eq};
ghost use Rattle.yaml_value.specs.PlainValue.{integer, text as plain_text};
ghost use Rattle.yaml_value.specs.View.{plain, plain_items, plain_pairs};

use crate::step::{Path, Step};
use yaml_value::{Mapping, Number, Value};

// Whether a value is this text.
fn is_text(value: &Value, text: &str) -> bool
    ensures { result ≡ plain_eq (plain_text text.now) (plain value.now) }
{
    match value {
        Value::String(other) => text.as_bytes() == other.as_bytes(),
        _ => false,
    }
}

// Whether a value is this number.
fn is_number(value: &Value, n: usize) -> bool
    ensures { result ≡ plain_eq (integer (pos n)) (plain value.now) }
{
    match value {
        Value::Number(other) => Number::from_u128(n as u128).equals(*other),
        _ => false,
    }
}

// The value at the key that is this text.
fn at_text<'v>(mapping: &'v Mapping, text: &str) -> Option<&'v Value>
    ensures { option_map (λ value. plain value.now) result
        ≡ value_at (plain_text text.now) (plain_pairs mapping.now) }
{
    for entry in mapping.iter() {
        if is_text(entry.key(), text) {
            return Some(entry.value());
        }
    }
    None
}

// The value at the key that is this number.
fn at_number(mapping: &Mapping, n: usize) -> Option<&Value>
    ensures { option_map (λ value. plain value.now) result
        ≡ value_at (integer (pos n)) (plain_pairs mapping.now) }
{
    for entry in mapping.iter() {
        if is_number(entry.key(), n) {
            return Some(entry.value());
        }
    }
    None
}

// The value in a place.
fn in_place(items: &[Value], place: usize) -> Option<&Value>
    ensures { option_map (λ value. plain value.now) result ≡ item_in_place place (plain_items items.now) }
{
    if place < items.len() {
        Some(&items[place])
    } else {
        None
    }
}

// What a key leads to.
fn step_to_key<'v>(value: &'v Value, key: &str) -> Option<&'v Value>
    ensures { option_map (λ value. plain value.now) result ≡ get key.now (plain value.now) }
{
    at_text(value.as_mapping()?, key)
}

// What a place leads to.
fn step_to_place(value: &Value, place: usize) -> Option<&Value>
    ensures { option_map (λ value. plain value.now) result ≡ at place (plain value.now) }
{
    match value {
        Value::Sequence(items) => in_place(items.as_slice(), place),
        Value::Mapping(mapping) => at_number(mapping, place),
        Value::Tagged(tagged) => step_to_place(&tagged.value, place),
        _ => None,
    }
}

// What a step leads to.
fn step_to<'v>(value: &'v Value, step: &Step) -> Option<&'v Value>
    ensures { option_map (λ value. plain value.now) result ≡ step_in (plain_step step.now) (plain value.now) }
{
    match step {
        Step::Key(key) => step_to_key(value, key.as_str()),
        Step::Index(place) => step_to_place(value, *place),
    }
}

/// What a path leads to; or how many of its steps lead somewhere, where the next one does not. Takes no memory.
///
/// A key leads to the value at the text that it is, a place to the element there, counted from 0, or to the value at
/// the key that is this number. Tags are looked through.
pub fn find<'v>(value: &'v Value, path: &Path) -> Result<&'v Value, usize>
    ensures { seen result ≡ found_at (plain_steps path.now.steps.items) (plain value.now) }
{
    let steps = path.steps.as_slice();
    let mut found = value;
    for i in 0..steps.len() {
        match step_to(found, &steps[i]) {
            Some(next) => found = next,
            None => return Err(i),
        }
    }
    Ok(found)
}

/// What a path leads to, if it leads somewhere. Takes no memory.
pub fn get<'v>(value: &'v Value, path: &Path) -> Option<&'v Value>
    ensures { option_map (λ value. plain value.now) result
        ≡ result_ok (found_at (plain_steps path.now.steps.items) (plain value.now)) }
{
    find(value, path).ok()
}
