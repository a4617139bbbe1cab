//! The part of a value that is asked for.

ghost use Rattle.std.specs.Prelude.{◌≡◌, ◌⊎◌, ℕ, Err, Ok, true, IfErr, IfOk};
ghost use Rattle.yaml_base.specs.Answer.{is_memory};
ghost use Rattle.yaml_query.specs.AtPath.{found_at};
ghost use Rattle.yaml_query.specs.Steps.{plain_steps};
ghost use Rattle.yaml_value.specs.View.{plain};

use std::alloc::{AllocError, Global};
use yaml_base::{Cause, Error, Result};
use yaml_query::{Path, Step, Steps, find};
use yaml_value::Value;

// What a value is called.
fn kind_of(value: &Value) -> &'static str {
    match value {
        Value::Null => "null",
        Value::Bool(_) => "a boolean",
        Value::Number(_) => "a number",
        Value::String(_) => "a text",
        Value::Sequence(_) => "a sequence",
        Value::Mapping(_) => "a mapping",
        Value::Tagged(tagged) => kind_of(&tagged.value),
    }
}

// What steps lead to.
fn reached<'v>(value: &'v Value, steps: &[Step]) -> Option<&'v Value> {
    let mut part = value;
    for step in steps {
        part = match step {
            Step::Key(key) => part.get(key.as_str())?,
            Step::Index(place) => part.at(*place)?,
        };
    }
    Some(part)
}

// Why a step from a value leads nowhere.
fn reason(alloc: Global, value: &Value, step: &Step) -> std::result::Result<String, AllocError> {
    let kind = kind_of(value);
    match (step, value.as_sequence()) {
        (Step::Index(_), Some(items)) => {
            let count = items.len();
            format!(in alloc; "there is no such place: the sequence has {count}, counted from 0")
        }
        _ if value.is_mapping() => String::from_str(alloc, "there is no such key"),
        (Step::Key(_), _) => format!(in alloc; "there is no such key: {kind} has none"),
        (Step::Index(_), None) => format!(in alloc; "there is no such place: {kind} has none"),
    }
}

// What is told of a path of which only so many steps lead somewhere.
fn words(
    alloc: Global,
    value: &Value,
    steps: &[Step],
    count: usize,
) -> std::result::Result<String, AllocError> {
    let way = Steps(steps.get(..count.saturating_add(1)).unwrap_or(steps));
    let before = steps.get(..count).unwrap_or(steps);
    match (reached(value, before), steps.get(count)) {
        (Some(part), Some(step)) => {
            let reason = reason(alloc, part, step)?;
            format!(in alloc; "{way}: {reason}")
        }
        _ => format!(in alloc; "{way}: there is no such part"),
    }
}

// The fault of a path of which only so many steps lead somewhere.
fn nowhere(alloc: Global, value: &Value, steps: &[Step], count: usize) -> Error {
    match words(alloc, value, steps, count) {
        Ok(text) => Error::custom(text),
        Err(_) => Error::new(Cause::Memory),
    }
}

/// The part to which a path leads. A fault tells that it leads nowhere, or that memory ran out.
pub fn part_of<'v>(alloc: Global, value: &'v Value, path: &Path) -> Result<&'v Value>
    ensures part { IfOk result (λ part.
        found_at (plain_steps path.now.steps.items) (plain value.now) ≡ Ok (plain part.now)) }
    ensures nowhere { IfErr result (λ _. (count : ℕ)
        × (found_at (plain_steps path.now.steps.items) (plain value.now) ≡ Err count)) }
{
    match find(value, path) {
        Ok(part) => Ok(part),
        Err(count) => Err(nowhere(alloc, value, path.steps.as_slice(), count)),
    }
}
