//! JSON as YAML.

ghost use Rattle.std.specs.Prelude.{List, map, string_bytes, IfOk, OnOk};
ghost use Rattle.yaml.specs.WrittenDocument.{IsWrittenDocument};
ghost use Rattle.yaml_ambiguous.specs.Quoting.{unambiguous};
ghost use Rattle.yaml_base.specs.EmitEvents.{PlainEmit};
ghost use Rattle.yaml_emit.specs.StreamTexts.{IsStreamText};
ghost use Rattle.yaml_tool.specs.Asked.{IsJson};

use json::Scratch;
use serde_json::Category;
use std::alloc::{AllocError, Global};
use yaml::to_string_unambiguous;
use yaml_base::{Cause, Error, Kind, Mark, Path, Result, resolve};
use yaml_float::parse_f64;
use yaml_parse::mark_at;
use yaml_value::{Mapping, Sequence, Value};

// The number of a text: an integer of at most 128 bits, or else a float, if it is in the range of floats.
fn number_of(text: &str) -> Option<Value> {
    match resolve(text) {
        Kind::Unsigned(n) => Some(Value::from(n)),
        Kind::Signed(n) => Some(Value::from(n)),
        _ => Some(Value::from(parse_f64(text.as_bytes())?)),
    }
}

// The sequence of an array.
#[cycle(json)]
fn sequence_of(
    alloc: Global,
    items: &[json::Value<'_>],
) -> std::result::Result<Option<Value>, AllocError> {
    let mut values = Vec::new(alloc);
    for item in items {
        let Some(value) = value_of(alloc, item)? else {
            return Ok(None);
        };
        values.push(value)?;
    }
    Ok(Some(Value::Sequence(Sequence::from(values))))
}

// The mapping of an object, unless a key stands twice there.
#[cycle(json)]
fn mapping_of(
    alloc: Global,
    members: &[(&str, json::Value<'_>)],
) -> std::result::Result<Option<Value>, AllocError> {
    let mut mapping = Mapping::new(alloc);
    for member in members {
        let Some(value) = value_of(alloc, &member.1)? else {
            return Ok(None);
        };
        let key = Value::text(alloc, member.0)?;
        if mapping.insert(key, value)?.is_some() {
            return Ok(None);
        }
    }
    Ok(Some(Value::Mapping(mapping)))
}

// The value of JSON. None stands for a number that is beyond the floats, and for a key that stands twice.
#[cycle(json)]
fn value_of(
    alloc: Global,
    json: &json::Value<'_>,
) -> std::result::Result<Option<Value>, AllocError> {
    match json {
        json::Value::Null => Ok(Some(Value::Null)),
        json::Value::Bool(truth) => Ok(Some(Value::Bool(*truth))),
        json::Value::Number(text) => Ok(number_of(text)),
        json::Value::String(text) => Ok(Some(Value::text(alloc, text)?)),
        json::Value::Array(items) => sequence_of(alloc, items.as_slice()),
        json::Value::Object(members) => mapping_of(alloc, members.as_slice()),
    }
}

// Where a line of a text begins, of which the first is 1.
fn start_of(text: &[u8], line: usize) -> usize {
    let mut left = line.saturating_sub(1);
    for (i, byte) in text.iter().enumerate() {
        if left == 0 {
            return i;
        }
        if *byte == b'\n' {
            left -= 1;
        }
    }
    text.len()
}

// Where a fault stands, which counts bytes.
fn place_of(text: &[u8], fault: &serde_json::Error) -> Option<Mark> {
    let before = fault.column().saturating_sub(1);
    let index = start_of(text, fault.line()).saturating_add(before);
    let start = Mark::new(0, 0, 0)?;
    Some(mark_at(text, start, index.min(text.len()) as u64))
}

const NO_JSON: &str = "this is no JSON";

const TOO_LARGE: &str = "a number of this JSON is beyond all floats";

fn words_of(alloc: Global, fault: &serde_json::Error) -> Result<&'static str> {
    let text = format!(in alloc; "{fault}")?;
    if text.as_str().starts_with("number out of range") {
        return Ok(TOO_LARGE);
    }
    match fault.classify() {
        Category::Eof => Ok("this JSON ends too soon"),
        Category::Data => Ok("a key of this JSON stands twice"),
        _ => Ok(NO_JSON),
    }
}

// A fault with these words.
fn fault_in(alloc: Global, words: &str) -> Result<Error> {
    Ok(Error::custom(String::from_str(alloc, words)?))
}

// The fault that `serde_json` meets in a text, which tells its place.
fn placed_fault(alloc: Global, text: &[u8]) -> Result<Error> {
    let read: std::result::Result<Value, serde_json::Error> = serde_json::from_slice(alloc, text);
    let Err(fault) = read else {
        return fault_in(alloc, NO_JSON);
    };
    let words = fault_in(alloc, words_of(alloc, &fault)?)?;
    match place_of(text, &fault) {
        Some(mark) => words.fix_mark(alloc, mark, &Path::Root),
        None => Ok(words),
    }
}

// The fault of a text that is no JSON, or none that has a value.
fn fault_of(alloc: Global, text: &[u8]) -> Error {
    match placed_fault(alloc, text) {
        Ok(fault) => fault,
        Err(fault) => fault,
    }
}

// The value of a JSON text.
fn read(alloc: Global, text: &[u8]) -> Result<Value>
    ensures { OnOk result (IsJson text.now) }
{
    let mut scratch = Scratch::new(alloc);
    match json::Value::from_slice(alloc, text, &mut scratch) {
        Ok(json) => match value_of(alloc, &json)? {
            Some(value) => Ok(value),
            None => Err(fault_of(alloc, text)),
        },
        Err(json::Error::OutOfMemory) => Err(Error::new(Cause::Memory)),
        Err(_) => Err(fault_of(alloc, text)),
    }
}

/// The YAML text of a JSON text: one document, which other readers of YAML take as it is meant.
pub fn from_json(alloc: Global, text: &[u8]) -> Result<String>
    ensures json { OnOk result (IsJson text.now) }
    ensures yaml { IfOk result (λ yaml. (events : List PlainEmit) × IsWrittenDocument events
        × IsStreamText (map unambiguous events) (string_bytes yaml)) }
{
    let value = read(alloc, text)?;
    to_string_unambiguous(alloc, &value)
}
