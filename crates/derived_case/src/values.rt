//! What is done with values of any kind.

use crate::callers::Service;
use serde::Deserialize;
use serde_json::{Error as JsonError, to_string as to_json, to_string_pretty};
use std::alloc::Global;
use yaml::{
    Documents, Error, Tag, Value, documents_to_string, from_str, from_value, to_string,
    to_string_unambiguous, to_value,
};

// The fault of JSON, by its text.
fn told_of_json<T: Drop>(alloc: Global, answer: Result<T, JsonError>) -> Result<T, Error> {
    match answer {
        Ok(value) => Ok(value),
        Err(fault) => Err(Error::custom(format!(in alloc; "{fault}")?)),
    }
}

// The value as compact JSON.
fn compact(alloc: Global, text: &str) -> Result<String, Error> {
    let value: Value = from_str(alloc, text)?;
    told_of_json(alloc, to_json(alloc, &value))
}

// The value as JSON over several lines.
fn pretty(alloc: Global, text: &str) -> Result<String, Error> {
    let value: Value = from_str(alloc, text)?;
    told_of_json(alloc, to_string_pretty(alloc, &value))
}

// A JSON text as YAML.
fn from_json(alloc: Global, text: &str) -> Result<String, Error> {
    let value: Value = told_of_json(alloc, serde_json::from_str(alloc, text))?;
    to_string(alloc, &value)
}

// The value in one line, if that is read back as an equal value.
fn shown(alloc: Global, text: &str) -> Result<String, Error> {
    let value: Value = from_str(alloc, text)?;
    let line = format!(in alloc; "{value}")?;
    let again: Value = from_str(alloc, line.as_str())?;
    let copy = value.copy(alloc)?;
    if value.equals(&again) && again.equals(&copy) {
        return Ok(line);
    }
    Err(Error::custom(format!(in alloc; "{line} is another value")?))
}

// The value with its merge keys applied.
fn merged(alloc: Global, text: &str) -> Result<String, Error> {
    let mut value: Value = from_str(alloc, text)?;
    value.apply_merge()?;
    to_string(alloc, &value)
}

/// A path, and the value that is gone into.
#[derive(Drop, Deserialize)]
struct Search {
    path: String,
    value: Value,
}

// What the path leads to, in one line.
fn found(alloc: Global, text: &str) -> Result<String, Error> {
    let search: Search = from_str(alloc, text)?;
    match search.value.pointer(search.path.as_str()) {
        Some(value) => Ok(format!(in alloc; "{value}")?),
        None => Ok(String::from_str(alloc, "nothing")?),
    }
}

// What the value is told to be.
fn kinds(alloc: Global, text: &str) -> Result<String, Error> {
    let value: Value = from_str(alloc, text)?;
    let (b, i, u) = (value.as_bool(), value.as_i64(), value.as_u64());
    let (wide, f, s) = (value.as_u128(), value.as_f64(), value.as_str());
    let (null, seq) = (value.is_null(), value.is_sequence());
    let (map, tagged) = (value.is_mapping(), value.as_tagged().is_some());
    Ok(format!(in alloc; "{b:?} {i:?} {u:?} {wide:?} {f:?} {s:?} {null} {seq} {map} {tagged}")?)
}

// Whether two values are equal.
fn equal(alloc: Global, text: &str) -> Result<String, Error> {
    let (a, b): (Value, Value) = from_str(alloc, text)?;
    Ok(format!(in alloc; "{}", a.equals(&b))?)
}

/// Moves each server to the next port, and drops what is old: values are changed in place.
pub fn moved(alloc: Global, text: &str) -> Result<String, Error> {
    let mut config: Value = from_str(alloc, text)?;
    if let Some(servers) = config.get_mut("servers").and_then(Value::as_sequence_mut) {
        for i in 0..servers.len() {
            if i < servers.len() {
                if let Some(port) = servers[i].get("port").and_then(Value::as_u64) {
                    servers[i].insert(alloc, "port", Value::from(port.saturating_add(1)))?;
                }
            }
        }
    }
    drop(config.remove("old"));
    let tag = Tag::new(alloc, "!when")?;
    let moved = Value::under_tag(alloc, tag, Value::text(alloc, "today")?)?;
    config.insert(alloc, "moved", moved)?;
    to_string(alloc, &config)
}

// A service of a value, as a value again.
fn converted(alloc: Global, text: &str) -> Result<String, Error> {
    let value: Value = from_str(alloc, text)?;
    let service: Service = from_value(alloc, &value)?;
    let again = to_value(alloc, &service)?;
    Ok(format!(in alloc; "{again}")?)
}

// The value as YAML that no other reader takes for something else.
fn unambiguous(alloc: Global, text: &str) -> Result<String, Error> {
    let value: Value = from_str(alloc, text)?;
    to_string_unambiguous(alloc, &value)
}

// The documents of the text as one text again.
fn rewritten(alloc: Global, text: &str) -> Result<String, Error> {
    let mut documents = Documents::from_str(alloc, text)?;
    let mut values = Vec::new(alloc);
    for _ in 0..u64::MAX {
        let Some(read) = documents.read_next::<Value>() else {
            break;
        };
        values.push(read?)?;
    }
    documents_to_string(alloc, values.as_slice())
}

/// What is done with the value of this text, by a name.
pub fn answer_of_value(alloc: Global, name: &str, text: &str) -> Result<String, Error> {
    match name {
        "json" => compact(alloc, text),
        "pretty" => pretty(alloc, text),
        "of-json" => from_json(alloc, text),
        "shown" => shown(alloc, text),
        "merged" => merged(alloc, text),
        "found" => found(alloc, text),
        "kinds" => kinds(alloc, text),
        "equal" => equal(alloc, text),
        "moved" => moved(alloc, text),
        "converted" => converted(alloc, text),
        "unambiguous" => unambiguous(alloc, text),
        "rewritten" => rewritten(alloc, text),
        _ => Err(Error::custom(String::from_str(alloc, "no such deed")?)),
    }
}
