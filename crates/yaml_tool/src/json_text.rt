//! A part of a document as JSON.

ghost use Rattle.std.specs.Prelude.{◌≡◌, false, string_bytes, IfErr, IfOk};
ghost use Rattle.yaml_base.specs.Answer.{is_memory};
ghost use Rattle.yaml_query.specs.NoJson.{HasNone};
ghost use Rattle.yaml_tool.specs.Asked.{HasNoJson, IsJsonLine, IsJsonText};
ghost use Rattle.yaml_value.specs.PlainValue.{PlainValue};
ghost use Rattle.yaml_value.specs.View.{plain};

use crate::characters::json_line;
use std::alloc::{AllocError, Global};
use yaml_base::{Cause, Error, Result};
use yaml_query::{JsonFault, Path, Reason, Step, Steps, to_json, to_json_pretty};
use yaml_value::Value;

// The way to a part of a part.
fn way_to(alloc: Global, part: &[Step], below: &[Step]) -> std::result::Result<String, AllocError> {
    let (way, below) = (Steps(part), Steps(below));
    let rest = format!(in alloc; "{below}")?;
    if part.is_empty() {
        return Ok(rest);
    }
    let rest = rest.as_str();
    match rest.strip_prefix('.') {
        Some(rest) => format!(in alloc; "{way}{rest}"),
        None => format!(in alloc; "{way}.{rest}"),
    }
}

fn words_of(why: Reason) -> &'static str {
    match why {
        Reason::NotFinite => "JSON has no infinite floats, and none that are no number",
        Reason::CollectionKey => "JSON has no keys that are sequences or mappings",
    }
}

// What is told of a part of a part that has no JSON.
fn words(
    alloc: Global,
    part: &[Step],
    below: &[Step],
    why: Reason,
) -> std::result::Result<String, AllocError> {
    let way = way_to(alloc, part, below)?;
    let words = words_of(why);
    format!(in alloc; "{way}: {words}")
}

// The fault of the part to which a path leads, of which no JSON stands for a part.
fn fault_of(alloc: Global, path: &Path, fault: JsonFault) -> Error
    ensures { (v : PlainValue) → HasNone v fault → is_memory result ≡ false → HasNoJson v }
{
    let JsonFault::At(why, below) = fault else {
        return Error::new(Cause::Memory);
    };
    match words(alloc, path.steps.as_slice(), below.steps.as_slice(), why) {
        Ok(text) => Error::custom(text),
        Err(_) => Error::new(Cause::Memory),
    }
}

// The JSON of a part, in a line or in lines.
fn json_of(alloc: Global, in_lines: bool, part: &Value) -> std::result::Result<String, JsonFault>
    ensures text { IfOk result (λ text. IsJsonText in_lines (plain part.now) (string_bytes text)) }
    ensures none { IfErr result (HasNone (plain part.now)) }
{
    if in_lines {
        to_json_pretty(alloc, part)
    } else {
        to_json(alloc, part)
    }
}

/// The part to which a path leads, as JSON in a line or in lines, with a line feed behind it. A fault tells where no
/// JSON stands for it.
pub fn as_json(alloc: Global, path: &Path, in_lines: bool, part: &Value) -> Result<String>
    ensures text { IfOk result (λ text. IsJsonLine in_lines (plain part.now) (string_bytes text)) }
    ensures none { IfErr result (λ cause. is_memory cause ≡ false → HasNoJson (plain part.now)) }
{
    match json_of(alloc, in_lines, part) {
        Ok(json) => Ok(json_line(alloc, json.as_str())?),
        Err(fault) => Err(fault_of(alloc, path, fault)),
    }
}
