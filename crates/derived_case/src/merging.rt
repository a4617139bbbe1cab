//! Texts that are read with a choice of what is done with merge keys.

use crate::answer::told;
use serde::{Deserialize, Serialize};
use std::alloc::Global;
use std::collections::BTreeMap;
use yaml::{
    DocumentStream, Documents, Error, Merge, Value, from_slice_merging, from_str, from_str_merging,
    to_string,
};

/// How something is tried again.
#[derive(Drop, Serialize, Deserialize)]
#[serde(deny_unknown_fields)]
pub struct Retry {
    pub attempts: u8,
    pub delay: u8,
    #[serde(skip_serializing_if = "Option::is_none")]
    pub label: Option<String>,
}

/// What is run, and how.
#[derive(Drop, Serialize, Deserialize)]
pub struct Plan {
    pub jobs: BTreeMap<String, Retry>,
}

/// How the jobs of a text are tried again, each with what its merge keys name.
pub fn read_jobs(alloc: Global, text: &str) -> Result<Plan, Error> {
    from_str_merging(alloc, text, Merge::Apply)
}

/// A name that is lent from the text, and a number.
#[derive(Drop, Serialize, Deserialize)]
struct Lent<'a> {
    name: &'a str,
    size: u8,
}

// What is read of a text of bytes, as it is written.
fn answer<'a, T: Deserialize<'a> + Serialize>(
    alloc: Global,
    text: &'a str,
    merge: Merge,
) -> Result<String, Error> {
    let value: T = from_slice_merging(alloc, text.as_bytes(), merge)?;
    to_string(alloc, &value)
}

// What is read of a text's documents in turn, each behind `--- `.
fn in_turn<'a, T: Deserialize<'a> + Serialize>(
    alloc: Global,
    text: &'a str,
    merge: Merge,
) -> Result<String, Error> {
    let mut documents = Documents::from_str(alloc, text)?;
    let mut answer = String::new(alloc);
    for _ in 0..u64::MAX {
        let Some(read) = documents.read_next_merging::<T>(merge) else {
            break;
        };
        answer.push_str("--- ")?;
        answer.push_str(told(alloc, read)?.as_str())?;
    }
    Ok(answer)
}

// The same by `DocumentStream`.
fn in_stream(alloc: Global, text: &str, merge: Merge) -> Result<String, Error> {
    let mut documents = DocumentStream::from_slice(alloc, text.as_bytes())?;
    let mut answer = String::new(alloc);
    for _ in 0..u64::MAX {
        let Some(read) = documents.read_next_merging::<Value>(merge) else {
            break;
        };
        answer.push_str("--- ")?;
        answer.push_str(told(alloc, read)?.as_str())?;
    }
    Ok(answer)
}

/// What a text is answered that is read as the type of this name.
pub fn answer_of_merging(
    alloc: Global,
    name: &str,
    text: &str,
    merge: Merge,
) -> Result<String, Error> {
    match name {
        "Value" => answer::<Value>(alloc, text, merge),
        "Value/documents" => in_turn::<Value>(alloc, text, merge),
        "Value/stream" => in_stream(alloc, text, merge),
        "Vec<Retry>/documents" => in_turn::<Vec<Retry>>(alloc, text, merge),
        "Retry" => answer::<Retry>(alloc, text, merge),
        "Vec<Retry>" => answer::<Vec<Retry>>(alloc, text, merge),
        "Plan" => to_string(alloc, &read_jobs(alloc, text)?),
        "Lent" => answer::<Vec<Lent<'_>>>(alloc, text, merge),
        "BTreeMap<i64,bool>" => answer::<BTreeMap<i64, bool>>(alloc, text, merge),
        "BTreeMap<String,BTreeMap<String,u8>>" => {
            answer::<BTreeMap<String, BTreeMap<String, u8>>>(alloc, text, merge)
        }
        _ => Err(Error::custom(String::from_str(alloc, "no such type")?)),
    }
}

// The value with its merge keys applied, and applied again as long as that changes it.
fn applied(alloc: Global, text: &str) -> Result<Value, Error> {
    let mut value: Value = from_str(alloc, text)?;
    for _ in 0..100u8 {
        let before = value.copy(alloc)?;
        value.apply_merge()?;
        if value.equals(&before) {
            break;
        }
    }
    Ok(value)
}

/// Whether a value that is read with its merge keys applied is the one whose merge keys are applied then.
pub fn agree(alloc: Global, text: &str) -> Result<String, Error> {
    let read: Result<Value, Error> = from_str_merging(alloc, text, Merge::Apply);
    match (read, applied(alloc, text)) {
        (Ok(read), Ok(then)) => {
            let (one, other) = (to_string(alloc, &read)?, to_string(alloc, &then)?);
            if read.equals(&then) && one == other {
                return Ok(String::from_str(alloc, "the same")?);
            }
            Ok(format!(in alloc; "{one}and not {other}")?)
        }
        (Err(fault), Err(then)) => Ok(format!(in alloc; "! {fault}\n! {then}\n")?),
        (Err(fault), Ok(then)) => Ok(format!(in alloc; "! {fault}\n{then}\n")?),
        (Ok(read), Err(then)) => Ok(format!(in alloc; "{read}\n! {then}\n")?),
    }
}
