//! YAML to JSON, and a field of any kind: callers that `yaml/CALLING.md` quotes.

use serde::{Deserialize, Serialize};
use serde_json::Value;
use std::alloc::Global;
use yaml::{Documents, Error};

/// The documents of a YAML text as JSON, a line each.
pub fn to_json(alloc: Global, text: &str) -> Result<String, Error> {
    let mut json = String::new(alloc);
    for value in Documents::from_str(alloc, text)?.into_iter::<Value>() {
        let value = value?;
        json.push_str(value.to_string(alloc)?.as_str())?;
        json.push_str("\n")?;
    }
    Ok(json)
}

/// A job, and whatever it is given.
#[derive(Drop, Serialize, Deserialize)]
pub struct Job {
    pub name: String,
    pub given: Value,
}
