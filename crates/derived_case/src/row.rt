//! A row, and the line that answers it.

use crate::budget::under_budget;
use crate::named::answer_as;
use std::alloc::{AllocError, Global};
use yaml::from_str;

/// What is printed behind a row of this name and text.
pub fn answer_of(alloc: Global, name: &str, text: &str) -> Result<String, AllocError> {
    match answer_as(alloc, name, text) {
        Ok(text) => format!(in alloc; "{text:?}"),
        Err(fault) => format!(in alloc; "! {fault}"),
    }
}

// The same with as much memory as the name says.
fn answer_within(alloc: Global, name: &str, text: &str) -> Result<String, AllocError> {
    match name.strip_suffix("/budget") {
        Some(name) => under_budget(alloc, name, text),
        None => answer_of(alloc, name, text),
    }
}

// The answer to a text that stands between quotes, as in YAML.
fn answer_to(alloc: Global, name: &str, quoted: &str) -> Result<String, AllocError> {
    match from_str::<String>(alloc, quoted) {
        Ok(text) => answer_within(alloc, name, text.as_str()),
        Err(_) => String::from_str(alloc, "? no text between quotes"),
    }
}

/// The row with its answer. A line that is empty or begins with `#` is no row, and stays as it is.
pub fn answered(alloc: Global, row: &str) -> Result<String, AllocError> {
    match row.split_once(' ') {
        Some((name, quoted)) if name != "#" => {
            let answer = answer_to(alloc, name, quoted)?;
            format!(in alloc; "{row}  => {answer}\n")
        }
        _ => format!(in alloc; "{row}\n"),
    }
}
