//! Values with their places: callers that `yaml/CALLING.md` quotes.

use derived_types::enums::Scalar;
use serde::{Deserialize, Serialize};
use std::alloc::Global;
use yaml::{Error, Spanned, from_str};

/// A port that someone asks for.
#[derive(Drop, Serialize, Deserialize)]
pub struct Asked {
    pub name: String,
    pub port: Spanned<u16>,
    #[serde(skip_serializing_if = "Option::is_none")]
    pub spare: Option<Spanned<u16>>,
}

/// A complaint about the first port that only the system may have, with its place.
pub fn complaint(alloc: Global, text: &str) -> Result<Option<String>, Error> {
    let asked: Vec<Asked> = from_str(alloc, text)?;
    for one in &asked {
        if one.port.value < 1024 {
            let (line, column) = (one.port.line, one.port.column);
            let (name, port) = (one.name.as_str(), one.port.value);
            return Ok(Some(format!(in alloc; "{line}:{column}: {name} asks for port {port}")?));
        }
    }
    Ok(None)
}

/// The complaint, or that there is none.
pub fn told_complaint(alloc: Global, text: &str) -> Result<String, Error> {
    match complaint(alloc, text)? {
        Some(told) => Ok(told),
        None => Ok(String::from_str(alloc, "none")?),
    }
}

/// How to be reached, with places.
#[derive(Drop, Serialize, Deserialize)]
pub enum Way {
    Any,
    Port(Spanned<u16>),
}

// A place, as `LINE:COLUMN@INDEX`.
fn place_of<T>(alloc: Global, spanned: &Spanned<T>) -> Result<String, Error> {
    let (line, column, index) = (spanned.line, spanned.column, spanned.index);
    Ok(format!(in alloc; "{line}:{column}@{index} ")?)
}

/// The places of a list and of its elements.
pub fn places(alloc: Global, text: &str) -> Result<String, Error> {
    let list: Spanned<Vec<Spanned<Scalar>>> = from_str(alloc, text)?;
    let mut places = place_of(alloc, &list)?;
    for one in &list.value {
        places.push_str(place_of(alloc, one)?.as_str())?;
    }
    Ok(places)
}

/// Whether JSON's reader reads a value with its place.
pub fn is_read_of_json(alloc: Global, text: &str) -> Result<String, Error> {
    let read: Result<Spanned<Scalar>, serde_json::Error> = serde_json::from_str(alloc, text);
    let told = if read.is_ok() { "read" } else { "refused" };
    Ok(String::from_str(alloc, told)?)
}
