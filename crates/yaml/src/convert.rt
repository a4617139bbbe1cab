//! From a value of a type to a value of any kind, and back. Both go through text, which is read as it was written.

use crate::typed::{alone, from_str, read_owned};
use crate::write::to_string;
use serde::{DeserializeOwned, Serialize};
use std::alloc::Global;
use yaml_base::{Cause, Error, Result};
use yaml_documents::load;
use yaml_value::Value;

/// What a value of a type is written as, as a value of any kind: variants under their tags, floats and integers as they
/// are.
pub fn to_value<T: Serialize>(alloc: Global, value: &T) -> Result<Value> {
    let text = to_string(alloc, value)?;
    from_str(alloc, text.as_str())
}

/// The value of a type that a value of any kind is. A fault tells its line and column in the text that `to_string`
/// writes of the value.
pub fn from_value<T: DeserializeOwned>(alloc: Global, value: &Value) -> Result<T> {
    let text = to_string(alloc, value)?;
    let mut documents = load(alloc, text.as_bytes())?;
    let Some(document) = documents.next_document() else {
        return Err(Error::new(Cause::EndOfStream));
    };
    alone(read_owned(alloc, &document), &mut documents)
}
