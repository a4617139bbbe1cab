//! What a type is told that writes no value, or leaves one unended.

use std::alloc::Global;
use yaml_base::{Cause, Error};

/// Something was left open.
pub(crate) const UNENDED: &str = "a value began something and did not end it";

/// No document was written, or several were.
pub(crate) const NOT_ONE: &str = "a value wrote no document, or more than one";

/// A fault with this message.
pub(crate) fn told(alloc: Global, message: &str) -> Error {
    match String::from_str(alloc, message) {
        Ok(text) => Error::custom(text),
        Err(_) => Error::new(Cause::Memory),
    }
}
