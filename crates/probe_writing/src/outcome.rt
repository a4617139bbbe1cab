//! How a case ended, and what is told of it.

use std::alloc::{AllocError, Global};

/// What is told of a case, by how it ended.
#[derive(Drop)]
pub enum Outcome {
    /// What was asked was done.
    Done(String),
    /// The same, and a fault is told.
    Fault(String),
    /// The lines of the case were refused.
    Refused(String),
}

/// An answer that refuses the lines by this text.
pub fn refused(alloc: Global, text: &str) -> Result<Outcome, AllocError> {
    Ok(Outcome::Refused(String::from_str(alloc, text)?))
}
