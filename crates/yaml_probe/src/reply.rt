//! The reply to an input: a line for each case. Nothing is written here.

use crate::batch::answer_all;
use std::alloc::Global;
use std::io::Read;
use yaml_run::{Unanswered, read_input};

/// The lines that answer the cases of an input, and whether each of its tables is a schema.
#[derive(Drop)]
pub struct Answers {
    /// A line for each case.
    pub lines: String,
    /// Whether each table is a schema.
    pub accepted: bool,
}

// The reply to an input that was read whole.
fn answers_to(alloc: Global, input: &[u8]) -> Result<Answers, Unanswered> {
    let mut lines = String::new(alloc);
    match answer_all(alloc, input, &mut lines) {
        Ok(accepted) => Ok(Answers { lines, accepted }),
        Err(_) => Err(Unanswered::OutOfMemory),
    }
}

/// Reads all of the input, and answers each of its cases. All of the input is read before any line is looked at.
pub fn reply<R: Read>(alloc: Global, reader: &mut R) -> Result<Answers, Unanswered> {
    let input = read_input(alloc, reader)?;
    answers_to(alloc, input.as_slice())
}
