//! Rows that are answered again and again, with nothing left of the memory, and with a little more each time.

use crate::row::answer_of;
use probe_writing::Shortage;
use std::alloc::{AllocError, Global};

// With so many pieces of memory each row is answered.
const PIECES: usize = 10_000;

// How a run with little memory ended, or all of them.
#[derive(Drop)]
enum Ending {
    // It was refused for memory, or a document of it was.
    Refused,
    // It gave the answer of ample memory.
    Answered,
    // It gave this answer.
    Other(String),
}

// Whether an answer, or that of a document, is that it was refused for memory.
fn tells_of_memory(answer: &str) -> bool {
    answer.starts_with("! out of memory")
}

// Whether each document has its own answer, or was refused for memory, and none is lost. More than there are may be
// refused: a stream that found no memory for its next document answers that each time.
fn is_in_part(plain: &str, given: &str) -> bool {
    let mut own = plain.split("--- ");
    for part in given.split("--- ") {
        match own.next() {
            Some(answer) if answer == part => {}
            _ if tells_of_memory(part) => {}
            _ => return false,
        }
    }
    own.next().is_none()
}

// How a run ended that gave this answer.
fn ending_of(plain: &str, given: Result<String, AllocError>) -> Ending {
    let Ok(answer) = given else {
        return Ending::Refused;
    };
    if answer.as_str() == plain {
        Ending::Answered
    } else if tells_of_memory(answer.as_str()) || is_in_part(plain, answer.as_str()) {
        Ending::Refused
    } else {
        Ending::Other(answer)
    }
}

// How the first run ended that was not refused, and whether one was before it.
fn runs(
    alloc: Global,
    name: &str,
    text: &str,
    plain: &str,
    memory: &mut Shortage,
) -> Result<(bool, Ending), AllocError> {
    for pieces in 0..PIECES {
        memory.leave(alloc, pieces)?;
        let given = answer_of(alloc, name, text);
        memory.restore();
        match ending_of(plain, given) {
            Ending::Refused => {}
            ending => return Ok((pieces > 0, ending)),
        }
    }
    Ok((true, Ending::Refused))
}

// The same, with all memory given back.
fn all_runs(
    alloc: Global,
    name: &str,
    text: &str,
    plain: &str,
) -> Result<(bool, Ending), AllocError> {
    let mut memory = Shortage::new(alloc)?;
    let found = runs(alloc, name, text, plain, &mut memory);
    drop(memory);
    found
}

/// The answer to a text that is read as the type of this name, behind a word where it was refused with less memory.
/// Each request for memory is refused in one run or another, since no block takes less than 32 bytes, and each run has
/// 16 more.
pub fn under_budget(alloc: Global, name: &str, text: &str) -> Result<String, AllocError> {
    let plain = answer_of(alloc, name, text)?;
    match all_runs(alloc, name, text, plain.as_str())? {
        (true, Ending::Answered) => format!(in alloc; "refused, then: {plain}"),
        (false, Ending::Answered) => Ok(plain),
        (_, Ending::Refused) => format!(in alloc; "refused each time: {plain}"),
        (_, Ending::Other(answer)) => format!(in alloc; "another answer: {answer}"),
    }
}
