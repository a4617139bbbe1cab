//! Cases that are answered again and again, with nothing left of the memory, and with a little more each time.

use super::asked;
use super::little::{answer, make};
use crate::case::Case;
use probe_writing::Shortage;
use std::alloc::{AllocError, Global};
use yaml_run::{Status, Told};
use yaml_shape::Schema;

// With so many pieces of memory each case is answered.
const PIECES: usize = 10_000;

// How a run with little memory ended, or all of them.
#[derive(Drop)]
enum Ending {
    // It was refused for memory.
    Refused,
    // It gave the answer of ample memory.
    Answered,
    // It gave this answer.
    Other(Told),
}

// Whether two answers are the same.
fn are_same(left: &Told, right: &Told) -> bool {
    left.ended == right.ended && left.text.as_str() == right.text.as_str()
}

// Whether an answer tells that something was refused for memory.
fn tells_of_memory(told: &Told) -> bool {
    told.ended == Status::Fault && told.text.contains("out of memory")
}

// How a run ended that gave this answer.
fn ending_of(plain: &Told, given: Result<Told, AllocError>) -> Ending {
    let Ok(told) = given else {
        return Ending::Refused;
    };
    if are_same(plain, &told) {
        Ending::Answered
    } else if tells_of_memory(&told) {
        Ending::Refused
    } else {
        Ending::Other(told)
    }
}

// Answers a case with so many pieces of memory.
fn run(
    alloc: Global,
    schema: &Schema,
    case: &Case<'_>,
    lines: &[u8],
    plain: &Told,
    memory: &mut Shortage,
    pieces: usize,
) -> Result<Ending, AllocError> {
    let made = make(alloc, schema, case, lines)?;
    memory.leave(alloc, pieces)?;
    let given = answer(alloc, schema, case, lines, made);
    memory.restore();
    Ok(ending_of(plain, given))
}

// How the first run ended that was not refused, and whether one was before it.
fn runs(
    alloc: Global,
    schema: &Schema,
    case: &Case<'_>,
    lines: &[u8],
    plain: &Told,
    memory: &mut Shortage,
) -> Result<(bool, Ending), AllocError> {
    for pieces in 0..PIECES {
        match run(alloc, schema, case, lines, plain, memory, pieces)? {
            Ending::Refused => {}
            ending => return Ok((pieces > 0, ending)),
        }
    }
    Ok((true, Ending::Refused))
}

// The same, with all memory given back.
fn all_runs(
    alloc: Global,
    schema: &Schema,
    case: &Case<'_>,
    lines: &[u8],
    plain: &Told,
) -> Result<(bool, Ending), AllocError> {
    let mut memory = Shortage::new(alloc)?;
    let found = runs(alloc, schema, case, lines, plain, &mut memory);
    drop(memory);
    found
}

// An answer behind what is said of its runs.
fn behind(alloc: Global, ended: Status, said: &str, told: &Told) -> Result<Told, AllocError> {
    let text = told.text.as_str();
    Ok(Told {
        ended,
        text: format!(in alloc; "{said}{text}")?,
    })
}

/// The answer to a case, behind a word where it was refused with less memory. Each request for memory is refused in one
/// run or another, since no block takes less than 32 bytes, and each run has 16 more.
pub fn under_budget(
    alloc: Global,
    schema: &Schema,
    case: &Case<'_>,
    lines: &[u8],
) -> Result<Told, AllocError> {
    let plain = asked(alloc, schema, case, lines)?;
    match all_runs(alloc, schema, case, lines, &plain)? {
        (true, Ending::Answered) => behind(alloc, plain.ended, "refused, then: ", &plain),
        (false, Ending::Answered) => Ok(plain),
        (_, Ending::Refused) => behind(alloc, Status::Refused, "refused each time: ", &plain),
        (_, Ending::Other(told)) => behind(alloc, Status::Refused, "another answer: ", &told),
    }
}
