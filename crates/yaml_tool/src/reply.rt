//! The reply to an input. Nothing is written here.

ghost use Rattle.std.specs.Prelude.{◌≡◌, List, ℕ, string_bytes, IfOk, IfSome};
ghost use Rattle.yaml_tool.specs.Answers.{IsAnswer};

use crate::answer::{answer_to, no_answer};
use crate::answered::Answered;
use crate::task::Task;
use std::alloc::Global;
use std::io::Read;
use yaml_run::{Unanswered, Unread, read_input};

/// The reply to an input.
#[derive(Drop)]
pub struct Replied {
    /// The answer.
    pub answer: Answered,
    /// The input, where there was memory for it.
    pub input: Option<Vec<u8>>,
}

/// Reads all of the input, and answers what is asked of it.
pub fn reply<R: Read>(alloc: Global, task: &Task, reader: &mut R) -> Result<Replied, Unread>
    ensures answers { IfOk result (λ reply. (input : List ℕ)
        × IfSome (R.remaining reader.old) (λ bytes. input ≡ bytes)
        × IfSome reply.input (λ given. given.items ≡ input)
        × IsAnswer task.now input reply.answer.ended (string_bytes reply.answer.text) reply.answer.faults.items) }
{
    match read_input(alloc, reader) {
        Ok(input) => Ok(Replied {
            answer: answer_to(alloc, task, input.as_slice()),
            input: Some(input),
        }),
        Err(Unanswered::OutOfMemory) => Ok(Replied {
            answer: no_answer(alloc),
            input: None,
        }),
        Err(Unanswered::Unread) => Err(Unread),
    }
}
