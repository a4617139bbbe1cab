//! A run on one input: it is read whole, and then what was asked is printed.

ghost use Rattle.std.specs.Prelude.{◌≡◌, ◌≢◌, List, ℕ, string_bytes, IfSome};
ghost use Rattle.yaml_run.specs.Printed.{Prints};
ghost use Rattle.yaml_run.specs.declared.status.Status.{Status as PlainStatus};
ghost use Rattle.yaml_tool.specs.Answers.{IsAnswer};

use crate::reply::{Replied, reply};
use crate::task::Task;
use std::alloc::Global;
use std::io::{Read, Write};
use yaml_base::Error;
use yaml_run::{Status, Unread, print_bytes};

/// What a run leaves to be told.
#[derive(Drop)]
pub struct Ran {
    /// How it ended.
    pub ended: Status,
    /// The input, where it was read and there was memory for it.
    pub input: Option<Vec<u8>>,
    /// The faults of it.
    pub faults: Vec<Error>,
}

// Prints the answer of a reply. The rest of it is given back.
fn printed<W: Write>(writer: &mut W, reply: Replied) -> Ran
    ensures prints { Prints (W.contents writer.old) (W.contents writer.new) (string_bytes reply.answer.text)
        reply.answer.ended result.ended }
    ensures input { result.input ≡ reply.input }
    ensures faults { result.faults ≡ reply.answer.faults }
{
    let Replied { answer, input } = reply;
    Ran {
        ended: print_bytes(writer, answer.text.as_bytes(), answer.ended),
        input,
        faults: answer.faults,
    }
}

/// Reads the input, and prints what is asked of it. The faults are given back, with the input that they speak of.
///
/// All of the input is read before any of it is looked at. Nothing is written where it can't be read, or where memory
/// runs out.
pub fn run<R: Read, W: Write>(alloc: Global, task: &Task, reader: &mut R, writer: &mut W) -> Ran
    // Unless the reader failed, the answer to the input is printed, and its faults are given back.
    ensures prints { result.ended ≢ Status.ReadFailed
        → (text : List ℕ) × (input : List ℕ) × (ended : PlainStatus)
        × IfSome (R.remaining reader.old) (λ bytes. input ≡ bytes)
        × IfSome result.input (λ given. given.items ≡ input)
        × IsAnswer task.now input ended text result.faults.items
        × Prints (W.contents writer.old) (W.contents writer.new) text ended result.ended }

    // Where the reader failed, nothing is written.
    ensures unwritten { result.ended ≡ Status.ReadFailed → writer.new ≡ writer.old }
{
    match reply(alloc, task, reader) {
        Ok(reply) => printed(writer, reply),
        Err(Unread) => Ran {
            ended: Status::ReadFailed,
            input: None,
            faults: Vec::new(alloc),
        },
    }
}
