//! The reply to arguments and an input. Nothing is written here.

ghost use Rattle.std.specs.Prelude.{◌≡◌, ◌∷◌, [], ◌++◌, List, ℕ, map, string_bytes, IfOk, IfSome};
ghost use Rattle.yaml_case.specs.Replies.{IsAnswerByName, IsAnswerTo};
ghost use Rattle.yaml_case.specs.Arguments.{AskForNothing};
ghost use Rattle.yaml_run.specs.Printed.{line_of, status_of};
ghost use Rattle.yaml_run.specs.Shapes.{IsNoName};
ghost use Rattle.yaml_read.specs.TreeReader.{default_limits};

use crate::answer::answer_to;
use crate::limits::limits_of;
use serde_yaml::Limits;
use std::alloc::Global;
use std::io::Read;
use yaml_run::{Answer, Named, Unanswered, Unread, read_input};

/// Reads all of the input, and answers what it is as the shape with this name, within limits.
///
/// The name is looked at first, and all of the input is read before any line is looked at.
pub fn reply<R: Read>(
    alloc: Global,
    name: &str,
    limits: Limits,
    reader: &mut R,
) -> Result<Answer, Unread>
    ensures answers { IfOk result (λ answer. (text : List ℕ) × (input : List ℕ)
        × (line_of answer ≡ text ++ 10 ∷ [])
        × IfSome (R.remaining reader.old) (λ bytes. input ≡ bytes)
        × IsAnswerByName name.now limits input (status_of answer) text) }
    ensures unread { IsNoName name.now → reader.new ≡ reader.old }
{
    let Some(named) = Named::find(name) else {
        return Ok(Answer::BadArgument);
    };
    match read_input(alloc, reader) {
        Ok(input) => Ok(answer_to(alloc, named, limits, input.as_slice())),
        Err(Unanswered::OutOfMemory) => Ok(Answer::OutOfMemory),
        Err(Unanswered::Unread) => Err(Unread),
    }
}

/// The same for the arguments of the program: a name, or a name and limits.
pub fn reply_to<R: Read>(
    alloc: Global,
    arguments: &[String],
    reader: &mut R,
) -> Result<Answer, Unread>
    ensures answers { IfOk result (λ answer. (text : List ℕ) × (input : List ℕ)
        × (line_of answer ≡ text ++ 10 ∷ [])
        × IfSome (R.remaining reader.old) (λ bytes. input ≡ bytes)
        × IsAnswerTo (map string_bytes arguments.now) input (status_of answer) text) }
    ensures unread { AskForNothing (map string_bytes arguments.now) → reader.new ≡ reader.old }
{
    if arguments.len() == 1 {
        return reply(alloc, arguments[0].as_str(), Limits::DEFAULT, reader);
    }
    if arguments.len() != 3 {
        return Ok(Answer::BadArgument);
    }
    match limits_of(arguments[1].as_str(), arguments[2].as_str()) {
        Some(limits) => reply(alloc, arguments[0].as_str(), limits, reader),
        None => Ok(Answer::BadArgument),
    }
}
