//! A run of the program: its input is read whole, and one line is written.

ghost use Rattle.std.specs.Prelude.{◌≡◌, ◌≢◌, ◌∷◌, [], ◌++◌, List, ℕ, map, string_bytes, IfSome};
ghost use Rattle.std.specs.IoError.{error_kind};
ghost use Rattle.yaml_case.specs.Replies.{IsAnswerByName, IsAnswerTo};
ghost use Rattle.yaml_read.specs.TreeReader.{default_limits};
ghost use Rattle.yaml_case.specs.Arguments.{AskForNothing};
ghost use Rattle.yaml_run.specs.Printed.{Prints, line_of};
ghost use Rattle.yaml_run.specs.Shapes.{IsNoName};
ghost use Rattle.yaml_run.specs.declared.answer.Answer.TheVariants.{OutOfMemory, BadArgument};
ghost use Rattle.yaml_run.specs.declared.status.Status.{Status as PlainStatus};

#[cfg(test)]
mod tests;

use crate::reply::{reply, reply_to};
use serde_yaml::Limits;
use std::alloc::Global;
use std::io::{self, ErrorKind, Read, Write};
use yaml_run::{Answer, Status, conclude, print};

/// Reads the input as the shape with this name, and prints what was read, or why nothing was.
///
/// The argument is looked at first, and all of the input is read before any line is looked at.
pub fn run<R: Read, W: Write>(alloc: Global, name: &str, reader: &mut R, writer: &mut W) -> Status
    // Unless the reader failed, the answer to the input is printed.
    ensures prints { result ≢ Status.ReadFailed
        → (text : List ℕ) × (input : List ℕ) × (ended : PlainStatus)
        × IfSome (R.remaining reader.old) (λ bytes. input ≡ bytes)
        × IsAnswerByName name.now default_limits input ended text
        × Prints (W.contents writer.old) (W.contents writer.new) (text ++ 10 ∷ []) ended result }

    // Where the reader failed, nothing is written.
    ensures unwritten { result ≡ Status.ReadFailed → writer.new ≡ writer.old }

    // Where the name is unknown, nothing is read.
    ensures unread { IsNoName name.now → reader.new ≡ reader.old }
{
    run_limited(alloc, name, Limits::DEFAULT, reader, writer)
}

/// The same within other limits.
pub fn run_limited<R: Read, W: Write>(
    alloc: Global,
    name: &str,
    limits: Limits,
    reader: &mut R,
    writer: &mut W,
) -> Status
    ensures prints { result ≢ Status.ReadFailed
        → (text : List ℕ) × (input : List ℕ) × (ended : PlainStatus)
        × IfSome (R.remaining reader.old) (λ bytes. input ≡ bytes)
        × IsAnswerByName name.now limits input ended text
        × Prints (W.contents writer.old) (W.contents writer.new) (text ++ 10 ∷ []) ended result }
    ensures unwritten { result ≡ Status.ReadFailed → writer.new ≡ writer.old }
    ensures unread { IsNoName name.now → reader.new ≡ reader.old }
{
    conclude(writer, &reply(alloc, name, limits, reader))
}

/// Runs the program on its arguments: a name, or a name and limits.
pub fn start<R: Read, W: Write>(
    alloc: Global,
    arguments: &[String],
    reader: &mut R,
    writer: &mut W,
) -> Status
    ensures prints { result ≢ Status.ReadFailed
        → (text : List ℕ) × (input : List ℕ) × (ended : PlainStatus)
        × IfSome (R.remaining reader.old) (λ bytes. input ≡ bytes)
        × IsAnswerTo (map string_bytes arguments.now) input ended text
        × Prints (W.contents writer.old) (W.contents writer.new) (text ++ 10 ∷ []) ended result }
    ensures unwritten { result ≡ Status.ReadFailed → writer.new ≡ writer.old }
    ensures unread { AskForNothing (map string_bytes arguments.now) → reader.new ≡ reader.old }
{
    conclude(writer, &reply_to(alloc, arguments, reader))
}

/// Prints why the arguments were not gathered: memory ran out, or one of them is no text.
pub fn refuse<W: Write>(why: &io::Error, writer: &mut W) -> Status
    ensures memory { error_kind why.now ≡ ErrorKind.OutOfMemory
        → Prints (W.contents writer.old) (W.contents writer.new) (line_of OutOfMemory) Status.Fault result }
    ensures other { error_kind why.now ≢ ErrorKind.OutOfMemory
        → Prints (W.contents writer.old) (W.contents writer.new) (line_of BadArgument) Status.Refused result }
{
    if why.kind() == ErrorKind::OutOfMemory {
        return print(writer, &Answer::OutOfMemory);
    }
    print(writer, &Answer::BadArgument)
}
