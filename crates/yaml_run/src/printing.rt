//! Printing. Nothing else touches the writer.

ghost use Rattle.std.specs.Prelude.{◌≡◌, IfOk, IfErr};
ghost use Rattle.yaml_run.specs.Printed.{line_of, status_of, Prints};

use crate::answer::Answer;
use crate::input::Unread;
use crate::status::Status;
use std::io::Write;

/// Writes bytes, and flushes the writer. The run ends with the status that goes with them, unless the writer fails.
pub fn print_bytes<W: Write>(writer: &mut W, bytes: &[u8], ended: Status) -> Status
    ensures { Prints (W.contents writer.old) (W.contents writer.new) bytes.now ended result }
{
    if writer.write_all(bytes).is_err() || writer.flush().is_err() {
        return Status::WriteFailed;
    }
    ended
}

/// Writes an answer. The run ends with the answer's status, unless the writer fails.
pub fn print<W: Write>(writer: &mut W, answer: &Answer) -> Status
    ensures { Prints (W.contents writer.old) (W.contents writer.new)
        (line_of answer.now) (status_of answer.now) result }
{
    print_bytes(writer, answer.line(), answer.status())
}

/// Ends a run: prints the answer, or where the input was not read, nothing.
pub fn conclude<W: Write>(writer: &mut W, reply: &Result<Answer, Unread>) -> Status
    ensures printed { IfOk reply.now (λ answer. Prints (W.contents writer.old) (W.contents writer.new)
        (line_of answer) (status_of answer) result) }
    ensures unread { IfErr reply.now (λ _. (result ≡ Status.ReadFailed) × (writer.new ≡ writer.old)) }
{
    match reply {
        Ok(answer) => print(writer, answer),
        Err(Unread) => Status::ReadFailed,
    }
}
