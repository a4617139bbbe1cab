//! Printing a reply. Nothing else touches the writer.

ghost use Rattle.std.specs.Prelude.{◌≡◌, IfOk, IfErr, string_bytes};
ghost use Rattle.yaml_probe.specs.Printed.{PrintsLines, reply_status, status_without};

use crate::reply::Answers;
use crate::status::Status;
use std::io::Write;
use yaml_run::Unanswered;

/// Writes the lines of a reply. The run ends with the reply's status, unless the writer fails.
pub fn print<W: Write>(writer: &mut W, reply: &Answers) -> Status
    ensures { PrintsLines (W.contents writer.old) (W.contents writer.new)
        (string_bytes reply.now.lines) (reply_status reply.now.accepted) result }
{
    if writer.write_all(reply.lines.as_bytes()).is_err() || writer.flush().is_err() {
        return Status::WriteFailed;
    }
    if reply.accepted {
        Status::Answered
    } else {
        Status::TableRefused
    }
}

/// Ends a run: prints the reply, or where there is none, nothing.
pub fn conclude<W: Write>(writer: &mut W, reply: &Result<Answers, Unanswered>) -> Status
    ensures printed { IfOk reply.now (λ made. PrintsLines (W.contents writer.old) (W.contents writer.new)
        (string_bytes made.lines) (reply_status made.accepted) result) }
    ensures unwritten { IfErr reply.now (λ why. (result ≡ status_without why) × (writer.new ≡ writer.old)) }
{
    match reply {
        Ok(made) => print(writer, made),
        Err(Unanswered::Unread) => Status::ReadFailed,
        Err(Unanswered::OutOfMemory) => Status::OutOfMemory,
    }
}
