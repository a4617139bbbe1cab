//! What is told on standard error of a run that ends with status 2.

ghost use Rattle.std.specs.Prelude.{◌≡◌, ◌≢◌, ◌⊎◌, List, ℕ, codes, OnOk};
ghost use Rattle.std.specs.Io.KnownBytes.{Appends};
ghost use Rattle.std.specs.IoError.{error_kind};
ghost use Rattle.yaml_tool.specs.Complaints.{no_memory_line, no_words_line, unread_line, unwritten_line};

use std::alloc::Global;
use std::io::{self, ErrorKind, Write};
use yaml_base::Visible;
use yaml_run::Status;

// Why a call failed, as the system says it, behind a colon; nothing where memory runs out.
fn reason(alloc: Global, why: &io::Error) -> String {
    format!(in alloc; ": {why}").unwrap_or(String::new(alloc))
}

// Tells that memory ran out over the input with this name.
fn tell_no_memory<E: Write>(errors: &mut E, name: &str) -> io::Result<()>
    ensures { OnOk result (Appends (E.contents errors.old) (E.contents errors.new) (no_memory_line name.now)) }
{
    let name = Visible(name);
    writeln!(errors, "yaml: {name}: out of memory")
}

// Tells that the input with this name was not read, with these words behind that.
fn write_unread<E: Write>(errors: &mut E, name: &str, words: &str) -> io::Result<()>
    ensures { OnOk result (Appends (E.contents errors.old) (E.contents errors.new) (unread_line name.now words.now)) }
{
    let shown = Visible(name);
    writeln!(errors, "yaml: {shown}: it can't be read{words}")
}

// Tells that the output was not written, with these words behind that.
fn write_unwritten<E: Write>(errors: &mut E, words: &str) -> io::Result<()>
    ensures { OnOk result (Appends (E.contents errors.old) (E.contents errors.new) (unwritten_line words.now)) }
{
    writeln!(errors, "yaml: standard output: it can't be written{words}")
}

// Tells that the input with this name was not read, and why.
fn tell_unread<E: Write>(
    alloc: Global,
    errors: &mut E,
    name: &str,
    why: &io::Error,
) -> io::Result<()>
    ensures { OnOk result ((words : List ℕ)
        × Appends (E.contents errors.old) (E.contents errors.new) (unread_line name.now words)) }
{
    let reason = reason(alloc, why);
    write_unread(errors, name, reason.as_str())
}

/// Tells that the output was not written, and why. Where its reader has closed it, nobody wants to know.
pub fn complain_of_output<E: Write>(
    alloc: Global,
    errors: &mut E,
    why: &io::Error,
) -> io::Result<()>
    ensures closed { error_kind why.now ≡ ErrorKind.BrokenPipe → errors.new ≡ errors.old }
    ensures told { error_kind why.now ≢ ErrorKind.BrokenPipe → OnOk result ((words : List ℕ)
        × Appends (E.contents errors.old) (E.contents errors.new) (unwritten_line words)) }
{
    if why.kind() == ErrorKind::BrokenPipe {
        return Ok(());
    }
    let reason = reason(alloc, why);
    write_unwritten(errors, reason.as_str())
}

/// Tells why the words of the call were not gathered: memory ran out, or one of them is no UTF-8.
pub fn complain_of_words<E: Write>(errors: &mut E, why: &io::Error) -> io::Result<()>
    ensures memory { error_kind why.now ≡ ErrorKind.OutOfMemory → OnOk result
        (Appends (E.contents errors.old) (E.contents errors.new) (no_memory_line (codes "the call"))) }
    ensures other { error_kind why.now ≢ ErrorKind.OutOfMemory → OnOk result
        (Appends (E.contents errors.old) (E.contents errors.new) no_words_line) }
{
    if why.kind() == ErrorKind::OutOfMemory {
        return tell_no_memory(errors, "the call");
    }
    writeln!(errors, "yaml: the call: a word of it is not UTF-8")
}

/// Tells why a run on the input with this name failed, if it did: that memory ran out, or that it was not read, or its
/// output not written, and why.
pub fn complain<E: Write>(
    alloc: Global,
    errors: &mut E,
    name: &str,
    ended: Status,
    why: &io::Error,
) -> io::Result<()>
    ensures memory { ended ≡ Status.OutOfMemory → OnOk result
        (Appends (E.contents errors.old) (E.contents errors.new) (no_memory_line name.now)) }
    ensures unread { ended ≡ Status.ReadFailed → OnOk result ((words : List ℕ)
        × Appends (E.contents errors.old) (E.contents errors.new) (unread_line name.now words)) }
    ensures unwritten { ended ≡ Status.WriteFailed → error_kind why.now ≢ ErrorKind.BrokenPipe
        → OnOk result ((words : List ℕ)
        × Appends (E.contents errors.old) (E.contents errors.new) (unwritten_line words)) }
    ensures closed { ended ≡ Status.WriteFailed → error_kind why.now ≡ ErrorKind.BrokenPipe
        → errors.new ≡ errors.old }
    ensures well { (ended ≡ Status.Read) ⊎ (ended ≡ Status.Fault) → errors.new ≡ errors.old }
{
    match ended {
        Status::OutOfMemory => tell_no_memory(errors, name),
        Status::ReadFailed => tell_unread(alloc, errors, name, why),
        Status::WriteFailed => complain_of_output(alloc, errors, why),
        Status::Read | Status::Fault | Status::Refused => Ok(()),
    }
}
