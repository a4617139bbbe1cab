//! A run of the program: its input is read whole, and then each case has its line.

ghost use Rattle.std.specs.Prelude.{◌≡◌, ◌≢◌, ℕ, List};
ghost use Rattle.std.specs.Io.KnownBytes.{Appends};

use crate::print::conclude;
use crate::reply::reply;
use crate::status::Status;
use std::alloc::Global;
use std::io::{Read, Write};

/// Answers each case of the input, a line each. All of the input is read before any line is looked at, and all cases
/// are answered before anything is printed.
pub fn run<R: Read, W: Write>(alloc: Global, reader: &mut R, writer: &mut W) -> Status
    ensures printed { result ≢ Status.WriteFailed → (text : List ℕ)
        × Appends (W.contents writer.old) (W.contents writer.new) text }
    ensures unwritten { result ≡ Status.ReadFailed → writer.new ≡ writer.old }
    ensures out_of_memory { result ≡ Status.OutOfMemory → writer.new ≡ writer.old }
{
    conclude(writer, &reply(alloc, reader))
}
