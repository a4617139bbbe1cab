//! An input that is read whole.

ghost use Rattle.std.specs.Prelude.{◌≡◌, IfOk, IfSome};

use std::alloc::Global;
use std::io::{ErrorKind, Read};

/// The input was not read: the reader failed.
#[derive(Clone, Copy, PartialEq, Eq, Debug)]
pub struct Unread;

/// Why an input is not answered.
#[derive(Clone, Copy, PartialEq, Eq, Debug, Drop)]
pub enum Unanswered {
    /// It was not read: the reader failed.
    Unread,
    /// Memory ran out.
    OutOfMemory,
}

/// All that the reader gives, in however many calls. A read that was interrupted is tried again.
pub fn read_input<R: Read>(alloc: Global, reader: &mut R) -> Result<Vec<u8>, Unanswered>
    ensures { IfOk result (λ input.
        IfSome (R.remaining reader.old) (λ bytes. input.items ≡ bytes)) }
{
    let mut input = Vec::new(alloc);
    let mut buffer = [0u8; 4096];
    // no reader lives to see the last of these calls
    for _ in 0..u64::MAX {
        match reader.read(&mut buffer) {
            Ok(0) => return Ok(input),
            Ok(count) => {
                if input.extend_from_slice(&buffer[..count]).is_err() {
                    return Err(Unanswered::OutOfMemory);
                }
            }
            Err(error) if error.kind() == ErrorKind::Interrupted => {}
            Err(_) => return Err(Unanswered::Unread),
        }
    }
    Err(Unanswered::Unread)
}
