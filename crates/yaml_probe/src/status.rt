//! How a run ended.

/// How a run ended.
#[derive(Clone, Copy)]
pub enum Status {
    /// Each case was answered.
    Answered,
    /// The same, but a table was refused, and each of its cases was answered by why.
    TableRefused,
    /// Memory ran out, and nothing was printed.
    OutOfMemory,
    /// The input could not be read, and nothing was printed.
    ReadFailed,
    /// The output could not be written. Part of it may be.
    WriteFailed,
}

impl Status {
    /// The exit status of the program.
    pub fn code(self) -> u8 {
        match self {
            Status::Answered => 0,
            Status::TableRefused => 1,
            Status::OutOfMemory | Status::ReadFailed | Status::WriteFailed => 2,
        }
    }
}
