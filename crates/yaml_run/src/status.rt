//! How a run ended, or a reading within it.

ghost use Rattle.std.specs.Prelude.{◌≡◌, ◌≤◌, ◌⊎◌};
ghost use Rattle.yaml_run.specs.ExitCode.{code_of};

/// How a run ended, or a reading within it.
#[derive(Clone, Copy, PartialEq, Eq, Debug)]
pub enum Status {
    /// What was asked was printed.
    Read,
    /// The same, and it tells a fault.
    Fault,
    /// The words of the call, or lines of the input, were refused.
    Refused,
    /// Memory ran out, and nothing was printed.
    OutOfMemory,
    /// The input could not be read, and nothing was printed of it.
    ReadFailed,
    /// The output could not be written. Part of it may be.
    WriteFailed,
}

impl Status {
    /// The exit status of the program.
    pub fn code(self) -> u8
        ensures { result ≡ code_of self }
    {
        match self {
            Status::Read => 0,
            Status::Fault => 1,
            Status::Refused | Status::OutOfMemory | Status::ReadFailed | Status::WriteFailed => 2,
        }
    }

    /// How two runs ended, one behind the other: the worse of both.
    pub fn and(self, next: Status) -> Status
        ensures worst { (code_of self ≤ code_of result) × (code_of next ≤ code_of result) }
        ensures either { (result ≡ self) ⊎ (result ≡ next) }
    {
        if next.code() > self.code() {
            next
        } else {
            self
        }
    }
}
