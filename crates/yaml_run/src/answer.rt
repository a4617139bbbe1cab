//! What a program answers.

ghost use Rattle.std.specs.Prelude.{◌≡◌};
ghost use Rattle.yaml_run.specs.Printed.{line_of, status_of};

use crate::status::Status;

/// What is printed, and how the run ends.
#[derive(Drop)]
pub enum Answer {
    /// A line or lines, each with its line feed, that were made of the input, and the status that goes with them.
    Made(Status, String),
    /// Memory ran out.
    OutOfMemory,
    /// The arguments are none that the program takes.
    BadArgument,
}

impl Answer {
    /// What is printed, each line with its line feed.
    pub fn line(&self) -> &[u8]
        ensures { result.now ≡ line_of self.now }
    {
        match self {
            Answer::Made(_, line) => line.as_bytes(),
            Answer::OutOfMemory => b"fault: out of memory\n",
            Answer::BadArgument => b"bad argument\n",
        }
    }

    /// The status with which the run ends where that is printed.
    pub fn status(&self) -> Status
        ensures { result ≡ status_of self.now }
    {
        match self {
            Answer::Made(status, _) => *status,
            Answer::OutOfMemory => Status::Fault,
            Answer::BadArgument => Status::Refused,
        }
    }
}
