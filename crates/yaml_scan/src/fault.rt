//! Why a text was not read to its end.

ghost use Rattle.std.specs.Prelude.{◌≡◌};

use crate::context::Context;
use crate::problem::Problem;
use std::alloc::{AllocError, AllocFailed};
use yaml_base::{FaultKind, Mark};

/// What is wrong with a text: a problem at a mark, and what was being read there, with the mark where that began.
#[derive(Clone, Copy)]
pub struct Fault {
    /// Which part found it.
    pub kind: FaultKind,
    /// What is wrong.
    pub problem: Problem,
    /// The index of the byte that is wrong, where no mark tells; else 0.
    pub offset: u64,
    /// Where it is wrong.
    pub mark: Mark,
    /// What was being read.
    pub context: Option<Context>,
    /// Where that began; where there is no context it tells nothing.
    pub context_mark: Mark,
}

/// What the scanner or the parser finds wrong: a problem at a mark, and what was being read there, with the mark where
/// that began.
#[derive(Clone, Copy)]
pub struct Finding {
    /// What is wrong.
    pub problem: Problem,
    /// Where it is wrong.
    pub mark: Mark,
    /// What was being read.
    pub context: Option<Context>,
    /// Where that began; where there is no context it tells nothing.
    pub context_mark: Mark,
}

impl Finding {
    /// The fault, found by this part.
    pub fn found_by(self, kind: FaultKind) -> Fault
        ensures { result ≡ (record {
          kind = kind;
          problem = self.problem;
          offset = 0;
          mark = self.mark;
          context = self.context;
          context_mark = self.context_mark;
        }) }
    {
        Fault {
            kind,
            problem: self.problem,
            offset: 0,
            mark: self.mark,
            context: self.context,
            context_mark: self.context_mark,
        }
    }
}

/// Reading stopped: the text is wrong, and whoever reads keeps what was found; or else memory ran out. It says no more,
/// so that a result with a `Stop` is small.
#[derive(Clone, Copy, PartialEq, Eq)]
pub struct Stop;

impl From<AllocError> for Stop {
    fn from(_: AllocError) -> Stop {
        Stop
    }
}

impl<T: Drop> From<AllocFailed<T>> for Stop {
    fn from(_: AllocFailed<T>) -> Stop {
        Stop
    }
}
