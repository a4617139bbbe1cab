//! Why a line, or an input of lines, was not read.

ghost use Rattle.yaml_lines.specs.declared.fault.LineFault.TheVariants.{Memory as line_memory};
ghost use Rattle.yaml_lines.specs.declared.fault.InputFault.TheVariants.{Memory as input_memory};

use std::alloc::{AllocError, AllocFailed};
use std::error::Error;
use std::fmt;

/// Why a line, or a part of one, was not read.
#[derive(Clone, Copy, PartialEq, Eq, Debug, Drop)]
pub enum LineFault {
    /// It says nothing of the kind.
    Bad,
    /// Memory ran out.
    Memory,
}

impl From<AllocError> for LineFault {
    ghost use Rattle.std.specs.Prelude.{◌≡◌};

    ghost from_gives = { λ _ fault. fault ≡ line_memory };

    fn from(_: AllocError) -> LineFault {
        LineFault::Memory
    }
}

impl<T: Drop> From<AllocFailed<T>> for LineFault {
    ghost use Rattle.std.specs.Prelude.{◌≡◌};

    ghost from_gives = { λ _ fault. fault ≡ line_memory };

    fn from(_: AllocFailed<T>) -> LineFault {
        LineFault::Memory
    }
}

impl fmt::Display for LineFault {
    ghost use Rattle.std.specs.Prelude.{Some};
    ghost use Rattle.yaml_lines.specs.InputFaultText.{line_fault_text};

    ghost output = { λ fault. Some (line_fault_text fault) };

    fn fmt<W: fmt::Write>(&self, f: &mut fmt::Formatter<W>) -> fmt::Result {
        match self {
            LineFault::Bad => f.write_str("bad line"),
            LineFault::Memory => f.write_str("out of memory"),
        }
    }
}

impl Error for LineFault {}

/// Why an input was not read.
#[derive(Clone, Copy, PartialEq, Eq, Debug, Drop)]
pub enum InputFault {
    /// The line with this number, counted from 1, is the first that says nothing.
    BadLine(usize),
    /// Memory ran out.
    Memory,
}

impl<T: Drop> From<AllocFailed<T>> for InputFault {
    ghost use Rattle.std.specs.Prelude.{◌≡◌};

    ghost from_gives = { λ _ fault. fault ≡ input_memory };

    fn from(_: AllocFailed<T>) -> InputFault {
        InputFault::Memory
    }
}

impl fmt::Display for InputFault {
    ghost use Rattle.std.specs.Prelude.{Some};
    ghost use Rattle.yaml_lines.specs.InputFaultText.{input_fault_text};

    ghost output = { λ fault. Some (input_fault_text fault) };

    fn fmt<W: fmt::Write>(&self, f: &mut fmt::Formatter<W>) -> fmt::Result {
        match self {
            InputFault::BadLine(number) => write!(f, "bad line {number}"),
            InputFault::Memory => f.write_str("out of memory"),
        }
    }
}

impl Error for InputFault {}
