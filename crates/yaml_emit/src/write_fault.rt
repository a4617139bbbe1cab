//! Why a value was not written to a writer.

use std::alloc::{AllocError, AllocFailed};
use std::{fmt, io};
use yaml_base::{Cause, Error};

/// Why a value was not written to a writer.
#[derive(Debug, Drop)]
pub enum WriteFault {
    /// The value has no text. Nothing was written.
    Value(Error),
    /// The writer failed. Part of the text may be written.
    Writer(io::Error),
}

impl fmt::Display for WriteFault {
    ghost use Rattle.yaml_emit.specs.WriteFaults.{write_fault_text};

    ghost output = { write_fault_text };

    fn fmt<W: fmt::Write>(&self, f: &mut fmt::Formatter<W>) -> fmt::Result {
        match self {
            WriteFault::Value(fault) => write!(f, "{fault}"),
            WriteFault::Writer(fault) => write!(f, "{fault}"),
        }
    }
}

impl std::error::Error for WriteFault {}

impl From<Error> for WriteFault {
    ghost use Rattle.std.specs.Prelude.{◌≡◌};
    ghost use Rattle.yaml_emit.specs.declared.write_fault.WriteFault.TheVariants.{Value};

    ghost from_gives = { λ fault told. told ≡ Value fault };

    fn from(fault: Error) -> WriteFault {
        WriteFault::Value(fault)
    }
}

impl From<io::Error> for WriteFault {
    ghost use Rattle.std.specs.Prelude.{◌≡◌};
    ghost use Rattle.yaml_emit.specs.declared.write_fault.WriteFault.TheVariants.{Writer};

    ghost from_gives = { λ fault told. told ≡ Writer fault };

    fn from(fault: io::Error) -> WriteFault {
        WriteFault::Writer(fault)
    }
}

impl From<AllocError> for WriteFault {
    ghost use Rattle.std.specs.Prelude.{◌≡◌};
    ghost use Rattle.yaml_emit.specs.declared.write_fault.WriteFault.TheVariants.{Value};
    ghost use Rattle.yaml_base.specs.declared.error.Cause.TheVariants.{Memory};

    ghost from_gives = { λ _ told. told ≡ Value Memory };

    fn from(_: AllocError) -> WriteFault {
        WriteFault::Value(Error::new(Cause::Memory))
    }
}

impl<T: Drop> From<AllocFailed<T>> for WriteFault {
    ghost use Rattle.std.specs.Prelude.{◌≡◌};
    ghost use Rattle.yaml_emit.specs.declared.write_fault.WriteFault.TheVariants.{Value};
    ghost use Rattle.yaml_base.specs.declared.error.Cause.TheVariants.{Memory};

    ghost from_gives = { λ _ told. told ≡ Value Memory };

    fn from(_: AllocFailed<T>) -> WriteFault {
        WriteFault::Value(Error::new(Cause::Memory))
    }
}
