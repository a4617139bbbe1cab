//! Why data makes no value.

use std::alloc::{AllocError, AllocFailed};
use std::error::Error;
use std::fmt;
use yaml_base::Cause;

/// Why data makes no value.
#[derive(Debug, Drop)]
pub enum BuildFault {
    /// Memory ran out.
    Memory,
    /// What is wrong with the data, in words.
    Message(String),
}

impl From<AllocError> for BuildFault {
    ghost use Rattle.std.specs.Prelude.{◌≡◌};
    ghost use Rattle.yaml_types.specs.declared.fault.BuildFault.TheVariants.{Memory};

    ghost from_gives = { λ _ fault. fault ≡ Memory };

    fn from(_: AllocError) -> BuildFault {
        BuildFault::Memory
    }
}

impl<T: Drop> From<AllocFailed<T>> for BuildFault {
    ghost use Rattle.std.specs.Prelude.{◌≡◌};
    ghost use Rattle.yaml_types.specs.declared.fault.BuildFault.TheVariants.{Memory};

    ghost from_gives = { λ _ fault. fault ≡ Memory };

    fn from(_: AllocFailed<T>) -> BuildFault {
        BuildFault::Memory
    }
}

impl From<BuildFault> for yaml_base::Error {
    ghost use Rattle.std.specs.Prelude.{◌≡◌};
    ghost use Rattle.yaml_types.specs.BuildFaultText.{build_cause};

    ghost from_gives = { λ fault e. e ≡ build_cause fault };

    fn from(fault: BuildFault) -> yaml_base::Error {
        match fault {
            BuildFault::Memory => yaml_base::Error::new(Cause::Memory),
            BuildFault::Message(text) => yaml_base::Error::custom(text),
        }
    }
}

impl fmt::Display for BuildFault {
    ghost use Rattle.std.specs.Prelude.{Some};
    ghost use Rattle.yaml_types.specs.BuildFaultText.{build_fault_text};

    ghost output = { λ fault. Some (build_fault_text fault) };

    fn fmt<W: fmt::Write>(&self, f: &mut fmt::Formatter<W>) -> fmt::Result {
        match self {
            BuildFault::Memory => f.write_str("out of memory"),
            BuildFault::Message(text) => f.write_str(text.as_str()),
        }
    }
}

impl Error for BuildFault {}
