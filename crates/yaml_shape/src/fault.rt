//! Why a table of shapes is no schema.

ghost use Rattle.std.specs.Prelude.{◌≡◌, Some, false};
ghost use Rattle.yaml_base.specs.Answer.{is_memory};
ghost use Rattle.yaml_shape.specs.SchemaFaultText.{schema_cause, schema_fault_text};

use std::alloc::{AllocError, AllocFailed, Global};
use std::fmt;
use yaml_base::{Cause, Error};

/// Why a table of shapes is no schema. A number is that of the least shape concerned.
#[derive(Debug, Drop, PartialEq, Eq)]
pub enum SchemaFault {
    /// A shape names a number outside the table.
    OutsideTable(u32),
    /// A walk through optionals alone leads from a shape back to it.
    OptionCycle(u32),
    /// A struct, an enum or a struct variant has a name twice.
    NameTwice(u32),
    /// There are more than 4,096 shapes.
    TooManyShapes,
    /// Memory ran out.
    Memory,
}

// The short names that these faults had before. `S1` to `S3` make a fault, and can't be matched.
#[allow(non_snake_case)]
impl SchemaFault {
    ghost use Rattle.yaml_shape.specs.declared.fault.SchemaFault.TheVariants.{NameTwice, OptionCycle, OutsideTable};

    /// There are more than 4,096 shapes.
    pub const S4: SchemaFault = SchemaFault::TooManyShapes;

    /// Memory ran out.
    pub const S5: SchemaFault = SchemaFault::Memory;

    /// A shape names a number outside the table.
    pub fn S1(number: u32) -> SchemaFault
        ensures { result ≡ OutsideTable number }
    {
        SchemaFault::OutsideTable(number)
    }

    /// A walk through optionals alone leads from a shape back to it.
    pub fn S2(number: u32) -> SchemaFault
        ensures { result ≡ OptionCycle number }
    {
        SchemaFault::OptionCycle(number)
    }

    /// A struct, an enum or a struct variant has a name twice.
    pub fn S3(number: u32) -> SchemaFault
        ensures { result ≡ NameTwice number }
    {
        SchemaFault::NameTwice(number)
    }
}

impl SchemaFault {
    /// The fault of a reading or a writing that this is: its text, or want of memory. The text takes memory, so there
    /// is no `From`: write `fault.into_error(alloc)`, or `map_err(|fault| fault.into_error(alloc))?`.
    pub fn into_error(self, alloc: Global) -> Error
        ensures { is_memory result ≡ false → result ≡ schema_cause self }
    {
        match self {
            SchemaFault::Memory => Error::new(Cause::Memory),
            fault => match fault.to_string(alloc) {
                Ok(text) => Error::custom(text),
                Err(refused) => refused.into(),
            },
        }
    }
}

impl fmt::Display for SchemaFault {
    ghost output = { λ fault. Some (schema_fault_text fault) };

    fn fmt<W: fmt::Write>(&self, f: &mut fmt::Formatter<W>) -> fmt::Result {
        match self {
            SchemaFault::OutsideTable(number) => write!(
                f,
                "shape {number} names a shape outside the table"
            ),
            SchemaFault::OptionCycle(number) => write!(f, "shape {number} is a cycle of options"),
            SchemaFault::NameTwice(number) => write!(f, "shape {number} has a name twice"),
            SchemaFault::TooManyShapes => f.write_str("more than 4096 shapes"),
            SchemaFault::Memory => f.write_str("out of memory"),
        }
    }
}

impl std::error::Error for SchemaFault {}

impl From<AllocError> for SchemaFault {
    ghost use Rattle.yaml_shape.specs.declared.fault.SchemaFault.TheVariants.{Memory};

    ghost from_gives = { λ _ fault. fault ≡ Memory };

    fn from(_: AllocError) -> SchemaFault {
        SchemaFault::Memory
    }
}

impl<T: Drop> From<AllocFailed<T>> for SchemaFault {
    ghost use Rattle.yaml_shape.specs.declared.fault.SchemaFault.TheVariants.{Memory};

    ghost from_gives = { λ _ fault. fault ≡ Memory };

    fn from(_: AllocFailed<T>) -> SchemaFault {
        SchemaFault::Memory
    }
}
