//! Why no JSON stands for a value.

ghost use Rattle.yaml_query.specs.FaultSteps.{IsBehindStep, IsHere};
ghost use Rattle.yaml_query.specs.Steps.{plain_step};

use crate::step::{Path, Step};
use std::alloc::{AllocError, Global};

/// Why no JSON stands for a part of a value.
#[derive(Clone, Copy, PartialEq, Eq, Debug)]
pub enum Reason {
    /// It is a float that is infinite, or no number.
    NotFinite,
    /// It is a mapping with a key that is a sequence or a mapping.
    CollectionKey,
}

/// Why a value has no JSON text.
#[derive(Drop)]
pub enum JsonFault {
    /// No JSON stands for the part to which this path leads.
    At(Reason, Path),
    /// Memory ran out.
    Memory,
}

impl From<AllocError> for JsonFault {
    ghost use Rattle.std.specs.Prelude.{◌≡◌};
    ghost use Rattle.yaml_query.specs.declared.fault.JsonFault.TheVariants.{Memory};

    ghost from_gives = { λ _ fault. fault ≡ Memory };

    fn from(_fault: AllocError) -> JsonFault {
        JsonFault::Memory
    }
}

/// No JSON stands for the value itself.
pub(crate) fn here(alloc: Global, why: Reason) -> JsonFault
    ensures { IsHere why result }
{
    JsonFault::At(
        why,
        Path {
            steps: Vec::new(alloc),
        },
    )
}

/// The fault of a part to which a step leads, told of the whole.
pub(crate) fn behind(step: Step, fault: JsonFault) -> JsonFault
    ensures { IsBehindStep (plain_step step) fault result }
{
    match fault {
        JsonFault::At(why, path) => {
            let mut path = path;
            match path.steps.insert(0, step) {
                Ok(()) => JsonFault::At(why, path),
                Err(_) => JsonFault::Memory,
            }
        }
        JsonFault::Memory => JsonFault::Memory,
    }
}
