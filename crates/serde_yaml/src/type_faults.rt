//! Refusals of types, as faults.

ghost use Rattle.std.specs.Prelude.{◌≡◌, ◌<◌, ℕ, false};
ghost use Rattle.yaml_base.specs.Answer.{is_memory};
ghost use Rattle.yaml_shape.specs.Join.{IsTooLarge};
ghost use Rattle.yaml_types.specs.BuildFaultText.{build_cause};
ghost use Rattle.serde_yaml.specs.TypedReads.{no_schema};

use std::alloc::Global;
use yaml_base::{Cause, Error};
use yaml_shape::SchemaFault;
use yaml_types::BuildFault;

// The fault for a type that has no schema.
pub(crate) fn schema_refusal(alloc: Global, fault: SchemaFault) -> Error
    ensures { (size : ℕ) → IsTooLarge size fault → is_memory result ≡ false → (4096 < size) × (result ≡ no_schema) }
{
    match fault {
        SchemaFault::Memory => Error::new(Cause::Memory),
        fault => match fault.to_string(alloc) {
            Ok(text) => Error::custom(text),
            Err(refused) => refused.into(),
        },
    }
}

// The fault for data that makes no value.
pub(crate) fn build_refusal(fault: BuildFault) -> Error
    ensures { result ≡ build_cause fault }
{
    fault.into()
}
