//! A type around a text that is borrowed.

use std::alloc::Global;
use yaml_types::{BuildFault, Composed, FromParts};

/// Whom to greet: a text that is borrowed from the source.
#[derive(Drop)]
pub struct Greeting<'de> {
    pub whom: &'de str,
}

impl<'de> Composed for Greeting<'de> {
    type Parts = &'de str;

    ghost parts = { λ g. g.whom };
}

impl<'de> FromParts<'de> for Greeting<'de> {
    ghost use Rattle.std.specs.Prelude.{◌≡◌};

    ghost made = { λ text g. g.whom ≡ text };

    fn from_parts(_alloc: Global, text: &'de str) -> Result<Greeting<'de>, BuildFault> {
        Ok(Greeting { whom: text })
    }
}
