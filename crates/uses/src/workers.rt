//! A number with a check of its own.

use std::alloc::Global;
use yaml_base::Error;
use yaml_shape::Data;
use yaml_types::{BuildFault, Composed, FromParts, Serialize, ToParts};

/// How many requests are answered at a time: at least one.
#[derive(Drop, PartialEq)]
pub struct Workers(pub u16);

impl Composed for Workers {
    type Parts = u16;

    ghost parts = { λ w. w.0 };
}

impl<'de> FromParts<'de> for Workers {
    ghost use Rattle.std.specs.Prelude.{◌≡◌, ◌<◌, codes};

    ghost made = { λ count w. (w.0 ≡ count) × (0 < count) };

    ghost unmade = { λ count message. (count ≡ 0) × (message ≡ codes "expected a worker") };

    fn from_parts(alloc: Global, count: u16) -> Result<Workers, BuildFault> {
        if count == 0 {
            let message = String::from_str(alloc, "expected a worker")?;
            return Err(BuildFault::Message(message));
        }
        Ok(Workers(count))
    }
}

impl ToParts for Workers {
    fn parts_to_data<'a>(&'a self, alloc: Global) -> Result<Data<'a>, Error> {
        self.0.to_data(alloc)
    }
}
