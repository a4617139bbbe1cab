//! A struct of which not each value is written.

use std::alloc::{AllocError, Global};
use yaml_base::Error;
use yaml_shape::Data;
use yaml_types::{
    BuildFault, Composed, Fields, FromParts, Serialize, Struct, ToParts, struct_names,
};

/// The ports from the first to the last. Neither read nor written where the first is above the last.
#[derive(Drop, PartialEq)]
pub struct Ports {
    pub first: u16,
    pub last: u16,
}

impl Fields for Ports {
    ghost use Rattle.std.specs.Prelude.{[], ◌∷◌, codes, refl};

    type Types = (u16, (u16, ()));

    ghost name = { codes "Ports" };

    ghost names = { codes "first" ∷ codes "last" ∷ [] };

    ghost fits = { record { distinct = refl; as_many = refl } };

    fn names(alloc: Global) -> Result<(String, Vec<String>), AllocError> {
        struct_names(alloc, "Ports", &["first", "last"])
    }
}

impl Composed for Ports {
    type Parts = Struct<Ports>;

    ghost parts = { λ p. record { fields = (p.first, (p.last, tt)) } };
}

impl<'de> FromParts<'de> for Ports {
    ghost use Rattle.std.specs.Prelude.{◌≡◌, ◌<◌, ◌≤◌, codes};

    ghost made = { λ parts p. (parts ≡ ⟦<Ports as Composed>⟧.parts p) × (p.first ≤ p.last) };

    ghost unmade = { λ parts message. (parts.fields.1.0 < parts.fields.0)
        × (message ≡ codes "the first port is above the last") };

    fn from_parts(alloc: Global, parts: Struct<Ports>) -> Result<Ports, BuildFault> {
        let (first, (last, ())) = parts.into_fields();
        if last < first {
            let message = String::from_str(alloc, "the first port is above the last")?;
            return Err(BuildFault::Message(message));
        }
        Ok(Ports { first, last })
    }
}

impl ToParts for Ports {
    ghost use Rattle.std.specs.Prelude.{◌≡◌, ◌<◌, codes};

    ghost withheld = { λ p message. (p.last < p.first) × (message ≡ codes "the first port is above the last") };

    fn parts_to_data<'a>(&'a self, alloc: Global) -> Result<Data<'a>, Error> {
        if self.last < self.first {
            let message = String::from_str(alloc, "the first port is above the last")?;
            return Err(Error::custom(message));
        }
        let fields = vec![in alloc; self.first.to_data(alloc)?, self.last.to_data(alloc)?]?;
        Ok(Data::Struct(fields))
    }
}
