//! A struct with a struct in it, and a default for an absent field.

use crate::address::Address;
use std::alloc::{AllocError, Global};
use yaml_base::Error;
use yaml_shape::Data;
use yaml_types::{
    BuildFault, Composed, Fields, FromParts, RoundTripParts, Serialize, Struct, ToParts,
    struct_names,
};

/// A server.
#[derive(Drop, PartialEq)]
pub struct Server {
    pub listen: Address,
    /// How many requests are answered at a time: 4 where nothing is said.
    pub workers: u16,
    pub tags: Vec<String>,
}

impl Fields for Server {
    ghost use Rattle.std.specs.Prelude.{[], ◌∷◌, codes, refl};

    type Types = (Address, (Option<u16>, (Vec<String>, ())));

    ghost name = { codes "Server" };

    ghost names = { codes "listen" ∷ codes "workers" ∷ codes "tags" ∷ [] };

    ghost fits = { record { distinct = refl; as_many = refl } };

    fn names(alloc: Global) -> Result<(String, Vec<String>), AllocError> {
        struct_names(alloc, "Server", &["listen", "workers", "tags"])
    }
}

impl Composed for Server {
    ghost use Rattle.std.specs.Prelude.{Some};

    type Parts = Struct<Server>;

    ghost parts = { λ s. record { fields = (s.listen, (Some s.workers, (s.tags, tt))) } };
}

impl<'de> FromParts<'de> for Server {
    ghost use Rattle.std.specs.Prelude.{◌≡◌};
    ghost use Rattle.std.specs.Option.{unwrap_or};

    ghost made = { λ p s. (s.listen ≡ p.fields.0) × (s.workers ≡ unwrap_or p.fields.1.0 4)
        × (s.tags ≡ p.fields.1.1.0) };

    fn from_parts(_alloc: Global, parts: Struct<Server>) -> Result<Server, BuildFault> {
        let (listen, (workers, (tags, ()))) = parts.into_fields();
        Ok(Server {
            listen,
            workers: workers.unwrap_or(4),
            tags,
        })
    }
}

impl ToParts for Server {
    fn parts_to_data<'a>(&'a self, alloc: Global) -> Result<Data<'a>, Error> {
        let listen = self.listen.to_data(alloc)?;
        let workers = Data::Some(Box::new(alloc, self.workers.to_data(alloc)?)?);
        let tags = self.tags.to_data(alloc)?;
        Ok(Data::Struct(vec![in alloc; listen, workers, tags]?))
    }
}

impl<'de> RoundTripParts<'de> for Server {
    ghost use Rattle.std.proofs.Common.{rules};

    ghost same = { Prim.search rules };

    ghost never = { λ _ _ refused. refused };
}
