//! A struct: where a server listens.

ghost use Rattle.std.specs.Prelude.{◌≡◌, [], ◌∷◌, codes, refl};
ghost use Rattle.std.proofs.Common.{rules};

use std::alloc::{AllocError, Global};
use yaml_base::Error;
use yaml_shape::Data;
use yaml_types::{
    BuildFault, Composed, Fields, FromParts, RoundTripParts, Serialize, Struct, ToParts,
    struct_names,
};

/// Where a server listens.
#[derive(Drop, PartialEq)]
pub struct Address {
    pub host: String,
    pub port: u16,
}

impl Fields for Address {
    type Types = (String, (u16, ()));

    ghost name = { codes "Address" };

    ghost names = { codes "host" ∷ codes "port" ∷ [] };

    ghost fits = { record { distinct = refl; as_many = refl } };

    fn names(alloc: Global) -> Result<(String, Vec<String>), AllocError> {
        struct_names(alloc, "Address", &["host", "port"])
    }
}

impl Composed for Address {
    type Parts = Struct<Address>;

    ghost parts = { λ a. record { fields = (a.host, (a.port, tt)) } };
}

impl<'de> FromParts<'de> for Address {
    ghost made = { λ parts x. parts ≡ ⟦<Address as Composed>⟧.parts x };

    fn from_parts(_alloc: Global, parts: Struct<Address>) -> Result<Address, BuildFault> {
        let (host, (port, ())) = parts.into_fields();
        Ok(Address { host, port })
    }
}

impl ToParts for Address {
    fn parts_to_data<'a>(&'a self, alloc: Global) -> Result<Data<'a>, Error> {
        Ok(Data::Struct(vec![in alloc; self.host.to_data(alloc)?, self.port.to_data(alloc)?]?))
    }
}

impl<'de> RoundTripParts<'de> for Address {
    ghost same = { Prim.search rules };

    ghost never = { λ _ _ refused. refused };
}
