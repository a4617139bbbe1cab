//! A struct that refuses the keys that it does not have.

ghost use Rattle.std.specs.Prelude.{◌≡◌, [], ◌∷◌, codes, refl};
ghost use Rattle.std.proofs.Common.{rules};

use std::alloc::{AllocError, Global};
use yaml_base::Error;
use yaml_shape::Data;
use yaml_types::{
    BuildFault, Composed, Fields, FromParts, RoundTripParts, Serialize, StrictStruct, ToParts,
    struct_names,
};

/// How long a server waits, in seconds. A misspelled key is a fault.
#[derive(Drop, PartialEq)]
pub struct Timeouts {
    pub connect: u32,
    pub answer: u32,
}

impl Fields for Timeouts {
    type Types = (u32, (u32, ()));

    ghost name = { codes "Timeouts" };

    ghost names = { codes "connect" ∷ codes "answer" ∷ [] };

    ghost fits = { record { distinct = refl; as_many = refl } };

    fn names(alloc: Global) -> Result<(String, Vec<String>), AllocError> {
        struct_names(alloc, "Timeouts", &["connect", "answer"])
    }
}

impl Composed for Timeouts {
    type Parts = StrictStruct<Timeouts>;

    ghost parts = { λ t. record { fields = (t.connect, (t.answer, tt)) } };
}

impl<'de> FromParts<'de> for Timeouts {
    ghost made = { λ parts x. parts ≡ ⟦<Timeouts as Composed>⟧.parts x };

    fn from_parts(_alloc: Global, parts: StrictStruct<Timeouts>) -> Result<Timeouts, BuildFault> {
        let (connect, (answer, ())) = parts.into_fields();
        Ok(Timeouts { connect, answer })
    }
}

impl ToParts for Timeouts {
    fn parts_to_data<'a>(&'a self, alloc: Global) -> Result<Data<'a>, Error> {
        let fields = vec![in alloc; self.connect.to_data(alloc)?, self.answer.to_data(alloc)?]?;
        Ok(Data::Struct(fields))
    }
}

impl<'de> RoundTripParts<'de> for Timeouts {
    ghost same = { Prim.search rules };

    ghost never = { λ _ _ refused. refused };
}
