//! An enum: a variant without content, one with a content, and one with fields.

ghost use Rattle.std.specs.Prelude.{◌≡◌, [], ◌∷◌, codes, refl};
ghost use Rattle.std.proofs.Common.{rules};
ghost use Rattle.uses.specs.declared.listen.Listen.TheVariants.{Off, Port, At};
ghost use Rattle.yaml_types.specs.declared.choice.OneOf.TheVariants.{First, Other};

use std::alloc::{AllocError, Global};
use yaml_base::Error;
use yaml_shape::Data;
use yaml_types::{
    BuildFault, Composed, Enum, FromParts, Last, NewtypeVariant, OneOf, RoundTripParts, Serialize,
    StructVariant, ToParts, UnitVariant, Variants, enum_names,
};

/// Where a server listens: nowhere, at a port of its own host, or at a port of a host.
#[derive(Drop, PartialEq)]
pub enum Listen {
    Off,
    Port(u16),
    At { host: String, port: u16 },
}

const VARIANTS: &[(&str, &[&str])] = &[("off", &[]), ("port", &[]), ("at", &["host", "port"])];

impl Variants for Listen {
    type Choice = OneOf<
        UnitVariant,
        OneOf<NewtypeVariant<u16>, Last<StructVariant<(String, (u16, ()))>>>,
    >;

    ghost name = { codes "Listen" };

    ghost names = { (codes "off", []) ∷ (codes "port", []) ∷ (codes "at", codes "host" ∷ codes "port" ∷ []) ∷ [] };

    ghost fits = { record { distinct = refl; few = refl; as_many = refl } };

    fn names(alloc: Global) -> Result<(String, Vec<(String, Vec<String>)>), AllocError> {
        enum_names(alloc, "Listen", VARIANTS)
    }
}

impl Composed for Listen {
    type Parts = Enum<Listen>;

    ghost parts = { elim [
      | Off ↦ record { choice = First (record {}) }
      | Port port ↦ record { choice = Other (First (record { content = port })) }
      | At host port ↦ record { choice = Other (Other (record { variant = record { fields = (host, (port, tt)) } })) }
    ] };
}

impl<'de> FromParts<'de> for Listen {
    ghost made = { λ parts x. parts ≡ ⟦<Listen as Composed>⟧.parts x };

    fn from_parts(_alloc: Global, parts: Enum<Listen>) -> Result<Listen, BuildFault> {
        match parts.into_choice() {
            OneOf::First(_) => Ok(Listen::Off),
            OneOf::Other(OneOf::First(port)) => Ok(Listen::Port(port.content)),
            OneOf::Other(OneOf::Other(last)) => {
                let (host, (port, ())) = last.variant.fields;
                Ok(Listen::At { host, port })
            }
        }
    }
}

impl ToParts for Listen {
    fn parts_to_data<'a>(&'a self, alloc: Global) -> Result<Data<'a>, Error> {
        match self {
            Listen::Off => Ok(Data::Variant(0, Box::new(alloc, Data::Unit)?)),
            Listen::Port(port) => Ok(Data::Variant(1, Box::new(alloc, port.to_data(alloc)?)?)),
            Listen::At { host, port } => {
                let fields = vec![in alloc; host.to_data(alloc)?, port.to_data(alloc)?]?;
                Ok(Data::Variant(2, Box::new(alloc, Data::Struct(fields))?))
            }
        }
    }
}

impl<'de> RoundTripParts<'de> for Listen {
    ghost same = { Prim.search rules };

    ghost never = { λ _ _ refused. refused };
}
