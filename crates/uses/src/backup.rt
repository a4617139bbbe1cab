//! An enum with a variant whose fields have no names, and with one that refuses the keys that it does not have.

ghost use Rattle.std.specs.Prelude.{◌≡◌, [], ◌∷◌, codes, refl};
ghost use Rattle.std.proofs.Common.{rules};
ghost use Rattle.uses.specs.declared.backup.Backup.TheVariants.{At, Every};
ghost use Rattle.yaml_types.specs.declared.choice.OneOf.TheVariants.{First, Other};

use std::alloc::{AllocError, Global};
use yaml_base::Error;
use yaml_shape::Data;
use yaml_types::{
    BuildFault, Composed, Enum, FromParts, Last, OneOf, RoundTripParts, Serialize,
    StrictStructVariant, ToParts, TupleVariant, Variants, enum_names,
};

/// When copies are made: once a day, at an hour and a minute, or every so many hours. A misspelled key is a fault.
#[derive(Drop, PartialEq)]
pub enum Backup {
    At(u8, u8),
    Every { hours: u16, keep: u32 },
}

const VARIANTS: &[(&str, &[&str])] = &[("at", &[]), ("every", &["hours", "keep"])];

impl Variants for Backup {
    type Choice = OneOf<TupleVariant<(u8, (u8, ()))>, Last<StrictStructVariant<(u16, (u32, ()))>>>;

    ghost name = { codes "Backup" };

    ghost names = { (codes "at", []) ∷ (codes "every", codes "hours" ∷ codes "keep" ∷ []) ∷ [] };

    ghost fits = { record { distinct = refl; few = refl; as_many = refl } };

    fn names(alloc: Global) -> Result<(String, Vec<(String, Vec<String>)>), AllocError> {
        enum_names(alloc, "Backup", VARIANTS)
    }
}

impl Composed for Backup {
    type Parts = Enum<Backup>;

    ghost parts = { elim [
      | At hour minute ↦ record { choice = First (record { elements = (hour, (minute, tt)) }) }
      | Every hours keep ↦ record { choice = Other (record { variant = record { fields = (hours, (keep, tt)) } }) }
    ] };
}

impl<'de> FromParts<'de> for Backup {
    ghost made = { λ parts x. parts ≡ ⟦<Backup as Composed>⟧.parts x };

    fn from_parts(_alloc: Global, parts: Enum<Backup>) -> Result<Backup, BuildFault> {
        match parts.into_choice() {
            OneOf::First(at) => {
                let (hour, (minute, ())) = at.elements;
                Ok(Backup::At(hour, minute))
            }
            OneOf::Other(last) => {
                let (hours, (keep, ())) = last.variant.fields;
                Ok(Backup::Every { hours, keep })
            }
        }
    }
}

impl ToParts for Backup {
    fn parts_to_data<'a>(&'a self, alloc: Global) -> Result<Data<'a>, Error> {
        match self {
            Backup::At(hour, minute) => {
                let elements = vec![in alloc; hour.to_data(alloc)?, minute.to_data(alloc)?]?;
                Ok(Data::Variant(0, Box::new(alloc, Data::Tuple(elements))?))
            }
            Backup::Every { hours, keep } => {
                let fields = vec![in alloc; hours.to_data(alloc)?, keep.to_data(alloc)?]?;
                Ok(Data::Variant(1, Box::new(alloc, Data::Struct(fields))?))
            }
        }
    }
}

impl<'de> RoundTripParts<'de> for Backup {
    ghost same = { Prim.search rules };

    ghost never = { λ _ _ refused. refused };
}
