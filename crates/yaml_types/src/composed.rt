//! Types whose values are made of parts that another type holds: of a struct's fields, or of a value that is checked.

ghost use Rattle.std.specs.Prelude.{◌≡◌, ℕ, ◌⊎◌, List, true, IfOk, IfErr, OnOk};
ghost use Rattle.yaml_shape.specs.DataView.{data_of};
ghost use Rattle.yaml_types.specs.BuildRefusal.{IsBuildRefusal};
ghost use Rattle.yaml_types.specs.WriteRefusal.{IsWriteRefusal};

use crate::fault::BuildFault;
use crate::traits::{Deserialize, RoundTrip, Serialize};
use std::alloc::Global;
use yaml_base::Error;
use yaml_shape::{Data, Schema, SchemaFault, ShapeId};
use yaml_tape::Tape;

/// A type whose values are made of parts.
pub trait Composed {
    /// What holds the parts, as `Struct<Self>`.
    type Parts;

    // The parts of a value.
    ghost parts: { Self → Self.Parts };
}

/// A type whose values are made of parts that are read.
pub trait FromParts<'de>: Composed + Sized {
    // Which values are made of parts.
    ghost made: { Self.Parts → Self → Type 0 };

    // By which messages parts are refused.
    ghost unmade: { Self.Parts → List ℕ → Type 0 } = { λ _ _. ⊥ };

    /// The value of parts, or the message by which they are refused. The parts are dropped on refusal.
    fn from_parts(alloc: Global, parts: Self::Parts) -> Result<Self, BuildFault>
        ensures ok { IfOk result (made parts) }
        ensures refused { IfErr result (IsBuildRefusal (unmade parts)) };
}

impl<'de, T: FromParts<'de>> Deserialize<'de> for T
where
    T::Parts: Deserialize<'de>,
{
    ghost use Rattle.yaml_types.specs.Rows.{BuiltOf, RefusedOf};

    ghost start = { T.Parts.start };

    ghost built = { BuiltOf T.Parts.built T.made };

    ghost refused = { RefusedOf T.Parts.built T.Parts.refused T.unmade };

    ghost closed = { T.Parts.closed };

    fn schema(alloc: Global) -> Result<(Schema, ShapeId), SchemaFault> {
        T::Parts::schema(alloc)
    }

    fn build(alloc: Global, found: Data<'de>) -> Result<T, BuildFault> {
        match T::Parts::build(alloc, found) {
            Ok(parts) => T::from_parts(alloc, parts),
            Err(fault) => Err(fault),
        }
    }

    #[tactic(auto, using(crate::proofs::LeafReads::parts_mean))]
    fn read_node(alloc: Global, tape: &Tape<'de>, place: &mut usize, depth: usize) -> Option<T> {
        let parts = T::Parts::read_node(alloc, tape, place, depth)?;
        match T::from_parts(alloc, parts) {
            Ok(value) => Some(value),
            Err(_) => None,
        }
    }
}

/// A type whose values are written as their parts are.
pub trait ToParts: Composed
where
    Self::Parts: Serialize,
{
    // By which messages a value is withheld, beside those by which its parts are not written.
    ghost withheld: { Self → List ℕ → Type 0 } = { λ _ _. ⊥ };

    /// The data of the parts, which borrows its texts from the value. Refused where memory runs out, by a message of a
    /// part, or by one of the type's own, as `Error::custom` makes one. A value that is withheld by a message is never
    /// written.
    fn parts_to_data<'a>(&'a self, alloc: Global) -> Result<Data<'a>, Error>
        ensures ok { IfOk result (λ made. data_of made ≡ Self.Parts.written (Self.parts self.now)) }
        ensures kept { OnOk result (Self.Parts.kept (Self.parts self.now)) }
        ensures allowed { OnOk result ((message : List ℕ) → withheld self.now message → ⊥) }
        ensures refused { IfErr result (IsWriteRefusal
            (λ message. Self.Parts.unwritten (Self.parts self.now) message ⊎ withheld self.now message)) };
}

impl<T: ToParts> Serialize for T
where
    T::Parts: Serialize,
{
    ghost start = { T.Parts.start };

    ghost kept = { λ x. T.Parts.kept (T.parts x) × ((message : List ℕ) → T.withheld x message → ⊥) };

    ghost written = { λ x. T.Parts.written (T.parts x) };

    ghost unwritten = { λ x message. T.Parts.unwritten (T.parts x) message ⊎ T.withheld x message };

    ghost closed = { T.Parts.closed };

    ghost of_shape = { λ x k. T.Parts.of_shape (T.parts x) k.0 };

    fn schema(alloc: Global) -> Result<(Schema, ShapeId), SchemaFault> {
        T::Parts::schema(alloc)
    }

    fn to_data<'a>(&'a self, alloc: Global) -> Result<Data<'a>, Error> {
        self.parts_to_data(alloc)
    }
}

/// A type whose values are equal where they are made of parts that are equal to theirs, which are never refused.
pub trait RoundTripParts<'de>: FromParts<'de> + ToParts + PartialEq
where
    Self::Parts: RoundTrip<'de>,
{
    // Of parts that are equal to a value's only values equal to it are made.
    ghost same: { (x y : Self) (p : Self.Parts) → Self.Parts.eq (Self.parts x) p ≡ true → Self.made p y
        → Self.eq x y ≡ true };

    // No parts are refused by a message.
    ghost never: { (p : Self.Parts) (message : List ℕ) → Self.unmade p message → ⊥ };
}

impl<'de, T: RoundTripParts<'de>> RoundTrip<'de> for T
where
    T::Parts: RoundTrip<'de>,
{
    ghost use Rattle.yaml_types.specs.RowReturns.{of_returned, of_accepted};

    ghost one_schema = { T.Parts.one_schema };

    ghost returned = { λ x y d k. of_returned T.parts T.Parts.kept T.Parts.written T.Parts.built T.Parts.eq
        T.Parts.returned T.made T.eq T.same x y d k.0 };

    ghost accepted = { of_accepted T.parts T.Parts.written T.Parts.built T.Parts.refused T.Parts.accepted T.unmade
        T.never };
}
