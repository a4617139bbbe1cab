//! Pairs.

ghost use Rattle.std.specs.Prelude.{◌≡◌};
ghost use Rattle.std.proofs.Common.{rules};

use crate::composed::{Composed, FromParts, RoundTripParts, ToParts};
use crate::fault::BuildFault;
use crate::traits::{RoundTrip, Serialize};
use crate::tuples::Tuple;
use std::alloc::Global;
use yaml_base::Error;
use yaml_shape::Data;

impl<A, B> Composed for (A, B) {
    type Parts = Tuple<(A, (B,))>;

    ghost parts = { λ x. record { elements = (x.0, record { 0 = x.1 }) } };
}

impl<'de, A, B> FromParts<'de> for (A, B) {
    ghost made = { λ parts x. parts.elements ≡ (x.0, record { 0 = x.1 }) };

    fn from_parts(_alloc: Global, parts: Tuple<(A, (B,))>) -> Result<(A, B), BuildFault> {
        let Tuple {
            elements: (a, (b,)),
        } = parts;
        Ok((a, b))
    }
}

impl<A: Serialize, B: Serialize> ToParts for (A, B) {
    fn parts_to_data<'a>(&'a self, alloc: Global) -> Result<Data<'a>, Error> {
        let first = self.0.to_data(alloc)?;
        let second = self.1.to_data(alloc)?;
        Ok(Data::Tuple(vec![in alloc; first, second]?))
    }
}

impl<'de, A: RoundTrip<'de> + Drop, B: RoundTrip<'de>> RoundTripParts<'de> for (A, B) {
    ghost same = { Prim.search rules };

    ghost never = { λ _ _ refused. refused };
}
