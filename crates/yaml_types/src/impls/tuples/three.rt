//! Triples.

ghost use Rattle.std.specs.Prelude.{◌≡◌};
ghost use Rattle.std.proofs.Common.{rules};

use crate::composed::{Composed, FromParts, RoundTripParts, ToParts};
use crate::fault::BuildFault;
use crate::traits::{RoundTrip, Serialize};
use crate::tuples::Tuple;
use std::alloc::Global;
use yaml_base::Error;
use yaml_shape::Data;

impl<A, B, C> Composed for (A, B, C) {
    type Parts = Tuple<(A, (B, (C,)))>;

    ghost parts = { λ x. record { elements = (x.0, (x.1, record { 0 = x.2 })) } };
}

impl<'de, A, B, C> FromParts<'de> for (A, B, C) {
    ghost made = { λ parts x. parts.elements ≡ (x.0, (x.1, record { 0 = x.2 })) };

    fn from_parts(_alloc: Global, parts: Tuple<(A, (B, (C,)))>) -> Result<(A, B, C), BuildFault> {
        let Tuple {
            elements: (a, (b, (c,))),
        } = parts;
        Ok((a, b, c))
    }
}

impl<A: Serialize, B: Serialize, C: Serialize> ToParts for (A, B, C) {
    fn parts_to_data<'a>(&'a self, alloc: Global) -> Result<Data<'a>, Error> {
        let first = self.0.to_data(alloc)?;
        let second = self.1.to_data(alloc)?;
        let third = self.2.to_data(alloc)?;
        Ok(Data::Tuple(vec![in alloc; first, second, third]?))
    }
}

impl<'de, A: RoundTrip<'de> + Drop, B: RoundTrip<'de> + Drop, C: RoundTrip<'de>> RoundTripParts<'de>
    for (A, B, C) {
    ghost same = { Prim.search rules };

    ghost never = { λ _ _ refused. refused };
}
