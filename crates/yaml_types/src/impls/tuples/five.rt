//! Tuples of five elements.

ghost use Rattle.std.specs.Prelude.{◌≡◌};
ghost use Rattle.std.proofs.Common.{rules};

use crate::composed::{Composed, FromParts, RoundTripParts, ToParts};
use crate::fault::BuildFault;
use crate::items::with_data;
use crate::traits::{RoundTrip, Serialize};
use crate::tuples::Tuple;
use std::alloc::Global;
use yaml_base::Error;
use yaml_shape::Data;

impl<A, B, C, D, E> Composed for (A, B, C, D, E) {
    type Parts = Tuple<(A, (B, (C, (D, (E,)))))>;

    ghost parts = { λ x. record { elements = (x.0, (x.1, (x.2, (x.3, record { 0 = x.4 })))) } };
}

impl<'de, A, B, C, D, E> FromParts<'de> for (A, B, C, D, E) {
    ghost made = { λ parts x. parts.elements ≡ (x.0, (x.1, (x.2, (x.3, record { 0 = x.4 })))) };

    fn from_parts(
        _alloc: Global,
        parts: Tuple<(A, (B, (C, (D, (E,)))))>,
    ) -> Result<(A, B, C, D, E), BuildFault> {
        let Tuple {
            elements: (a, (b, (c, (d, (e,))))),
        } = parts;
        Ok((a, b, c, d, e))
    }
}

impl<A: Serialize, B: Serialize, C: Serialize, D: Serialize, E: Serialize> ToParts
    for (A, B, C, D, E) {
    fn parts_to_data<'a>(&'a self, alloc: Global) -> Result<Data<'a>, Error> {
        let items = Vec::with_capacity(alloc, 5)?;
        let items = with_data(alloc, items, &self.0)?;
        let items = with_data(alloc, items, &self.1)?;
        let items = with_data(alloc, items, &self.2)?;
        let items = with_data(alloc, items, &self.3)?;
        let items = with_data(alloc, items, &self.4)?;
        Ok(Data::Tuple(items))
    }
}

impl<
    'de,
    A: RoundTrip<'de> + Drop,
    B: RoundTrip<'de> + Drop,
    C: RoundTrip<'de> + Drop,
    D: RoundTrip<'de> + Drop,
    E: RoundTrip<'de>,
> RoundTripParts<'de> for (A, B, C, D, E) {
    ghost same = { Prim.search rules };

    ghost never = { λ _ _ refused. refused };
}
