//! Tuples of four elements.

ghost use Rattle.std.specs.Prelude.{◌≡◌};
ghost use Rattle.std.proofs.Common.{rules};

use crate::composed::{Composed, FromParts, RoundTripParts, ToParts};
use crate::fault::BuildFault;
use crate::items::with_data;
use crate::traits::{RoundTrip, Serialize};
use crate::tuples::Tuple;
use std::alloc::Global;
use yaml_base::Error;
use yaml_shape::Data;

impl<A, B, C, D> Composed for (A, B, C, D) {
    type Parts = Tuple<(A, (B, (C, (D,))))>;

    ghost parts = { λ x. record { elements = (x.0, (x.1, (x.2, record { 0 = x.3 }))) } };
}

impl<'de, A, B, C, D> FromParts<'de> for (A, B, C, D) {
    ghost made = { λ parts x. parts.elements ≡ (x.0, (x.1, (x.2, record { 0 = x.3 }))) };

    fn from_parts(
        _alloc: Global,
        parts: Tuple<(A, (B, (C, (D,))))>,
    ) -> Result<(A, B, C, D), BuildFault> {
        let Tuple {
            elements: (a, (b, (c, (d,)))),
        } = parts;
        Ok((a, b, c, d))
    }
}

impl<A: Serialize, B: Serialize, C: Serialize, D: Serialize> ToParts for (A, B, C, D) {
    fn parts_to_data<'a>(&'a self, alloc: Global) -> Result<Data<'a>, Error> {
        let items = Vec::with_capacity(alloc, 4)?;
        let items = with_data(alloc, items, &self.0)?;
        let items = with_data(alloc, items, &self.1)?;
        let items = with_data(alloc, items, &self.2)?;
        let items = with_data(alloc, items, &self.3)?;
        Ok(Data::Tuple(items))
    }
}

impl<
    'de,
    A: RoundTrip<'de> + Drop,
    B: RoundTrip<'de> + Drop,
    C: RoundTrip<'de> + Drop,
    D: RoundTrip<'de>,
> RoundTripParts<'de> for (A, B, C, D) {
    ghost same = { Prim.search rules };

    ghost never = { λ _ _ refused. refused };
}
