//! Tuples of seven elements.

ghost use Rattle.std.specs.Prelude.{◌≡◌};

use crate::composed::{Composed, FromParts, ToParts};
use crate::fault::BuildFault;
use crate::items::with_data;
use crate::traits::Serialize;
use crate::tuples::Tuple;
use std::alloc::Global;
use yaml_base::Error;
use yaml_shape::Data;

impl<A, B, C, D, E, F, G> Composed for (A, B, C, D, E, F, G) {
    type Parts = Tuple<(A, (B, (C, (D, (E, (F, (G,)))))))>;

    ghost parts = { λ x. record { elements = (x.0, (x.1, (x.2, (x.3, (x.4, (x.5, record { 0 = x.6 })))))) } };
}

impl<'de, A, B, C, D, E, F, G> FromParts<'de> for (A, B, C, D, E, F, G) {
    ghost made = { λ parts x. parts.elements ≡ (x.0, (x.1, (x.2, (x.3, (x.4, (x.5, record { 0 = x.6 })))))) };

    fn from_parts(
        _alloc: Global,
        parts: Tuple<(A, (B, (C, (D, (E, (F, (G,)))))))>,
    ) -> Result<(A, B, C, D, E, F, G), BuildFault> {
        let Tuple {
            elements: (a, (b, (c, (d, (e, (f, (g,))))))),
        } = parts;
        Ok((a, b, c, d, e, f, g))
    }
}

impl<
    A: Serialize,
    B: Serialize,
    C: Serialize,
    D: Serialize,
    E: Serialize,
    F: Serialize,
    G: Serialize,
> ToParts for (A, B, C, D, E, F, G) {
    fn parts_to_data<'a>(&'a self, alloc: Global) -> Result<Data<'a>, Error> {
        let items = Vec::with_capacity(alloc, 7)?;
        let items = with_data(alloc, items, &self.0)?;
        let items = with_data(alloc, items, &self.1)?;
        let items = with_data(alloc, items, &self.2)?;
        let items = with_data(alloc, items, &self.3)?;
        let items = with_data(alloc, items, &self.4)?;
        let items = with_data(alloc, items, &self.5)?;
        let items = with_data(alloc, items, &self.6)?;
        Ok(Data::Tuple(items))
    }
}
