//! The last type of a row, as `(A,)`: it need not be `Drop`, since no later one is refused.

use crate::fault::BuildFault;
use crate::items::with_data;
use crate::row::{ReadRow, RoundTripRow, Row, WriteRow};
use crate::tape::{ends_sequence, place_behind};
use crate::traits::{Deserialize, RoundTrip, Serialize};
use std::alloc::Global;
use std::vec::IntoIter;
use yaml_base::Error;
use yaml_shape::{Data, Schema, SchemaFault, ShapeId};
use yaml_tape::Tape;

impl<A> Row for (A,) {
    ghost width = { 1 };
}

impl<'de, A: Deserialize<'de>> ReadRow<'de> for (A,) {
    ghost use Rattle.std.specs.Prelude.{[], ◌∷◌, refl};
    ghost use Rattle.yaml_types.specs.Rows.{BuiltRow, BuiltNothing, RefusedRow, NoneRefused};
    ghost use Rattle.yaml_types.specs.StructLaws.{row_closed, no_row_closed};

    ghost starts = { A.start ∷ [] };

    ghost built = { λ ds x. BuiltRow {R = Unit {0}} A.built BuiltNothing ds (x.0, tt) };

    ghost refused = { RefusedRow A.built A.refused NoneRefused };

    ghost closed = { row_closed A.start [] A.closed no_row_closed };

    ghost as_wide = { refl };

    fn schemas(
        alloc: Global,
        before: Vec<(Schema, ShapeId)>,
    ) -> Result<Vec<(Schema, ShapeId)>, SchemaFault> {
        let mut all = before;
        match A::schema(alloc) {
            Ok(last) => all.push(last)?,
            Err(fault) => return Err(fault),
        }
        Ok(all)
    }

    fn build(alloc: Global, items: IntoIter<Data<'de>>) -> Result<(A,), BuildFault> {
        let mut items = items;
        let Some(last) = items.next() else {
            unreachable!()
        };
        match A::build(alloc, last) {
            Ok(last) => Ok((last,)),
            Err(fault) => Err(fault),
        }
    }

    // The end is looked at first, since a value that is not `Drop` can't be let go.
    fn read_row(alloc: Global, tape: &Tape<'de>, place: &mut usize, depth: usize) -> Option<(A,)> {
        if !ends_sequence(tape, place_behind(tape, *place)?) {
            return None;
        }
        let last = A::read_node(alloc, tape, place, depth)?;
        Some((last,))
    }
}

impl<A: Serialize> WriteRow for (A,) {
    ghost use Rattle.std.specs.Prelude.{[], ◌∷◌, ◌&&◌, true, refl};
    ghost use Rattle.yaml_shape.specs.PlainData.{no_items, item};
    ghost use Rattle.yaml_types.specs.StructLaws.{row_closed, no_row_closed};

    ghost starts = { A.start ∷ [] };

    ghost kept = { λ x. A.kept x.0 };

    ghost written = { λ x. item (A.written x.0) no_items };

    ghost unwritten = { λ x. A.unwritten x.0 };

    ghost closed = { row_closed A.start [] A.closed no_row_closed };

    ghost as_wide = { refl };

    ghost of_shape = { λ x k t. A.of_shape x.0 k t && true };

    fn schemas(
        alloc: Global,
        before: Vec<(Schema, ShapeId)>,
    ) -> Result<Vec<(Schema, ShapeId)>, SchemaFault> {
        let mut all = before;
        match A::schema(alloc) {
            Ok(last) => all.push(last)?,
            Err(fault) => return Err(fault),
        }
        Ok(all)
    }

    fn write<'a>(&'a self, alloc: Global, before: Vec<Data<'a>>) -> Result<Vec<Data<'a>>, Error> {
        with_data(alloc, before, &self.0)
    }
}

impl<'de, A: RoundTrip<'de>> RoundTripRow<'de> for (A,) {
    ghost use Rattle.std.specs.Prelude.{[], ◌∷◌};
    ghost use Rattle.yaml_types.specs.RowReturns.{last_returned, last_accepted};

    ghost one_row = { λ t. A.one_schema t ∷ [] };

    ghost returned = { λ x y. last_returned A.written A.kept A.built A.eq A.returned x.0 y.0 };

    ghost accepted = { λ x. last_accepted A.written A.built A.refused A.accepted x.0 };
}
