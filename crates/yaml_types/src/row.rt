//! Rows of types: `()`, or a type with the rest of the row, as `(String, (u16, (Option<bool>, ())))`.

ghost use Rattle.std.specs.Prelude.{◌≡◌, ◌<◌, ◌+◌, ◌∷◌, ◌++◌, ℕ, List, true, length, IsTrue, All, IfOk, IfErr, IfSome};
ghost use Rattle.std.specs.Prelude.{OnOk, Some};
ghost use Rattle.yaml_shape.specs.EqualData.{items_eq};
ghost use Rattle.std.specs.Vec.Iter.{into_iter_items};
ghost use Rattle.yaml_shape.specs.PlainData.{PlainItems};
ghost use Rattle.yaml_shape.specs.DataView.{items_view};
ghost use Rattle.yaml_shape.specs.Join.{IsTooLarge, parts_of};
ghost use Rattle.yaml_types.specs.Start.{Start, IsClosed};
ghost use Rattle.yaml_types.specs.PartShapes.{items_match};
ghost use Rattle.yaml_types.specs.BuildRefusal.{IsBuildRefusal};
ghost use Rattle.yaml_types.specs.WriteRefusal.{IsWriteRefusal};
ghost use Rattle.yaml_types.specs.Rows.{total, items_then};
ghost use Rattle.yaml_types.specs.RowMeans.{RowMeans};
ghost use Rattle.yaml_base.specs.PlainDocEvent.{sequence_ends};
ghost use Rattle.yaml_tape.specs.OnDocs.{docs_from};

use crate::fault::BuildFault;
use crate::tape::ends_sequence;
use crate::traits::{Deserialize, RoundTrip, Serialize};
use std::alloc::Global;
use std::vec::IntoIter;
use yaml_base::Error;
use yaml_shape::{Data, Schema, SchemaFault, ShapeId};
use yaml_tape::Tape;

/// How many types are in a row.
pub trait Row {
    // How many they are.
    ghost width: { ℕ };
}

impl Row for () {
    ghost width = { 0 };
}

impl<A, R: Row> Row for (A, R) {
    ghost use Rattle.std.proofs.Common.{suc};

    ghost width = { suc R.width };
}

/// A row of types whose values are built of as many items.
pub trait ReadRow<'de>: Row + Sized {
    // The table of shapes of each type, and the number of its own.
    ghost starts: { List Start };

    // Which values are those of the items.
    ghost built: { PlainItems → Self → Type 0 };

    // By which messages items are refused.
    ghost refused: { PlainItems → List ℕ → Type 0 };

    /// The schemas of the types behind others. Refused by `TooManyShapes` where one has more than 4,096 shapes, and by
    /// `Memory`.
    fn schemas(
        alloc: Global,
        before: Vec<(Schema, ShapeId)>,
    ) -> Result<Vec<(Schema, ShapeId)>, SchemaFault>
        ensures ok { IfOk result (λ all. parts_of all.items ≡ parts_of before.items ++ starts) }
        ensures refused { IfErr result (IsTooLarge (total starts)) };

    /// The values of as many items, each of the shape of its type. The items are dropped on refusal.
    fn build(alloc: Global, items: IntoIter<Data<'de>>) -> Result<Self, BuildFault>
        requires { IsTrue (items_match starts (items_view (into_iter_items items))) }
        ensures ok { IfOk result (built (items_view (into_iter_items items.entry))) }
        ensures refused { IfErr result (IsBuildRefusal (refused (items_view (into_iter_items items.entry)))) };

    /// The values of as many nodes from a place of a tape on, behind which their sequence ends in what then is the
    /// place; or nothing, which says nothing of the nodes.
    fn read_row(alloc: Global, tape: &Tape<'de>, place: &mut usize, depth: usize) -> Option<Self>
        ensures row { IfSome result (RowMeans starts built tape.now place.old place.new depth) }
        ensures ended { IfSome result (λ _.
            docs_from tape.now place.new ≡ Some sequence_ends ∷ docs_from tape.now (place.new + 1)) }
        ensures there { IfSome result (λ _. place.new < length tape.now.entries.items) };

    // Each shape is in its table, which names no shape outside.
    ghost closed: { All IsClosed starts };

    // There are as many as types.
    ghost as_wide: { length starts ≡ Self.width };
}

impl<'de> ReadRow<'de> for () {
    ghost use Rattle.std.specs.Prelude.{[], refl};
    ghost use Rattle.yaml_types.specs.Rows.{BuiltNothing, NoneRefused};
    ghost use Rattle.yaml_types.specs.StructLaws.{no_row_closed};

    ghost starts = { [] };

    ghost built = { BuiltNothing };

    ghost refused = { NoneRefused };

    ghost closed = { no_row_closed };

    ghost as_wide = { refl };

    fn schemas(
        _alloc: Global,
        before: Vec<(Schema, ShapeId)>,
    ) -> Result<Vec<(Schema, ShapeId)>, SchemaFault> {
        Ok(before)
    }

    fn build(_alloc: Global, _items: IntoIter<Data<'de>>) -> Result<(), BuildFault> {
        Ok(())
    }

    #[tactic(auto, using(crate::proofs::RowReads::row_none))]
    fn read_row(_alloc: Global, tape: &Tape<'de>, place: &mut usize, _depth: usize) -> Option<()> {
        if !ends_sequence(tape, *place) {
            return None;
        }
        Some(())
    }
}

impl<'de, A: Deserialize<'de> + Drop, R: ReadRow<'de>> ReadRow<'de> for (A, R) {
    ghost use Rattle.std.specs.Prelude.{◌∷◌};
    ghost use Rattle.std.proofs.Common.{ap, suc};
    ghost use Rattle.yaml_types.specs.Rows.{BuiltRow, RefusedRow};
    ghost use Rattle.yaml_types.specs.StructLaws.{row_closed};

    ghost starts = { A.start ∷ R.starts };

    ghost built = { BuiltRow A.built R.built };

    ghost refused = { RefusedRow A.built A.refused R.refused };

    ghost closed = { row_closed A.start R.starts A.closed R.closed };

    ghost as_wide = { ap suc R.as_wide };

    fn schemas(
        alloc: Global,
        before: Vec<(Schema, ShapeId)>,
    ) -> Result<Vec<(Schema, ShapeId)>, SchemaFault> {
        let mut all = before;
        match A::schema(alloc) {
            Ok(first) => all.push(first)?,
            Err(fault) => return Err(fault),
        }
        match R::schemas(alloc, all) {
            Ok(all) => Ok(all),
            Err(fault) => Err(fault),
        }
    }

    fn build(alloc: Global, items: IntoIter<Data<'de>>) -> Result<(A, R), BuildFault> {
        let mut items = items;
        let Some(first) = items.next() else {
            unreachable!()
        };
        let first = match A::build(alloc, first) {
            Ok(first) => first,
            Err(fault) => return Err(fault),
        };
        match R::build(alloc, items) {
            Ok(rest) => Ok((first, rest)),
            Err(fault) => Err(fault),
        }
    }

    fn read_row(
        alloc: Global,
        tape: &Tape<'de>,
        place: &mut usize,
        depth: usize,
    ) -> Option<(A, R)> {
        let first = A::read_node(alloc, tape, place, depth)?;
        let rest = R::read_row(alloc, tape, place, depth)?;
        Some((first, rest))
    }
}

/// A row of types whose values are written as as many items.
pub trait WriteRow: Row {
    // The table of shapes of each type, and the number of its own.
    ghost starts: { List Start };

    // What values of the types always keep.
    ghost kept: { Self → Type 0 };

    // The items of the values.
    ghost written: { Self → PlainItems };

    // By which messages one of the values is not written.
    ghost unwritten: { Self → List ℕ → Type 0 };

    /// The schemas of the types behind others. Refused by `TooManyShapes` where one has more than 4,096 shapes, and by
    /// `Memory`.
    fn schemas(
        alloc: Global,
        before: Vec<(Schema, ShapeId)>,
    ) -> Result<Vec<(Schema, ShapeId)>, SchemaFault>
        ensures ok { IfOk result (λ all. parts_of all.items ≡ parts_of before.items ++ starts) }
        ensures refused { IfErr result (IsTooLarge (total starts)) };

    /// The items of the values behind others, which borrow their texts from the values. Refused where memory runs out,
    /// or by a message of a value.
    fn write<'a>(&'a self, alloc: Global, before: Vec<Data<'a>>) -> Result<Vec<Data<'a>>, Error>
        ensures ok { IfOk result (λ all. items_view all.items
            ≡ items_then (items_view before.entry.items) (written self.now)) }
        ensures kept { OnOk result (kept self.now) }
        ensures refused { IfErr result (IsWriteRefusal (unwritten self.now)) };

    // Each shape is in its table, which names no shape outside.
    ghost closed: { All IsClosed starts };

    // There are as many as types.
    ghost as_wide: { length starts ≡ Self.width };

    // There are as many items as types, each of the shape of its own.
    ghost of_shape: { (x : Self) → kept x → IsTrue (items_match starts (written x)) };
}

impl WriteRow for () {
    ghost use Rattle.std.specs.Prelude.{[], refl};
    ghost use Rattle.yaml_shape.specs.PlainData.{no_items};
    ghost use Rattle.yaml_types.specs.StructLaws.{no_row_closed};

    ghost starts = { [] };

    ghost kept = { λ _. Unit {0} };

    ghost written = { λ _. no_items };

    ghost unwritten = { λ _ _. ⊥ };

    ghost closed = { no_row_closed };

    ghost as_wide = { refl };

    ghost of_shape = { λ _ _. refl };

    fn schemas(
        _alloc: Global,
        before: Vec<(Schema, ShapeId)>,
    ) -> Result<Vec<(Schema, ShapeId)>, SchemaFault> {
        Ok(before)
    }

    fn write<'a>(&'a self, _alloc: Global, before: Vec<Data<'a>>) -> Result<Vec<Data<'a>>, Error> {
        Ok(before)
    }
}

impl<A: Serialize, R: WriteRow> WriteRow for (A, R) {
    ghost use Rattle.std.specs.Prelude.{◌∷◌, ◌&&◌};
    ghost use Rattle.std.proofs.Common.{ap, suc};
    ghost use Rattle.yaml_shape.specs.PlainData.{item};
    ghost use Rattle.yaml_types.specs.WriteRefusal.{PairUnwritten};
    ghost use Rattle.yaml_types.specs.StructLaws.{row_closed};

    ghost starts = { A.start ∷ R.starts };

    ghost kept = { λ x. A.kept x.0 × R.kept x.1 };

    ghost written = { λ x. item (A.written x.0) (R.written x.1) };

    ghost unwritten = { PairUnwritten A.unwritten R.unwritten };

    ghost closed = { row_closed A.start R.starts A.closed R.closed };

    ghost as_wide = { ap suc R.as_wide };

    ghost of_shape = { λ x k t. A.of_shape x.0 k.0 t && R.of_shape x.1 k.1 t };

    fn schemas(
        alloc: Global,
        before: Vec<(Schema, ShapeId)>,
    ) -> Result<Vec<(Schema, ShapeId)>, SchemaFault> {
        let mut all = before;
        match A::schema(alloc) {
            Ok(first) => all.push(first)?,
            Err(fault) => return Err(fault),
        }
        match R::schemas(alloc, all) {
            Ok(all) => Ok(all),
            Err(fault) => Err(fault),
        }
    }

    fn write<'a>(&'a self, alloc: Global, before: Vec<Data<'a>>) -> Result<Vec<Data<'a>>, Error> {
        let mut all = before;
        all.push(self.0.to_data(alloc)?)?;
        match self.1.write(alloc, all) {
            Ok(all) => Ok(all),
            Err(fault) => Err(fault),
        }
    }
}

/// A row of types whose values are equal again once they were written as items, and built of items equal to those.
pub trait RoundTripRow<'de>: ReadRow<'de> + WriteRow + PartialEq {
    // Both have the same shapes.
    ghost one_row: { Self.ReadRow.starts ≡ Self.WriteRow.starts };

    // Of items that are equal to what values are written as, only values equal to them are built.
    ghost returned: { (x y : Self) (ds : PlainItems) → Self.WriteRow.kept x
        → items_eq (Self.WriteRow.written x) ds ≡ true → Self.ReadRow.built ds y → Self.eq x y ≡ true };

    // Such items are not refused by a message.
    ghost accepted: { (x : Self) (ds : PlainItems) (message : List ℕ)
        → items_eq (Self.WriteRow.written x) ds ≡ true → Self.ReadRow.refused ds message → ⊥ };
}

impl<'de> RoundTripRow<'de> for () {
    ghost use Rattle.std.specs.Prelude.{refl};

    ghost one_row = { refl };

    ghost returned = { λ _ _ _ _ _ _. refl };

    ghost accepted = { λ _ _ _ _ refused. refused };
}

impl<'de, A: RoundTrip<'de> + Drop, R: RoundTripRow<'de>> RoundTripRow<'de> for (A, R) {
    ghost use Rattle.std.specs.Prelude.{◌∷◌};
    ghost use Rattle.yaml_types.specs.RowReturns.{row_returned, row_accepted};

    ghost one_row = { λ t. A.one_schema t ∷ R.one_row t };

    ghost returned = { row_returned A.written A.kept A.built A.eq R.WriteRow.written R.WriteRow.kept R.ReadRow.built
        R.eq A.returned R.returned };

    ghost accepted = { row_accepted A.written A.built A.refused R.WriteRow.written R.ReadRow.refused A.accepted
        R.accepted };
}
