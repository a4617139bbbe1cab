//! Tuples: the data of their elements, in a row.

ghost use Rattle.std.specs.Prelude.{length, All, IfOk, IfErr};
ghost use Rattle.yaml_shape.specs.Join.{parts_of, StartsWithin, IsTooLarge};
ghost use Rattle.yaml_types.specs.Start.{IsStart, tuple_start};

use crate::fault::BuildFault;
use crate::row::{ReadRow, RoundTripRow, WriteRow};
use crate::tape::begins_sequence;
use crate::traits::{Deserialize, RoundTrip, Serialize};
use std::alloc::Global;
use yaml_base::Error;
use yaml_shape::{Data, Schema, SchemaFault, ShapeId, tuple_of};
use yaml_tape::Tape;

/// The elements of a tuple, in a row. It is read from a sequence of as many elements.
#[derive_where(PartialEq; R)]
pub struct Tuple<R> {
    /// The elements.
    pub elements: R,
}

/// The schema of a tuple of these elements.
pub(crate) fn tuple_schema(
    alloc: Global,
    parts: Vec<(Schema, ShapeId)>,
) -> Result<(Schema, ShapeId), SchemaFault>
    requires { All StartsWithin (parts_of parts.items) }
    ensures ok { IfOk result (IsStart (tuple_start (parts_of parts.items))) }
    ensures refused { IfErr result (IsTooLarge (length (tuple_start (parts_of parts.items)).0)) }
{
    tuple_of(alloc, parts)
}

impl<'de, R: ReadRow<'de>> Deserialize<'de> for Tuple<R> {
    ghost use Rattle.yaml_types.specs.Start.{tuple_start};
    ghost use Rattle.yaml_types.specs.StartLaws.{closed_tuple};
    ghost use Rattle.yaml_types.specs.Rows.{BuiltElements, RefusedElements};

    ghost start = { tuple_start R.starts };

    ghost built = { λ d x. BuiltElements R.built d x.elements };

    ghost refused = { RefusedElements R.refused };

    ghost closed = { closed_tuple R.starts R.closed };

    fn schema(alloc: Global) -> Result<(Schema, ShapeId), SchemaFault> {
        match R::schemas(alloc, Vec::new(alloc)) {
            Ok(parts) => tuple_schema(alloc, parts),
            Err(fault) => Err(fault),
        }
    }

    fn build(alloc: Global, found: Data<'de>) -> Result<Tuple<R>, BuildFault> {
        match found {
            Data::Tuple(items) => match R::build(alloc, items.into_iter()) {
                Ok(elements) => Ok(Tuple { elements }),
                Err(fault) => Err(fault),
            },
            _ => unreachable!(),
        }
    }

    fn read_node(
        alloc: Global,
        tape: &Tape<'de>,
        place: &mut usize,
        depth: usize,
    ) -> Option<Tuple<R>> {
        if depth == 0 || !begins_sequence(tape, *place) {
            return None;
        }
        *place += 1;
        let elements = R::read_row(alloc, tape, place, depth - 1)?;
        *place += 1;
        Some(Tuple { elements })
    }
}

impl<R: WriteRow> Serialize for Tuple<R> {
    ghost use Rattle.yaml_shape.specs.PlainData.{tuple_data};
    ghost use Rattle.yaml_types.specs.Start.{tuple_start};
    ghost use Rattle.yaml_types.specs.StartLaws.{closed_tuple};
    ghost use Rattle.yaml_types.specs.StructLaws.{row_of_shape};

    ghost start = { tuple_start R.starts };

    ghost kept = { λ x. R.kept x.elements };

    ghost written = { λ x. tuple_data (R.written x.elements) };

    ghost unwritten = { λ x. R.unwritten x.elements };

    ghost closed = { closed_tuple R.starts R.closed };

    ghost of_shape = { λ x k. row_of_shape R.starts R.closed (R.written x.elements) (R.of_shape x.elements k) };

    fn schema(alloc: Global) -> Result<(Schema, ShapeId), SchemaFault> {
        match R::schemas(alloc, Vec::new(alloc)) {
            Ok(parts) => tuple_schema(alloc, parts),
            Err(fault) => Err(fault),
        }
    }

    fn to_data<'a>(&'a self, alloc: Global) -> Result<Data<'a>, Error> {
        match self.elements.write(alloc, Vec::new(alloc)) {
            Ok(items) => Ok(Data::Tuple(items)),
            Err(fault) => Err(fault),
        }
    }
}

impl<'de, R: RoundTripRow<'de>> RoundTrip<'de> for Tuple<R> {
    ghost use Rattle.std.proofs.Common.{ap};
    ghost use Rattle.yaml_types.specs.Start.{tuple_start};
    ghost use Rattle.yaml_types.specs.RowReturns.{elements_returned, elements_accepted};

    ghost one_schema = { ap tuple_start R.one_row };

    ghost returned = { λ x y d. elements_returned R.WriteRow.written R.WriteRow.kept R.ReadRow.built R.eq R.returned
        x.elements y.elements d };

    ghost accepted = { λ x. elements_accepted R.WriteRow.written R.ReadRow.refused R.accepted x.elements };
}
