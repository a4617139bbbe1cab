//! Arrays of a type: tuples of as many elements.

ghost use Rattle.std.specs.Prelude.{IfSome, replicate};
ghost use Rattle.yaml_types.specs.BuiltParts.{BuiltItems};
ghost use Rattle.yaml_types.specs.RowMeans.{RowMeans};

use crate::fault::BuildFault;
use crate::impls::list::{build_items, write_items};
use crate::tape::{begins_sequence, ends_sequence};
use crate::traits::{Deserialize, RoundTrip, Serialize};
use crate::tuples::tuple_schema;
use std::alloc::Global;
use yaml_base::Error;
use yaml_shape::{Data, Schema, SchemaFault, ShapeId};
use yaml_tape::Tape;

// So many values from a place of a tape on.
#[tactic(auto, using(crate::proofs::RowReads::elements_start))]
fn read_elements<'de, T: Deserialize<'de> + Drop>(
    alloc: Global,
    tape: &Tape<'de>,
    place: &mut usize,
    depth: usize,
    count: usize,
) -> Option<Vec<T>>
    ensures { IfSome result (λ xs. RowMeans (replicate count T.start) (BuiltItems T.built) tape.now place.old place.new
        depth xs.items) }
{
    let mut items = Vec::new(alloc);
    for _ in 0..count {
        let item = T::read_node(alloc, tape, place, depth)?;
        items.push(item).ok()?;
    }
    Some(items)
}

impl<'de, T: Deserialize<'de> + Drop, const N: usize> Deserialize<'de> for [T; N] {
    ghost use Rattle.yaml_types.specs.Start.{array_start};
    ghost use Rattle.yaml_types.specs.RefusalParts.{RefusedItems};
    ghost use Rattle.yaml_types.specs.Rows.{BuiltElements, RefusedElements};
    ghost use Rattle.yaml_types.specs.ArrayLaws.{closed_array};

    ghost start = { array_start N T.start };

    ghost built = { BuiltElements (BuiltItems T.built) };

    ghost refused = { RefusedElements (RefusedItems T.built T.refused) };

    ghost closed = { closed_array N T.start T.closed };

    fn schema(alloc: Global) -> Result<(Schema, ShapeId), SchemaFault> {
        let mut parts = Vec::with_capacity(alloc, N)?;
        for _ in 0..N {
            match T::schema(alloc) {
                Ok(part) => parts.push(part)?,
                Err(fault) => return Err(fault),
            }
        }
        tuple_schema(alloc, parts)
    }

    fn build(alloc: Global, found: Data<'de>) -> Result<[T; N], BuildFault> {
        let Data::Tuple(items) = found else {
            unreachable!()
        };
        let values = match build_items(alloc, items) {
            Ok(values) => values,
            Err(fault) => return Err(fault),
        };
        match <[T; N]>::try_from(values) {
            Ok(array) => Ok(array),
            Err(_) => unreachable!(),
        }
    }

    fn read_node(
        alloc: Global,
        tape: &Tape<'de>,
        place: &mut usize,
        depth: usize,
    ) -> Option<[T; N]> {
        if depth == 0 || !begins_sequence(tape, *place) {
            return None;
        }
        *place += 1;
        let values = read_elements(alloc, tape, place, depth - 1, N)?;
        if !ends_sequence(tape, *place) {
            return None;
        }
        *place += 1;
        match <[T; N]>::try_from(values) {
            Ok(array) => Some(array),
            Err(_) => None,
        }
    }
}

impl<T: Serialize, const N: usize> Serialize for [T; N] {
    ghost use Rattle.std.specs.Prelude.{◌≡◌, length, All};
    ghost use Rattle.yaml_types.specs.Start.{array_start};
    ghost use Rattle.yaml_types.specs.WrittenParts.{array_written};
    ghost use Rattle.yaml_types.specs.WriteRefusal.{SomeUnwritten};
    ghost use Rattle.yaml_types.specs.ArrayLaws.{closed_array, array_of_shape};

    ghost start = { array_start N T.start };

    ghost kept = { λ xs. (length xs ≡ N) × All T.kept xs };

    ghost written = { array_written T.written };

    ghost unwritten = { SomeUnwritten T.unwritten };

    ghost closed = { closed_array N T.start T.closed };

    ghost of_shape = { array_of_shape N T.start T.kept T.written T.closed T.of_shape };

    fn schema(alloc: Global) -> Result<(Schema, ShapeId), SchemaFault> {
        let mut parts = Vec::with_capacity(alloc, N)?;
        for _ in 0..N {
            match T::schema(alloc) {
                Ok(part) => parts.push(part)?,
                Err(fault) => return Err(fault),
            }
        }
        tuple_schema(alloc, parts)
    }

    fn to_data<'a>(&'a self, alloc: Global) -> Result<Data<'a>, Error> {
        match write_items(alloc, self.as_slice()) {
            Ok(items) => Ok(Data::Tuple(items)),
            Err(fault) => Err(fault),
        }
    }
}

impl<'de, T: RoundTrip<'de> + Drop, const N: usize> RoundTrip<'de> for [T; N] {
    ghost use Rattle.std.proofs.Common.{ap};
    ghost use Rattle.yaml_types.specs.Start.{array_start};
    ghost use Rattle.yaml_types.specs.ArrayLaws.{array_returned, array_accepted};

    ghost one_schema = { ap (array_start N) T.one_schema };

    ghost returned = { λ xs ys d k. array_returned T.kept T.written T.built T.eq T.returned xs ys d k.1 };

    ghost accepted = { array_accepted T.written T.refused T.built T.accepted };
}
