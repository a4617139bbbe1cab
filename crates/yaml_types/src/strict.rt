//! Structs that refuse the keys that they do not have: the data of their fields, in a row.

ghost use Rattle.std.specs.Prelude.{◌≡◌, map, length, true, IsTrue, string_bytes, All, IfOk, IfErr};
ghost use Rattle.yaml_shape.specs.PlainData.{struct_data};
ghost use Rattle.yaml_shape.specs.Join.{parts_of, StartsWithin, IsTooLarge};
ghost use Rattle.yaml_types.specs.Start.{IsStart};
ghost use Rattle.yaml_types.specs.Rows.{struct_start, all_distinct, BuiltFields, RefusedFields};
ghost use Rattle.yaml_types.specs.StructLaws.{closed_struct, struct_of_shape};
ghost use Rattle.yaml_types.specs.RowReturns.{fields_returned, fields_accepted};

use crate::fault::BuildFault;
use crate::row::{ReadRow, RoundTripRow, Row, WriteRow};
use crate::structs::Fields;
use crate::traits::{Deserialize, RoundTrip, Serialize};
use std::alloc::Global;
use yaml_base::Error;
use yaml_shape::{Data, Schema, SchemaFault, ShapeId, strict_struct_of};
use yaml_tape::Tape;

/// The fields of a struct, in a row. It is read from a mapping that has the names as keys, in any order; another
/// key is a fault.
#[derive_where(PartialEq; F::Types)]
pub struct StrictStruct<F: Fields>
where
    F::Types: Row,
{
    /// The values of the fields.
    pub fields: F::Types,
}

impl<F: Fields> StrictStruct<F>
where
    F::Types: Row,
{
    /// The values of the fields.
    pub fn into_fields(self) -> F::Types
        ensures { result ≡ self.fields }
    {
        let StrictStruct { fields } = self;
        fields
    }
}

// The schema of a struct of this name, of fields with these names, which are distinct, that refuses others.
fn strict_struct_schema(
    alloc: Global,
    name: String,
    names: Vec<String>,
    parts: Vec<(Schema, ShapeId)>,
) -> Result<(Schema, ShapeId), SchemaFault>
    requires within { All StartsWithin (parts_of parts.items) }
    requires same { length names.items ≡ length parts.items }
    requires distinct { IsTrue (all_distinct (map string_bytes names.items)) }
    ensures ok { IfOk result (IsStart (struct_start true (string_bytes name) (map string_bytes names.items)
        (parts_of parts.items))) }
    ensures refused { IfErr result (IsTooLarge (length (struct_start true (string_bytes name)
        (map string_bytes names.items) (parts_of parts.items)).0)) }
{
    strict_struct_of(alloc, name, names, parts)
}

impl<'de, F: Fields> Deserialize<'de> for StrictStruct<F>
where
    F::Types: ReadRow<'de>,
{
    ghost start = { struct_start true F.name F.names F.Types.starts };

    ghost built = { λ d x. BuiltFields F.Types.built d x.fields };

    ghost refused = { RefusedFields F.Types.refused };

    ghost closed = { closed_struct true F.name F.names F.Types.starts F.Types.closed };

    fn schema(alloc: Global) -> Result<(Schema, ShapeId), SchemaFault> {
        let (name, names) = F::names(alloc)?;
        match F::Types::schemas(alloc, Vec::new(alloc)) {
            Ok(parts) => strict_struct_schema(alloc, name, names, parts),
            Err(fault) => Err(fault),
        }
    }

    fn build(alloc: Global, found: Data<'de>) -> Result<StrictStruct<F>, BuildFault> {
        match found {
            Data::Struct(items) => match F::Types::build(alloc, items.into_iter()) {
                Ok(fields) => Ok(StrictStruct { fields }),
                Err(fault) => Err(fault),
            },
            _ => unreachable!(),
        }
    }

    fn read_node(
        _alloc: Global,
        _tape: &Tape<'de>,
        _place: &mut usize,
        _depth: usize,
    ) -> Option<StrictStruct<F>> {
        None
    }
}

impl<F: Fields> Serialize for StrictStruct<F>
where
    F::Types: WriteRow,
{
    ghost start = { struct_start true F.name F.names F.Types.starts };

    ghost kept = { λ x. F.Types.kept x.fields };

    ghost written = { λ x. struct_data (F.Types.written x.fields) };

    ghost unwritten = { λ x. F.Types.unwritten x.fields };

    ghost closed = { closed_struct true F.name F.names F.Types.starts F.Types.closed };

    ghost of_shape = { λ x k. struct_of_shape true F.name F.names F.Types.starts F.fits.as_many F.Types.as_wide
        F.Types.closed (F.Types.written x.fields) (F.Types.of_shape x.fields k) };

    fn schema(alloc: Global) -> Result<(Schema, ShapeId), SchemaFault> {
        let (name, names) = F::names(alloc)?;
        match F::Types::schemas(alloc, Vec::new(alloc)) {
            Ok(parts) => strict_struct_schema(alloc, name, names, parts),
            Err(fault) => Err(fault),
        }
    }

    fn to_data<'a>(&'a self, alloc: Global) -> Result<Data<'a>, Error> {
        match self.fields.write(alloc, Vec::new(alloc)) {
            Ok(items) => Ok(Data::Struct(items)),
            Err(fault) => Err(fault),
        }
    }
}

impl<'de, F: Fields> RoundTrip<'de> for StrictStruct<F>
where
    F::Types: RoundTripRow<'de>,
{
    ghost one_schema = { λ t. struct_start true F.name F.names (F.Types.one_row t) };

    ghost returned = { λ x y d. fields_returned F.Types.WriteRow.written F.Types.WriteRow.kept F.Types.ReadRow.built
        F.Types.eq F.Types.returned x.fields y.fields d };

    ghost accepted = { λ x. fields_accepted F.Types.WriteRow.written F.Types.ReadRow.refused F.Types.accepted
        x.fields };
}
