//! Structs: the data of their fields, in a row.

ghost use Rattle.std.specs.Prelude.{◌≡◌, ℕ, List, map, length, false, IsTrue, string_bytes, All, IfOk, IfErr};
ghost use Rattle.yaml_shape.specs.Join.{parts_of, StartsWithin, IsTooLarge};
ghost use Rattle.yaml_types.specs.Start.{IsStart};
ghost use Rattle.yaml_types.specs.Rows.{struct_start, all_distinct, FieldNamesFit};

use crate::fault::BuildFault;
use crate::row::{ReadRow, RoundTripRow, Row, WriteRow};
use crate::traits::{Deserialize, RoundTrip, Serialize};
use std::alloc::{AllocError, Global};
use yaml_base::Error;
use yaml_shape::{Data, Schema, SchemaFault, ShapeId, struct_of};
use yaml_tape::Tape;

/// The name of a struct, and the names and the types of its fields.
pub trait Fields
where
    Self::Types: Row,
{
    /// The types of the fields, in a row.
    type Types;

    // The name of the struct.
    ghost name: { List ℕ };

    // The names of the fields, in order.
    ghost names: { List (List ℕ) };

    /// The name of the struct, and those of its fields, in order; `struct_names` makes them.
    fn names(alloc: Global) -> Result<(String, Vec<String>), AllocError>
        ensures { IfOk result (λ made. (string_bytes made.0 ≡ name) × (map string_bytes made.1.items ≡ names)) };

    // The names are those of the fields.
    ghost fits: { FieldNamesFit names Self.Types.width };
}

/// The name of a struct or a variant, and the names of its fields, as texts of their own.
pub fn struct_names(
    alloc: Global,
    name: &str,
    fields: &[&str],
) -> Result<(String, Vec<String>), AllocError>
    ensures name { IfOk result (λ made. string_bytes made.0 ≡ name.now) }
    ensures fields { IfOk result (λ made. map string_bytes made.1.items ≡ map (λ text. text.now) fields.now) }
{
    let name = String::from_str(alloc, name)?;
    let mut names = Vec::with_capacity(alloc, fields.len())?;
    for i in 0..fields.len() {
        names.push(String::from_str(alloc, fields[i])?)?;
    }
    Ok((name, names))
}

/// The fields of a struct, in a row. It is read from a mapping that has the names as keys, in any order; the value of
/// another key is stepped over.
#[derive_where(PartialEq; F::Types)]
pub struct Struct<F: Fields>
where
    F::Types: Row,
{
    /// The values of the fields.
    pub fields: F::Types,
}

impl<F: Fields> Struct<F>
where
    F::Types: Row,
{
    /// The values of the fields.
    pub fn into_fields(self) -> F::Types
        ensures { result ≡ self.fields }
    {
        let Struct { fields } = self;
        fields
    }
}

// The schema of a struct of this name, of fields with these names, which are distinct.
fn struct_schema(
    alloc: Global,
    name: String,
    names: Vec<String>,
    parts: Vec<(Schema, ShapeId)>,
) -> Result<(Schema, ShapeId), SchemaFault>
    requires within { All StartsWithin (parts_of parts.items) }
    requires same { length names.items ≡ length parts.items }
    requires distinct { IsTrue (all_distinct (map string_bytes names.items)) }
    ensures ok { IfOk result (IsStart (struct_start false (string_bytes name) (map string_bytes names.items)
        (parts_of parts.items))) }
    ensures refused { IfErr result (IsTooLarge (length (struct_start false (string_bytes name)
        (map string_bytes names.items) (parts_of parts.items)).0)) }
{
    struct_of(alloc, name, names, parts)
}

impl<'de, F: Fields> Deserialize<'de> for Struct<F>
where
    F::Types: ReadRow<'de>,
{
    ghost use Rattle.std.specs.Prelude.{false};
    ghost use Rattle.yaml_types.specs.Rows.{struct_start, BuiltFields, RefusedFields};
    ghost use Rattle.yaml_types.specs.StructLaws.{closed_struct};

    ghost start = { struct_start false F.name F.names F.Types.starts };

    ghost built = { λ d x. BuiltFields F.Types.built d x.fields };

    ghost refused = { RefusedFields F.Types.refused };

    ghost closed = { closed_struct false F.name F.names F.Types.starts F.Types.closed };

    fn schema(alloc: Global) -> Result<(Schema, ShapeId), SchemaFault> {
        let (name, names) = F::names(alloc)?;
        match F::Types::schemas(alloc, Vec::new(alloc)) {
            Ok(parts) => struct_schema(alloc, name, names, parts),
            Err(fault) => Err(fault),
        }
    }

    fn build(alloc: Global, found: Data<'de>) -> Result<Struct<F>, BuildFault> {
        match found {
            Data::Struct(items) => match F::Types::build(alloc, items.into_iter()) {
                Ok(fields) => Ok(Struct { fields }),
                Err(fault) => Err(fault),
            },
            _ => unreachable!(),
        }
    }

    fn read_node(
        _alloc: Global,
        _tape: &Tape<'de>,
        _place: &mut usize,
        _depth: usize,
    ) -> Option<Struct<F>> {
        None
    }
}

impl<F: Fields> Serialize for Struct<F>
where
    F::Types: WriteRow,
{
    ghost use Rattle.std.specs.Prelude.{false};
    ghost use Rattle.yaml_shape.specs.PlainData.{struct_data};
    ghost use Rattle.yaml_types.specs.Rows.{struct_start};
    ghost use Rattle.yaml_types.specs.StructLaws.{closed_struct, struct_of_shape};

    ghost start = { struct_start false F.name F.names F.Types.starts };

    ghost kept = { λ x. F.Types.kept x.fields };

    ghost written = { λ x. struct_data (F.Types.written x.fields) };

    ghost unwritten = { λ x. F.Types.unwritten x.fields };

    ghost closed = { closed_struct false F.name F.names F.Types.starts F.Types.closed };

    ghost of_shape = { λ x k. struct_of_shape false F.name F.names F.Types.starts F.fits.as_many F.Types.as_wide
        F.Types.closed (F.Types.written x.fields) (F.Types.of_shape x.fields k) };

    fn schema(alloc: Global) -> Result<(Schema, ShapeId), SchemaFault> {
        let (name, names) = F::names(alloc)?;
        match F::Types::schemas(alloc, Vec::new(alloc)) {
            Ok(parts) => struct_schema(alloc, name, names, parts),
            Err(fault) => Err(fault),
        }
    }

    fn to_data<'a>(&'a self, alloc: Global) -> Result<Data<'a>, Error> {
        match self.fields.write(alloc, Vec::new(alloc)) {
            Ok(items) => Ok(Data::Struct(items)),
            Err(fault) => Err(fault),
        }
    }
}

impl<'de, F: Fields> RoundTrip<'de> for Struct<F>
where
    F::Types: RoundTripRow<'de>,
{
    ghost use Rattle.std.specs.Prelude.{false};
    ghost use Rattle.yaml_types.specs.Rows.{struct_start};
    ghost use Rattle.yaml_types.specs.RowReturns.{fields_returned, fields_accepted};

    ghost one_schema = { λ t. struct_start false F.name F.names (F.Types.one_row t) };

    ghost returned = { λ x y d. fields_returned F.Types.WriteRow.written F.Types.WriteRow.kept F.Types.ReadRow.built
        F.Types.eq F.Types.returned x.fields y.fields d };

    ghost accepted = { λ x. fields_accepted F.Types.WriteRow.written F.Types.ReadRow.refused F.Types.accepted
        x.fields };
}
