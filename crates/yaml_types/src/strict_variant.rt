//! Variants that refuse the keys that they do not have: their fields, in a row.

ghost use Rattle.std.specs.Prelude.{true};
ghost use Rattle.std.proofs.Common.{ap};
ghost use Rattle.yaml_shape.specs.PlainData.{struct_data};
ghost use Rattle.yaml_types.specs.Rows.{BuiltFields, RefusedFields};
ghost use Rattle.yaml_types.specs.Choices.{struct_content};
ghost use Rattle.yaml_types.specs.RowReturns.{fields_returned, fields_accepted};

use crate::contents::strict_struct_behind;
use crate::fault::BuildFault;
use crate::row::{ReadRow, RoundTripRow, Row, WriteRow};
use crate::variant::{ReadVariant, RoundTripVariant, Variant, WriteVariant};
use std::alloc::Global;
use yaml_base::Error;
use yaml_shape::{Data, Schema, SchemaFault, VariantShape};

/// A variant whose fields have names, in a row. Another key is a fault.
#[derive(Drop)]
#[derive_where(PartialEq; R)]
pub struct StrictStructVariant<R> {
    /// The values of the fields.
    pub fields: R,
}

impl<R: Row> Variant for StrictStructVariant<R> {
    ghost width = { R.width };
}

impl<'de, R: ReadRow<'de>> ReadVariant<'de> for StrictStructVariant<R> {
    ghost content = { struct_content true R.starts };

    ghost built = { λ d x. BuiltFields R.built d x.fields };

    ghost refused = { RefusedFields R.refused };

    ghost closed = { R.closed };

    ghost as_wide = { R.as_wide };

    fn shape(
        alloc: Global,
        before: Schema,
        names: Vec<String>,
    ) -> Result<(Schema, VariantShape), SchemaFault> {
        match R::schemas(alloc, Vec::new(alloc)) {
            Ok(parts) => strict_struct_behind(alloc, before, names, parts),
            Err(fault) => Err(fault),
        }
    }

    fn build(alloc: Global, found: Data<'de>) -> Result<StrictStructVariant<R>, BuildFault> {
        match found {
            Data::Struct(items) => match R::build(alloc, items.into_iter()) {
                Ok(fields) => Ok(StrictStructVariant { fields }),
                Err(fault) => Err(fault),
            },
            _ => unreachable!(),
        }
    }

    fn read_bare() -> Option<StrictStructVariant<R>> {
        None
    }
}

impl<R: WriteRow> WriteVariant for StrictStructVariant<R> {
    ghost content = { struct_content true R.starts };

    ghost kept = { λ x. R.kept x.fields };

    ghost written = { λ x. struct_data (R.written x.fields) };

    ghost unwritten = { λ x. R.unwritten x.fields };

    ghost closed = { R.closed };

    ghost as_wide = { R.as_wide };

    ghost of_shape = { λ x. R.of_shape x.fields };

    fn shape(
        alloc: Global,
        before: Schema,
        names: Vec<String>,
    ) -> Result<(Schema, VariantShape), SchemaFault> {
        match R::schemas(alloc, Vec::new(alloc)) {
            Ok(parts) => strict_struct_behind(alloc, before, names, parts),
            Err(fault) => Err(fault),
        }
    }

    fn to_content<'a>(&'a self, alloc: Global) -> Result<Data<'a>, Error> {
        match self.fields.write(alloc, Vec::new(alloc)) {
            Ok(items) => Ok(Data::Struct(items)),
            Err(fault) => Err(fault),
        }
    }
}

impl<'de, R: RoundTripRow<'de>> RoundTripVariant<'de> for StrictStructVariant<R> {
    ghost one_content = { ap (struct_content true) R.one_row };

    ghost returned = { λ x y d. fields_returned R.WriteRow.written R.WriteRow.kept R.ReadRow.built R.eq R.returned
        x.fields y.fields d };

    ghost accepted = { λ x. fields_accepted R.WriteRow.written R.ReadRow.refused R.accepted x.fields };
}
