//! What variants hold: nothing, one type, or a row of types, without names or with them.

use crate::contents::{one_behind, struct_behind, tuple_behind};
use crate::fault::BuildFault;
use crate::row::{ReadRow, RoundTripRow, Row, WriteRow};
use crate::traits::{Deserialize, RoundTrip, Serialize};
use crate::variant::{ReadVariant, RoundTripVariant, Variant, WriteVariant};
use std::alloc::Global;
use yaml_base::Error;
use yaml_shape::{Data, Schema, SchemaFault, VariantShape};

/// A variant that holds nothing.
#[derive(Clone, Copy, PartialEq)]
pub struct UnitVariant;

impl Variant for UnitVariant {
    ghost width = { 0 };
}

impl<'de> ReadVariant<'de> for UnitVariant {
    ghost use Rattle.std.specs.Prelude.{◌≡◌, refl};
    ghost use Rattle.yaml_shape.specs.PlainData.{unit_data};
    ghost use Rattle.yaml_types.specs.BuildRefusal.{NeverRefused};
    ghost use Rattle.yaml_types.specs.StructLaws.{no_row_closed};
    ghost use Rattle.yaml_types.specs.Choices.{no_content};

    ghost content = { no_content };

    ghost built = { λ d _. d ≡ unit_data };

    ghost refused = { NeverRefused };

    ghost closed = { no_row_closed };

    ghost as_wide = { refl };

    fn shape(
        _alloc: Global,
        before: Schema,
        _names: Vec<String>,
    ) -> Result<(Schema, VariantShape), SchemaFault> {
        Ok((before, VariantShape::Unit))
    }

    fn build(_alloc: Global, _found: Data<'de>) -> Result<UnitVariant, BuildFault> {
        Ok(UnitVariant)
    }

    fn read_bare() -> Option<UnitVariant> {
        Some(UnitVariant)
    }
}

impl WriteVariant for UnitVariant {
    ghost use Rattle.std.specs.Prelude.{refl};
    ghost use Rattle.yaml_shape.specs.PlainData.{unit_data};
    ghost use Rattle.yaml_types.specs.StructLaws.{no_row_closed};
    ghost use Rattle.yaml_types.specs.Choices.{no_content};

    ghost content = { no_content };

    ghost kept = { λ _. Unit {0} };

    ghost written = { λ _. unit_data };

    ghost unwritten = { λ _ _. ⊥ };

    ghost closed = { no_row_closed };

    ghost as_wide = { refl };

    ghost of_shape = { λ _ _. refl };

    fn shape(
        _alloc: Global,
        before: Schema,
        _names: Vec<String>,
    ) -> Result<(Schema, VariantShape), SchemaFault> {
        Ok((before, VariantShape::Unit))
    }

    fn to_content<'a>(&'a self, _alloc: Global) -> Result<Data<'a>, Error> {
        Ok(Data::Unit)
    }
}

/// A variant around one content.
#[derive(Drop)]
#[derive_where(PartialEq; T)]
pub struct NewtypeVariant<T> {
    /// The content.
    pub content: T,
}

impl<T> Variant for NewtypeVariant<T> {
    ghost width = { 0 };
}

impl<'de, T: Deserialize<'de>> ReadVariant<'de> for NewtypeVariant<T> {
    ghost use Rattle.std.specs.Prelude.{refl};
    ghost use Rattle.yaml_types.specs.StructLaws.{no_row_closed, row_closed};
    ghost use Rattle.yaml_types.specs.Choices.{one_content};
    ghost use Rattle.std.specs.Prelude.{[]};

    ghost content = { one_content T.start };

    ghost built = { λ d x. T.built d x.content };

    ghost refused = { T.refused };

    ghost closed = { row_closed T.start [] T.closed no_row_closed };

    ghost as_wide = { refl };

    fn shape(
        alloc: Global,
        before: Schema,
        _names: Vec<String>,
    ) -> Result<(Schema, VariantShape), SchemaFault> {
        match T::schema(alloc) {
            Ok((part, start)) => one_behind(alloc, before, part, start),
            Err(fault) => Err(fault),
        }
    }

    fn build(alloc: Global, found: Data<'de>) -> Result<NewtypeVariant<T>, BuildFault> {
        match T::build(alloc, found) {
            Ok(content) => Ok(NewtypeVariant { content }),
            Err(fault) => Err(fault),
        }
    }

    fn read_bare() -> Option<NewtypeVariant<T>> {
        None
    }
}

impl<T: Serialize> WriteVariant for NewtypeVariant<T> {
    ghost use Rattle.std.specs.Prelude.{[], refl};
    ghost use Rattle.yaml_types.specs.StructLaws.{no_row_closed, row_closed};
    ghost use Rattle.yaml_types.specs.Choices.{one_content};

    ghost content = { one_content T.start };

    ghost kept = { λ x. T.kept x.content };

    ghost written = { λ x. T.written x.content };

    ghost unwritten = { λ x. T.unwritten x.content };

    ghost closed = { row_closed T.start [] T.closed no_row_closed };

    ghost as_wide = { refl };

    ghost of_shape = { λ x. T.of_shape x.content };

    fn shape(
        alloc: Global,
        before: Schema,
        _names: Vec<String>,
    ) -> Result<(Schema, VariantShape), SchemaFault> {
        match T::schema(alloc) {
            Ok((part, start)) => one_behind(alloc, before, part, start),
            Err(fault) => Err(fault),
        }
    }

    fn to_content<'a>(&'a self, alloc: Global) -> Result<Data<'a>, Error> {
        self.content.to_data(alloc)
    }
}

/// A variant whose fields have names, in a row. The value of another key is stepped over.
#[derive(Drop)]
#[derive_where(PartialEq; R)]
pub struct StructVariant<R> {
    /// The values of the fields.
    pub fields: R,
}

impl<R: Row> Variant for StructVariant<R> {
    ghost width = { R.width };
}

impl<'de, R: ReadRow<'de>> ReadVariant<'de> for StructVariant<R> {
    ghost use Rattle.std.specs.Prelude.{false};
    ghost use Rattle.yaml_types.specs.Rows.{BuiltFields, RefusedFields};
    ghost use Rattle.yaml_types.specs.Choices.{struct_content};

    ghost content = { struct_content false R.starts };

    ghost built = { λ d x. BuiltFields R.built d x.fields };

    ghost refused = { RefusedFields R.refused };

    ghost closed = { R.closed };

    ghost as_wide = { R.as_wide };

    fn shape(
        alloc: Global,
        before: Schema,
        names: Vec<String>,
    ) -> Result<(Schema, VariantShape), SchemaFault> {
        match R::schemas(alloc, Vec::new(alloc)) {
            Ok(parts) => struct_behind(alloc, before, names, parts),
            Err(fault) => Err(fault),
        }
    }

    fn build(alloc: Global, found: Data<'de>) -> Result<StructVariant<R>, BuildFault> {
        match found {
            Data::Struct(items) => match R::build(alloc, items.into_iter()) {
                Ok(fields) => Ok(StructVariant { fields }),
                Err(fault) => Err(fault),
            },
            _ => unreachable!(),
        }
    }

    fn read_bare() -> Option<StructVariant<R>> {
        None
    }
}

impl<R: WriteRow> WriteVariant for StructVariant<R> {
    ghost use Rattle.std.specs.Prelude.{false};
    ghost use Rattle.yaml_shape.specs.PlainData.{struct_data};
    ghost use Rattle.yaml_types.specs.Choices.{struct_content};

    ghost content = { struct_content false R.starts };

    ghost kept = { λ x. R.kept x.fields };

    ghost written = { λ x. struct_data (R.written x.fields) };

    ghost unwritten = { λ x. R.unwritten x.fields };

    ghost closed = { R.closed };

    ghost as_wide = { R.as_wide };

    ghost of_shape = { λ x. R.of_shape x.fields };

    fn shape(
        alloc: Global,
        before: Schema,
        names: Vec<String>,
    ) -> Result<(Schema, VariantShape), SchemaFault> {
        match R::schemas(alloc, Vec::new(alloc)) {
            Ok(parts) => struct_behind(alloc, before, names, parts),
            Err(fault) => Err(fault),
        }
    }

    fn to_content<'a>(&'a self, alloc: Global) -> Result<Data<'a>, Error> {
        match self.fields.write(alloc, Vec::new(alloc)) {
            Ok(items) => Ok(Data::Struct(items)),
            Err(fault) => Err(fault),
        }
    }
}

/// A variant whose fields have no names, in a row.
#[derive(Drop)]
#[derive_where(PartialEq; R)]
pub struct TupleVariant<R> {
    /// The values of the fields.
    pub elements: R,
}

impl<R> Variant for TupleVariant<R> {
    ghost width = { 0 };
}

impl<'de, R: ReadRow<'de>> ReadVariant<'de> for TupleVariant<R> {
    ghost use Rattle.std.specs.Prelude.{refl};
    ghost use Rattle.yaml_types.specs.Rows.{BuiltElements, RefusedElements};
    ghost use Rattle.yaml_types.specs.Choices.{tuple_content};

    ghost content = { tuple_content R.starts };

    ghost built = { λ d x. BuiltElements R.built d x.elements };

    ghost refused = { RefusedElements R.refused };

    ghost closed = { R.closed };

    ghost as_wide = { refl };

    fn shape(
        alloc: Global,
        before: Schema,
        _names: Vec<String>,
    ) -> Result<(Schema, VariantShape), SchemaFault> {
        match R::schemas(alloc, Vec::new(alloc)) {
            Ok(parts) => tuple_behind(alloc, before, parts),
            Err(fault) => Err(fault),
        }
    }

    fn build(alloc: Global, found: Data<'de>) -> Result<TupleVariant<R>, BuildFault> {
        match found {
            Data::Tuple(items) => match R::build(alloc, items.into_iter()) {
                Ok(elements) => Ok(TupleVariant { elements }),
                Err(fault) => Err(fault),
            },
            _ => unreachable!(),
        }
    }

    fn read_bare() -> Option<TupleVariant<R>> {
        None
    }
}

impl<R: WriteRow> WriteVariant for TupleVariant<R> {
    ghost use Rattle.std.specs.Prelude.{refl};
    ghost use Rattle.yaml_shape.specs.PlainData.{tuple_data};
    ghost use Rattle.yaml_types.specs.Choices.{tuple_content};

    ghost content = { tuple_content R.starts };

    ghost kept = { λ x. R.kept x.elements };

    ghost written = { λ x. tuple_data (R.written x.elements) };

    ghost unwritten = { λ x. R.unwritten x.elements };

    ghost closed = { R.closed };

    ghost as_wide = { refl };

    ghost of_shape = { λ x. R.of_shape x.elements };

    fn shape(
        alloc: Global,
        before: Schema,
        _names: Vec<String>,
    ) -> Result<(Schema, VariantShape), SchemaFault> {
        match R::schemas(alloc, Vec::new(alloc)) {
            Ok(parts) => tuple_behind(alloc, before, parts),
            Err(fault) => Err(fault),
        }
    }

    fn to_content<'a>(&'a self, alloc: Global) -> Result<Data<'a>, Error> {
        match self.elements.write(alloc, Vec::new(alloc)) {
            Ok(items) => Ok(Data::Tuple(items)),
            Err(fault) => Err(fault),
        }
    }
}

impl<'de> RoundTripVariant<'de> for UnitVariant {
    ghost use Rattle.std.specs.Prelude.{refl};

    ghost one_content = { refl };

    ghost returned = { λ _ _ _ _ _ _. refl };

    ghost accepted = { λ _ _ _ _ refused. refused };
}

impl<'de, T: RoundTrip<'de>> RoundTripVariant<'de> for NewtypeVariant<T> {
    ghost use Rattle.std.proofs.Common.{ap};
    ghost use Rattle.yaml_types.specs.Choices.{one_content};

    ghost one_content = { ap one_content T.one_schema };

    ghost returned = { λ x y d k e b. T.returned x.content y.content d k e b };

    ghost accepted = { λ x d message e r. T.accepted x.content d message e r };
}

impl<'de, R: RoundTripRow<'de>> RoundTripVariant<'de> for StructVariant<R> {
    ghost use Rattle.std.specs.Prelude.{false};
    ghost use Rattle.std.proofs.Common.{ap};
    ghost use Rattle.yaml_types.specs.Choices.{struct_content};
    ghost use Rattle.yaml_types.specs.RowReturns.{fields_returned, fields_accepted};

    ghost one_content = { ap (struct_content false) R.one_row };

    ghost returned = { λ x y d. fields_returned R.WriteRow.written R.WriteRow.kept R.ReadRow.built R.eq R.returned
        x.fields y.fields d };

    ghost accepted = { λ x. fields_accepted R.WriteRow.written R.ReadRow.refused R.accepted x.fields };
}

impl<'de, R: RoundTripRow<'de>> RoundTripVariant<'de> for TupleVariant<R> {
    ghost use Rattle.std.proofs.Common.{ap};
    ghost use Rattle.yaml_types.specs.Choices.{tuple_content};
    ghost use Rattle.yaml_types.specs.RowReturns.{elements_returned, elements_accepted};

    ghost one_content = { ap tuple_content R.one_row };

    ghost returned = { λ x y d. elements_returned R.WriteRow.written R.WriteRow.kept R.ReadRow.built R.eq R.returned
        x.elements y.elements d };

    ghost accepted = { λ x. elements_accepted R.WriteRow.written R.ReadRow.refused R.accepted x.elements };
}
