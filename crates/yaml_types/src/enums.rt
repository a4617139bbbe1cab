//! Enums: the number of a variant and what it holds, by a choice of variants.

ghost use Rattle.std.specs.Prelude.{◌≡◌, ℕ, List, map, string_bytes, IfOk, IfErr, All};
ghost use Rattle.yaml_shape.specs.ShapeView.{variants_of};
ghost use Rattle.yaml_shape.specs.Join.{joined_all, IsTooLarge};
ghost use Rattle.yaml_types.specs.Start.{IsStart, IsClosed};
ghost use Rattle.yaml_types.specs.Choices.{VariantNames, Content, all_types, width_of, variants_behind, variant_names};
ghost use Rattle.yaml_types.specs.Choices.{enum_start, NamesFit};

use crate::choice::{Choice, ReadChoice, RoundTripChoice, WriteChoice};
use crate::fault::BuildFault;
use crate::structs::struct_names;
use crate::tape_names::{variant_place, word_at};
use crate::traits::{Deserialize, RoundTrip, Serialize};
use std::alloc::{AllocError, Global};
use yaml_base::Error;
use yaml_shape::{Data, Schema, SchemaFault, ShapeId, VariantShape, enum_of};
use yaml_tape::Tape;

/// The name of an enum, and the names and the types of its variants.
pub trait Variants
where
    Self::Choice: Choice,
{
    /// The types of the variants, in a choice.
    type Choice;

    // The name of the enum.
    ghost name: { List ℕ };

    // The name of each variant, and those of its fields, in order.
    ghost names: { List VariantNames };

    /// The name of the enum, and those of the variants, each with those of its fields, in order; `enum_names` makes
    /// them.
    fn names(alloc: Global) -> Result<(String, Vec<(String, Vec<String>)>), AllocError>
        ensures { IfOk result (λ made. (string_bytes made.0 ≡ name) × (variant_names made.1.items ≡ names)) };

    // The names are those of the variants and of their fields.
    ghost fits: { NamesFit names Self.Choice.widths };
}

/// The name of an enum, and those of its variants, each with those of its fields, as texts of their own.
pub fn enum_names(
    alloc: Global,
    name: &str,
    variants: &[(&str, &[&str])],
) -> Result<(String, Vec<(String, Vec<String>)>), AllocError>
    ensures name { IfOk result (λ made. string_bytes made.0 ≡ name.now) }
    ensures variants { IfOk result (λ made. variant_names made.1.items
        ≡ map (λ v. (v.0.now, map (λ text. text.now) v.1.now)) variants.now) }
{
    let name = String::from_str(alloc, name)?;
    let mut names = Vec::with_capacity(alloc, variants.len())?;
    for i in 0..variants.len() {
        let (variant, fields) = variants[i];
        names.push(struct_names(alloc, variant, fields)?)?;
    }
    Ok((name, names))
}

/// The variant of an enum, in a choice. It is read from a node that has the name of a variant as its tag, or as its
/// text where the variant holds nothing.
#[derive_where(PartialEq; F::Choice)]
pub struct Enum<F: Variants>
where
    F::Choice: Choice,
{
    /// The variant.
    pub choice: F::Choice,
}

impl<F: Variants> Enum<F>
where
    F::Choice: Choice,
{
    /// The variant.
    pub fn into_choice(self) -> F::Choice
        ensures { result ≡ self.choice }
    {
        let Enum { choice } = self;
        choice
    }
}

impl<'de, F: Variants> Deserialize<'de> for Enum<F>
where
    F::Choice: ReadChoice<'de>,
{
    ghost use Rattle.yaml_types.specs.Choices.{BuiltVariant, RefusedVariant};
    ghost use Rattle.yaml_types.specs.ChoiceLaws.{closed_enum};

    ghost start = { enum_start F.name F.names F.Choice.contents };

    ghost built = { λ d x. BuiltVariant F.Choice.built d x.choice };

    ghost refused = { RefusedVariant F.Choice.refused };

    ghost closed = { closed_enum F.name F.names F.Choice.contents F.Choice.closed };

    fn schema(alloc: Global) -> Result<(Schema, ShapeId), SchemaFault> {
        let (name, names) = F::names(alloc)?;
        match F::Choice::shapes(
            alloc,
            Schema::empty(alloc),
            Vec::new(alloc),
            names.into_iter(),
        ) {
            Ok((table, variants)) => enum_of(alloc, name, table, variants),
            Err(fault) => Err(fault),
        }
    }

    fn build(alloc: Global, found: Data<'de>) -> Result<Enum<F>, BuildFault> {
        match found {
            Data::Variant(place, content) => match F::Choice::build(
                alloc,
                place,
                Box::into_inner(content),
            ) {
                Ok(choice) => Ok(Enum { choice }),
                Err(fault) => Err(fault),
            },
            _ => unreachable!(),
        }
    }

    fn read_node(
        alloc: Global,
        tape: &Tape<'de>,
        place: &mut usize,
        _depth: usize,
    ) -> Option<Enum<F>> {
        let text = word_at(tape, *place)?;
        let (_, names) = F::names(alloc).ok()?;
        let number = variant_place(&names, text)?;
        let choice = F::Choice::read_bare(number)?;
        *place += 1;
        Some(Enum { choice })
    }
}

impl<F: Variants> Serialize for Enum<F>
where
    F::Choice: WriteChoice,
{
    ghost use Rattle.yaml_shape.specs.PlainData.{variant_data};
    ghost use Rattle.yaml_types.specs.ChoiceLaws.{closed_enum, enum_of_shape};

    ghost start = { enum_start F.name F.names F.Choice.contents };

    ghost kept = { λ x. F.Choice.kept x.choice };

    ghost written = { λ x. variant_data (F.Choice.place x.choice) (F.Choice.written x.choice) };

    ghost unwritten = { λ x. F.Choice.unwritten x.choice };

    ghost closed = { closed_enum F.name F.names F.Choice.contents F.Choice.closed };

    ghost of_shape = { λ x k. enum_of_shape F.name F.names F.Choice.contents F.fits.as_many F.Choice.as_wide
        F.Choice.closed (F.Choice.place x.choice) (F.Choice.written x.choice) (F.Choice.of_shape x.choice k) };

    fn schema(alloc: Global) -> Result<(Schema, ShapeId), SchemaFault> {
        let (name, names) = F::names(alloc)?;
        match F::Choice::shapes(
            alloc,
            Schema::empty(alloc),
            Vec::new(alloc),
            names.into_iter(),
        ) {
            Ok((table, variants)) => enum_of(alloc, name, table, variants),
            Err(fault) => Err(fault),
        }
    }

    fn to_data<'a>(&'a self, alloc: Global) -> Result<Data<'a>, Error> {
        match self.choice.write(alloc, 0) {
            Ok(made) => Ok(made),
            Err(fault) => Err(fault),
        }
    }
}

impl<'de, F: Variants> RoundTrip<'de> for Enum<F>
where
    F::Choice: RoundTripChoice<'de>,
{
    ghost use Rattle.yaml_types.specs.ChoiceReturns.{variant_returned, variant_accepted};

    ghost one_schema = { λ t. enum_start F.name F.names (F.Choice.one_choice t) };

    ghost returned = { λ x y d. variant_returned F.Choice.WriteChoice.kept F.Choice.WriteChoice.place
        F.Choice.WriteChoice.written F.Choice.ReadChoice.built F.Choice.eq F.Choice.returned x.choice y.choice d };

    ghost accepted = { λ x. variant_accepted F.Choice.WriteChoice.place F.Choice.WriteChoice.written
        F.Choice.ReadChoice.refused F.Choice.accepted x.choice };
}
