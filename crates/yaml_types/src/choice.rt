//! Choices of variants: `Last` of one, or `OneOf` one and the rest of the choice, as
//! `OneOf<UnitVariant, Last<NewtypeVariant<u16>>>`.

ghost use Rattle.std.specs.Prelude.{◌≡◌, ◌≤◌, ◌+◌, ℕ, List, true, map, length, IsTrue, All, IfOk, IfErr, IfSome, OnOk};
ghost use Rattle.std.specs.Vec.Iter.{into_iter_items};
ghost use Rattle.yaml_shape.specs.PlainData.{PlainData, variant_data};
ghost use Rattle.yaml_shape.specs.DataView.{data_of};
ghost use Rattle.yaml_shape.specs.EqualData.{EqualData};
ghost use Rattle.yaml_shape.specs.Join.{IsTooLarge};
ghost use Rattle.yaml_types.specs.Start.{IsClosed};
ghost use Rattle.yaml_types.specs.BuildRefusal.{IsBuildRefusal};
ghost use Rattle.yaml_types.specs.WriteRefusal.{IsWriteRefusal};
ghost use Rattle.yaml_types.specs.Rows.{total};
ghost use Rattle.yaml_types.specs.TapeNames.{IsBareValue};
ghost use Rattle.yaml_types.specs.Choices.{Content, all_types, width_of, variant_names, AreVariants, choice_matches};

use crate::fault::BuildFault;
use crate::variant::{ReadVariant, RoundTripVariant, Variant, WriteVariant};
use std::alloc::Global;
use std::vec::IntoIter;
use yaml_base::Error;
use yaml_shape::{Data, Schema, SchemaFault, VariantShape};

/// The last variant of a choice.
#[derive(Drop)]
#[derive_where(PartialEq; V)]
pub struct Last<V> {
    /// Its value.
    pub variant: V,
}

/// The first variant of a choice, or one of the others.
#[derive(Drop)]
#[derive_where(PartialEq; V, C)]
pub enum OneOf<V, C> {
    /// The first.
    First(V),
    /// One of the others.
    Other(C),
}

/// How many fields with names each variant of a choice has.
pub trait Choice {
    // How many they are.
    ghost widths: { List ℕ };
}

impl<V: Variant> Choice for Last<V> {
    ghost use Rattle.std.specs.Prelude.{[], ◌∷◌};

    ghost widths = { V.width ∷ [] };
}

impl<V: Variant, C: Choice> Choice for OneOf<V, C> {
    ghost use Rattle.std.specs.Prelude.{◌∷◌};

    ghost widths = { V.width ∷ C.widths };
}

/// A choice whose values are built of the number of a variant and what the variant holds.
pub trait ReadChoice<'de>: Choice + Sized {
    // What each variant holds.
    ghost contents: { List Content };

    // Which values are those of a variant's number and of data.
    ghost built: { ℕ → PlainData → Self → Type 0 };

    // By which messages they are refused.
    ghost refused: { ℕ → PlainData → List ℕ → Type 0 };

    /// The schema with the types of what the variants hold behind it, and the variants with these names behind others.
    /// Refused by `TooManyShapes` where there are too many shapes, and by `Memory`.
    fn shapes(
        alloc: Global,
        before: Schema,
        others: Vec<(String, VariantShape)>,
        names: IntoIter<(String, Vec<String>)>,
    ) -> Result<(Schema, Vec<(String, VariantShape)>), SchemaFault>
        requires { map (λ n. length n.1) (variant_names (into_iter_items names)) ≡ Self.widths }
        ensures ok { IfOk result (AreVariants before others.items
            (variant_names (into_iter_items names)) contents) }
        ensures refused { IfErr result (IsTooLarge (length before + total (all_types contents))) };

    /// The value of the variant with this number, of data that is what it holds. The data is dropped on refusal.
    fn build(alloc: Global, place: usize, found: Data<'de>) -> Result<Self, BuildFault>
        requires { IsTrue (choice_matches contents place (data_of found)) }
        ensures ok { IfOk result (built place (data_of found.entry)) }
        ensures refused { IfErr result (IsBuildRefusal (refused place (data_of found.entry))) };

    /// The value of the variant with this number, if it is one that holds nothing.
    fn read_bare(place: usize) -> Option<Self>
        ensures { IfSome result (IsBareValue contents built place) };

    // Each shape is in its table, which names no shape outside.
    ghost closed: { All IsClosed (all_types contents) };

    // Each variant has as many fields with names.
    ghost as_wide: { map width_of contents ≡ Self.widths };
}

impl<'de, V: ReadVariant<'de>> ReadChoice<'de> for Last<V> {
    ghost use Rattle.std.specs.Prelude.{[], ◌∷◌};
    ghost use Rattle.std.proofs.Common.{ap};
    ghost use Rattle.yaml_types.specs.Choices.{BuiltLast, RefusedLast};
    ghost use Rattle.yaml_types.specs.ChoiceLaws.{last_closed};

    ghost contents = { V.content ∷ [] };

    ghost built = { λ place d x. BuiltLast V.built place d x.variant };

    ghost refused = { RefusedLast V.refused };

    ghost closed = { last_closed V.content V.closed };

    ghost as_wide = { ap (λ n. n ∷ []) V.as_wide };

    fn shapes(
        alloc: Global,
        before: Schema,
        others: Vec<(String, VariantShape)>,
        names: IntoIter<(String, Vec<String>)>,
    ) -> Result<(Schema, Vec<(String, VariantShape)>), SchemaFault> {
        let mut names = names;
        let mut all = others;
        let Some((name, fields)) = names.next() else {
            unreachable!()
        };
        match V::shape(alloc, before, fields) {
            Ok((table, content)) => {
                all.push((name, content))?;
                Ok((table, all))
            }
            Err(fault) => Err(fault),
        }
    }

    fn build(alloc: Global, _place: usize, found: Data<'de>) -> Result<Last<V>, BuildFault> {
        match V::build(alloc, found) {
            Ok(variant) => Ok(Last { variant }),
            Err(fault) => Err(fault),
        }
    }

    fn read_bare(place: usize) -> Option<Last<V>> {
        if place != 0 {
            return None;
        }
        let variant = V::read_bare()?;
        Some(Last { variant })
    }
}

impl<'de, V: ReadVariant<'de>, C: ReadChoice<'de>> ReadChoice<'de> for OneOf<V, C> {
    ghost use Rattle.std.specs.Prelude.{◌∷◌};
    ghost use Rattle.yaml_types.specs.Choices.{BuiltOneOf, RefusedOneOf};
    ghost use Rattle.yaml_types.specs.ChoiceLaws.{more_closed};

    ghost contents = { V.content ∷ C.contents };

    ghost built = { BuiltOneOf V.built C.built };

    ghost refused = { RefusedOneOf V.refused C.refused };

    ghost closed = { more_closed V.content C.contents V.closed C.closed };

    ghost as_wide = { λ t. V.as_wide t ∷ C.as_wide t };

    fn shapes(
        alloc: Global,
        before: Schema,
        others: Vec<(String, VariantShape)>,
        names: IntoIter<(String, Vec<String>)>,
    ) -> Result<(Schema, Vec<(String, VariantShape)>), SchemaFault> {
        let mut names = names;
        let mut all = others;
        let Some((name, fields)) = names.next() else {
            unreachable!()
        };
        let table = match V::shape(alloc, before, fields) {
            Ok((table, content)) => {
                all.push((name, content))?;
                table
            }
            Err(fault) => return Err(fault),
        };
        match C::shapes(alloc, table, all, names) {
            Ok(made) => Ok(made),
            Err(fault) => Err(fault),
        }
    }

    fn build(alloc: Global, place: usize, found: Data<'de>) -> Result<OneOf<V, C>, BuildFault> {
        if place == 0 {
            return match V::build(alloc, found) {
                Ok(first) => Ok(OneOf::First(first)),
                Err(fault) => Err(fault),
            };
        }
        match C::build(alloc, place - 1, found) {
            Ok(other) => Ok(OneOf::Other(other)),
            Err(fault) => Err(fault),
        }
    }

    fn read_bare(place: usize) -> Option<OneOf<V, C>> {
        if place == 0 {
            let first = V::read_bare()?;
            return Some(OneOf::First(first));
        }
        let other = C::read_bare(place - 1)?;
        Some(OneOf::Other(other))
    }
}

/// A choice whose values are written as the number of their variant and what it holds.
pub trait WriteChoice: Choice {
    // What each variant holds.
    ghost contents: { List Content };

    // What a value always keeps.
    ghost kept: { Self → Type 0 };

    // The number of a value's variant.
    ghost place: { Self → ℕ };

    // The data of what the variant holds.
    ghost written: { Self → PlainData };

    // By which messages that is not written.
    ghost unwritten: { Self → List ℕ → Type 0 };

    /// The schema with the types of what the variants hold behind it, and the variants with these names behind others.
    /// Refused by `TooManyShapes` where there are too many shapes, and by `Memory`.
    fn shapes(
        alloc: Global,
        before: Schema,
        others: Vec<(String, VariantShape)>,
        names: IntoIter<(String, Vec<String>)>,
    ) -> Result<(Schema, Vec<(String, VariantShape)>), SchemaFault>
        requires { map (λ n. length n.1) (variant_names (into_iter_items names)) ≡ Self.widths }
        ensures ok { IfOk result (AreVariants before others.items
            (variant_names (into_iter_items names)) contents) }
        ensures refused { IfErr result (IsTooLarge (length before + total (all_types contents))) };

    /// The variant of the value, with as many numbers before its own as are told, and what it holds as data, which
    /// borrows its texts from the value. Refused where memory runs out, or by a message of what the variant holds.
    fn write<'a>(&'a self, alloc: Global, before: usize) -> Result<Data<'a>, Error>
        requires { before + length contents ≤ usize.MAX }
        ensures ok { IfOk result
            (λ made. data_of made ≡ variant_data (before + place self.now) (written self.now)) }
        ensures kept { OnOk result (kept self.now) }
        ensures refused { IfErr result (IsWriteRefusal (unwritten self.now)) };

    // Each shape is in its table, which names no shape outside.
    ghost closed: { All IsClosed (all_types contents) };

    // Each variant has as many fields with names.
    ghost as_wide: { map width_of contents ≡ Self.widths };

    // The data is what the variant holds.
    ghost of_shape: { (x : Self) → kept x → IsTrue (choice_matches contents (place x) (written x)) };
}

impl<V: WriteVariant> WriteChoice for Last<V> {
    ghost use Rattle.std.specs.Prelude.{[], ◌∷◌};
    ghost use Rattle.std.proofs.Common.{ap};
    ghost use Rattle.yaml_types.specs.ChoiceLaws.{last_closed};

    ghost contents = { V.content ∷ [] };

    ghost kept = { λ x. V.kept x.variant };

    ghost place = { λ _. 0 };

    ghost written = { λ x. V.written x.variant };

    ghost unwritten = { λ x. V.unwritten x.variant };

    ghost closed = { last_closed V.content V.closed };

    ghost as_wide = { ap (λ n. n ∷ []) V.as_wide };

    ghost of_shape = { λ x. V.of_shape x.variant };

    fn shapes(
        alloc: Global,
        before: Schema,
        others: Vec<(String, VariantShape)>,
        names: IntoIter<(String, Vec<String>)>,
    ) -> Result<(Schema, Vec<(String, VariantShape)>), SchemaFault> {
        let mut names = names;
        let mut all = others;
        let Some((name, fields)) = names.next() else {
            unreachable!()
        };
        match V::shape(alloc, before, fields) {
            Ok((table, content)) => {
                all.push((name, content))?;
                Ok((table, all))
            }
            Err(fault) => Err(fault),
        }
    }

    fn write<'a>(&'a self, alloc: Global, before: usize) -> Result<Data<'a>, Error> {
        let content = self.variant.to_content(alloc)?;
        Ok(Data::Variant(before, Box::new(alloc, content)?))
    }
}

impl<V: WriteVariant, C: WriteChoice> WriteChoice for OneOf<V, C> {
    ghost use Rattle.std.specs.Prelude.{◌∷◌};
    ghost use Rattle.yaml_types.specs.declared.choice.OneOf.TheVariants.{First, Other};
    ghost use Rattle.yaml_types.specs.Choices.{one_of_kept, one_of_place, one_of_written};
    ghost use Rattle.yaml_types.specs.WriteRefusal.{OneOfUnwritten};
    ghost use Rattle.yaml_types.specs.ChoiceLaws.{more_closed};

    ghost contents = { V.content ∷ C.contents };

    ghost kept = { one_of_kept V.kept C.kept };

    ghost place = { one_of_place C.place };

    ghost written = { one_of_written V.written C.written };

    ghost unwritten = { OneOfUnwritten V.unwritten C.unwritten };

    ghost closed = { more_closed V.content C.contents V.closed C.closed };

    ghost as_wide = { λ t. V.as_wide t ∷ C.as_wide t };

    ghost of_shape = { elim [ First x ↦ V.of_shape x | Other y ↦ C.of_shape y ] };

    fn shapes(
        alloc: Global,
        before: Schema,
        others: Vec<(String, VariantShape)>,
        names: IntoIter<(String, Vec<String>)>,
    ) -> Result<(Schema, Vec<(String, VariantShape)>), SchemaFault> {
        let mut names = names;
        let mut all = others;
        let Some((name, fields)) = names.next() else {
            unreachable!()
        };
        let table = match V::shape(alloc, before, fields) {
            Ok((table, content)) => {
                all.push((name, content))?;
                table
            }
            Err(fault) => return Err(fault),
        };
        match C::shapes(alloc, table, all, names) {
            Ok(made) => Ok(made),
            Err(fault) => Err(fault),
        }
    }

    fn write<'a>(&'a self, alloc: Global, before: usize) -> Result<Data<'a>, Error> {
        match self {
            OneOf::First(first) => {
                let content = first.to_content(alloc)?;
                Ok(Data::Variant(before, Box::new(alloc, content)?))
            }
            OneOf::Other(other) => match other.write(alloc, before + 1) {
                Ok(made) => Ok(made),
                Err(fault) => Err(fault),
            },
        }
    }
}

/// A choice whose values are equal again once they were written, and built of the same number and of data equal to
/// what was written.
pub trait RoundTripChoice<'de>: ReadChoice<'de> + WriteChoice + PartialEq {
    // Both hold the same types.
    ghost one_choice: { Self.ReadChoice.contents ≡ Self.WriteChoice.contents };

    // Of data that is equal to what a value is written as, only values equal to it are built.
    ghost returned: { (x y : Self) (place : ℕ) (d : PlainData) → Self.WriteChoice.kept x
        → Self.WriteChoice.place x ≡ place → EqualData (Self.WriteChoice.written x) d
        → Self.ReadChoice.built place d y → Self.eq x y ≡ true };

    // Such data is not refused by a message.
    ghost accepted: { (x : Self) (place : ℕ) (d : PlainData) (message : List ℕ)
        → Self.WriteChoice.place x ≡ place → EqualData (Self.WriteChoice.written x) d
        → Self.ReadChoice.refused place d message → ⊥ };
}

impl<'de, V: RoundTripVariant<'de>> RoundTripChoice<'de> for Last<V> {
    ghost use Rattle.std.specs.Prelude.{[], ◌∷◌};
    ghost use Rattle.std.proofs.Common.{ap};

    ghost one_choice = { ap (λ c. c ∷ []) V.one_content };

    ghost returned = { λ x y place d k same e b. V.returned x.variant y.variant d k e b.1 };

    ghost accepted = { λ x place d message same e r. V.accepted x.variant d message e r.1 };
}

impl<'de, V: RoundTripVariant<'de>, C: RoundTripChoice<'de>> RoundTripChoice<'de> for OneOf<V, C> {
    ghost use Rattle.std.specs.Prelude.{◌∷◌, refl};
    ghost use Rattle.yaml_types.specs.ChoiceReturns.{one_of_returned, one_of_accepted};

    ghost one_choice = { λ t. V.one_content t ∷ C.one_choice t };

    ghost returned = { one_of_returned _ V.WriteVariant.kept V.WriteVariant.written V.ReadVariant.built V.eq
        V.returned C.WriteChoice.kept C.WriteChoice.place C.WriteChoice.written C.ReadChoice.built C.eq C.returned
        (λ _ _. refl) (λ _ _. refl) };

    ghost accepted = { one_of_accepted V.WriteVariant.written V.ReadVariant.refused V.accepted C.WriteChoice.place
        C.WriteChoice.written C.ReadChoice.refused C.accepted };
}
