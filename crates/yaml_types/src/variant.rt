//! Variants of enums, by what they hold.

ghost use Rattle.std.specs.Prelude.{◌≡◌, ◌+◌, ℕ, List, true, map, length, string_bytes, IsTrue, All, IfOk, IfErr};
ghost use Rattle.std.specs.Prelude.{IfSome, OnOk};
ghost use Rattle.yaml_shape.specs.PlainData.{PlainData, unit_data};
ghost use Rattle.yaml_shape.specs.DataView.{data_of};
ghost use Rattle.yaml_shape.specs.EqualData.{EqualData};
ghost use Rattle.yaml_shape.specs.Join.{IsTooLarge};
ghost use Rattle.yaml_types.specs.Start.{IsClosed};
ghost use Rattle.yaml_types.specs.BuildRefusal.{IsBuildRefusal};
ghost use Rattle.yaml_types.specs.WriteRefusal.{IsWriteRefusal};
ghost use Rattle.yaml_types.specs.Rows.{total};
ghost use Rattle.yaml_types.specs.Choices.{Content, no_content, types_in, width_of, IsContent, content_matches};

use crate::fault::BuildFault;
use std::alloc::Global;
use yaml_base::Error;
use yaml_shape::{Data, Schema, SchemaFault, VariantShape};

/// How many fields with names a variant has.
pub trait Variant {
    // How many they are.
    ghost width: { ℕ };
}

/// A variant whose values are built of what it holds.
pub trait ReadVariant<'de>: Variant + Sized {
    // The types of what it holds.
    ghost content: { Content };

    // Which values are those of data.
    ghost built: { PlainData → Self → Type 0 };

    // By which messages data is refused.
    ghost refused: { PlainData → List ℕ → Type 0 };

    /// The schema with the types of what the variant holds behind it, and what the variant holds there, its fields by
    /// these names. Refused by `TooManyShapes` where there are too many shapes, and by `Memory`.
    fn shape(
        alloc: Global,
        before: Schema,
        names: Vec<String>,
    ) -> Result<(Schema, VariantShape), SchemaFault>
        requires { length names.items ≡ Self.width }
        ensures ok { IfOk result (IsContent before (map string_bytes names.items) content) }
        ensures refused { IfErr result (IsTooLarge (length before + total (types_in content))) };

    /// The value of data that is what the variant holds. The data is dropped on refusal.
    fn build(alloc: Global, found: Data<'de>) -> Result<Self, BuildFault>
        requires { IsTrue (content_matches content (data_of found)) }
        ensures ok { IfOk result (built (data_of found.entry)) }
        ensures refused { IfErr result (IsBuildRefusal (refused (data_of found.entry))) };

    /// The value of a variant that holds nothing; nothing where it holds something.
    fn read_bare() -> Option<Self>
        ensures bare { IfSome result (λ _. content ≡ no_content) }
        ensures value { IfSome result (built unit_data) };

    // Each shape is in its table, which names no shape outside.
    ghost closed: { All IsClosed (types_in content) };

    // It has as many fields with names.
    ghost as_wide: { width_of content ≡ Self.width };
}

/// A variant whose values are written as what it holds.
pub trait WriteVariant: Variant {
    // The types of what it holds.
    ghost content: { Content };

    // What a value always keeps.
    ghost kept: { Self → Type 0 };

    // The data of a value.
    ghost written: { Self → PlainData };

    // By which messages a value is not written.
    ghost unwritten: { Self → List ℕ → Type 0 };

    /// The schema with the types of what the variant holds behind it, and what the variant holds there, its fields by
    /// these names. Refused by `TooManyShapes` where there are too many shapes, and by `Memory`.
    fn shape(
        alloc: Global,
        before: Schema,
        names: Vec<String>,
    ) -> Result<(Schema, VariantShape), SchemaFault>
        requires { length names.items ≡ Self.width }
        ensures ok { IfOk result (IsContent before (map string_bytes names.items) content) }
        ensures refused { IfErr result (IsTooLarge (length before + total (types_in content))) };

    /// What the variant holds as data, which borrows its texts from the value. Refused where memory runs out, or by a
    /// message of what the variant holds.
    fn to_content<'a>(&'a self, alloc: Global) -> Result<Data<'a>, Error>
        ensures ok { IfOk result (λ made. data_of made ≡ written self.now) }
        ensures kept { OnOk result (kept self.now) }
        ensures refused { IfErr result (IsWriteRefusal (unwritten self.now)) };

    // Each shape is in its table, which names no shape outside.
    ghost closed: { All IsClosed (types_in content) };

    // It has as many fields with names.
    ghost as_wide: { width_of content ≡ Self.width };

    // The data is what the variant holds.
    ghost of_shape: { (x : Self) → kept x → IsTrue (content_matches content (written x)) };
}

/// A variant whose values are equal again once they were written, and built of data equal to that.
pub trait RoundTripVariant<'de>: ReadVariant<'de> + WriteVariant + PartialEq {
    // Both hold the same types.
    ghost one_content: { Self.ReadVariant.content ≡ Self.WriteVariant.content };

    // Of data that is equal to what a value is written as, only values equal to it are built.
    ghost returned: { (x y : Self) (d : PlainData) → Self.WriteVariant.kept x
        → EqualData (Self.WriteVariant.written x) d → Self.ReadVariant.built d y → Self.eq x y ≡ true };

    // Such data is not refused by a message.
    ghost accepted: { (x : Self) (d : PlainData) (message : List ℕ)
        → EqualData (Self.WriteVariant.written x) d → Self.ReadVariant.refused d message → ⊥ };
}
