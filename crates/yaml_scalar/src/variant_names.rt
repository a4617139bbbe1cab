//! The variants of an enum: found by their names, and what a scalar that names one gives.

ghost use Rattle.std.specs.Prelude.{◌≡◌, Err, IfOk, None, codes};
ghost use Rattle.std.specs.Option.{option_map_or};
ghost use Rattle.yaml_base.specs.DocEventView.{doc_scalar_of};
ghost use Rattle.yaml_base.specs.declared.found.Found.TheVariants.{Bytes, UnitVariant};
ghost use Rattle.yaml_shape.specs.DataView.{data_of};
ghost use Rattle.yaml_shape.specs.ShapeView.{content_of, variants_of};
ghost use Rattle.yaml_shape.specs.Validity.{names_of};
ghost use Rattle.yaml_meaning.specs.ReadFault.{at_node, nested_enum};
ghost use Rattle.yaml_meaning.specs.ReadingGives.{IsRefusedBy, Yields};
ghost use Rattle.yaml_meaning.specs.ScalarFound.{wrong_type};
ghost use Rattle.yaml_meaning.specs.ScalarShapes.{text_of};
ghost use Rattle.yaml_meaning.specs.Variants.{bare_variant, named_variant, unknown_variant, variant_named};
ghost use Rattle.yaml_scalar.specs.VariantView.{variant_view};

use crate::expected::words;
use crate::found_kind::refusal_of;
use crate::refusal::{Refusal, Result, refuse};
use crate::sort::text_of;
use std::alloc::{AllocError, Global};
use yaml_base::{Cause, DocScalar, Error, Found, WordList};
use yaml_shape::{Data, VariantShape};

/// The place of the variant with a name, and what it holds.
pub fn variant_named<'a>(
    variants: &'a [(String, VariantShape)],
    name: &str,
) -> Option<(usize, &'a VariantShape)>
    ensures { variant_view result ≡ variant_named (variants_of variants.now) name.now }
{
    for place in 0..variants.len() {
        if variants[place].0.as_str() == name {
            return Some((place, &variants[place].1));
        }
    }
    None
}

// The names of the variants.
fn names(
    alloc: Global,
    variants: &[(String, VariantShape)],
) -> std::result::Result<WordList, AllocError>
    ensures { IfOk result (λ names. names ≡ names_of (variants_of variants.now)) }
{
    let mut names = Vec::with_capacity(alloc, variants.len())?;
    for variant in variants {
        names.push(words(alloc, variant.0.as_str())?)?;
    }
    Ok(WordList::new(names))
}

// The refusal of a name that no variant has.
fn unknown(
    alloc: Global,
    variants: &[(String, VariantShape)],
    name: &str,
) -> std::result::Result<Refusal, AllocError>
    ensures { IfOk result
        (λ refusal. IsRefusedBy refusal (unknown_variant (variants_of variants.now) name.now)) }
{
    let fault = Cause::UnknownVariant {
        variant: words(alloc, name)?,
        known: names(alloc, variants)?,
        place: None,
    };
    Ok(refuse(alloc, Error::new(fault)))
}

/// The fault of a name that no variant has, or want of memory.
#[cold]
#[inline(never)]
pub fn unknown_variant(alloc: Global, variants: &[(String, VariantShape)], name: &str) -> Refusal
    ensures { IsRefusedBy result (unknown_variant (variants_of variants.now) name.now) }
{
    refusal_of(unknown(alloc, variants, name))
}

// The refusal of a node of another type than is expected.
fn wrong_type(
    alloc: Global,
    found: Found,
    expected: &str,
) -> std::result::Result<Refusal, AllocError>
    ensures { IfOk result (λ refusal. IsRefusedBy refusal (wrong_type found expected.now)) }
{
    let fault = Cause::InvalidType {
        found,
        expected: words(alloc, expected)?,
        place: None,
    };
    Ok(refuse(alloc, Error::new(fault)))
}

// The fault of a variant that is named without the content that it has, or want of memory.
#[cold]
#[inline(never)]
fn without_content(alloc: Global, expected: &str) -> Refusal
    ensures { IsRefusedBy result (wrong_type UnitVariant expected.now) }
{
    refusal_of(wrong_type(alloc, Found::UnitVariant, expected))
}

// The refusal of an enum in a node whose tag named a variant of the enum with this name.
fn nested(alloc: Global, name: &str, tag: &str) -> std::result::Result<Refusal, AllocError>
    ensures { IfOk result (λ refusal. IsRefusedBy refusal (at_node (nested_enum name.now tag.now) None)) }
{
    let fault = Cause::NestedEnum {
        name: words(alloc, name)?,
        tag: words(alloc, tag)?,
        place: None,
    };
    Ok(refuse(alloc, Error::new(fault)))
}

/// The fault of an enum in a node whose tag named a variant of the enum with this name, or want of memory.
#[cold]
#[inline(never)]
pub fn nested_enum(alloc: Global, name: &str, tag: &str) -> Refusal
    ensures { IsRefusedBy result (at_node (nested_enum name.now tag.now) None) }
{
    refusal_of(nested(alloc, name, tag))
}

// The variant in a place, named without a content.
fn bare_variant<'de>(alloc: Global, place: usize, content: &VariantShape) -> Result<Data<'de>>
    ensures { Yields data_of result (bare_variant place (content_of content.now)) }
{
    match content {
        VariantShape::Unit => Ok(Data::Variant(place, Box::new(alloc, Data::Unit)?)),
        VariantShape::Newtype(_) => Err(without_content(alloc, "newtype variant")),
        VariantShape::Tuple(_) => Err(without_content(alloc, "tuple variant")),
        VariantShape::Struct(_) | VariantShape::StrictStruct(_) => {
            Err(without_content(alloc, "struct variant"))
        }
    }
}

// What a name gives that stands alone.
fn named_variant<'de>(
    alloc: Global,
    variants: &[(String, VariantShape)],
    name: &str,
) -> Result<Data<'de>>
    ensures { Yields data_of result (named_variant (variants_of variants.now) name.now) }
{
    match variant_named(variants, name) {
        Some((place, content)) => bare_variant(alloc, place, content),
        None => Err(unknown_variant(alloc, variants, name)),
    }
}

/// The variant that a scalar names.
#[inline(never)]
pub(crate) fn read_variant_name<'de>(
    alloc: Global,
    variants: &[(String, VariantShape)],
    scalar: &DocScalar<'_>,
) -> Result<Data<'de>>
    ensures { Yields data_of result (option_map_or (named_variant (variants_of variants.now))
        (text_of (doc_scalar_of scalar.now)) (Err (wrong_type Bytes (codes "variant identifier")))) }
{
    match text_of(scalar) {
        Some(text) => named_variant(alloc, variants, text),
        None => Err(refusal_of(wrong_type(alloc, Found::Bytes, "variant identifier"))),
    }
}
