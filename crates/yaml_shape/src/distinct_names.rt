//! Whether the names in shapes are distinct.

ghost use Rattle.std.specs.Prelude.{◌≡◌, ◌↔◌, map, length, string_bytes, All, IsTrue, IsNone, IfOk, IfSome};
ghost use Rattle.yaml_shape.specs.ShapeView.{fields_of, content_of, variants_of, shape_of};
ghost use Rattle.yaml_shape.specs.Validity.{names_of, AreDistinct, IsDistinctInside, HasDistinctNames};
ghost use Rattle.yaml_shape.specs.SchemaRefusal.{IsFirstRepeated};

use crate::shape::{Shape, VariantShape};
use std::alloc::{AllocError, Global};

// The names, each behind its reference.
fn lent_names<T>(alloc: Global, entries: &[(String, T)]) -> Result<Vec<&str>, AllocError>
    ensures { IfOk result
        (λ names. map (λ n. n.now) names.items ≡ map (λ e. string_bytes e.0) entries.now) }
{
    let mut names = Vec::with_capacity(alloc, entries.len())?;
    for i in 0..entries.len() {
        names.push(entries[i].0.as_str())?;
    }
    Ok(names)
}

// Whether no two names are the same. They are sorted for that, and then each is compared with the next.
fn are_distinct(names: Vec<&str>) -> bool
    ensures { IsTrue result ↔ AreDistinct (map (λ n. n.now) names.entry.items) }
{
    let mut names = names;
    names.sort_unstable();
    for i in 1..names.len() {
        if names[i - 1] == names[i] {
            return false;
        }
    }
    true
}

// Whether no two entries have the same name. The only error is want of memory.
fn have_distinct_names<T>(alloc: Global, entries: &[(String, T)]) -> Result<bool, AllocError>
    ensures { IfOk result
        (λ d. IsTrue d ↔ AreDistinct (map (λ e. string_bytes e.0) entries.now)) }
{
    Ok(are_distinct(lent_names(alloc, entries)?))
}

// Whether the content of a variant has no name twice. The only error is want of memory.
fn is_distinct_inside(alloc: Global, content: &VariantShape) -> Result<bool, AllocError>
    ensures { IfOk result (λ d. IsTrue d ↔ IsDistinctInside (content_of content.now)) }
{
    match content {
        VariantShape::Struct(fields) => have_distinct_names(alloc, fields),
        VariantShape::StrictStruct(fields) => have_distinct_names(alloc, fields),
        _ => Ok(true),
    }
}

// Whether the content of each variant has no name twice. The only error is want of memory.
fn are_distinct_inside(
    alloc: Global,
    variants: &[(String, VariantShape)],
) -> Result<bool, AllocError>
    ensures { IfOk result
        (λ d. IsTrue d ↔ All (λ v. IsDistinctInside (content_of v.1)) variants.now) }
{
    for i in 0..variants.len() {
        if !is_distinct_inside(alloc, &variants[i].1)? {
            return Ok(false);
        }
    }
    Ok(true)
}

// Whether the variants have distinct names, and each has no name twice in its content. The only error is want of
// memory.
fn are_distinct_variants(
    alloc: Global,
    variants: &[(String, VariantShape)],
) -> Result<bool, AllocError>
    ensures { IfOk result (λ d. IsTrue d
        ↔ (AreDistinct (map (λ v. string_bytes v.0) variants.now)
        × All (λ v. IsDistinctInside (content_of v.1)) variants.now)) }
{
    if !have_distinct_names(alloc, variants)? {
        return Ok(false);
    }
    are_distinct_inside(alloc, variants)
}

/// Whether the shape has no name twice. The only error is want of memory.
pub(crate) fn has_distinct_names(alloc: Global, shape: &Shape) -> Result<bool, AllocError>
    ensures { IfOk result (λ d. IsTrue d ↔ HasDistinctNames (shape_of shape.now)) }
{
    match shape {
        Shape::Struct { name: _, fields } => have_distinct_names(alloc, fields),
        Shape::StrictStruct { name: _, fields } => have_distinct_names(alloc, fields),
        Shape::Enum { name: _, variants } => are_distinct_variants(alloc, variants),
        _ => Ok(true),
    }
}

/// The first shape that has a name twice, if there is one. The only error is want of memory.
pub(crate) fn first_repeated(alloc: Global, shapes: &[Shape]) -> Result<Option<usize>, AllocError>
    ensures none { IfOk result
        (λ r. IsNone r → All HasDistinctNames (map shape_of shapes.now)) }
    ensures first { IfOk result (λ r. IfSome r (IsFirstRepeated (map shape_of shapes.now))) }
{
    for number in 0..shapes.len() {
        if !has_distinct_names(alloc, &shapes[number])? {
            return Ok(Some(number));
        }
    }
    Ok(None)
}
