//! What a node is expected to be, as faults tell it.

ghost use Rattle.std.specs.Prelude.{◌≡◌, IfOk};
ghost use Rattle.yaml_scalar.specs.Expectations.{expected_of, wanted_of};

use std::alloc::{AllocError, Global};
use yaml_base::Words;
use yaml_shape::{Shape, struct_variant, tuple_variant};

/// What a node is expected to be: data of a shape, or the content of a variant, which no shape tells.
#[derive(Clone, Copy)]
pub enum Expected<'a> {
    /// Data of a shape.
    Shape(&'a Shape),
    /// The fields of a variant, which have no names: the names of its enum and of itself.
    TupleVariant { name: &'a str, variant: &'a str },
    /// The fields of a variant, which have names: the names of its enum and of itself.
    StructVariant { name: &'a str, variant: &'a str },
}

/// A copy of the text.
pub fn words(alloc: Global, text: &str) -> Result<Words, AllocError>
    ensures { IfOk result (λ words. words ≡ text.now) }
{
    Ok(Words::new(String::from_str(alloc, text)?))
}

impl Expected<'_> {
    /// What is expected.
    pub(crate) fn text(&self, alloc: Global) -> Result<Words, AllocError>
        ensures { IfOk result (λ words. words ≡ expected_of self.now) }
    {
        match self {
            Expected::Shape(shape) => match shape.expected(alloc) {
                Ok(text) => Ok(Words::new(text)),
                Err(_) => Err(AllocError),
            },
            Expected::TupleVariant { name, variant } => match tuple_variant(alloc, name, variant) {
                Ok(text) => Ok(Words::new(text)),
                Err(_) => Err(AllocError),
            },
            Expected::StructVariant { name, variant } => match struct_variant(
                alloc, name, variant,
            ) {
                Ok(text) => Ok(Words::new(text)),
                Err(_) => Err(AllocError),
            },
        }
    }

    /// What is expected where a collection stands: under an enum a tag.
    pub(crate) fn wanted(&self, alloc: Global) -> Result<Words, AllocError>
        ensures { IfOk result (λ words. words ≡ wanted_of self.now) }
    {
        match self {
            Expected::Shape(
                Shape::Enum {
                    name: _,
                    variants: _,
                },
            ) => words(alloc, "a YAML tag starting with '!'"),
            _ => self.text(alloc),
        }
    }
}
