//! A scalar under the shape of a character.

ghost use Rattle.std.specs.Prelude.{◌≡◌, Err, is_ok};
ghost use Rattle.std.specs.Option.{option_map_or};
ghost use Rattle.std.specs.Str.{chars};
ghost use Rattle.yaml_base.specs.DocEventView.{doc_scalar_of};
ghost use Rattle.yaml_shape.specs.DataView.{data_of};
ghost use Rattle.yaml_shape.specs.PlainShape.{char_shape};
ghost use Rattle.yaml_shape.specs.ShapeView.{shape_of};
ghost use Rattle.yaml_meaning.specs.ReadingGives.{Yields};
ghost use Rattle.yaml_meaning.specs.ScalarFound.{scalar_fault};
ghost use Rattle.yaml_meaning.specs.ScalarShapes.{one_character, only_one, text_of};

use crate::mismatch::{found_other_text, found_scalar};
use crate::refusal::Result;
use crate::sort::text_of;
use std::alloc::Global;
use yaml_base::DocScalar;
use yaml_shape::{Data, Shape};

// The one character of a text.
fn only_char(text: &str) -> Option<char>
    ensures { result ≡ only_one (chars text.now) }
{
    let mut characters = text.chars();
    let character = characters.next()?;
    match characters.next() {
        None => Some(character),
        Some(_) => None,
    }
}

// A text of one character.
fn one_character<'de>(alloc: Global, shape: &Shape, text: &str) -> Result<Data<'de>>
    requires char { shape_of shape.now ≡ char_shape }
    ensures gives { Yields data_of result (one_character text.now) }
    ensures free { is_ok result ≡ is_ok (one_character text.now) }
{
    match only_char(text) {
        Some(character) => Ok(Data::Char(character)),
        None => Err(found_other_text(alloc, text, shape)),
    }
}

/// A scalar whose text is one character.
#[inline(never)]
pub(crate) fn read_char<'de>(
    alloc: Global,
    shape: &Shape,
    taken: bool,
    scalar: &DocScalar<'de>,
) -> Result<Data<'de>>
    requires char { shape_of shape.now ≡ char_shape }
    ensures gives { Yields data_of result
        (option_map_or one_character (text_of (doc_scalar_of scalar.now))
        (Err (scalar_fault char_shape taken (doc_scalar_of scalar.now)))) }
    ensures free { is_ok result ≡ is_ok
        (option_map_or one_character (text_of (doc_scalar_of scalar.now))
        (Err (scalar_fault char_shape taken (doc_scalar_of scalar.now)))) }
{
    match text_of(scalar) {
        Some(text) => one_character(alloc, shape, text),
        None => Err(found_scalar(alloc, shape, taken, scalar)),
    }
}
