//! The text of a scalar, borrowed from the source where the source shows it.

ghost use Rattle.std.specs.Prelude.{◌≡◌, IfSome, Err, Ok, true, is_ok, is_some};
ghost use Rattle.std.specs.Option.{option_copied, option_map_or};
ghost use Rattle.yaml_base.specs.Borrowable.{is_borrowable};
ghost use Rattle.yaml_base.specs.DocEventView.{doc_scalar_of};
ghost use Rattle.yaml_shape.specs.DataView.{data_of};
ghost use Rattle.yaml_shape.specs.PlainData.{text_data};
ghost use Rattle.yaml_shape.specs.ShapeView.{shape_of};
ghost use Rattle.yaml_meaning.specs.ReadingGives.{Yields};
ghost use Rattle.yaml_meaning.specs.ScalarFound.{scalar_fault};
ghost use Rattle.yaml_meaning.specs.ScalarShapes.{lent_text, text_of};

use crate::mismatch::found_scalar;
use crate::refusal::Result;
use crate::sort::text_of;
use simdutf8::basic::from_utf8;
use std::alloc::Global;
use yaml_base::{DocScalar, borrowed_bytes};
use yaml_shape::{Data, Shape, Text};

// The part of the source that shows the scalar's bytes.
fn shown_bytes<'de>(scalar: &DocScalar<'de>) -> Option<&'de [u8]>
    ensures equal { IfSome result (λ part. part.now ≡ scalar.now.value.items) }
    ensures test { is_some result
        ≡ is_borrowable scalar.now.value.items (option_copied scalar.now.repr) scalar.now.style }
{
    borrowed_bytes(&scalar.value, scalar.repr, scalar.style)
}

// The data of a text that is borrowed.
fn lent<'de>(text: &'de str) -> Data<'de>
    ensures { data_of result ≡ text_data true text.entry.now }
{
    Data::Str(Text::Borrowed(text))
}

/// The text of a scalar, borrowed where the source shows it. It takes memory where it is not borrowed.
#[inline(never)]
pub(crate) fn read_text<'de>(
    alloc: Global,
    shape: &Shape,
    taken: bool,
    scalar: &DocScalar<'de>,
) -> Result<Data<'de>>
    ensures gives { Yields data_of result
        (option_map_or (λ text. Ok (lent_text (doc_scalar_of scalar.now) text))
        (text_of (doc_scalar_of scalar.now))
        (Err (scalar_fault (shape_of shape.now) taken (doc_scalar_of scalar.now)))) }
    ensures free { is_borrowable scalar.now.value.items (option_copied scalar.now.repr) scalar.now.style ≡ true
        → is_ok result ≡ is_some (text_of (doc_scalar_of scalar.now)) }
{
    if let Some(part) = shown_bytes(scalar) {
        return match from_utf8(part) {
            Ok(text) => Ok(lent(text)),
            Err(_) => Err(found_scalar(alloc, shape, taken, scalar)),
        };
    }
    match text_of(scalar) {
        Some(text) => Ok(Data::Str(Text::Owned(String::from_str(alloc, text)?))),
        None => Err(found_scalar(alloc, shape, taken, scalar)),
    }
}
