//! What a scalar of a tape gives that is plainly of a type.

ghost use Rattle.std.specs.Prelude.{◌≡◌, ◌<◌, Bool, IfSome, length, pos, true, false};
ghost use Rattle.yaml_shape.specs.IntegerTypes.{has_sign, is_of_type};
ghost use Rattle.yaml_shape.specs.IntegerView.{integer_type_of};
ghost use Rattle.yaml_shape.specs.PlainData.{PlainData, bool_data, char_data, signed_data, text_data, unit_data};
ghost use Rattle.yaml_shape.specs.PlainData.{unsigned_data};
ghost use Rattle.yaml_shape.specs.PlainShape.{bool_shape, char_shape, integer_shape, str_shape, unit_shape};
ghost use Rattle.yaml_base.specs.Kinds.{is_null_text};
ghost use Rattle.yaml_types.specs.NodeMeans.{BeginsContent, IsNothing, ScalarGives};
ghost use Rattle.yaml_types.specs.Texts.{BuiltCow};

use crate::tape::{begins_mapping, begins_sequence, scalar_at, text_of};
use simdutf8::basic::from_utf8;
use std::alloc::Global;
use std::borrow::CowStr;
use yaml_base::{ScalarStyle, borrowed_bytes, parse_bool, parse_null};
use yaml_scalar::{small_signed_of, small_unsigned_of};
use yaml_shape::IntegerType;
use yaml_tape::Tape;

// Whether a text stands for nothing: an empty one does, and a word for null.
#[inline(always)]
fn is_null(text: &[u8]) -> bool
    ensures { result ≡ is_null_text text.now }
{
    text.is_empty() || parse_null(text).is_some()
}

// The boolean that a plain scalar in a place writes.
#[inline(always)]
pub(crate) fn boolean_at(tape: &Tape<'_>, place: usize) -> Option<bool>
    ensures gives { IfSome result (λ b. ScalarGives tape.now place bool_shape (bool_data b)) }
    ensures there { IfSome result (λ _. place < length tape.now.entries.items) }
{
    let entry = scalar_at(tape, place)?;
    if entry.style != ScalarStyle::Plain {
        return None;
    }
    let text = from_utf8(text_of(tape, entry)).ok()?;
    let found = parse_bool(text)?;
    Some(found)
}

// The integer of a type with a sign that a plain scalar in a place writes with a few decimal digits.
#[inline(always)]
pub(crate) fn signed_at(integer: IntegerType, tape: &Tape<'_>, place: usize) -> Option<i64>
    requires { has_sign (integer_type_of integer) ≡ true }
    ensures held { IfSome result (λ z. is_of_type (integer_type_of integer) z ≡ true) }
    ensures gives { IfSome result (λ z.
        ScalarGives tape.now place (integer_shape (integer_type_of integer)) (signed_data z)) }
    ensures there { IfSome result (λ _. place < length tape.now.entries.items) }
{
    let entry = scalar_at(tape, place)?;
    if entry.style != ScalarStyle::Plain {
        return None;
    }
    small_signed_of(integer, text_of(tape, entry))
}

// The integer of a type without a sign that a plain scalar in a place writes with a few decimal digits.
#[inline(always)]
pub(crate) fn unsigned_at(integer: IntegerType, tape: &Tape<'_>, place: usize) -> Option<u64>
    requires { has_sign (integer_type_of integer) ≡ false }
    ensures held { IfSome result (λ n. is_of_type (integer_type_of integer) (pos n) ≡ true) }
    ensures gives { IfSome result (λ n.
        ScalarGives tape.now place (integer_shape (integer_type_of integer)) (unsigned_data n)) }
    ensures there { IfSome result (λ _. place < length tape.now.entries.items) }
{
    let entry = scalar_at(tape, place)?;
    if entry.style != ScalarStyle::Plain {
        return None;
    }
    let found = small_unsigned_of(integer, text_of(tape, entry))?;
    Some(found)
}

// The text of a scalar in a place, borrowed where the source shows it, and else owned.
pub(crate) fn shown_at<'de>(alloc: Global, tape: &Tape<'de>, place: usize) -> Option<CowStr<'de>>
    ensures gives { IfSome result (λ text.
        (d : PlainData) × ScalarGives tape.now place str_shape d × BuiltCow d text) }
    ensures there { IfSome result (λ _. place < length tape.now.entries.items) }
{
    let entry = scalar_at(tape, place)?;
    let source = tape.text.get(entry.index as usize..entry.end as usize)?;
    let bytes = text_of(tape, entry);
    match borrowed_bytes(bytes, Some(source), entry.style) {
        Some(part) => {
            let shown = from_utf8(part).ok()?;
            Some(CowStr::Borrowed(shown))
        }
        None => {
            let text = from_utf8(bytes).ok()?;
            let owned = String::from_str(alloc, text).ok()?;
            Some(CowStr::Owned(owned))
        }
    }
}

// The character that is the text of a scalar in a place.
#[inline(always)]
pub(crate) fn character_at(tape: &Tape<'_>, place: usize) -> Option<char>
    ensures gives { IfSome result (λ c. ScalarGives tape.now place char_shape (char_data c)) }
    ensures there { IfSome result (λ _. place < length tape.now.entries.items) }
{
    let entry = scalar_at(tape, place)?;
    let text = from_utf8(text_of(tape, entry)).ok()?;
    let mut characters = text.chars();
    let found = characters.next()?;
    match characters.next() {
        None => Some(found),
        Some(_) => None,
    }
}

// Whether a collection without a tag begins in a place.
pub(crate) fn begins_collection(tape: &Tape<'_>, place: usize) -> bool
    ensures { result ≡ true → BeginsContent tape.now place }
{
    begins_sequence(tape, place) || begins_mapping(tape, place)
}

// Whether a scalar without a tag in a place stands for nothing, if one is there.
#[inline(always)]
#[tactic(auto, using(crate::proofs::LeafReads::nothing_there, crate::proofs::LeafReads::content_there))]
pub(crate) fn is_nothing(tape: &Tape<'_>, place: usize) -> Option<bool>
    ensures nothing { IfSome result (λ nothing. nothing ≡ true → IsNothing tape.now place) }
    ensures content { IfSome result (λ nothing. nothing ≡ false → BeginsContent tape.now place) }
    ensures there { IfSome result (λ _. place < length tape.now.entries.items) }
{
    let entry = scalar_at(tape, place)?;
    Some(entry.style == ScalarStyle::Plain && is_null(text_of(tape, entry)))
}

// The text of a scalar in a place.
#[inline(always)]
pub(crate) fn text_at<'a>(tape: &'a Tape<'_>, place: usize) -> Option<&'a str>
    ensures gives { IfSome result (λ text.
        (lent : Bool) × ScalarGives tape.now place str_shape (text_data lent text.now)) }
    ensures there { IfSome result (λ _. place < length tape.now.entries.items) }
{
    let entry = scalar_at(tape, place)?;
    let found = from_utf8(text_of(tape, entry)).ok()?;
    Some(found)
}

// The text of a scalar in a place, if the source shows it.
#[inline(always)]
pub(crate) fn lent_at<'de>(tape: &Tape<'de>, place: usize) -> Option<&'de str>
    ensures gives { IfSome result (λ text. ScalarGives tape.now place str_shape (text_data true text.now)) }
    ensures there { IfSome result (λ _. place < length tape.now.entries.items) }
{
    let entry = scalar_at(tape, place)?;
    let source = tape.text.get(entry.index as usize..entry.end as usize)?;
    let part = borrowed_bytes(text_of(tape, entry), Some(source), entry.style)?;
    let found = from_utf8(part).ok()?;
    Some(found)
}
