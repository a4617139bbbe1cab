//! Names on a tape: the word in a place, and which of some names it is.

ghost use Rattle.std.specs.Prelude.{◌≡◌, ◌<◌, IfSome, length, map, string_bytes};
ghost use Rattle.yaml_types.specs.TapeNames.{IsWord, place_in};

use crate::tape::{scalar_at, text_of};
use simdutf8::basic::from_utf8;
use yaml_tape::Tape;

// The text of a scalar without a tag in a place.
#[inline(always)]
#[tactic(auto, using(crate::proofs::NameReads::word_there))]
pub(crate) fn word_at<'a>(tape: &'a Tape<'_>, place: usize) -> Option<&'a str>
    ensures word { IfSome result (λ text. IsWord tape.now place text.now) }
    ensures there { IfSome result (λ _. place < length tape.now.entries.items) }
{
    let entry = scalar_at(tape, place)?;
    let found = from_utf8(text_of(tape, entry)).ok()?;
    Some(found)
}

// The place of the first of these variants that has the name.
pub(crate) fn variant_place(names: &[(String, Vec<String>)], text: &str) -> Option<usize>
    ensures { result ≡ place_in (map (λ n. string_bytes n.0) names.now) text.now }
{
    for place in 0..names.len() {
        if names[place].0.as_str() == text {
            return Some(place);
        }
    }
    None
}
