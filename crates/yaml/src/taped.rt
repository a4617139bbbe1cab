//! A value that is read from the tape of a text.

ghost use Rattle.std.specs.Prelude.{◌≡◌, IfSome, true};
ghost use Rattle.yaml.specs.OneDocument.{IsOneDocument};
ghost use Rattle.yaml_checked.specs.OfText.{SaysText};
ghost use Rattle.yaml_documents.specs.TextDocuments.{IsParsed};
ghost use Rattle.yaml_scan.specs.AllowedText.{IsAllowed};

use crate::tape_document::is_one_document;
use crate::tape_reader::{Miss, TapeReader};
use serde::{Deserialize, DeserializeOwned, Deserializer};
use std::alloc::Global;
use yaml_checked::stands;
use yaml_tape::Tape;

// Whether a text was parsed to just the one document of its tape. Where memory is wanting, it is not known to be.
#[tactic(auto, using(crate::proofs::TapeLaws::one_of_tape))]
fn is_parsed_so(alloc: Global, tape: &Tape<'_>) -> bool
    requires allowed { IsAllowed tape.now.text.now }
    requires says { SaysText tape.now }
    ensures { result ≡ true → IsParsed tape.now.text.now IsOneDocument }
{
    is_one_document(alloc, tape) && stands(tape)
}

// What a reading answered, unless it was lost on the way.
fn unless_lost<T: Drop>(read: Result<T, Miss>, lost: bool) -> Option<T> {
    match read {
        Ok(value) if !lost => Some(value),
        _ => None,
    }
}

/// The value that the one document of a tape is, or nothing, which says nothing of the document. Its texts may be
/// borrowed from the text.
pub(crate) fn read_tape<'de, T: Deserialize<'de>>(alloc: Global, tape: &Tape<'de>) -> Option<T>
    requires allowed { IsAllowed tape.now.text.now }
    requires says { SaysText tape.now }
    ensures { IfSome result (λ _. IsParsed tape.now.text.now IsOneDocument) }
{
    if !is_parsed_so(alloc, tape) {
        return None;
    }
    let mut reader = TapeReader::new(alloc, tape);
    let read = T::deserialize(alloc, &mut Deserializer::new(tape.text, &mut reader));
    let value = unless_lost(read, reader.lost)?;
    Some(value)
}

/// The same of a value that borrows nothing.
pub(crate) fn read_tape_owned<T: DeserializeOwned>(alloc: Global, tape: &Tape<'_>) -> Option<T>
    requires allowed { IsAllowed tape.now.text.now }
    requires says { SaysText tape.now }
    ensures { IfSome result (λ _. IsParsed tape.now.text.now IsOneDocument) }
{
    if !is_parsed_so(alloc, tape) {
        return None;
    }
    let mut reader = TapeReader::new(alloc, tape);
    let read = T::deserialize_owned(alloc, &mut Deserializer::new(&[], &mut reader));
    let value = unless_lost(read, reader.lost)?;
    Some(value)
}
