//! Reading what a reader gives.

ghost use Rattle.std.specs.Prelude.{ℕ, IfErr, IfSome, List, OnOk};
ghost use Rattle.std.specs.Io.KnownBytes.{IsAtEnd};
ghost use Rattle.yaml.specs.OneDocument.{IsOneDocument};
ghost use Rattle.yaml_documents.specs.ReaderFaults.{IfOfText};
ghost use Rattle.yaml_checked.specs.OfText.{SaysText};
ghost use Rattle.yaml_documents.specs.TextDocuments.{AreDocumentsOf, IsParsed};
ghost use Rattle.yaml_scan.specs.AllowedText.{IsAllowed};

use crate::taped::read_tape_owned;
use crate::typed::{alone, read_owned};
use serde::DeserializeOwned;
use std::alloc::Global;
use std::io::Read;
use yaml_base::{Cause, Error, Result};
use yaml_checked::parse_allowed;
use yaml_documents::{ReaderFault, load_by_tokens, load_tape, read_bytes};
use yaml_read::Loader;
use yaml_tape::Tape;

// The value of the text of a tape: as it is read from the tape, or else of the text's documents.
fn from_tape_owned<T: DeserializeOwned>(alloc: Global, tape: Tape<'_>) -> Result<T>
    requires allowed { IsAllowed tape.text.now }
    requires says { SaysText tape }
    ensures { OnOk result (IsParsed tape.entry.text.now IsOneDocument) }
{
    if let Some(value) = read_tape_owned(alloc, &tape) {
        return Ok(value);
    }
    let mut documents = load_tape(alloc, tape)?;
    from_documents_owned(alloc, &mut documents)
}

// The value of the one document of a text, of which these are all.
#[tactic(auto, using(crate::proofs::CutOff::only_one))]
fn from_documents_owned<T: DeserializeOwned>(alloc: Global, documents: &mut Loader<'_>) -> Result<T>
    ensures { OnOk result ((all : List ℕ) → AreDocumentsOf all documents.old → IsParsed all IsOneDocument) }
{
    let Some(document) = documents.next_document() else {
        return Err(Error::new(Cause::EndOfStream));
    };
    alone(read_owned(alloc, &document), documents)
}

/// The one document of a YAML text as a value of the type, which borrows nothing.
#[tactic(auto, using(crate::proofs::CutOff::is_allowed))]
pub(crate) fn from_slice_owned<T: DeserializeOwned>(alloc: Global, text: &[u8]) -> Result<T>
    ensures allowed { OnOk result ((IsAllowed text.now → ⊥) → ⊥) }
    ensures one { OnOk result (IsParsed text.now IsOneDocument) }
{
    match parse_allowed(alloc, text)? {
        Some(tape) => from_tape_owned(alloc, tape),
        None => {
            let mut documents = load_by_tokens(alloc, text)?;
            from_documents_owned(alloc, &mut documents)
        }
    }
}

/// The one document of the YAML text that a reader gives, as a value of the type, which borrows nothing. The reader is
/// read to its end before the text is looked at, and the text is read as by `from_slice`.
pub fn from_reader<R: Read, T: DeserializeOwned>(
    alloc: Global,
    reader: &mut R,
) -> std::result::Result<T, ReaderFault>
    ensures allowed { OnOk result (IfSome (R.remaining reader.old) (λ text. (IsAllowed text → ⊥) → ⊥)) }
    ensures one { OnOk result (IfSome (R.remaining reader.old) (λ text. IsParsed text IsOneDocument)) }
    ensures end { OnOk result (IsAtEnd (R.remaining reader.new)) }
    ensures read { IfErr result (IfOfText (λ _. IsAtEnd (R.remaining reader.new))) }
{
    let text = match read_bytes(alloc, reader) {
        Ok(text) => text,
        Err(fault) => return Err(fault),
    };
    match from_slice_owned(alloc, text.as_slice()) {
        Ok(value) => Ok(value),
        Err(fault) => Err(ReaderFault::Text(fault)),
    }
}
