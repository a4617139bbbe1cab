//! Reading with a choice of what is done with merge keys.

ghost use Rattle.std.specs.Prelude.{◌≡◌, IfErr, IfSome, None, OnOk};
ghost use Rattle.std.specs.Io.KnownBytes.{IsAtEnd};
ghost use Rattle.yaml.specs.OneDocument.{IsOneDocument};
ghost use Rattle.yaml_documents.specs.ReaderFaults.{IfOfText};
ghost use Rattle.yaml_documents.specs.TextDocuments.{IsParsed};
ghost use Rattle.yaml_scan.specs.AllowedText.{IsAllowed};

use crate::leaf::Leaves;
use crate::typed::{alone, read, read_alone, read_owned};
use serde::{Deserialize, DeserializeOwned};
use std::alloc::Global;
use std::io::Read;
use yaml_base::{Cause, Error, Result};
use yaml_documents::{ReaderFault, load, read_bytes};
use yaml_merge::{Merge, merged};
use yaml_read::Document;

/// The value that a document is once its merge keys are treated so.
pub(crate) fn read_merging<'de, T: Deserialize<'de>>(
    alloc: Global,
    input: &'de [u8],
    document: Document<'de>,
    leaves: &Leaves,
    merge: Merge,
) -> Result<T>
    ensures { OnOk result (document.entry.ending ≡ None) }
{
    let treated = merged(alloc, document, merge)?;
    read(alloc, input, &treated, leaves)
}

/// The one document of a YAML text as a value of the type, as `from_str` reads it, with its merge keys treated so.
pub fn from_str_merging<'de, T: Deserialize<'de>>(
    alloc: Global,
    text: &'de str,
    merge: Merge,
) -> Result<T>
    ensures allowed { OnOk result ((IsAllowed text.now → ⊥) → ⊥) }
    ensures one { OnOk result (IsParsed text.now IsOneDocument) }
{
    from_slice_merging(alloc, text.as_bytes(), merge)
}

/// The same of bytes.
#[tactic(auto, using(crate::proofs::CutOff::never_cut_off))]
pub fn from_slice_merging<'de, T: Deserialize<'de>>(
    alloc: Global,
    text: &'de [u8],
    merge: Merge,
) -> Result<T>
    ensures allowed { OnOk result ((IsAllowed text.now → ⊥) → ⊥) }
    ensures one { OnOk result (IsParsed text.now IsOneDocument) }
{
    let mut documents = load(alloc, text)?;
    let Some(document) = documents.next_document() else {
        return Err(Error::new(Cause::EndOfStream));
    };
    let treated = merged(alloc, document, merge)?;
    alone(read_alone(alloc, text, &treated), &mut documents)
}

// The same of a value that borrows nothing.
fn from_slice_owned_merging<T: DeserializeOwned>(
    alloc: Global,
    text: &[u8],
    merge: Merge,
) -> Result<T>
    ensures allowed { OnOk result ((IsAllowed text.now → ⊥) → ⊥) }
    ensures one { OnOk result (IsParsed text.now IsOneDocument) }
{
    let mut documents = load(alloc, text)?;
    let Some(document) = documents.next_document() else {
        return Err(Error::new(Cause::EndOfStream));
    };
    let treated = merged(alloc, document, merge)?;
    alone(read_owned(alloc, &treated), &mut documents)
}

/// The same of the text that a reader gives, as a value of a type that borrows nothing. The reader is read to its end
/// before the text is looked at.
pub fn from_reader_merging<R: Read, T: DeserializeOwned>(
    alloc: Global,
    reader: &mut R,
    merge: Merge,
) -> std::result::Result<T, ReaderFault>
    ensures allowed { OnOk result (IfSome (R.remaining reader.old) (λ text. (IsAllowed text → ⊥) → ⊥)) }
    ensures one { OnOk result (IfSome (R.remaining reader.old) (λ text. IsParsed text IsOneDocument)) }
    ensures end { OnOk result (IsAtEnd (R.remaining reader.new)) }
    ensures read { IfErr result (IfOfText (λ _. IsAtEnd (R.remaining reader.new))) }
{
    let text = match read_bytes(alloc, reader) {
        Ok(text) => text,
        Err(fault) => return Err(fault),
    };
    match from_slice_owned_merging(alloc, text.as_slice(), merge) {
        Ok(value) => Ok(value),
        Err(fault) => Err(ReaderFault::Text(fault)),
    }
}
