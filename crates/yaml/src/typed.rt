//! Reading a value of any type that `serde` reads.

ghost use Rattle.std.specs.Prelude.{◌≡◌, [], ℕ, List, None, IsOk, OnOk, is_some};
ghost use Rattle.yaml.specs.OneDocument.{IsOneDocument};
ghost use Rattle.yaml_base.specs.MarkedEvents.{plain_events, plain_marked};
ghost use Rattle.yaml_base.specs.Stream.{IsWellFormed};
ghost use Rattle.yaml_checked.specs.OfText.{SaysText};
ghost use Rattle.yaml_documents.specs.TextDocuments.{AreDocumentsOf, IsParsed};
ghost use Rattle.yaml_scan.specs.AllowedText.{IsAllowed};

use crate::leaf::Leaves;
use crate::reader::Reader;
use crate::taped::read_tape;
use serde::{Deserialize, DeserializeOwned, Deserializer};
use std::alloc::Global;
use yaml_base::{Cause, Error, Event, Mark, ParserFault, Result};
use yaml_checked::parse_allowed;
use yaml_documents::{load_by_tokens, load_tape};
use yaml_read::{Document, Loader};
use yaml_tape::Tape;

// The value, unless the document was cut off.
fn whole<T: Drop>(alloc: Global, read: Result<T>, document: &Document<'_>) -> Result<T>
    ensures { OnOk result (document.now.ending ≡ None) }
{
    match (read, document.error()) {
        (Ok(value), None) => Ok(value),
        (Ok(_), Some(fault)) => Err(fault.copy(alloc)?),
        (Err(fault), _) => Err(fault),
    }
}

/// The value that a document is. Its texts may be borrowed from the input.
pub(crate) fn read<'de, T: Deserialize<'de>>(
    alloc: Global,
    input: &'de [u8],
    document: &Document<'de>,
    leaves: &Leaves,
) -> Result<T>
    ensures { OnOk result (document.now.ending ≡ None) }
{
    let mut reader = Reader::new(alloc, document, leaves);
    let read = T::deserialize(alloc, &mut Deserializer::new(input, &mut reader));
    whole(alloc, read, document)
}

/// The same of one document, for which the shapes are made.
pub(crate) fn read_alone<'de, T: Deserialize<'de>>(
    alloc: Global,
    input: &'de [u8],
    document: &Document<'de>,
) -> Result<T>
    ensures { OnOk result (document.now.ending ≡ None) }
{
    let leaves = Leaves::new(alloc)?;
    read(alloc, input, document, &leaves)
}

/// The same of a value that borrows nothing, for which the shapes are made.
pub(crate) fn read_owned<T: DeserializeOwned>(alloc: Global, document: &Document<'_>) -> Result<T>
    ensures { OnOk result (document.now.ending ≡ None) }
{
    let leaves = Leaves::new(alloc)?;
    let mut reader = Reader::new(alloc, document, &leaves);
    let read = T::deserialize_owned(alloc, &mut Deserializer::new(&[], &mut reader));
    whole(alloc, read, document)
}

/// The value, unless another document follows.
pub(crate) fn alone<T: Drop>(read: Result<T>, documents: &mut Loader<'_>) -> Result<T>
    ensures same { OnOk result (OnOk read (documents.old ≡ [])) }
    ensures read { OnOk result (IsOk read) }
{
    match read {
        Ok(value) => match documents.next_document() {
            Some(_) => Err(Error::new(Cause::MoreThanOneDocument)),
            None => Ok(value),
        },
        Err(fault) => Err(fault),
    }
}

/// The one document of a YAML text as a value of the type, within 128 nestings and 100 follows of aliases for each
/// event. The value may borrow texts that stand in the text as they read.
///
/// A value is given only of a text that YAML allows, and that was parsed to one document which nothing cut off.
pub fn from_str<'de, T: Deserialize<'de>>(alloc: Global, text: &'de str) -> Result<T>
    ensures allowed { OnOk result ((IsAllowed text.now → ⊥) → ⊥) }
    ensures one { OnOk result (IsParsed text.now IsOneDocument) }
{
    from_slice(alloc, text.as_bytes())
}

/// The same of bytes, which are refused with the place of the first one that UTF-8 or YAML does not allow.
#[tactic(auto, using(crate::proofs::CutOff::is_allowed))]
pub fn from_slice<'de, T: Deserialize<'de>>(alloc: Global, text: &'de [u8]) -> Result<T>
    ensures allowed { OnOk result ((IsAllowed text.now → ⊥) → ⊥) }
    ensures one { OnOk result (IsParsed text.now IsOneDocument) }
{
    match parse_allowed(alloc, text)? {
        Some(tape) => from_tape(alloc, tape),
        None => {
            let mut documents = load_by_tokens(alloc, text)?;
            from_documents(alloc, text, &mut documents)
        }
    }
}

// The value of the text of a tape: as it is read from the tape, or else of the text's documents.
fn from_tape<'de, T: Deserialize<'de>>(alloc: Global, tape: Tape<'de>) -> Result<T>
    requires allowed { IsAllowed tape.text.now }
    requires says { SaysText tape }
    ensures { OnOk result (IsParsed tape.entry.text.now IsOneDocument) }
{
    if let Some(value) = read_tape(alloc, &tape) {
        return Ok(value);
    }
    let text = tape.text;
    let mut documents = load_tape(alloc, tape)?;
    from_documents(alloc, text, &mut documents)
}

// The value of the one document of a text, of which these are all.
#[tactic(auto, using(crate::proofs::CutOff::only_one))]
fn from_documents<'de, T: Deserialize<'de>>(
    alloc: Global,
    text: &'de [u8],
    documents: &mut Loader<'de>,
) -> Result<T>
    ensures { OnOk result ((all : List ℕ) → AreDocumentsOf all documents.old → IsParsed all IsOneDocument) }
{
    let Some(document) = documents.next_document() else {
        return Err(Error::new(Cause::EndOfStream));
    };
    alone(read_alone(alloc, text, &document), documents)
}

/// The one document of these events, each with its mark, and of the parser's fault, if it had one, as a value of the
/// type, which borrows nothing.
#[tactic(auto, using(crate::proofs::CutOff::one))]
pub fn from_events<'de, T: DeserializeOwned>(
    alloc: Global,
    events: Vec<(Event<'de>, Mark)>,
    fault: Option<ParserFault>,
) -> Result<T>
    ensures accepted { OnOk result (IsWellFormed (is_some fault) (plain_events events.entry.items)) }
    ensures one { OnOk result (IsOneDocument (plain_marked events.entry.items) fault) }
{
    let mut documents = Loader::new(alloc, events, fault)?;
    let Some(document) = documents.next_document() else {
        return Err(Error::new(Cause::EndOfStream));
    };
    alone(read_owned(alloc, &document), &mut documents)
}
