//! The documents of a YAML text that are handed out one at a time, beside those that are loaded at once.

use super::refused;
use super::text::spelled;
use std::alloc::{AllocError, Global};
use yaml_base::Result as Answer;
use yaml_documents::{DocumentReader, load};
use yaml_read::{Document, Loader};
use yaml_run::{Status, Told};

// The documents that are loaded at once, without what the library promises of them.
fn loaded<'a>(alloc: Global, text: &'a [u8]) -> Answer<Loader<'a>> {
    load(alloc, text)
}

// Those that are handed out one at a time, likewise.
fn reader<'a>(alloc: Global, text: &'a [u8]) -> Answer<DocumentReader<'a>> {
    DocumentReader::new(alloc, text)
}

// The next of these, likewise.
fn next<'a>(documents: &mut DocumentReader<'a>) -> Answer<Option<Document<'a>>> {
    documents.next_document()
}

// Appends the events of a document, each with its mark, and the fault that cut it off, if one did.
fn show(document: &Document<'_>, out: &mut String) -> Result<(), AllocError> {
    for (event, mark) in document.events() {
        write!(out, "{event:?} {mark}; ")?;
    }
    match document.error() {
        Some(fault) => write!(out, "{fault}"),
        None => Ok(()),
    }
}

// What is shown of a document, if there is one.
fn shown(alloc: Global, found: &Option<Document<'_>>) -> Result<String, AllocError> {
    let mut out = String::new(alloc);
    match found {
        Some(document) => show(document, &mut out)?,
        None => out.push_str("none")?,
    }
    Ok(out)
}

// Whether the next document that is handed out is the next one of those that are loaded, and whether there is one.
fn compare(
    alloc: Global,
    documents: &mut DocumentReader<'_>,
    all: &mut Loader<'_>,
) -> Answer<(bool, bool)> {
    let found = next(documents)?;
    let told = shown(alloc, &found)?;
    let wanted = shown(alloc, &all.next_document())?;
    Ok((told.as_str() == wanted.as_str(), found.is_some()))
}

// How many documents are handed out, if they are those that are loaded. Each is asked for until it has answered that
// there is none, and once more: a text has no more documents than bytes, and one where it is empty.
fn count(alloc: Global, text: &[u8]) -> Answer<Option<usize>> {
    let mut documents = reader(alloc, text)?;
    let mut all = loaded(alloc, text)?;
    let mut count = 0usize;
    for number in 0..text.len() + 2 {
        let (same, some) = compare(alloc, &mut documents, &mut all)?;
        if !same {
            return Ok(None);
        }
        if some {
            count = number + 1;
        }
    }
    Ok(Some(count))
}

/// How many documents of the text that a line spells are handed out one at a time, if they are those that are loaded at
/// once.
pub fn hand_out(alloc: Global, lines: &[u8]) -> Result<Told, AllocError> {
    let Some(text) = spelled(alloc, lines)? else {
        return refused(alloc, "bad text");
    };
    match count(alloc, text.as_slice()) {
        Ok(Some(count)) => Ok(Told {
            ended: Status::Read,
            text: format!(in alloc; "{count}")?,
        }),
        Ok(None) => Ok(Told {
            ended: Status::Fault,
            text: String::from_str(alloc, "fault: not those that are loaded at once")?,
        }),
        Err(_) => Err(AllocError),
    }
}
