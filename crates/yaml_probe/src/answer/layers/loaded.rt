//! The documents of events and of texts, as they are loaded.

use super::doc_event::push_event;
use super::{agreed, input};
use crate::answer::text::spelled;
use std::alloc::{AllocError, Global};
use yaml_base::{Event, Mark, ParserFault};
use yaml_lines::LineFault;
use yaml_load::LoaderBuilder;
use yaml_read::{DocEvent, Document, Loader};
use yaml_run::{Status, Told};

// Appends what stands before the part with this place.
fn separate(out: &mut String, place: usize) -> Result<(), AllocError> {
    if place > 0 {
        out.push_str("; ")
    } else {
        Ok(())
    }
}

// Appends an event with its mark, and with the place where it ends.
fn push_marked(
    out: &mut String,
    (event, mark): &(DocEvent<'_>, Mark),
    end: Option<&usize>,
) -> Result<(), AllocError> {
    let (index, line, column) = (mark.index(), mark.line(), mark.column());
    write!(out, "{index}:{line}:{column} ")?;
    push_event(out, event)?;
    match end {
        Some(end) => write!(out, " to {end}"),
        None => Ok(()),
    }
}

// Appends a document as a line: its events, and the fault that cut it off, if one did.
fn push_document(
    out: &mut String,
    document: &Document<'_>,
    marked: bool,
) -> Result<(), AllocError> {
    for (place, event) in document.events().iter().enumerate() {
        separate(out, place)?;
        if marked {
            push_marked(out, event, document.ends().get(place))?;
        } else {
            push_event(out, &event.0)?;
        }
    }
    if let Some(fault) = document.error() {
        separate(out, document.events().len())?;
        write!(out, "fault: {fault}")?;
    }
    out.push('\n')
}

// How the loading of a document ended.
fn ending(document: &Document<'_>) -> Status {
    if document.error().is_some() {
        Status::Fault
    } else {
        Status::Read
    }
}

// All documents, a line each.
fn all_of(alloc: Global, loader: Loader<'_>, marked: bool) -> Result<Told, AllocError> {
    let mut documents = loader;
    let mut ended = Status::Read;
    let mut text = String::new(alloc);
    for _ in 0..u64::MAX {
        let Some(document) = documents.next_document() else {
            break;
        };
        push_document(&mut text, &document, marked)?;
        ended = ended.and(ending(&document));
    }
    Ok(Told { ended, text })
}

// The documents that were loaded, or why none were.
fn shown(
    alloc: Global,
    loaded: yaml_base::Result<Loader<'_>>,
    marked: bool,
) -> Result<Told, AllocError> {
    match loaded {
        Ok(loader) => all_of(alloc, loader, marked),
        Err(fault) => Ok(Told {
            ended: Status::Fault,
            text: format!(in alloc; "fault: {fault}\n")?,
        }),
    }
}

// The documents of events that are handed to a loader one by one.
fn built(
    alloc: Global,
    events: Vec<(Event<'_>, Mark)>,
    fault: Option<ParserFault>,
) -> yaml_base::Result<Loader<'_>> {
    let mut builder = LoaderBuilder::with_capacity(alloc, 0)?;
    for (event, mark) in events {
        builder.push(event, mark)?;
    }
    Ok(Loader::from(builder.finish(fault)?))
}

/// The documents of lines of events, which are loaded as a list and one by one.
pub fn load_events(alloc: Global, lines: &[u8], marked: bool) -> Result<Told, LineFault> {
    let list = input(alloc, lines)?;
    let listed = shown(alloc, Loader::new(alloc, list.events, list.fault), marked)?;
    let list = input(alloc, lines)?;
    let single = shown(alloc, built(alloc, list.events, list.fault), marked)?;
    Ok(agreed(listed, single)?)
}

/// The documents of the text that a line spells.
pub fn load_text(alloc: Global, lines: &[u8]) -> Result<Told, LineFault> {
    match spelled(alloc, lines)? {
        Some(text) => {
            let loaded = yaml_documents::load(alloc, text.as_slice());
            Ok(shown(alloc, loaded, false)?)
        }
        None => Err(LineFault::Bad),
    }
}
