//! The events of a batch of documents, as a loader takes them.

ghost use Rattle.std.specs.Prelude.{◌≡◌, ◌<◌, IfErr, IfNone, IfOk, IfSome, false, true};
ghost use Rattle.yaml_base.specs.Answer.{is_memory};
ghost use Rattle.yaml_base.specs.MarkedEvents.{plain_marked};
ghost use Rattle.yaml_base.specs.PlainEvent.{event_of};
ghost use Rattle.yaml_documents.specs.TextEvents.{AreEventsOf};
ghost use Rattle.yaml_documents.specs.inner.Filling.{Agree, IsFilled, ReadsOn, front, is_last};
ghost use Rattle.yaml_documents.specs.inner.Sources.{Stays};
ghost use Rattle.yaml_read.specs.Documents.{is_document_end, is_open_after};

use crate::source::TextEvents;
use std::alloc::Global;
use yaml_base::{Event, Mark, Result};
use yaml_load::LoaderBuilder;

// How many events a batch has at least, unless the text has no more: it ends behind the document that reaches so many.
const ENOUGH: usize = 256;

// For how many a loader has room before it grows, so that it seldom does over small documents.
const ROOM: usize = ENOUGH + 64;

// How far the events of a batch go.
#[derive(Drop)]
pub(crate) enum Filled {
    // Up to the end of a document, which has this mark.
    Full(Mark),
    // Up to the end of the text, and whether a document of the batch ended before.
    Last(bool),
}

// Whether a document ends with the event.
fn is_end(event: &Event<'_>) -> bool
    ensures { result ≡ is_document_end (event_of event.now) }
{
    match event {
        Event::DocumentEnd => true,
        _ => false,
    }
}

// A loader for the next batch. Behind a document it starts with a stream of its own.
pub(crate) fn begin<'de>(alloc: Global, last: Option<Mark>) -> Result<LoaderBuilder<'de>>
    ensures front { IfOk result (λ builder. builder ≡ front last) }
    ensures memory { IfErr result (λ cause. is_memory cause ≡ true) }
{
    let mut builder = LoaderBuilder::with_capacity(alloc, ROOM)?;
    if let Some(mark) = last {
        if let Err(fault) = builder.push(Event::StreamStart, mark) {
            return Err(fault);
        }
    }
    Ok(builder)
}

// Hands the events up to the end of the next document over to a loader, and answers the mark of that; or all events
// that are left, where no document ends among them. Behind a document so many fewer are missing for a batch to have
// enough.
fn read_on<'de>(
    alloc: Global,
    events: &mut TextEvents<'de>,
    builder: &mut LoaderBuilder<'de>,
    missing: &mut usize,
) -> Result<Option<Mark>>
    requires agree { Agree events.old.given builder.old }
    ensures stays { Stays events.old events.new }
    ensures on { IfOk result (λ end.
        ReadsOn events.old.given builder.old events.new.given builder.new end) }
    ensures of_text { IfOk result (λ end. IfSome end (λ _. AreEventsOf events.old.text events.new.given)) }
    ensures over { IfOk result (λ end. IfNone end (events.new.over ≡ true)) }
    ensures fewer { IfOk result (λ end. IfSome end (λ _. 0 < missing.old → missing.new < missing.old)) }
    ensures memory { IfErr result (λ cause. is_memory cause ≡ true) }
{
    let mut left = *missing;
    'events: while let Some((event, mark)) = events.next_event(alloc)? {
        events.has_events();
        let ends = is_end(&event);
        if let Err(fault) = builder.push(event, mark) {
            return Err(fault);
        }
        left = left.saturating_sub(1);
        if ends {
            *missing = left;
            return Ok(Some(mark));
        }
    }
    Ok(None)
}

// Hands the events of documents over to a loader, until it has enough of them or all that are left.
pub(crate) fn fill<'de>(
    alloc: Global,
    events: &mut TextEvents<'de>,
    builder: &mut LoaderBuilder<'de>,
) -> Result<Filled>
    requires agree { Agree events.old.given builder.old }
    requires closed { is_open_after false (plain_marked events.old.given) ≡ false }
    ensures stays { Stays events.old events.new }
    ensures filled { IfOk result (λ filled.
        IsFilled events.old.text events.old.given builder.old events.new.given builder.new filled) }
    ensures over { IfOk result (λ filled. is_last filled ≡ true → events.new.over ≡ true) }
    ensures memory { IfErr result (λ cause. is_memory cause ≡ true) }
{
    let mut missing = ENOUGH;
    let mut end = match read_on(alloc, events, builder, &mut missing)? {
        Some(mark) => mark,
        None => return Ok(Filled::Last(false)),
    };
    'documents: while missing > 0 {
        match read_on(alloc, events, builder, &mut missing)? {
            Some(mark) => end = mark,
            None => return Ok(Filled::Last(true)),
        }
    }
    Ok(Filled::Full(end))
}
