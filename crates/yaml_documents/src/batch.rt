//! From the end of one batch of documents to the end of the next.

ghost use Rattle.std.specs.Prelude.{◌≡◌, ◌≢◌, [], IfErr, IfOk, None, Some, false, is_some, true};
ghost use Rattle.yaml_base.specs.Answer.{is_memory};
ghost use Rattle.yaml_base.specs.MarkedEvents.{events_in, plain_marked};
ghost use Rattle.yaml_base.specs.Stream.{IsWellFormed};
ghost use Rattle.yaml_base.specs.StreamMachine.{before_stream, between_documents, run};
ghost use Rattle.yaml_documents.specs.inner.Filling.{IsBetween, begun_in, is_at_end, left_documents};
ghost use Rattle.yaml_documents.specs.inner.Batches.{IsBatchOf};
ghost use Rattle.yaml_documents.specs.inner.Stages.{IsAt, has_ended, has_failed};

use crate::filling::{Filled, begin, fill};
use crate::pending::Pending;
use crate::source::TextEvents;
use std::alloc::Global;
use yaml_base::{Event, Mark, ParserFault, Result};
use yaml_load::LoaderBuilder;

// What comes behind the documents that are loaded.
#[derive(Drop)]
pub(crate) enum Stage<'de> {
    // The events that are left, with the mark of the last document's end, if one was loaded.
    Reading(TextEvents<'de>, Option<Mark>),
    // Nothing.
    Ended,
    // Nothing, since memory was wanting.
    Failed,
}

// What became of a batch.
#[derive(Drop)]
enum Loaded<'de> {
    // It has these documents, and this comes behind them.
    Batch(Pending<'de>, Stage<'de>),
    // The direct parser left it, so it is read anew, by these events.
    Left(TextEvents<'de>),
}

// The documents of the events that were taken, the last of which ends with them, at this mark.
fn ended<'de>(mut builder: LoaderBuilder<'de>, mark: Mark) -> Result<Pending<'de>>
    requires between { run (Some before_stream) (events_in builder) ≡ Some between_documents }
    requires some { begun_in None builder ≢ [] }
    ensures documents { IfOk result (λ documents. documents ≡ begun_in None builder.entry) }
    ensures memory { IfErr result (λ cause. is_memory cause ≡ true) }
{
    if let Err(fault) = builder.push(Event::StreamEnd, mark) {
        return Err(fault);
    }
    match builder.finish(None) {
        Ok(documents) => Ok(Pending::of(documents)),
        Err(fault) => Err(fault),
    }
}

// Whether the stream came to its end behind documents that were loaded before, with none of the batch between.
fn is_at_end(fault: &Option<ParserFault>, before: bool, some: bool) -> bool
    ensures { result ≡ is_at_end fault.now before some }
{
    match fault {
        Some(_) => false,
        None => before && !some,
    }
}

// The documents of the events up to the end of the text, of which the last may be cut off by the parser's fault, or be
// the one of an empty stream.
fn left<'de>(
    builder: LoaderBuilder<'de>,
    fault: Option<ParserFault>,
    before: bool,
    some: bool,
) -> Result<Pending<'de>>
    requires { IsWellFormed (is_some fault) (events_in builder) }
    ensures left { IfOk result (λ documents.
        documents ≡ left_documents builder.entry fault before some) }
    ensures memory { IfErr result (λ cause. is_memory cause ≡ true) }
{
    if is_at_end(&fault, before, some) {
        return Ok(Pending::none());
    }
    match builder.finish(fault) {
        Ok(documents) => Ok(Pending::of(documents)),
        Err(fault) => Err(fault),
    }
}

// The documents of the next batch and what comes behind them, unless the direct parser leaves it.
fn try_batch<'de>(
    alloc: Global,
    mut events: TextEvents<'de>,
    last: Option<Mark>,
) -> Result<Loaded<'de>>
    requires between { IsBetween last events.given }
    requires back { events.back ≡ events.given }
    ensures loaded { IfOk result (IsBatchOf events.entry) }
    ensures memory { IfErr result (λ cause. is_memory cause ≡ true) }
{
    let before = last.is_some();
    let mut builder = begin(alloc, last)?;
    let filled = fill(alloc, &mut events, &mut builder)?;
    match filled {
        Filled::Full(mark) => {
            if !events.keep_place(alloc) {
                return Ok(Loaded::Left(events.by_tokens(alloc)?));
            }
            let documents = ended(builder, mark)?;
            Ok(Loaded::Batch(documents, Stage::Reading(events, Some(mark))))
        }
        Filled::Last(some) => {
            if events.is_left() {
                return Ok(Loaded::Left(events.by_tokens(alloc)?));
            }
            events.has_events();
            let fault = events.finish(alloc)?;
            let documents = left(builder, fault, before, some)?;
            Ok(Loaded::Batch(documents, Stage::Ended))
        }
    }
}

// The documents of the next batch by tokens, which leave nothing, and what comes behind them.
fn load_by_tokens<'de>(
    alloc: Global,
    events: TextEvents<'de>,
    last: Option<Mark>,
) -> Result<(Pending<'de>, Stage<'de>)>
    requires between { IsBetween last events.given }
    requires back { events.back ≡ events.given }
    requires by_tokens { events.by_tape ≡ false }
    ensures at { IfOk result (λ r.
        IsAt events.entry.text r.1 r.0 (begun_in None (plain_marked events.entry.given))) }
    ensures none { IfOk result (λ r. r.0 ≡ [] → has_ended r.1 ≡ true) }
    ensures goes_on { IfOk result (λ r. has_failed r.1 ≡ false) }
    ensures memory { IfErr result (λ cause. is_memory cause ≡ true) }
{
    match try_batch(alloc, events, last)? {
        Loaded::Batch(pending, stage) => Ok((pending, stage)),
        Loaded::Left(_) => unreachable!(),
    }
}

// The same mark, if there is one.
fn same(last: &Option<Mark>) -> Option<Mark>
    ensures { result ≡ last.now }
{
    match last {
        Some(mark) => Some(*mark),
        None => None,
    }
}

// The documents of the next batch, and what comes behind them: by the direct parser or else by tokens.
pub(crate) fn load_batch<'de>(
    alloc: Global,
    events: TextEvents<'de>,
    last: Option<Mark>,
) -> Result<(Pending<'de>, Stage<'de>)>
    requires between { IsBetween last events.given }
    requires back { events.back ≡ events.given }
    ensures at { IfOk result (λ r.
        IsAt events.entry.text r.1 r.0 (begun_in None (plain_marked events.entry.given))) }
    ensures none { IfOk result (λ r. r.0 ≡ [] → has_ended r.1 ≡ true) }
    ensures goes_on { IfOk result (λ r. has_failed r.1 ≡ false) }
    ensures memory { IfErr result (λ cause. is_memory cause ≡ true) }
{
    let kept = same(&last);
    match try_batch(alloc, events, last)? {
        Loaded::Batch(pending, stage) => Ok((pending, stage)),
        Loaded::Left(again) => load_by_tokens(alloc, again, kept),
    }
}
