//! The rows of a document.

ghost use Rattle.std.specs.Prelude.{◌≡◌, ◌∷◌, ℕ, List, [], IfOk, length, map};
ghost use Rattle.std.specs.Option.{option_copied};
ghost use Rattle.yaml_base.specs.DocEventView.{doc_event_of, marked_events_of};
ghost use Rattle.yaml_base.specs.ErrorText.{error_text};
ghost use Rattle.yaml_c.specs.Links.{document_reach};
ghost use Rattle.yaml_c.specs.RowDocuments.{fault_place, shown_event};
ghost use Rattle.yaml_c.specs.Rows.{begins, holds, is_cut, row_reach};
ghost use Rattle.yaml_c.specs.inner.Room.{Grows};
ghost use Rattle.yaml_c.specs.inner.Showing.{Adds, IsRowOf, parts_shown, shown_ending, shown_events};
ghost use Rattle.yaml_load.specs.Ends.{ends_of};

use crate::event::{event_row, row_of_event};
use crate::room::{Tally, put_row, put_text};
use crate::rows::{YamlRow, kind};
use std::alloc::Global;
use yaml_base::{DocEvent, Error, Mark, Result};
use yaml_read::Limits;

/// What a document holds: its events, for each of them where the collection ends that begins there, and its fault.
#[derive(Clone, Copy)]
pub(crate) struct Parts<'a, 'de> {
    pub(crate) events: &'a [(DocEvent<'de>, Mark)],
    pub(crate) ends: &'a [usize],
    pub(crate) error: Option<&'a Error>,
}

// The row of the fault that cuts a document off.
fn fault_row(alloc: Global, texts: &mut [u8], tally: &mut Tally, fault: &Error) -> Result<YamlRow>
    ensures grows { Grows texts.old tally.old.bytes texts.new tally.new.bytes }
    ensures row { IfOk result (λ row. (source : List ℕ) → IsRowOf source texts.new tally.new.bytes row
        (is_cut (error_text fault.now) (fault_place fault.now))) }
    ensures rows { tally.new.rows ≡ tally.old.rows }
{
    let text = format!(in alloc; "{fault}")?;
    let part = put_text(texts, tally, text.as_bytes());
    let mut row = YamlRow::of_kind(kind::FAULT);
    row.text_at = part.at;
    row.text_len = part.len;
    if let Some(place) = fault.location() {
        row.line = place.line().saturating_sub(1) as u64;
        row.column = place.column().saturating_sub(1) as u64;
        row.index = place.index() as u64;
    }
    Ok(row)
}

// The row of what comes behind the events of a document.
fn last_row(
    alloc: Global,
    texts: &mut [u8],
    tally: &mut Tally,
    error: Option<&Error>,
) -> Result<YamlRow>
    ensures grows { Grows texts.old tally.old.bytes texts.new tally.new.bytes }
    ensures row { IfOk result (λ row. (source : List ℕ) → IsRowOf source texts.new tally.new.bytes row
        (shown_ending (option_copied error.entry))) }
    ensures rows { tally.new.rows ≡ tally.old.rows }
{
    match error {
        Some(fault) => fault_row(alloc, texts, tally, fault),
        None => Ok(YamlRow::of_kind(kind::DOCUMENT_END)),
    }
}

// The row `at`, in which a document of so many events begins.
fn document_row(at: usize, events: usize) -> YamlRow
    ensures kind { result.kind ≡ 14 }
    ensures reach { row_reach result ≡ document_reach at events }
{
    let limits = Limits::DEFAULT;
    let mut row = YamlRow::of_kind(kind::DOCUMENT);
    row.low = limits.nesting() as u64;
    row.high = (limits.follows() as u64).saturating_mul(events as u64);
    row.link = row_of_event(at, events) as u64;
    row
}

// The begin of a document of so many events more.
fn put_begin(rows: &mut [YamlRow], tally: &mut Tally, events: usize)
    ensures { (source texts : List ℕ) → Adds source
        (record { rows = rows.old; bytes = texts; used = tally.old.rows; taken = tally.old.bytes })
        (record { rows = rows.new; bytes = texts; used = tally.new.rows; taken = tally.new.bytes })
        (begins (document_reach tally.old.rows events) ∷ []) }
{
    let row = document_row(tally.rows, events);
    put_row(rows, tally, row);
}

// One event more, whose collection ends at the event `end`, of a document that begins in the row `at`.
fn put_event(
    source: &[u8],
    rows: &mut [YamlRow],
    texts: &mut [u8],
    tally: &mut Tally,
    event: &(DocEvent<'_>, Mark),
    end: usize,
    at: usize,
)
    ensures { Adds source.now
        (record { rows = rows.old; bytes = texts.old; used = tally.old.rows; taken = tally.old.bytes })
        (record { rows = rows.new; bytes = texts.new; used = tally.new.rows; taken = tally.new.bytes })
        (holds (shown_event at end (doc_event_of event.now.0)) event.now.1 ∷ []) }
{
    let (event, mark) = event;
    let row = event_row(source, texts, tally, event, *mark, end, at);
    put_row(rows, tally, row);
}

// The events more of a document that begins in the row `at`.
fn put_events(
    source: &[u8],
    rows: &mut [YamlRow],
    texts: &mut [u8],
    tally: &mut Tally,
    events: &[(DocEvent<'_>, Mark)],
    ends: &[usize],
    at: usize,
)
    requires { length ends.now ≡ length events.now }
    ensures { Adds source.now
        (record { rows = rows.old; bytes = texts.old; used = tally.old.rows; taken = tally.old.bytes })
        (record { rows = rows.new; bytes = texts.new; used = tally.new.rows; taken = tally.new.bytes })
        (shown_events at (marked_events_of events.now) ends.now) }
{
    for place in 0..events.len() {
        put_event(source, rows, texts, tally, &events[place], ends[place], at);
    }
}

// What comes behind the events of a document.
fn put_last(
    alloc: Global,
    rows: &mut [YamlRow],
    texts: &mut [u8],
    tally: &mut Tally,
    error: Option<&Error>,
) -> Result<()>
    ensures { IfOk result (λ _. (source : List ℕ) → Adds source
        (record { rows = rows.old; bytes = texts.old; used = tally.old.rows; taken = tally.old.bytes })
        (record { rows = rows.new; bytes = texts.new; used = tally.new.rows; taken = tally.new.bytes })
        (shown_ending (option_copied error.entry) ∷ [])) }
{
    let last = last_row(alloc, texts, tally, error)?;
    put_row(rows, tally, last);
    Ok(())
}

/// One document more.
pub(crate) fn put_document(
    alloc: Global,
    source: &[u8],
    rows: &mut [YamlRow],
    texts: &mut [u8],
    tally: &mut Tally,
    parts: Parts<'_, '_>,
) -> Result<()>
    requires { parts.ends.now ≡ ends_of (map (λ e. e.0) (marked_events_of parts.events.now)) }
    ensures { IfOk result (λ _. Adds source.now
        (record { rows = rows.old; bytes = texts.old; used = tally.old.rows; taken = tally.old.bytes })
        (record { rows = rows.new; bytes = texts.new; used = tally.new.rows; taken = tally.new.bytes })
        (parts_shown tally.old.rows (marked_events_of parts.entry.events.now) parts.entry.ends.now
        (option_copied parts.entry.error))) }
{
    let at = tally.rows;
    put_begin(rows, tally, parts.events.len());
    put_events(source, rows, texts, tally, parts.events, parts.ends, at);
    put_last(alloc, rows, texts, tally, parts.error)?;
    Ok(())
}
