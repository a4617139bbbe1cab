//! Rows as a text.

ghost use Rattle.std.specs.Prelude.{◌≡◌, ◌∷◌, ◌++◌, [], IfErr, IfNone, IfOk, IfSome, OnOk, option_map, true};
ghost use Rattle.yaml_c.specs.Refused.{HasTag, HasText, IsRefusedAt, IsTextThere, IsWritten, is_written_scalar};
ghost use Rattle.yaml_c.specs.RowEvents.{AreEventsOf, string_style};
ghost use Rattle.yaml_c.specs.Rows.{part, row_tag, row_text};
ghost use Rattle.yaml_c.specs.inner.Printing.{AddsEach, AddsRow, IfRow, IfWrong, IsPrinted, IsTextOf, outcome_of};
ghost use Rattle.yaml_base.specs.EmitEvents.{emit_mapping_start, emit_sequence_start, tag_bytes};

use crate::number::{Digits, text_in};
use crate::rows::{YamlRow, kind, tag};
use std::alloc::{AllocError, Global};
use yaml_base::emitter::{AskedStyle, EmitEvent, Mapping, Sequence};
use yaml_base::{Cause, infer_style};
use yaml_emit::Emitter;

/// Texts that rows speak of: a source, and other texts.
#[derive(Clone, Copy)]
pub(crate) struct Texts<'a> {
    pub(crate) source: &'a [u8],
    pub(crate) texts: &'a [u8],
}

/// What came of printing.
#[derive(Drop)]
pub(crate) enum Outcome {
    /// The text.
    Text(String),
    /// The row at this place is wrong.
    Refused(usize),
    /// Memory ran out.
    Memory,
}

/// Why rows are not written.
#[derive(Clone, Copy)]
enum Refusal {
    /// The row at this place may not be.
    Row(usize),
    /// Memory ran out.
    Memory,
}

impl From<AllocError> for Refusal {
    ghost use Rattle.std.specs.Prelude.{◌≡◌};
    ghost use Rattle.yaml_c.specs.declared.print.Refusal.TheVariants.{Memory};

    ghost from_gives = { λ _ refusal. refusal ≡ Memory };

    fn from(_: AllocError) -> Refusal {
        Refusal::Memory
    }
}

/// Why a row is not written.
#[derive(Clone, Copy)]
enum Stop {
    /// It may not be: by its kind, or since its tag or its text stands nowhere.
    Wrong,
    /// Memory ran out.
    Memory,
}

impl From<AllocError> for Stop {
    ghost use Rattle.std.specs.Prelude.{◌≡◌};
    ghost use Rattle.yaml_c.specs.declared.print.Stop.TheVariants.{Memory};

    ghost from_gives = { λ _ stop. stop ≡ Memory };

    fn from(_: AllocError) -> Stop {
        Stop::Memory
    }
}

// The text of so many bytes at a place, if it is one.
fn text_at(texts: &[u8], at: u64, len: u64) -> Option<&str>
    ensures text { IfSome result (λ text. text.now ≡ part texts.now at len) }
    ensures none { IfNone result (IsTextThere texts.now at len → ⊥) }
{
    let from = usize::try_from(at).ok()?;
    let to = from.checked_add(usize::try_from(len).ok()?)?;
    std::str::from_utf8(texts.get(from..to)?).ok()
}

// The tag of a row, if it has one; nothing, if it stands nowhere.
fn tag_of<'a>(texts: &'a [u8], row: &YamlRow) -> Option<Option<&'a str>>
    ensures tag { IfSome result (λ tag. option_map (λ t. t.now) tag ≡ row_tag texts.now row.now) }
    ensures none { IfNone result (HasTag texts.now row.now → ⊥) }
{
    if row.tag_kind == tag::NONE {
        return Some(None);
    }
    Some(Some(text_at(texts, row.tag_at, row.tag_len)?))
}

// The text of a row, if it stands somewhere.
fn text_of<'a>(texts: Texts<'a>, row: &YamlRow) -> Option<&'a str>
    ensures text { IfSome result (λ text.
        text.now ≡ row_text texts.entry.source.now texts.entry.texts.now row.now) }
    ensures none { IfNone result (HasText texts.entry.source.now texts.entry.texts.now row.now → ⊥) }
{
    if row.text_in_source == 1 {
        return text_at(texts.source, row.text_at, row.text_len);
    }
    text_at(texts.texts, row.text_at, row.text_len)
}

// The style that is asked for a string.
fn asked_style(row: &YamlRow, text: &str) -> AskedStyle
    ensures { result ≡ string_style row.now text.now }
{
    if row.ask_quotes == 1 {
        AskedStyle::SingleQuoted
    } else {
        infer_style(text)
    }
}

// Adds a string with this tag.
fn push_string(
    emitter: &mut Emitter,
    texts: Texts<'_>,
    row: &YamlRow,
    tag: Option<&str>,
) -> Result<(), Stop>
    ensures added { row.now.kind ≡ 5 → option_map (λ t. t.now) tag.entry ≡ row_tag texts.entry.texts.now row.now
        → OnOk result
        (AddsRow texts.entry.source.now texts.entry.texts.now row.now emitter.old.taken emitter.new.taken) }
    ensures wrong { IfErr result (IfWrong (HasText texts.entry.source.now texts.entry.texts.now row.now → ⊥)) }
{
    let Some(text) = text_of(texts, row) else {
        return Err(Stop::Wrong);
    };
    emitter.push_scalar(tag, text, asked_style(row, text))?;
    Ok(())
}

// Adds a scalar with this tag, if the row is one.
fn push_scalar(
    emitter: &mut Emitter,
    texts: Texts<'_>,
    row: &YamlRow,
    tag: Option<&str>,
) -> Result<(), Stop>
    ensures added { option_map (λ t. t.now) tag.entry ≡ row_tag texts.entry.texts.now row.now
        → OnOk result
        (AddsRow texts.entry.source.now texts.entry.texts.now row.now emitter.old.taken emitter.new.taken) }
    ensures wrong { IfErr result (IfWrong (is_written_scalar row.now.kind ≡ true
        → (row.now.kind ≡ 5 → HasText texts.entry.source.now texts.entry.texts.now row.now) → ⊥)) }
{
    if row.kind == kind::STRING {
        return push_string(emitter, texts, row, tag);
    }
    let mut digits = Digits::new();
    match text_in(row, &mut digits) {
        Some(text) => {
            emitter.push_scalar(tag, text, AskedStyle::Plain)?;
            Ok(())
        }
        None => Err(Stop::Wrong),
    }
}

// A tag of its own, if there is one.
fn own_tag(alloc: Global, tag: Option<&str>) -> Result<Option<String>, AllocError>
    ensures { IfOk result (λ own. tag_bytes own ≡ option_map (λ t. t.now) tag.entry) }
{
    match tag {
        Some(tag) => Ok(Some(String::from_str(alloc, tag)?)),
        None => Ok(None),
    }
}

// Begins a sequence with this tag.
fn begin_sequence(emitter: &mut Emitter, tag: Option<&str>) -> Result<(), AllocError>
    ensures { OnOk result (emitter.new.taken
        ≡ emitter.old.taken ++ emit_sequence_start (option_map (λ t. t.now) tag.entry) ∷ []) }
{
    let tag = own_tag(emitter.alloc(), tag)?;
    emitter.push(&EmitEvent::SequenceStart(Sequence { tag }))
}

// Begins a mapping with this tag.
fn begin_mapping(emitter: &mut Emitter, tag: Option<&str>) -> Result<(), AllocError>
    ensures { OnOk result (emitter.new.taken
        ≡ emitter.old.taken ++ emit_mapping_start (option_map (λ t. t.now) tag.entry) ∷ []) }
{
    let tag = own_tag(emitter.alloc(), tag)?;
    emitter.push(&EmitEvent::MappingStart(Mapping { tag }))
}

// Adds the event of a row.
fn push_row(emitter: &mut Emitter, texts: Texts<'_>, row: &YamlRow) -> Result<(), Stop>
    ensures added { OnOk result
        (AddsRow texts.entry.source.now texts.entry.texts.now row.now emitter.old.taken emitter.new.taken) }
    ensures wrong { IfErr result (IfWrong (IsWritten texts.entry.source.now texts.entry.texts.now row.now → ⊥)) }
{
    let Some(tag) = tag_of(texts.texts, row) else {
        return Err(Stop::Wrong);
    };
    match row.kind {
        kind::SEQUENCE => begin_sequence(emitter, tag)?,
        kind::SEQUENCE_END => emitter.push(&EmitEvent::SequenceEnd)?,
        kind::MAPPING => begin_mapping(emitter, tag)?,
        kind::MAPPING_END => emitter.push(&EmitEvent::MappingEnd)?,
        kind::DOCUMENT => emitter.push(&EmitEvent::DocumentStart)?,
        kind::DOCUMENT_END => emitter.push(&EmitEvent::DocumentEnd)?,
        _ => push_scalar(emitter, texts, row, tag)?,
    }
    Ok(())
}

// Adds the events of rows, or tells the first row that may not be written.
fn push_rows(emitter: &mut Emitter, rows: &[YamlRow], texts: Texts<'_>) -> Result<(), Refusal>
    ensures added { OnOk result
        (AddsEach rows.now texts.entry.source.now texts.entry.texts.now emitter.old.taken emitter.new.taken) }
    ensures wrong { IfErr result (IfRow (IsRefusedAt rows.now texts.entry.source.now texts.entry.texts.now)) }
{
    let mut left = rows;
    while let Some((row, rest)) = left.split_first() {
        match push_row(emitter, texts, row) {
            Ok(()) => {}
            Err(Stop::Wrong) => return Err(Refusal::Row(rows.len().saturating_sub(left.len()))),
            Err(Stop::Memory) => return Err(Refusal::Memory),
        }
        left = rest;
    }
    Ok(())
}

// The text of the events that were taken, of which that at a place is of the row before.
fn printed(emitter: Emitter, rows: usize) -> Outcome
    ensures { IsTextOf result emitter.taken rows }
{
    match emitter.finish() {
        Ok(text) => Outcome::Text(text),
        Err(fault) => match fault.cause() {
            Cause::NotAStream(place) => Outcome::Refused(place.saturating_sub(1).min(rows)),
            _ => Outcome::Memory,
        },
    }
}

// Adds the events of the stream that rows are.
fn push_stream(emitter: &mut Emitter, rows: &[YamlRow], texts: Texts<'_>) -> Result<(), Refusal>
    ensures added { OnOk result (emitter.old.taken ≡ []
        → AreEventsOf rows.now texts.entry.source.now texts.entry.texts.now emitter.new.taken) }
    ensures wrong { IfErr result (IfRow (IsRefusedAt rows.now texts.entry.source.now texts.entry.texts.now)) }
{
    emitter.push(&EmitEvent::StreamStart)?;
    push_rows(emitter, rows, texts)?;
    emitter.push(&EmitEvent::StreamEnd)?;
    Ok(())
}

// What comes of rows that are not written.
fn refused(refusal: Refusal) -> Outcome
    ensures { result ≡ outcome_of refusal }
{
    match refusal {
        Refusal::Row(place) => Outcome::Refused(place),
        Refusal::Memory => Outcome::Memory,
    }
}

/// The text of the stream that rows are.
pub(crate) fn print(alloc: Global, rows: &[YamlRow], texts: Texts<'_>) -> Outcome
    ensures { IsPrinted result rows.now texts.entry.source.now texts.entry.texts.now }
{
    let mut emitter = Emitter::new(alloc);
    match push_stream(&mut emitter, rows, texts) {
        Ok(()) => printed(emitter, rows.len()),
        Err(refusal) => refused(refusal),
    }
}
