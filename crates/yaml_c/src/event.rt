//! The row of an event.

ghost use Rattle.std.specs.Prelude.{◌≡◌, ◌+◌, ◌<◌, IfSome, length};
ghost use Rattle.yaml_base.specs.DocEventView.{doc_event_of, doc_scalar_of};
ghost use Rattle.yaml_c.specs.Links.{in_field};
ghost use Rattle.yaml_c.specs.Numbers.{numbers_in, scalar_numbers, tag_number};
ghost use Rattle.yaml_c.specs.RowDocuments.{shown_event};
ghost use Rattle.yaml_c.specs.Rows.{holds, part, row_place, style_of};
ghost use Rattle.yaml_c.specs.inner.Room.{Grows, HasTag, HasTextIn};
ghost use Rattle.yaml_c.specs.inner.Showing.{IsRowOf};

use crate::room::{Part, Tally, put_text};
use crate::rows::{YamlRow, kind, tag};
use crate::scalar::{sort_of, style_number, tag_kind};
use yaml_base::{DocEvent, DocScalar, Mark, ScalarStyle, Tag};

// Where a tag stands in the texts, and what it is.
#[derive(Clone, Copy)]
struct TagPart {
    kind: u8,
    part: Part,
}

// Where the text of a scalar stands, in the source or in the texts.
#[derive(Clone, Copy)]
struct TextPart {
    in_source: u8,
    part: Part,
}

// Where the text of a scalar begins in the source, if it stands there as it is.
fn place_in_source(source: &[u8], mark: Mark, scalar: &DocScalar<'_>) -> Option<usize>
    ensures { IfSome result (λ from. part source.now from (length scalar.now.value.items) ≡ scalar.now.value.items) }
{
    let repr = scalar.repr?;
    let closing = match scalar.style {
        ScalarStyle::Plain => 0usize,
        ScalarStyle::SingleQuoted | ScalarStyle::DoubleQuoted => 1,
        ScalarStyle::Literal | ScalarStyle::Folded => return None,
    };
    let begin = usize::try_from(mark.index()).ok()?;
    let end = begin.checked_add(repr.len())?.checked_sub(closing)?;
    let from = end.checked_sub(scalar.value.len())?;
    if source.get(from..end)? == scalar.value.as_slice() {
        Some(from)
    } else {
        None
    }
}

// A row of a kind at a mark.
fn row_at(kind: u8, mark: Mark) -> YamlRow
    ensures kind { result.kind ≡ kind }
    ensures place { row_place result ≡ mark }
    ensures link { result.link ≡ 0 }
{
    let mut row = YamlRow::of_kind(kind);
    row.line = mark.line();
    row.column = mark.column();
    row.index = mark.index();
    row
}

// Puts a tag, if there is one.
fn put_tag(texts: &mut [u8], tally: &mut Tally, tag: &Option<Tag>) -> TagPart
    ensures grows { Grows texts.old tally.old.bytes texts.new tally.new.bytes }
    ensures put { HasTag texts.new tally.new.bytes result.kind result.part.at result.part.len tag.now }
    ensures kind { result.kind ≡ tag_number tag.now }
    ensures rows { tally.new.rows ≡ tally.old.rows }
{
    match tag {
        Some(tag) => TagPart {
            kind: tag_kind(tag),
            part: put_text(texts, tally, tag.as_slice()),
        },
        None => TagPart {
            kind: tag::NONE,
            part: Part { at: 0, len: 0 },
        },
    }
}

// Puts the text of a scalar, if it does not stand in the source.
fn put_scalar_text(
    source: &[u8],
    texts: &mut [u8],
    tally: &mut Tally,
    scalar: &DocScalar<'_>,
    mark: Mark,
) -> TextPart
    ensures grows { Grows texts.old tally.old.bytes texts.new tally.new.bytes }
    ensures put { HasTextIn source.now texts.new tally.new.bytes
        result.in_source result.part.at result.part.len scalar.now.value.items }
    ensures rows { tally.new.rows ≡ tally.old.rows }
{
    match place_in_source(source, mark, scalar) {
        Some(from) => TextPart {
            in_source: 1,
            part: Part {
                at: from as u64,
                len: scalar.value.len() as u64,
            },
        },
        None => TextPart {
            in_source: 0,
            part: put_text(texts, tally, scalar.value.as_slice()),
        },
    }
}

// The row of a scalar.
fn scalar_row(
    source: &[u8],
    texts: &mut [u8],
    tally: &mut Tally,
    scalar: &DocScalar<'_>,
    mark: Mark,
) -> YamlRow
    ensures grows { Grows texts.old tally.old.bytes texts.new tally.new.bytes }
    ensures kind { result.kind < 8 }
    ensures numbers { numbers_in result ≡ scalar_numbers (doc_scalar_of scalar.now) }
    ensures style { style_of result.style ≡ scalar.now.style }
    ensures place { row_place result ≡ mark }
    ensures link { result.link ≡ 0 }
    ensures tag { HasTag texts.new tally.new.bytes result.tag_kind result.tag_at result.tag_len scalar.now.tag }
    ensures text { HasTextIn source.now texts.new tally.new.bytes
        result.text_in_source result.text_at result.text_len scalar.now.value.items }
    ensures rows { tally.new.rows ≡ tally.old.rows }
{
    let tag = put_tag(texts, tally, &scalar.tag);
    let text = put_scalar_text(source, texts, tally, scalar, mark);
    let sort = sort_of(scalar, tag.kind);
    YamlRow {
        kind: sort.kind,
        word: sort.text.word,
        style: style_number(scalar.style),
        tag_kind: tag.kind,
        text_in_source: text.in_source,
        has_float: sort.text.has_float,
        ask_quotes: 0,
        unused: 0,
        text_at: text.part.at,
        text_len: text.part.len,
        tag_at: tag.part.at,
        tag_len: tag.part.len,
        line: mark.line(),
        column: mark.column(),
        index: mark.index(),
        low: sort.text.low,
        high: sort.text.high,
        float_bits: sort.text.float_bits,
        link: 0,
    }
}

// The row of a collection that begins, which ends in the row `last`.
fn start_row(
    texts: &mut [u8],
    tally: &mut Tally,
    kind: u8,
    tag: &Option<Tag>,
    mark: Mark,
    last: usize,
) -> YamlRow
    ensures grows { Grows texts.old tally.old.bytes texts.new tally.new.bytes }
    ensures kind { result.kind ≡ kind }
    ensures place { row_place result ≡ mark }
    ensures tag { HasTag texts.new tally.new.bytes result.tag_kind result.tag_at result.tag_len tag.now }
    ensures link { result.link ≡ last }
    ensures rows { tally.new.rows ≡ tally.old.rows }
{
    let tag = put_tag(texts, tally, tag);
    let mut row = row_at(kind, mark);
    row.tag_kind = tag.kind;
    row.tag_at = tag.part.at;
    row.tag_len = tag.part.len;
    row.link = last as u64;
    row
}

/// The row of the event at a place, of a document that begins in the row `at`: the greatest number, if it is past that.
pub(crate) fn row_of_event(at: usize, place: usize) -> usize
    ensures { result ≡ in_field (at + 1 + place) }
{
    at.saturating_add(1).saturating_add(place)
}

// The row of an alias to the event at a place, of a document that begins in the row `at`.
fn alias_row(mark: Mark, target: usize, at: usize) -> YamlRow
    ensures kind { result.kind ≡ 9 }
    ensures place { row_place result ≡ mark }
    ensures target { result.low ≡ target }
    ensures link { result.link ≡ in_field (at + 1 + target) }
{
    let mut row = row_at(kind::ALIAS, mark);
    row.low = target as u64;
    row.link = row_of_event(at, target) as u64;
    row
}

/// The row of an event, whose collection ends at the event `end`, of a document that begins in the row `at`.
pub(crate) fn event_row(
    source: &[u8],
    texts: &mut [u8],
    tally: &mut Tally,
    event: &DocEvent<'_>,
    mark: Mark,
    end: usize,
    at: usize,
) -> YamlRow
    ensures grows { Grows texts.old tally.old.bytes texts.new tally.new.bytes }
    ensures row { IsRowOf source.now texts.new tally.new.bytes result
        (holds (shown_event at end (doc_event_of event.now)) mark) }
    ensures rows { tally.new.rows ≡ tally.old.rows }
{
    let last = row_of_event(at, end);
    match event {
        DocEvent::Alias(target) => alias_row(mark, *target, at),
        DocEvent::Scalar(scalar) => scalar_row(source, texts, tally, scalar, mark),
        DocEvent::SequenceStart(start) => {
            start_row(texts, tally, kind::SEQUENCE, &start.tag, mark, last)
        }
        DocEvent::SequenceEnd => row_at(kind::SEQUENCE_END, mark),
        DocEvent::MappingStart(start) => {
            start_row(texts, tally, kind::MAPPING, &start.tag, mark, last)
        }
        DocEvent::MappingEnd => row_at(kind::MAPPING_END, mark),
        DocEvent::Void => row_at(kind::VOID, mark),
    }
}
