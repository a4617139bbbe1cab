//! A value that reads itself from the tape of a text.

ghost use Rattle.std.specs.Prelude.{◌≡◌, IfSome, Ok, true};
ghost use Rattle.yaml_checked.specs.OfText.{SaysText};
ghost use Rattle.yaml_checked.specs.StandsInText.{StandsInText};
ghost use Rattle.yaml_documents.specs.OnlyDocument.{HasKind};
ghost use Rattle.yaml_scan.specs.AllowedText.{IsAllowed};
ghost use Rattle.yaml_tape.specs.OnDocs.{docs_from};
ghost use Rattle.serde_yaml.specs.TapeReads.{HoldsValue, IsOnlyNode, IsOpenAfter, behind};
ghost use Rattle.serde_yaml.specs.TextReads.{IsParsed};
ghost use Rattle.serde_yaml.specs.TypedHeadline.{GivesValue};
ghost use Rattle.serde_yaml.specs.TypedReads.{TypeGives};

use crate::laws::reading_gives_the_meaning;
use std::alloc::Global;
use yaml_checked::stands;
use yaml_read::Limits;
use yaml_shape::Schema;
use yaml_tape::{EntryKind, Tape};
use yaml_types::Deserialize;

// How many collections are open behind an entry of this kind, where so many are before it, if it is part of a node and
// no alias.
#[inline(always)]
fn open_after(kind: EntryKind, before: usize) -> Option<usize>
    ensures { IfSome result (IsOpenAfter kind before) }
{
    match kind {
        EntryKind::Scalar => Some(before),
        EntryKind::SequenceStart | EntryKind::MappingStart => before.checked_add(1),
        EntryKind::SequenceEnd | EntryKind::MappingEnd => before.checked_sub(1),
        _ => None,
    }
}

// The place behind the node that begins behind the start of a document, if it has no alias in it.
fn node_end(tape: &Tape<'_>) -> Option<usize>
    ensures { IfSome result (λ end. docs_from tape.now end ≡ behind 0 (docs_from tape.now 2)) }
{
    let mut nested = 0;
    let mut place = 2;
    'entries: for _ in 0..tape.entries.len() {
        let entry = tape.entries.get(place)?;
        nested = open_after(entry.kind, nested)?;
        place += 1;
        if nested == 0 {
            return Some(place);
        }
    }
    None
}

// Whether this stands in a place of a tape.
fn has(tape: &Tape<'_>, place: usize, kind: EntryKind) -> bool
    ensures { result ≡ true → HasKind tape.now place kind }
{
    match tape.entries.get(place) {
        Some(entry) => entry.kind == kind,
        None => false,
    }
}

// Whether the tape is a stream of one document, whose node stands in front of a place.
fn is_document(tape: &Tape<'_>, end: usize) -> bool
    ensures { result ≡ true → IsOnlyNode tape.now end }
{
    if tape.entries.len().checked_sub(2) != Some(end) {
        return false;
    }
    has(tape, 0, EntryKind::StreamStart)
        && has(tape, 1, EntryKind::DocumentStart)
        && has(tape, end, EntryKind::DocumentEnd)
        && has(tape, end + 1, EntryKind::StreamEnd)
}

// The value of the one document of a tape, within so many nestings; or nothing, which says nothing of the document.
// The tape is looked at first: a value could not be let go any more.
pub(crate) fn read_tape<'de, T: Deserialize<'de>>(
    alloc: Global,
    tape: &Tape<'de>,
    depth: usize,
) -> Option<T>
    ensures value { IfSome result (HoldsValue T.start T.built tape.now depth) }
    ensures stands { IfSome result (λ _. StandsInText tape.now) }
{
    let end = node_end(tape)?;
    if !is_document(tape, end) || !stands(tape) {
        return None;
    }
    let mut place = 2;
    let value = T::read_node(alloc, tape, &mut place, depth)?;
    Some(value)
}

// The value of the one document of a tape as `from_str` gives it, under the type's shape, which is in this table; or
// nothing, which says nothing of the document.
pub(crate) fn value_of_tape<'de, T: Deserialize<'de>>(
    alloc: Global,
    tape: &Tape<'de>,
    table: &Schema,
    limits: Limits,
) -> Option<T>
    requires allowed { IsAllowed tape.now.text.now }
    requires says { SaysText tape.now }
    requires table { table.now ≡ T.start.0 }
    ensures { IfSome result (λ x. IsParsed tape.now.text.now (λ events fault.
        GivesValue limits T.start T.built T.refused events fault (Ok x)
        × TypeGives limits T.start T.built T.refused events fault (Ok x))) }
{
    reading_gives_the_meaning();
    table.is_valid();
    table.optionals_end();
    let value = read_tape(alloc, tape, limits.nesting() as usize)?;
    Some(value)
}
