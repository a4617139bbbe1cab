//! The nodes of a tape.

ghost use Rattle.std.specs.Prelude.{◌≡◌, ◌<◌, ◌+◌, ◌∷◌, IfSome, None, Some, length, slice_range, true};
ghost use Rattle.yaml_base.specs.PlainDocEvent.{a_scalar, mapping_begins, mapping_ends, sequence_begins, sequence_ends};
ghost use Rattle.yaml_tape.specs.OnDocs.{bare, doc_by, docs_from};
ghost use Rattle.yaml_tape.specs.OnTape.{IsInside, names_at, tag_in, text_on};
ghost use Rattle.yaml_types.specs.Behind.{behind, opened};

use yaml_tape::{Entry, EntryKind, Tape};

// Whether a node has no tag.
#[inline(always)]
fn has_no_tag(tape: &Tape<'_>, entry: Entry) -> bool
    ensures { result ≡ true → tag_in (names_at tape.now.names.items entry.names) ≡ None }
{
    match (entry.names as usize).checked_sub(1) {
        None => true,
        Some(place) => match tape.names.get(place) {
            Some(names) => names.tag.is_none(),
            None => true,
        },
    }
}

// The scalar in a place, if one without a tag stands there.
#[inline(always)]
#[tactic(auto, using(crate::proofs::NodeReads::next_doc))]
pub(crate) fn scalar_at(tape: &Tape<'_>, place: usize) -> Option<Entry>
    ensures scalar { IfSome result (λ e.
        docs_from tape.now place ≡ Some (a_scalar (bare tape.now e)) ∷ docs_from tape.now (place + 1)) }
    ensures inside { IfSome result (IsInside tape.now.text.now tape.now.arena.items tape.now.names.items) }
    ensures there { IfSome result (λ _. place < length tape.now.entries.items) }
{
    let entry = *tape.entries.get(place)?;
    if entry.kind != EntryKind::Scalar || !has_no_tag(tape, entry) {
        return None;
    }
    Some(entry)
}

// Whether a sequence without a tag begins in a place.
#[inline(always)]
#[tactic(auto, using(crate::proofs::NodeReads::next_doc))]
pub(crate) fn begins_sequence(tape: &Tape<'_>, place: usize) -> bool
    ensures { result ≡ true
        → docs_from tape.now place ≡ Some (sequence_begins None) ∷ docs_from tape.now (place + 1) }
{
    match tape.entries.get(place) {
        Some(entry) => entry.kind == EntryKind::SequenceStart && has_no_tag(tape, *entry),
        None => false,
    }
}

// Whether a sequence ends in a place.
#[inline(always)]
#[tactic(auto, using(crate::proofs::NodeReads::next_doc))]
pub(crate) fn ends_sequence(tape: &Tape<'_>, place: usize) -> bool
    ensures { result ≡ true → docs_from tape.now place ≡ Some sequence_ends ∷ docs_from tape.now (place + 1) }
{
    match tape.entries.get(place) {
        Some(entry) => entry.kind == EntryKind::SequenceEnd,
        None => false,
    }
}

// Whether a mapping without a tag begins in a place.
#[inline(always)]
#[tactic(auto, using(crate::proofs::NodeReads::next_doc))]
pub(crate) fn begins_mapping(tape: &Tape<'_>, place: usize) -> bool
    ensures { result ≡ true
        → docs_from tape.now place ≡ Some (mapping_begins None) ∷ docs_from tape.now (place + 1) }
{
    match tape.entries.get(place) {
        Some(entry) => entry.kind == EntryKind::MappingStart && has_no_tag(tape, *entry),
        None => false,
    }
}

// Whether a mapping ends in a place.
#[inline(always)]
#[tactic(auto, using(crate::proofs::NodeReads::next_doc))]
pub(crate) fn ends_mapping(tape: &Tape<'_>, place: usize) -> bool
    ensures { result ≡ true → docs_from tape.now place ≡ Some mapping_ends ∷ docs_from tape.now (place + 1) }
{
    match tape.entries.get(place) {
        Some(entry) => entry.kind == EntryKind::MappingEnd,
        None => false,
    }
}

// How many collections are open behind an entry, where so many are in front of it.
#[inline(always)]
fn opened(tape: &Tape<'_>, entry: Entry, depth: usize) -> Option<usize>
    ensures { IfSome result (λ n. n ≡ opened depth
        (doc_by tape.now.text.now tape.now.arena.items tape.now.names.items entry)) }
{
    match entry.kind {
        EntryKind::SequenceStart | EntryKind::MappingStart => depth.checked_add(1),
        EntryKind::SequenceEnd | EntryKind::MappingEnd => Some(depth.saturating_sub(1)),
        _ => Some(depth),
    }
}

// What stands in a place.
#[inline(always)]
#[tactic(auto, using(crate::proofs::NodeReads::next_doc))]
fn entry_at(tape: &Tape<'_>, place: usize) -> Option<Entry>
    ensures { IfSome result (λ e. docs_from tape.now place
        ≡ doc_by tape.now.text.now tape.now.arena.items tape.now.names.items e ∷ docs_from tape.now (place + 1)) }
{
    Some(*tape.entries.get(place)?)
}

// The place behind the node in a place.
pub(crate) fn place_behind(tape: &Tape<'_>, place: usize) -> Option<usize>
    ensures { IfSome result (λ end. docs_from tape.now end ≡ behind 0 (docs_from tape.now place)) }
{
    let mut depth = 0;
    for at in place..tape.entries.len() {
        let entry = entry_at(tape, at)?;
        let inner = opened(tape, entry, depth)?;
        if inner == 0 {
            return Some(at + 1);
        }
        depth = inner;
    }
    None
}

// The text of a scalar.
#[inline(always)]
pub(crate) fn text_of<'a>(tape: &'a Tape<'_>, entry: Entry) -> &'a [u8]
    requires { IsInside tape.now.text.now tape.now.arena.items tape.now.names.items entry }
    ensures { result.now ≡ text_on tape.now.text.now tape.now.arena.items entry }
{
    let (from, to) = (entry.from as usize, entry.to as usize);
    if entry.stored {
        &tape.arena[from..to]
    } else {
        &tape.text[from..to]
    }
}
