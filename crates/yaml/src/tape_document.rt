//! Whether a tape is that of one document.

ghost use Rattle.std.specs.Prelude.{◌≡◌, ◌+◌, IfSome, List, Option, true};
ghost use Rattle.yaml_base.specs.DocTree.{DocNode};
ghost use Rattle.yaml_base.specs.PlainDocEvent.{PlainDocEvent};
ghost use Rattle.yaml_documents.specs.OnlyDocument.{HasKind, IsOnlyDocument};
ghost use Rattle.yaml_load.specs.StreamPhases.{IsClean, phase_state};
ghost use Rattle.yaml_tape.specs.OnDocs.{docs_from};
ghost use Rattle.yaml_tape.specs.declared.entry.EntryKind.TheVariants as kind;
ghost use Rattle.yaml.specs.OneNode.{Completes, IsNode, IsStep};

use std::alloc::Global;
use yaml_base::Open;
use yaml_load::check::{Phase, after_leaf, after_mapping, after_sequence, after_start};
use yaml_tape::{EntryKind, Tape};

// The phase behind the start of a sequence, if it may stand there, and memory is left.
#[inline(always)]
fn after_sequence_start(phase: Phase, outer: &mut Vec<Open>) -> Option<Phase>
    requires { IsClean phase outer.old.items }
    ensures clean { IfSome result (λ p. IsClean p outer.new.items) }
    ensures step { IfSome result (λ p.
        IsStep (phase_state phase outer.old.items) kind.SequenceStart (phase_state p outer.new.items)) }
{
    match after_start(phase, outer, Open::Sequence) {
        Ok(found) => found,
        Err(_) => None,
    }
}

// The same of a mapping.
#[inline(always)]
fn after_mapping_start(phase: Phase, outer: &mut Vec<Open>) -> Option<Phase>
    requires { IsClean phase outer.old.items }
    ensures clean { IfSome result (λ p. IsClean p outer.new.items) }
    ensures step { IfSome result (λ p.
        IsStep (phase_state phase outer.old.items) kind.MappingStart (phase_state p outer.new.items)) }
{
    match after_start(phase, outer, Open::Key) {
        Ok(found) => found,
        Err(_) => None,
    }
}

// The phase behind an entry of this kind, if it may stand there as part of a node and is no alias.
#[inline(always)]
fn after(phase: Phase, outer: &mut Vec<Open>, kind: EntryKind) -> Option<Phase>
    requires { IsClean phase outer.old.items }
    ensures clean { IfSome result (λ p. IsClean p outer.new.items) }
    ensures step { IfSome result (λ p.
        IsStep (phase_state phase outer.old.items) kind (phase_state p outer.new.items)) }
{
    match kind {
        EntryKind::Scalar => after_leaf(phase),
        EntryKind::SequenceStart => after_sequence_start(phase, outer),
        EntryKind::SequenceEnd => after_sequence(phase, outer),
        EntryKind::MappingStart => after_mapping_start(phase, outer),
        EntryKind::MappingEnd => after_mapping(phase, outer),
        _ => None,
    }
}

// The phase behind the entry in a place.
#[inline(always)]
fn after_entry(tape: &Tape<'_>, place: usize, phase: Phase, outer: &mut Vec<Open>) -> Option<Phase>
    requires { IsClean phase outer.old.items }
    ensures clean { IfSome result (λ p. IsClean p outer.new.items) }
    ensures goes_on { IfSome result (λ p. (rest : List (Option PlainDocEvent))
        → Completes (phase_state p outer.new.items) (docs_from tape.now (place + 1)) rest
        → Completes (phase_state phase outer.old.items) (docs_from tape.now place) rest) }
{
    let entry = tape.entries.get(place)?;
    after(phase, outer, entry.kind)
}

// Whether the entries from the third one up to a place are one node without an alias.
fn is_node(alloc: Global, tape: &Tape<'_>, end: usize) -> bool
    ensures { result ≡ true → IsNode tape.now 2 end }
{
    let mut outer = Vec::new(alloc);
    let mut phase = Phase::Root;
    let mut place = 2;
    'entries: for _ in 0..tape.entries.len() {
        if place == end {
            return matches!(phase, Phase::Ended);
        }
        let (Some(found), Some(next)) = (
            after_entry(tape, place, phase, &mut outer),
            place.checked_add(1),
        ) else {
            return false;
        };
        phase = found;
        place = next;
    }
    false
}

// Whether this stands in a place of a tape.
fn has(tape: &Tape<'_>, place: usize, kind: EntryKind) -> bool
    ensures { result ≡ true → HasKind tape.now place kind }
{
    match tape.entries.get(place) {
        Some(entry) => entry.kind == kind,
        None => false,
    }
}

/// Whether a tape is a stream of one document, in which no alias stands. Where memory is wanting, it is not known to be.
pub(crate) fn is_one_document(alloc: Global, tape: &Tape<'_>) -> bool
    ensures { result ≡ true → (root : DocNode) × IsOnlyDocument tape.now root }
{
    let Some(end) = tape.entries.len().checked_sub(2) else {
        return false;
    };
    has(tape, 0, EntryKind::StreamStart)
        && has(tape, 1, EntryKind::DocumentStart)
        && has(tape, end, EntryKind::DocumentEnd)
        && has(tape, end + 1, EntryKind::StreamEnd)
        && is_node(alloc, tape, end)
}
