//! The names of a tape, which are taken off it, or copied.

ghost use Rattle.std.specs.Prelude.{◌≡◌, ◌-◌, ◌≤◌, IfOk, length, set, true};
ghost use Rattle.yaml_checked.specs.inner.EntryNames.{NamesRise, neither};
ghost use Rattle.yaml_tape.specs.OnTape.{anchor_in, names_at, tag_in};

use std::alloc::{AllocError, Global};
use yaml_base::{Anchor, Tag};
use yaml_tape::{Entry, Names, Tape};

// The same anchor, if there is one.
fn copy_anchor(alloc: Global, anchor: &Option<Anchor>) -> Result<Option<Anchor>, AllocError>
    ensures { IfOk result (λ copy. copy ≡ anchor.now) }
{
    match anchor {
        Some(anchor) => Ok(Some(Anchor::new(Vec::from_slice(alloc, anchor.as_slice())?))),
        None => Ok(None),
    }
}

// The same tag, if there is one.
fn copy_tag(alloc: Global, tag: &Option<Tag>) -> Result<Option<Tag>, AllocError>
    ensures { IfOk result (λ copy. copy ≡ tag.now) }
{
    match tag {
        Some(tag) => Ok(Some(Tag::new(Vec::from_slice(alloc, tag.as_slice())?))),
        None => Ok(None),
    }
}

// A copy of the names with this number. The tape keeps its own.
#[inline(never)]
pub(crate) fn copy_names(alloc: Global, tape: &Tape<'_>, number: u32) -> Result<Names, AllocError>
    requires some { 1 ≤ number }
    requires named { number ≤ length tape.now.names.items }
    ensures anchor { IfOk result (λ names. names.anchor ≡ anchor_in (names_at tape.now.names.items number)) }
    ensures tag { IfOk result (λ names. names.tag ≡ tag_in (names_at tape.now.names.items number)) }
{
    let kept = &tape.names[number as usize - 1];
    let anchor = copy_anchor(alloc, &kept.anchor)?;
    let tag = copy_tag(alloc, &kept.tag)?;
    Ok(Names { anchor, tag })
}

// The names with this number, which the tape has no more.
#[inline(always)]
#[tactic(auto, using(crate::proofs::NameLaws::inside_taken))]
pub(crate) fn take_names(tape: &mut Tape<'_>, number: u32) -> Names
    requires some { 1 ≤ number }
    requires named { number ≤ length tape.old.names.items }
    ensures text { tape.new.text.now ≡ tape.old.text.now }
    ensures entries { tape.new.entries.items ≡ tape.old.entries.items }
    ensures arena { tape.new.arena.items ≡ tape.old.arena.items }
    ensures names { tape.new.names.items ≡ set tape.old.names.items (number - 1) neither }
    ensures anchor { result.anchor ≡ anchor_in (names_at tape.old.names.items number) }
    ensures tag { result.tag ≡ tag_in (names_at tape.old.names.items number) }
{
    let kept = &mut tape.names[number as usize - 1];
    let anchor = kept.anchor.take();
    let tag = kept.tag.take();
    Names { anchor, tag }
}

// Whether each entry with names has a greater number than all before it.
#[tactic(auto, using(crate::proofs::NameLaws::all_rise))]
fn names_rise(entries: &[Entry]) -> bool
    ensures { result ≡ true → NamesRise entries.now }
{
    let mut last = 0;
    for entry in entries {
        if entry.names != 0 {
            if entry.names <= last {
                return false;
            }
            last = entry.names;
        }
    }
    true
}

// Whether the tape has names, and each is that of one entry and stands behind those of the entries before.
#[inline(always)]
pub(crate) fn may_let_go(tape: &Tape<'_>) -> bool
    ensures { result ≡ true → NamesRise tape.now.entries.items }
{
    !tape.names.is_empty() && names_rise(tape.entries.as_slice())
}
