//! The scalars of a tape.

ghost use Rattle.std.specs.Prelude.{◌≡◌, ◌-◌, ◌≢◌, ◌≤◌, IfErr, IfOk, IsSomeAnd, None, Some, drop, false, length, slice_range, true};
ghost use Rattle.yaml_base.specs.LineBreaks.{IsOneLine};
ghost use Rattle.yaml_base.specs.PlainEvent.{scalar_of};
ghost use Rattle.yaml_base.specs.declared.event.ScalarStyle.TheVariants as style;
ghost use Rattle.yaml_checked.specs.declared.place.Refusal.TheVariants as refusal;
ghost use Rattle.yaml_checked.specs.inner.EntryStands.{its_text, source_on};
ghost use Rattle.yaml_checked.specs.inner.OnWay.{IsNotSaid, scalar_by};
ghost use Rattle.yaml_grammar.specs.Bytes.{is_text};
ghost use Rattle.yaml_parse.specs.PlainText.{SaysItsSource};
ghost use Rattle.yaml_parse.specs.Shown.{StandsAt};

use crate::place::Refusal;
use crate::source::{end_of, says};
use std::alloc::Global;
use yaml_base::{Scalar, ScalarStyle};
use yaml_tape::{Entry, Names, Tape};

// The bytes from a place on up to another, as far as there are any.
#[inline(always)]
fn part(bytes: &[u8], from: u32, to: u32) -> &[u8]
    ensures { result.now ≡ slice_range bytes.now from to }
{
    let to = (to as usize).min(bytes.len());
    let from = (from as usize).min(to);
    &bytes[from..to]
}

// The text of an entry, in the source or in the arena.
#[inline(always)]
fn value<'t>(tape: &'t Tape<'_>, entry: Entry) -> &'t [u8]
    ensures { result.now ≡ its_text tape.now entry }
{
    let kept = if entry.stored {
        tape.arena.as_slice()
    } else {
        tape.text
    };
    part(kept, entry.from, entry.to)
}

// The text of a plain scalar with this source, if the source says it.
#[inline(always)]
fn plain_value<'t>(
    tape: &'t Tape<'_>,
    entry: Entry,
    repr: &'t [u8],
    has_names: bool,
) -> Result<&'t [u8], Refusal>
    requires { repr.now ≡ source_on tape.now entry }
    ensures value { IfOk result (λ value. value.now ≡ its_text tape.now entry) }
    ensures rest { IfOk result (λ value. IsOneLine repr.now
        → value.now ≡ drop (length repr.now - length value.now) repr.now) }
    ensures whole { IfOk result (λ value. has_names ≡ false → IsOneLine repr.now → value.now ≡ repr.now) }
    ensures untrue { IfErr result (λ _. IsNotSaid tape.now entry has_names) }
{
    if let Some(value) = end_of(repr, entry, has_names) {
        return Ok(value);
    }
    let value = value(tape, entry);
    if says(repr, value, has_names) {
        Ok(value)
    } else {
        Err(Refusal::Untrue)
    }
}

// The text of a scalar with this source; of a plain one, if the source says it.
#[inline(always)]
fn value_of<'t>(
    tape: &'t Tape<'_>,
    entry: Entry,
    repr: &'t [u8],
    has_names: bool,
) -> Result<&'t [u8], Refusal>
    requires { repr.now ≡ source_on tape.now entry }
    ensures value { IfOk result (λ value. value.now ≡ its_text tape.now entry) }
    ensures rest { IfOk result (λ value. entry.style ≡ style.Plain → IsOneLine repr.now
        → value.now ≡ drop (length repr.now - length value.now) repr.now) }
    ensures whole { IfOk result (λ value. entry.style ≡ style.Plain → has_names ≡ false → IsOneLine repr.now
        → value.now ≡ repr.now) }
    ensures untrue { IfErr result (λ _. (entry.style ≡ style.Plain) × IsNotSaid tape.now entry has_names) }
{
    if entry.style != ScalarStyle::Plain {
        return Ok(value(tape, entry));
    }
    plain_value(tape, entry, repr, has_names)
}

// Whether there are an anchor or a tag.
#[inline(always)]
fn has_names(names: &Names) -> bool
    ensures none { result ≡ false → (names.now.anchor ≡ None) × (names.now.tag ≡ None) }
    ensures some { names.now.anchor ≡ None → names.now.tag ≡ None → result ≡ false }
{
    names.anchor.is_some() || names.tag.is_some()
}

// The scalar of an entry, with its names.
#[inline(always)]
pub(crate) fn scalar<'a>(
    alloc: Global,
    tape: &Tape<'a>,
    entry: Entry,
    names: Names,
) -> Result<Scalar<'a>, Refusal>
    requires { entry.index ≤ length tape.now.text.now }
    ensures scalar { IfOk result (λ s. scalar_of s ≡ scalar_by tape.now names.anchor names.tag entry) }
    ensures shown { IfOk result (λ s. IsSomeAnd (scalar_of s).source (StandsAt tape.now.text.now entry.index)) }
    ensures plain { IfOk result (λ s. SaysItsSource (scalar_of s)) }
    ensures untrue { IfErr result (λ r. r ≢ refusal.OutOfMemory → is_text tape.now.text.now ≡ true
        → SaysItsSource (scalar_by tape.now names.anchor names.tag entry) → ⊥) }
{
    let text = tape.text;
    let repr = part(text, entry.index, entry.end);
    let value = value_of(tape, entry, repr, has_names(&names))?;
    let value = Vec::from_slice(alloc, value)?;
    Ok(Scalar {
        anchor: names.anchor,
        tag: names.tag,
        value,
        style: entry.style,
        repr: Some(repr),
    })
}
