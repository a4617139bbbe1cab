//! The marks of events.

ghost use Rattle.std.specs.Prelude.{◌≡◌, ◌≢◌, ◌≤◌, ◌<◌, ◌↔◌, IfErr, IfOk, IsTrue, length};
ghost use Rattle.yaml_base.specs.Places.{place_of};
ghost use Rattle.yaml_parse.specs.Places.{IsInPlace};
ghost use Rattle.yaml_tape.specs.OnTape.{position_at};

use std::alloc::AllocError;
use yaml_base::Mark;
use yaml_parse::mark_at;

/// Why an event is not handed out.
#[derive(Clone, Copy, PartialEq, Eq, Debug, Drop)]
pub enum Refusal {
    /// Memory ran out.
    OutOfMemory,
    /// What stands on the tape can't be an event of the text. No text is known for which it is so.
    Untrue,
    /// The direct parser leaves the document that comes next.
    Left,
}

impl From<AllocError> for Refusal {
    ghost use Rattle.std.specs.Prelude.{◌≡◌};
    ghost use Rattle.yaml_checked.specs.declared.place.Refusal.TheVariants as refusal;

    ghost from_gives = { λ _ r. r ≡ refusal.OutOfMemory };

    fn from(_: AllocError) -> Refusal {
        Refusal::OutOfMemory
    }
}

// The mark of the first byte.
pub(crate) fn first_mark() -> Mark
    ensures index { result.index ≡ 0 }
    ensures line { result.line ≡ 0 }
    ensures column { result.column ≡ 0 }
{
    match Mark::new(0, 0, 0) {
        Some(mark) => mark,
        None => unreachable!(),
    }
}

// The mark of an index, which lies behind no earlier one.
#[inline(always)]
pub(crate) fn reach(text: &[u8], here: Mark, index: u64) -> Result<Mark, Refusal>
    requires place { (here.line, here.column) ≡ place_of text.now here.index }
    requires within { index ≤ length text.now }
    ensures index { IfOk result (λ mark. mark.index ≡ index) }
    ensures forward { IfOk result (λ mark. here.index ≤ mark.index) }
    ensures place { IfOk result (λ mark. (mark.line, mark.column) ≡ place_of text.now mark.index) }
    ensures untrue { IfErr result (λ _. index < here.index) }
{
    if index < here.index() {
        return Err(Refusal::Untrue);
    }
    Ok(mark_at(text, here, index))
}

// Whether the line behind the last may begin here: the text ends, amid a line.
#[inline(always)]
fn is_behind(text: &[u8], here: Mark) -> bool
    ensures { IsTrue result ↔ ((here.index ≡ length text.now) × (here.column ≢ 0)) }
{
    here.index() == text.len() as u64 && here.column() != 0
}

// The mark of an event there, which may stand on the line behind the last.
#[inline(always)]
pub(crate) fn begun(text: &[u8], here: Mark, late: bool) -> Mark
    requires place { (here.line, here.column) ≡ place_of text.now here.index }
    requires within { here.index ≤ length text.now }
    ensures index { result.index ≡ here.index }
    ensures place { IsInPlace text.now result }
    ensures mark { IsInPlace text.now (position_at text.now here.index late)
        → result ≡ position_at text.now here.index late }
{
    if !late || !is_behind(text, here) {
        return here;
    }
    match Mark::new(here.index(), here.line() + 1, 0) {
        Some(mark) => mark,
        None => unreachable!(),
    }
}
