//! Whether what stands on a tape can be events of its text.

ghost use Rattle.std.specs.Prelude.{◌≡◌, ◌≢◌, ◌≤◌, None, false, length, true};
ghost use Rattle.yaml_base.specs.Places.{place_of};
ghost use Rattle.yaml_checked.specs.StandsInText.{StandsInText};
ghost use Rattle.yaml_checked.specs.inner.EntryStands.{EntryStands, SaysItsText, ScalarStands};
ghost use Rattle.yaml_tape.specs.OnTape.{IsInside, anchor_in, names_at, tag_in};

use crate::place::first_mark;
use crate::source::says;
use yaml_base::ScalarStyle;
use yaml_parse::mark_at;
use yaml_tape::{Entry, EntryKind, Tape};

// Whether the last byte of a text is a character of ASCII that is printed.
fn ends_printed(text: &[u8]) -> bool
    ensures { result ≡ true → (place_of text.now (length text.now)).1 ≢ 0 }
{
    matches!(text.last(), Some(b' '..=b'~'))
}

// Whether a text ends amid a line. Nearly every text tells by its last byte; else its lines are counted.
fn ends_amid_line(text: &[u8]) -> bool
    ensures { result ≡ true → (place_of text.now (length text.now)).1 ≢ 0 }
{
    if ends_printed(text) {
        return true;
    }
    if text.ends_with(b"\n") {
        return false;
    }
    mark_at(text, first_mark(), text.len() as u64).column() != 0
}

// Whether there are an anchor or a tag with this number.
fn has_names(tape: &Tape<'_>, number: u32) -> bool
    requires { number ≤ length tape.now.names.items }
    ensures { anchor_in (names_at tape.now.names.items number) ≡ None
        → tag_in (names_at tape.now.names.items number) ≡ None → result ≡ false }
{
    if number == 0 {
        return false;
    }
    let names = &tape.names[number as usize - 1];
    names.anchor.is_some() || names.tag.is_some()
}

// Whether the text of a plain scalar, which is not just its source, is what the source says.
#[inline(never)]
fn says_rest(tape: &Tape<'_>, entry: &Entry) -> bool
    requires inside { IsInside tape.now.text.now tape.now.arena.items tape.now.names.items entry.now }
    requires forward { entry.now.index ≤ entry.now.end }
    requires within { entry.now.end ≤ length tape.now.text.now }
    ensures { result ≡ true → SaysItsText tape.now entry.now }
{
    let source = &tape.text[entry.index as usize..entry.end as usize];
    let kept = if entry.stored {
        tape.arena.as_slice()
    } else {
        tape.text
    };
    let text = &kept[entry.from as usize..entry.to as usize];
    says(source, text, has_names(tape, entry.names))
}

// Whether the source of a plain scalar says its text.
#[inline(always)]
fn says_text(tape: &Tape<'_>, entry: &Entry) -> bool
    requires inside { IsInside tape.now.text.now tape.now.arena.items tape.now.names.items entry.now }
    requires forward { entry.now.index ≤ entry.now.end }
    requires within { entry.now.end ≤ length tape.now.text.now }
    ensures { result ≡ true → SaysItsText tape.now entry.now }
{
    if !entry.stored && entry.from == entry.index && entry.to == entry.end {
        return true;
    }
    says_rest(tape, entry)
}

// Whether the source of a scalar lies in the text, and says what a plain one's text is.
#[inline(always)]
fn scalar_stands(tape: &Tape<'_>, entry: &Entry) -> bool
    requires { IsInside tape.now.text.now tape.now.arena.items tape.now.names.items entry.now }
    ensures { result ≡ true → ScalarStands tape.now entry.now }
{
    if entry.index > entry.end || entry.end as usize > tape.text.len() {
        return false;
    }
    entry.style != ScalarStyle::Plain || says_text(tape, entry)
}

// Whether an entry can be an event of the text, of which is known whether it ends amid a line.
#[inline(always)]
fn entry_stands(tape: &Tape<'_>, entry: &Entry, amid_line: bool) -> bool
    requires inside { IsInside tape.now.text.now tape.now.arena.items tape.now.names.items entry.now }
    requires amid_line { amid_line ≡ true → (place_of tape.now.text.now (length tape.now.text.now)).1 ≢ 0 }
    ensures { result ≡ true → EntryStands tape.now entry.now }
{
    if entry.late && !(amid_line && entry.index as usize == tape.text.len()) {
        return false;
    }
    entry.kind != EntryKind::Scalar || scalar_stands(tape, entry)
}

/// Whether what stands on a tape can be events of its text: none begins before the one before it, the source of each
/// scalar lies in the text, that of a plain one in a line says its text, and what begins on the line behind the last
/// begins at the end of the text. No event is made, and lines and columns need no counting: they are those of the
/// places.
///
/// Whether the events are a stream is not asked.
pub fn stands(tape: &Tape<'_>) -> bool
    ensures { result ≡ true → StandsInText tape.now }
{
    let amid_line = ends_amid_line(tape.text);
    let mut last = 0;
    for entry in &tape.entries {
        if entry.index < last || !entry_stands(tape, entry, amid_line) {
            return false;
        }
        last = entry.index;
    }
    true
}
