//! The comments of a text.

ghost use Rattle.std.specs.Prelude.{◌≡◌, ◌≤◌, ◌++◌, [], IfOk, OnOk, length};
ghost use Rattle.std.specs.List.{between};
ghost use Rattle.yaml_base.specs.PlainEvent.{event_of};
ghost use Rattle.yaml_layout.specs.Comments.{comments_from, comments_of, held, next, shown};
ghost use Rattle.yaml_layout.specs.OwnText.{before_own, begins, ends_line, is_blank, next_head, outside, own_text};
ghost use Rattle.yaml_layout.specs.declared.comments.Place.TheVariants.{Gap};
ghost use Rattle.yaml_parse.specs.Shown.{AreShown, IsShown};

use std::alloc::{AllocError, Global};
use yaml_base::{Event, Mark};

/// Where a byte stands that is none of a scalar's own text.
#[derive(Clone, Copy, PartialEq, Eq)]
pub(crate) enum Place {
    /// At the start of a line or behind a blank: a comment may begin.
    Gap,
    /// Behind something else.
    Amid,
    /// In a comment.
    Comment,
}

/// Where a byte of a scalar's source stands, before the scalar's own text.
#[derive(Clone, Copy, PartialEq, Eq)]
pub(crate) enum Head {
    /// Before or behind a name.
    Gap,
    /// In an anchor or a tag.
    Name,
    /// In a comment.
    Comment,
    /// In the first line of a block.
    Line,
    /// Behind that line.
    Body,
}

// A space or a tab.
fn is_blank(byte: u8) -> bool
    ensures { result ≡ is_blank byte }
{
    byte == b' ' || byte == b'\t'
}

// A line feed or a carriage return.
fn ends_line(byte: u8) -> bool
    ensures { result ≡ ends_line byte }
{
    byte == b'\n' || byte == b'\r'
}

// Whether the scalar's own text begins with a byte.
fn begins(head: Head, byte: u8) -> bool
    ensures { result ≡ begins head byte }
{
    match head {
        Head::Body => true,
        Head::Gap => {
            let goes_on = is_blank(byte) || ends_line(byte);
            !(goes_on || matches!(byte, b'&' | b'!' | b'#' | b'|' | b'>'))
        }
        _ => false,
    }
}

// Where the next byte stands.
fn next_head(head: Head, byte: u8) -> Head
    ensures { result ≡ next_head head byte }
{
    match head {
        Head::Gap => match byte {
            b'&' | b'!' => Head::Name,
            b'#' => Head::Comment,
            b'|' | b'>' => Head::Line,
            _ => Head::Gap,
        },
        Head::Name => {
            if is_blank(byte) || ends_line(byte) {
                Head::Gap
            } else {
                Head::Name
            }
        }
        Head::Comment => {
            if ends_line(byte) {
                Head::Gap
            } else {
                Head::Comment
            }
        }
        Head::Line => {
            if ends_line(byte) {
                Head::Body
            } else {
                Head::Line
            }
        }
        Head::Body => Head::Body,
    }
}

// How many bytes of a source stand before the scalar's own text.
fn before_own(source: &[u8]) -> usize
    ensures own { result ≡ before_own source.now }
    ensures within { result ≤ length source.now }
{
    let mut state = Head::Gap;
    for at in 0..source.len() {
        let byte = source[at];
        if begins(state, byte) {
            return at;
        }
        state = next_head(state, byte);
    }
    source.len()
}

// Where the own text of an event's scalar begins and ends, if it has one.
fn own_text(text: &[u8], event: &Event<'_>, mark: Mark) -> Option<(usize, usize)>
    requires { IsShown text.now (event_of event.now) mark }
    ensures { result ≡ own_text (event_of event.now) mark }
{
    match event {
        Event::Scalar(scalar) => match scalar.repr {
            Some(source) => {
                let start = mark.index() as usize;
                Some((start + before_own(source), start + source.len()))
            }
            None => None,
        },
        _ => None,
    }
}

// The bytes of a text between two places, none if the second is not behind the first.
fn between(text: &[u8], from: usize, to: usize) -> &[u8]
    ensures { result.now ≡ between from to text.now }
{
    let to = to.min(text.len());
    if from < to {
        &text[from..to]
    } else {
        &text[..0]
    }
}

// The text without the own texts of its scalars.
fn outside(alloc: Global, text: &[u8], events: &[(Event<'_>, Mark)]) -> Result<Vec<u8>, AllocError>
    requires { AreShown text.now events.now }
    ensures { IfOk result (λ rest. rest.items ≡ outside text.now 0 events.now) }
{
    let mut rest = Vec::new(alloc);
    let mut at = 0;
    for i in 0..events.len() {
        let (event, mark) = &events[i];
        if let Some((start, end)) = own_text(text, event, *mark) {
            rest.extend_from_slice(between(text, at, start))?;
            at = end;
        }
    }
    rest.extend_from_slice(between(text, at, text.len()))?;
    Ok(rest)
}

// Where the next byte stands.
fn next(place: Place, byte: u8) -> Place
    ensures { result ≡ next place byte }
{
    if ends_line(byte) {
        return Place::Gap;
    }
    match place {
        Place::Comment => Place::Comment,
        Place::Gap if byte == b'#' => Place::Comment,
        _ => {
            if is_blank(byte) {
                Place::Gap
            } else {
                Place::Amid
            }
        }
    }
}

// Shows what a byte adds to the comments, or holds it back.
fn show(place: Place, byte: u8, blanks: &mut Vec<u8>, lines: &mut Vec<u8>) -> Result<(), AllocError>
    ensures shown { OnOk result (lines.new.items ≡ lines.old.items ++ shown place blanks.old.items byte) }
    ensures held { OnOk result (blanks.new.items ≡ held place blanks.old.items byte) }
{
    match place {
        Place::Comment => {
            if ends_line(byte) {
                blanks.clear();
                lines.push(b'\n')?;
            } else if is_blank(byte) {
                blanks.push(byte)?;
            } else {
                lines.extend_from_slice(blanks.as_slice())?;
                lines.push(byte)?;
                blanks.clear();
            }
        }
        Place::Gap => {
            blanks.clear();
            if byte == b'#' {
                lines.push(byte)?;
            }
        }
        Place::Amid => blanks.clear(),
    }
    Ok(())
}

// The comments of what stands outside of scalars, a line each.
fn comment_lines(alloc: Global, bytes: &[u8]) -> Result<Vec<u8>, AllocError>
    ensures { IfOk result (λ lines. lines.items ≡ comments_from Gap [] bytes.now) }
{
    let mut lines = Vec::new(alloc);
    let mut blanks = Vec::new(alloc);
    let mut place = Place::Gap;
    for byte in bytes {
        show(place, *byte, &mut blanks, &mut lines)?;
        place = next(place, *byte);
    }
    if place == Place::Comment {
        lines.push(b'\n')?;
    }
    Ok(lines)
}

/// The comments of a text whose events these are, a line each.
pub(crate) fn comments(
    alloc: Global,
    text: &[u8],
    events: &[(Event<'_>, Mark)],
) -> Result<Vec<u8>, AllocError>
    requires { AreShown text.now events.now }
    ensures { IfOk result (λ lines. lines.items ≡ comments_of text.now events.now) }
{
    let rest = outside(alloc, text, events)?;
    comment_lines(alloc, rest.as_slice())
}
