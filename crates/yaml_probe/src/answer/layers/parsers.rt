//! The events of a text by both parsers, the direct one and the one by tokens.

use super::said;
use crate::answer::text::spelled;
use std::alloc::{AllocError, Global};
use yaml_base::{Event, Mark};
use yaml_checked::{Refusal, TapeEvents};
use yaml_lines::{LineFault, write_event};
use yaml_parse::Events;
use yaml_run::Told;

// Appends the line of an event, behind the length of its source, if it has one.
fn push_event(out: &mut String, event: &Event<'_>, mark: Mark) -> Result<(), AllocError> {
    if let Event::Scalar(scalar) = event {
        if let Some(source) = scalar.repr {
            let length = source.len();
            write!(out, "{length} ")?;
        }
    }
    write_event(out, event, mark)
}

// The line of the next event of the direct parser; an empty one behind the last.
fn direct_line(alloc: Global, events: &mut TapeEvents<'_>) -> Result<String, AllocError> {
    let mut out = String::new(alloc);
    match events.next_event(alloc) {
        Ok(Some((event, mark))) => push_event(&mut out, &event, mark)?,
        Ok(None) => {}
        Err(Refusal::Untrue | Refusal::Left) => out.push_str("refused\n")?,
        Err(Refusal::OutOfMemory) => return Err(AllocError),
    }
    Ok(out)
}

// The same of the parser by tokens.
fn token_line(alloc: Global, events: &mut Events<'_>) -> Result<String, AllocError> {
    let mut out = String::new(alloc);
    if let Some((event, mark)) = events.next_event()? {
        push_event(&mut out, &event, mark)?;
    }
    Ok(out)
}

// What is told of a text that the direct parser leaves.
fn left(alloc: Global, text: &[u8]) -> Result<Told, AllocError> {
    let (_, ending) = Events::new(alloc, text)?.into_list(alloc)?;
    if ending.fault.is_some() {
        said(alloc, "both refuse\n")
    } else {
        said(alloc, "left\n")
    }
}

// What is told of a text that the direct parser reads: how many events both have, or the first that differ. Behind the
// last event that both have, the other parser may have met a fault.
fn read(
    alloc: Global,
    mut direct: TapeEvents<'_>,
    mut tokens: Events<'_>,
) -> Result<Told, AllocError> {
    let mut out = String::new(alloc);
    for count in 0..u64::MAX {
        let line = direct_line(alloc, &mut direct)?;
        let other = token_line(alloc, &mut tokens)?;
        if line.as_str() != other.as_str() {
            write!(out, "event {count}: {line}and by tokens: {other}")?;
            break;
        }
        if line.is_empty() {
            write!(out, "same {count} events\n")?;
            break;
        }
    }
    if tokens.finish(alloc)?.fault.is_some() {
        out.push_str("a fault by tokens\n")?;
    }
    said(alloc, out.as_str())
}

/// Whether both parsers have the same events of the text that a line spells.
pub fn compare_parsers(alloc: Global, lines: &[u8]) -> Result<Told, LineFault> {
    let Some(text) = spelled(alloc, lines)? else {
        return Err(LineFault::Bad);
    };
    let text = text.as_slice();
    match TapeEvents::new(alloc, text)? {
        Some(direct) => Ok(read(alloc, direct, Events::new(alloc, text)?)?),
        None => Ok(left(alloc, text)?),
    }
}
