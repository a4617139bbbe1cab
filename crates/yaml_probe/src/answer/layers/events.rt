//! The events of a text: one by one, by the test and the taking of each, and in a list behind the first of them.

use super::agreed;
use crate::answer::text::spelled;
use std::alloc::{AllocError, Global};
use yaml_base::ParserFault;
use yaml_lines::{LineFault, write_event};
use yaml_parse::Events;
use yaml_run::{Status, Told};

// The lines of events, with a line for the fault behind them.
fn ended(lines: String, fault: Option<ParserFault>) -> Result<Told, AllocError> {
    let mut text = lines;
    match fault {
        Some(fault) => {
            write!(text, "fault: {fault}\n")?;
            Ok(Told {
                ended: Status::Fault,
                text,
            })
        }
        None => Ok(Told {
            ended: Status::Read,
            text,
        }),
    }
}

// Appends the lines of the next events, at most so many.
fn push_next(out: &mut String, events: &mut Events<'_>, most: u64) -> Result<(), AllocError> {
    for _ in 0..most {
        match events.next_event()? {
            Some((event, mark)) => write_event(out, &event, mark)?,
            None => break,
        }
    }
    Ok(())
}

// Appends the lines of all events, each of which is asked for twice before it is taken.
fn push_taken(out: &mut String, events: &mut Events<'_>) -> Result<(), AllocError> {
    for _ in 0..u64::MAX {
        if events.has_next()? && events.has_next()? {
            let (event, mark) = events.take_next();
            write_event(out, &event, mark)?;
        } else {
            break;
        }
    }
    Ok(())
}

// The events one by one.
fn single(alloc: Global, text: &[u8], taken: bool) -> Result<Told, AllocError> {
    let mut out = String::new(alloc);
    let mut events = Events::new(alloc, text)?;
    if taken {
        push_taken(&mut out, &mut events)?;
    } else {
        push_next(&mut out, &mut events, u64::MAX)?;
    }
    ended(out, events.finish(alloc)?.fault)
}

// The first events one by one, and the others in a list.
fn listed(alloc: Global, text: &[u8], first: u64) -> Result<Told, AllocError> {
    let mut out = String::new(alloc);
    let mut events = Events::new(alloc, text)?;
    push_next(&mut out, &mut events, first)?;
    let (rest, ending) = events.into_list(alloc)?;
    for (event, mark) in &rest {
        write_event(&mut out, event, *mark)?;
    }
    ended(out, ending.fault)
}

/// The events of the text that a line spells, a line each.
pub fn show_events_of(alloc: Global, lines: &[u8]) -> Result<Told, LineFault> {
    let Some(text) = spelled(alloc, lines)? else {
        return Err(LineFault::Bad);
    };
    let text = text.as_slice();
    let mut told = agreed(single(alloc, text, false)?, single(alloc, text, true)?)?;
    for first in 0..4 {
        told = agreed(told, listed(alloc, text, first)?)?;
    }
    Ok(told)
}
