//! What the direct parser reads of a text, document by document.

use super::said;
use crate::answer::text::spelled;
use std::alloc::{AllocError, Global};
use yaml_direct::{Documents, Step, parse};
use yaml_lines::LineFault;
use yaml_run::Told;

// The line of a step.
fn line_of(step: Step) -> &'static str {
    match step {
        Step::Document => "document\n",
        Step::End => "end\n",
        Step::Elsewhere => "elsewhere\n",
    }
}

// Appends a line for each step up to the last, and how much is then on the tape.
fn push_steps(out: &mut String, mut documents: Documents<'_>) -> Result<(), AllocError> {
    for _ in 0..u64::MAX {
        let step = documents.advance()?;
        out.push_str(line_of(step))?;
        if step != Step::Document {
            break;
        }
    }
    let tape = documents.into_tape();
    let (entries, bytes, names) = (tape.entries.len(), tape.arena.len(), tape.names.len());
    write!(out, "{entries} events, {bytes} bytes, {names} names\n")
}

/// The steps of the direct parser in the text that a line spells, and whether it reads all of it.
pub fn step_through(alloc: Global, lines: &[u8]) -> Result<Told, LineFault> {
    let Some(text) = spelled(alloc, lines)? else {
        return Err(LineFault::Bad);
    };
    let text = text.as_slice();
    let mut out = String::new(alloc);
    match Documents::new(alloc, text)? {
        Some(documents) => push_steps(&mut out, documents)?,
        None => out.push_str("elsewhere\n")?,
    }
    if parse(alloc, text)?.is_some() {
        out.push_str("whole\n")?;
    }
    Ok(said(alloc, out.as_str())?)
}
