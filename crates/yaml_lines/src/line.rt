//! One line of the input: an event with its mark, or the fault of the parser.

ghost use Rattle.yaml_lines.specs.LineText.{said_of, IsSaid, IsLine};
ghost use Rattle.yaml_lines.specs.Parses.{Parses};

mod event;
mod fault;
pub(crate) mod parts;

use crate::fault::LineFault;
use parts::{mark_of, strip};
use std::alloc::Global;
use yaml_base::{Event, Mark, ParserFault};

/// What a line says.
#[derive(Drop)]
pub enum Line {
    /// An event and its mark.
    Event(Event<'static>, Mark),
    /// The parser's fault.
    Fault(ParserFault),
}

// What the text behind a line's mark says.
fn said(alloc: Global, text: &[u8], mark: Mark) -> Result<Line, LineFault>
    ensures { Parses said_of (IsSaid text.now mark) result }
{
    match strip(text, b"!ERR ") {
        Some(rest) => Ok(Line::Fault(fault::parse(alloc, rest, mark)?)),
        None => Ok(Line::Event(event::parse(alloc, text)?, mark)),
    }
}

impl Line {
    /// Reads a line, which is given without its line feed. Refused by `Bad` where the line says nothing, and by
    /// `Memory`.
    pub fn parse(alloc: Global, line: &[u8]) -> Result<Line, LineFault>
        ensures { Parses said_of (IsLine line.now) result }
    {
        let Some(marked) = mark_of(line) else {
            return Err(LineFault::Bad);
        };
        said(alloc, marked.text, marked.mark)
    }
}
