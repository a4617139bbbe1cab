//! The whole input: a line for each event, and at most one for the parser's fault, the last line.

ghost use Rattle.std.specs.Prelude.{◌≡◌, ◌<◌, ◌∷◌, length, MatchResult};
ghost use Rattle.yaml_lines.specs.InputText.{marked_events_of, lines_of, IsInput, IsInputFault};

use crate::fault::{InputFault, LineFault};
use crate::line::Line;
use crate::line::parts::cut;
use std::alloc::Global;
use yaml_base::{Event, Mark, ParserFault};

/// What the lines of an input say.
#[derive(Drop)]
pub struct Input {
    /// The events with their marks, in order.
    pub events: Vec<(Event<'static>, Mark)>,
    /// The parser's fault behind them, if there is one.
    pub fault: Option<ParserFault>,
}

/// The first line of a text that isn't empty, without its line feed, and what follows.
pub fn first_line(text: &[u8]) -> (&[u8], &[u8])
    requires { 0 < length text.now }
    ensures lines { lines_of text.now ≡ result.0.now ∷ lines_of result.1.now }
    ensures shorter { length result.1.now < length text.now }
{
    match cut(text, b'\n') {
        Some((line, rest)) => (line, rest),
        None => (text, &[]),
    }
}

impl Input {
    /// Reads the lines of a text, of which the last may lack its line feed. Refused with the number of the first bad
    /// line, counted from 1, or by `Memory`.
    pub fn parse(alloc: Global, text: &[u8]) -> Result<Input, InputFault>
        ensures { MatchResult result
            (λ input. IsInput (lines_of text.now) (marked_events_of input.events.items) input.fault)
            (IsInputFault (lines_of text.now)) }
    {
        let mut events = Vec::new(alloc);
        let mut fault = None;
        let mut number = 0;
        let mut rest = text;
        while !rest.is_empty() {
            number += 1;
            let (line, after) = first_line(rest);
            if fault.is_some() {
                return Err(InputFault::BadLine(number));
            }
            match Line::parse(alloc, line) {
                Ok(Line::Event(event, mark)) => events.push((event, mark))?,
                Ok(Line::Fault(found)) => fault = Some(found),
                Err(LineFault::Bad) => return Err(InputFault::BadLine(number)),
                Err(LineFault::Memory) => return Err(InputFault::Memory),
            }
            rest = after;
        }
        Ok(Input { events, fault })
    }
}
