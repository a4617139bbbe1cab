//! Where a fault stands.

use crate::findings::Findings;
use yaml_base::{Cause, Error, Mark, ParserFault};
use yaml_parse::mark_at;

// Where the parser's fault stands: at its mark, or at the byte that it names where it has none.
fn place_of_parser(text: &[u8], fault: &ParserFault) -> Mark {
    let offset = fault.offset();
    if offset == 0 || offset > text.len() as u64 {
        return fault.mark();
    }
    match Mark::new(0, 0, 0) {
        Some(start) => mark_at(text, start, offset),
        None => fault.mark(),
    }
}

// The place that a fault tells.
fn told_place(text: &[u8], fault: &Error) -> Option<Mark> {
    if let Cause::Parser(fault) = fault.cause() {
        return Some(place_of_parser(text, fault));
    }
    let place = fault.location()?;
    let (line, column) = (place.line() as u64, place.column() as u64);
    Mark::new(
        place.index() as u64,
        line.checked_sub(1)?,
        column.checked_sub(1)?,
    )
}

/// Where a fault stands in its text: at the place that it tells. That of a key which stands twice is where it stands
/// again, and that of too many documents where the second begins.
pub fn place_of(text: &[u8], findings: &Findings, fault: &Error) -> Option<Mark> {
    match fault.cause() {
        Cause::MoreThanOneDocument => findings.second,
        _ => match findings.repeated_by(fault) {
            Some(repeated) => Some(repeated.second),
            None => told_place(text, fault),
        },
    }
}
