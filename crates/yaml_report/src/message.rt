//! What is wrong, in words, without where it is.

use crate::findings::Findings;
use std::alloc::{AllocError, Global};
use yaml_base::{Cause, Error, ParserFault};

// What the parser found wrong, and what was being read there, with where that began if it is elsewhere.
fn message_of_parser(alloc: Global, fault: &ParserFault) -> Result<String, AllocError> {
    let mut out = String::from_str(alloc, fault.problem())?;
    let Some(context) = fault.context() else {
        return Ok(out);
    };
    write!(out, ", {context}")?;
    let (mark, began) = (fault.mark(), fault.context_mark());
    if began.line() != mark.line() || began.column() != mark.column() {
        let (line, column) = (began.line() + 1, began.column() + 1);
        write!(out, " at line {line} column {column}")?;
    }
    Ok(out)
}

// What a fault says, without the place at its end.
fn unplaced(alloc: Global, fault: &Error) -> Result<String, AllocError> {
    let text = format!(in alloc; "{fault}")?;
    let Some(place) = fault.location() else {
        return Ok(text);
    };
    let (line, column) = (place.line(), place.column());
    let end = format!(in alloc; " at line {line} column {column}")?;
    match text.as_str().strip_suffix(end.as_str()) {
        Some(message) => String::from_str(alloc, message),
        None => Ok(text),
    }
}

/// What is wrong, in words, behind the path to it. The only error is that memory runs out.
pub fn message_of(alloc: Global, findings: &Findings, fault: &Error) -> Result<String, AllocError> {
    match fault.cause() {
        Cause::Parser(fault) => message_of_parser(alloc, fault),
        Cause::UnknownAnchor(mark) => match findings.unanchored_at(*mark) {
            Some(alias) => {
                let name = alias.name.as_str();
                format!(in alloc; "unknown anchor `{name}`")
            }
            None => unplaced(alloc, fault),
        },
        _ => unplaced(alloc, fault),
    }
}
