//! Calls of a serializer, made in a row, and what is told of them.

mod call;
mod log;
mod make;
mod parse;

use crate::outcome::{Outcome, refused};
use log::Log;
use make::make;
use parse::parse;
use std::alloc::{AllocError, Global};
use std::str;
use yaml_base::{Cause, Error};
use yaml_lines::LineFault;
use yaml_shape::Schema;
use yaml_write::Serializer;

// Tells why a call was refused, unless memory ran out.
fn tell_fault(log: &mut Log, fault: &Error) -> Result<(), LineFault> {
    match fault.cause() {
        Cause::Memory => Err(LineFault::Memory),
        _ => Ok(log.tell_refusal(fault)?),
    }
}

// Makes the call that a line says, if it may be made now, and tells what came of it. It answers whether it may.
fn make_line(
    alloc: Global,
    schema: &Schema,
    line: &str,
    out: &mut Serializer,
    log: &mut Log,
) -> Result<bool, LineFault> {
    if line == "open" {
        log.tell_open(out.open_kind())?;
        return Ok(true);
    }
    let call = parse(alloc, schema, line)?;
    match make(out, schema, &call) {
        Some(Ok(())) => log.tell_events(out.events())?,
        Some(Err(fault)) => tell_fault(log, &fault)?,
        None => return Ok(false),
    }
    Ok(true)
}

// Tells the end of the stream, where nothing is open.
fn tell_end(out: Serializer, log: &mut Log) -> Result<(), AllocError> {
    if out.open_kind().is_some() {
        return Ok(());
    }
    match out.into_inner() {
        Ok(events) => log.tell_events(events.as_slice()),
        Err(_) => Err(AllocError),
    }
}

// The answer that refuses the call with this number.
fn refused_call(
    alloc: Global,
    number: usize,
    fault: Option<LineFault>,
) -> Result<Outcome, AllocError> {
    let text = match fault {
        None => format!(in alloc; "call {number} may not be made now")?,
        Some(LineFault::Bad) => format!(in alloc; "bad call {number}")?,
        Some(LineFault::Memory) => return Err(AllocError),
    };
    Ok(Outcome::Refused(text))
}

// What calls leave that are made in a row, one a line.
fn told_of_calls(alloc: Global, schema: &Schema, lines: &str) -> Result<Outcome, AllocError> {
    let Ok(mut out) = Serializer::new(alloc) else {
        return Err(AllocError);
    };
    let mut log = Log::new(alloc);
    log.tell_events(out.events())?;
    for (place, line) in lines.lines().enumerate() {
        let number = place.wrapping_add(1);
        match make_line(alloc, schema, line, &mut out, &mut log) {
            Ok(true) => {}
            Ok(false) => return refused_call(alloc, number, None),
            Err(fault) => return refused_call(alloc, number, Some(fault)),
        }
    }
    tell_end(out, &mut log)?;
    Ok(log.into_outcome())
}

/// What calls leave that are made in a row, one a line: the events, and among them why a call was refused, and what was
/// open where a line asks for it.
pub fn make_calls(alloc: Global, schema: &Schema, lines: &[u8]) -> Result<Outcome, AllocError> {
    match str::from_utf8(lines) {
        Ok(lines) => told_of_calls(alloc, schema, lines),
        Err(_) => refused(alloc, "bad calls"),
    }
}
