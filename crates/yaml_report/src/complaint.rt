//! A fault as people are told it.

use crate::findings::Findings;
use crate::hints::hint_of;
use crate::message::message_of;
use crate::place::place_of;
use std::alloc::{AllocError, Global};
use yaml_base::{Cause, Error, Mark};

/// A fault as people are told it.
#[derive(Drop)]
pub struct Complaint {
    /// Where it stands, if that is known.
    pub mark: Option<Mark>,
    /// Where what was being read there began, if that is known.
    pub began: Option<Mark>,
    /// What is wrong, behind the path to it.
    pub message: String,
    /// What may help.
    pub hint: Option<String>,
}

// Where what was being read began: the context of a parser's fault.
fn beginning_of(fault: &Error) -> Option<Mark> {
    match fault.cause() {
        Cause::Parser(fault) if fault.context().is_some() => Some(fault.context_mark()),
        _ => None,
    }
}

/// What people are told of a fault of a text, by what was found in it. The only error is that memory runs out.
pub fn complaint_of(
    alloc: Global,
    text: &[u8],
    findings: &Findings,
    fault: &Error,
) -> Result<Complaint, AllocError> {
    Ok(Complaint {
        mark: place_of(text, findings, fault),
        began: beginning_of(fault),
        message: message_of(alloc, findings, fault)?,
        hint: hint_of(alloc, text, findings, fault)?,
    })
}
