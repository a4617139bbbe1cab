//! Events of documents, in short.

use probe_writing::escape;
use std::alloc::AllocError;
use std::str;
use yaml_read::DocEvent;

// Appends a scalar.
fn push_scalar(out: &mut String, value: &[u8]) -> Result<(), AllocError> {
    match str::from_utf8(value) {
        Ok(text) => {
            out.push_str("=VAL :")?;
            escape(out, text)
        }
        Err(_) => out.push_str("=VAL of bytes"),
    }
}

/// Appends an event by its word. An alias has the place of its target, and the node of an empty stream is `void`.
pub fn push_event(out: &mut String, event: &DocEvent<'_>) -> Result<(), AllocError> {
    match event {
        DocEvent::Alias(target) => write!(out, "=ALI {target}"),
        DocEvent::Scalar(scalar) => push_scalar(out, scalar.value.as_slice()),
        DocEvent::SequenceStart(_) => out.push_str("+SEQ"),
        DocEvent::SequenceEnd => out.push_str("-SEQ"),
        DocEvent::MappingStart(_) => out.push_str("+MAP"),
        DocEvent::MappingEnd => out.push_str("-MAP"),
        DocEvent::Void => out.push_str("void"),
    }
}
