//! A fault as a line of JSON, for editors.

use crate::complaint::Complaint;
use serde::Serialize;
use serde_json::to_string;
use std::alloc::{AllocError, Global};

// A fault as its members.
#[derive(Drop, Serialize)]
struct Record<'a> {
    file: &'a str,
    #[serde(skip_serializing_if = "Option::is_none")]
    line: Option<u64>,
    #[serde(skip_serializing_if = "Option::is_none")]
    column: Option<u64>,
    message: &'a str,
    #[serde(skip_serializing_if = "Option::is_none")]
    hint: Option<&'a str>,
}

/// Appends what editors are told of a fault of a text with this name: an object of JSON, in one line. The only error is
/// that memory runs out.
pub fn write_record(
    alloc: Global,
    out: &mut String,
    name: &str,
    complaint: &Complaint,
) -> Result<(), AllocError> {
    let (line, column) = match complaint.mark {
        Some(mark) => (Some(mark.line() + 1), Some(mark.column() + 1)),
        None => (None, None),
    };
    let hint = match &complaint.hint {
        Some(hint) => Some(hint.as_str()),
        None => None,
    };
    let record = Record {
        file: name,
        line,
        column,
        message: complaint.message.as_str(),
        hint,
    };
    let Ok(text) = to_string(alloc, &record) else {
        return Err(AllocError);
    };
    out.push_str(text.as_str())?;
    out.push('\n')
}
