//! Faults, told on standard error.

use std::alloc::{AllocError, Global};
use std::io::{self, Write};
use yaml_base::Error;
use yaml_report::{Look, complaint_of, findings_of, write_complaint, write_record};

/// How faults are told.
#[derive(Clone, Copy)]
pub enum Manner {
    /// In lines for people.
    Lines(Look),
    /// As JSON for programs, a line each.
    Records,
}

// What is told of the faults of an input with this name.
fn told(
    alloc: Global,
    manner: Manner,
    name: &str,
    input: &[u8],
    faults: &[Error],
) -> Result<String, AllocError> {
    let findings = findings_of(alloc, input)?;
    let mut out = String::new(alloc);
    for fault in faults {
        let complaint = complaint_of(alloc, input, &findings, fault)?;
        match manner {
            Manner::Lines(look) => {
                write_complaint(alloc, &mut out, name, input, &complaint, look)?;
            }
            Manner::Records => write_record(alloc, &mut out, name, &complaint)?,
        }
    }
    Ok(out)
}

/// Tells the faults of an input with this name.
pub fn tell<E: Write>(
    alloc: Global,
    errors: &mut E,
    manner: Manner,
    name: &str,
    input: &[u8],
    faults: &[Error],
) -> io::Result<()> {
    if faults.is_empty() {
        return Ok(());
    }
    match told(alloc, manner, name, input, faults) {
        Ok(text) => errors.write_all(text.as_bytes()),
        Err(_) => writeln!(errors, "yaml: out of memory"),
    }
}
