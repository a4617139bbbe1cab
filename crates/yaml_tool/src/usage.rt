//! Help, the version, and what is wrong with the words of a call.

use crate::complaint::complain_of_output;
use clap::Error;
use std::alloc::Global;
use std::io::{self, Write};
use yaml_base::Visible;
use yaml_query::PathFault;
use yaml_run::Status;

// Writes a text, line by line, in which a word of the call may stand: without control characters.
fn write_lines<W: Write>(writer: &mut W, text: &str) -> io::Result<()> {
    for line in text.lines() {
        let line = Visible(line);
        writeln!(writer, "{line}")?;
    }
    writer.flush()
}

// Writes help, the version, or what is wrong with the words.
fn write_usage<W: Write>(alloc: Global, error: &Error, writer: &mut W) -> io::Result<()> {
    match format!(in alloc; "{error}") {
        Ok(text) => write_lines(writer, text.as_str()),
        Err(_) => writeln!(writer, "yaml: the call: out of memory"),
    }
}

// Writes that a word of the call is no path.
fn write_no_path<W: Write>(writer: &mut W, path: &str, why: PathFault) -> io::Result<()> {
    let path = Visible(path);
    match why {
        PathFault::At(column) => writeln!(
            writer,
            "yaml: the call: `{path}` is no path: it goes wrong at character {column}"
        ),
        PathFault::Memory => writeln!(writer, "yaml: the call: out of memory"),
    }
}

/// Tells on standard error that a word of the call is no path.
pub fn complain_of_path<E: Write>(errors: &mut E, path: &str, why: PathFault) -> Status {
    let _told = write_no_path(errors, path, why);
    Status::Refused
}

/// Prints help or the version, or on standard error what is wrong with the words.
pub fn show_usage<W: Write, E: Write>(
    alloc: Global,
    error: &Error,
    writer: &mut W,
    errors: &mut E,
) -> Status {
    if error.use_stderr() {
        let _told = write_usage(alloc, error, errors);
        return Status::Refused;
    }
    match write_usage(alloc, error, writer) {
        Ok(()) => Status::Read,
        Err(why) => {
            let _told = complain_of_output(alloc, errors, &why);
            Status::WriteFailed
        }
    }
}
