//! The printed texts of a fault: what it says, and where it is.

ghost use Rattle.std.specs.Prelude.{Some};
ghost use Rattle.yaml_base.specs.ErrorText.{error_debug_text, error_text, mark_debug_part, mark_part, placed_text};

use crate::error::{Cause, Error};
use crate::mark::Mark;
use std::{error, fmt};
use yaml_tree::Quoted;

// The message, with the path in front.
#[derive(Drop)]
struct Message<'a>(&'a Cause);

impl fmt::Display for Message<'_> {
    ghost output = { λ message. Some (placed_text message.0.now) };

    fn fmt<W: fmt::Write>(&self, f: &mut fmt::Formatter<W>) -> fmt::Result {
        let cause = self.0;
        if let Some(place) = cause.place() {
            if place.path.as_str() != "." {
                f.write_str(place.path.as_str())?;
                f.write_str(": ")?;
            }
        }
        write!(f, "{cause}")
    }
}

// Where it happened, unless that is the start or unknown.
#[derive(Drop)]
struct AtMark(Option<Mark>);

impl fmt::Display for AtMark {
    ghost output = { λ at. Some (mark_part at.0) };

    fn fmt<W: fmt::Write>(&self, f: &mut fmt::Formatter<W>) -> fmt::Result {
        match self.0 {
            Some(mark) => {
                if mark.is_start() {
                    Ok(())
                } else {
                    write!(f, " at {mark}")
                }
            }
            None => Ok(()),
        }
    }
}

// Where it happened, in debug.
#[derive(Drop)]
struct DebugMark(Option<Mark>);

impl fmt::Display for DebugMark {
    ghost output = { λ at. Some (mark_debug_part at.0) };

    fn fmt<W: fmt::Write>(&self, f: &mut fmt::Formatter<W>) -> fmt::Result {
        match self.0 {
            Some(mark) => {
                let line = mark.line() + 1;
                let column = mark.column() + 1;
                write!(f, ", line: {line}, column: {column}")
            }
            None => Ok(()),
        }
    }
}

impl fmt::Display for Error {
    ghost output = { λ error. Some (error_text error) };

    fn fmt<W: fmt::Write>(&self, f: &mut fmt::Formatter<W>) -> fmt::Result {
        if let Some(fault) = self.cause.parser_fault() {
            return write!(f, "{fault}");
        }
        let message = Message(&self.cause);
        let mark = AtMark(self.cause.mark());
        write!(f, "{message}{mark}")
    }
}

impl fmt::Debug for Error {
    ghost debug_output = { λ error. Some (error_debug_text error) };

    fn fmt<W: fmt::Write>(&self, f: &mut fmt::Formatter<W>) -> fmt::Result {
        if let Some(fault) = self.cause.parser_fault() {
            return write!(f, "{fault:?}");
        }
        let message = Quoted(Message(&self.cause));
        let mark = DebugMark(self.cause.mark());
        write!(f, "Error({message}{mark})")
    }
}

impl error::Error for Error {}
