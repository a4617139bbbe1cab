//! A fault as lines for a terminal: where it stands and what is wrong, the line there with a caret, and a hint.

use crate::complaint::Complaint;
use crate::line::line_around;
use crate::shown::{shown_before, shown_behind};
use std::alloc::{AllocError, Global};
use std::fmt;
use unicode_width::UnicodeWidthStr;
use yaml_base::{Mark, Visible};

/// How a fault looks.
#[derive(Clone, Copy, PartialEq, Eq, Debug)]
pub enum Look {
    /// As text alone.
    Plain,
    /// With colors.
    Colored,
}

impl Look {
    // What begins a part of this color.
    fn begin(self, color: &'static str) -> &'static str {
        match self {
            Look::Plain => "",
            Look::Colored => color,
        }
    }

    // What ends it.
    fn end(self) -> &'static str {
        match self {
            Look::Plain => "",
            Look::Colored => "\u{1b}[0m",
        }
    }
}

const BOLD: &str = "\u{1b}[1m";

const BLUE: &str = "\u{1b}[34m";

const RED: &str = "\u{1b}[1;31m";

const CYAN: &str = "\u{1b}[36m";

// The name of a text, with the line and the column of a place in it, if that is known.
#[derive(Drop)]
struct Stand<'a>(&'a str, Option<Mark>);

impl fmt::Display for Stand<'_> {
    fn fmt<W: fmt::Write>(&self, f: &mut fmt::Formatter<W>) -> fmt::Result {
        let name = Visible(self.0);
        match self.1 {
            Some(mark) => {
                let (line, column) = (mark.line() + 1, mark.column() + 1);
                write!(f, "{name}:{line}:{column}")
            }
            None => write!(f, "{name}"),
        }
    }
}

// Whether a line has nothing to show.
fn is_blank(line: &[u8]) -> bool {
    line.iter().all(|byte| matches!(*byte, b' ' | b'\t'))
}

// Appends so many blanks.
fn push_blanks(out: &mut String, count: usize) -> Result<(), AllocError> {
    for _ in 0..count {
        out.push(' ')?;
    }
    Ok(())
}

// Appends the line around a place, and below it a caret. Returns how wide the line's number is.
fn push_line(
    alloc: Global,
    out: &mut String,
    text: &[u8],
    mark: Mark,
    look: Look,
) -> Result<(), AllocError> {
    let index = (mark.index() as usize).min(text.len());
    let (start, end) = line_around(text, index);
    let before = shown_before(alloc, &text[start..index])?;
    let behind = shown_behind(alloc, &text[index..end])?;
    let line = mark.line() + 1;
    let number = format!(in alloc; "{line}")?;
    let (blue, red, close) = (look.begin(BLUE), look.begin(RED), look.end());
    writeln!(out, "{blue}  {number} |{close} {before}{behind}")?;
    push_blanks(out, number.len())?;
    write!(out, "{blue}   |{close} ")?;
    push_blanks(out, before.as_str().width())?;
    writeln!(out, "{red}^{close}")
}

// The place whose line is shown: that of the fault, or where its line is blank, where what was being read began.
fn shown_place(text: &[u8], complaint: &Complaint) -> Option<Mark> {
    let mark = complaint.mark?;
    let index = (mark.index() as usize).min(text.len());
    let (start, end) = line_around(text, index);
    if is_blank(&text[start..end]) {
        return complaint.began;
    }
    Some(mark)
}

/// Appends what people are told of a fault of a text with this name. The only error is that memory runs out.
pub fn write_complaint(
    alloc: Global,
    out: &mut String,
    name: &str,
    text: &[u8],
    complaint: &Complaint,
    look: Look,
) -> Result<(), AllocError> {
    let stand = Stand(name, complaint.mark);
    let message = Visible(complaint.message.as_str());
    let (bold, cyan, close) = (look.begin(BOLD), look.begin(CYAN), look.end());
    writeln!(out, "{bold}{stand}:{close} {message}")?;
    if let Some(mark) = shown_place(text, complaint) {
        push_line(alloc, out, text, mark, look)?;
    }
    if let Some(hint) = &complaint.hint {
        let hint = Visible(hint.as_str());
        writeln!(out, "  {cyan}hint:{close} {hint}")?;
    }
    Ok(())
}
