//! What is printed.

use std::alloc::{AllocError, Global};

/// What is printed, line by line.
#[derive(Drop)]
pub(crate) struct Sheet {
    out: Vec<u8>,
    // Where the line begins that is printed.
    line: usize,
    // How many lines stand before it.
    lines: usize,
    // Whether an empty line is to stand before what comes next.
    blank: bool,
}

impl Sheet {
    /// Nothing.
    pub(crate) fn new(alloc: Global) -> Sheet {
        Sheet {
            out: Vec::new(alloc),
            line: 0,
            lines: 0,
            blank: false,
        }
    }

    /// Whether nothing stands in the line yet.
    pub(crate) fn starts_line(&self) -> bool {
        self.out.len() == self.line
    }

    /// How many bytes stand in the line.
    pub(crate) fn column(&self) -> usize {
        self.out.len().saturating_sub(self.line)
    }

    /// How many lines stand before this one.
    pub(crate) fn lines(&self) -> usize {
        self.lines
    }

    /// Prints bytes.
    pub(crate) fn put(&mut self, bytes: &[u8]) -> Result<(), AllocError> {
        self.out.extend_from_slice(bytes)
    }

    /// Prints so many spaces.
    pub(crate) fn spaces(&mut self, count: usize) -> Result<(), AllocError> {
        for _ in 0..count {
            self.out.push(b' ')?;
        }
        Ok(())
    }

    /// Ends the line, though nothing may stand in it.
    pub(crate) fn feed(&mut self) -> Result<(), AllocError> {
        self.out.push(b'\n')?;
        self.line = self.out.len();
        self.lines = self.lines.saturating_add(1);
        Ok(())
    }

    /// Ends the line, if something stands in it.
    pub(crate) fn end_line(&mut self) -> Result<(), AllocError> {
        if self.starts_line() {
            return Ok(());
        }
        self.feed()
    }

    /// A line of the source ends: so does the one that is printed, or else an empty line is to stand here.
    pub(crate) fn line_ends(&mut self) -> Result<(), AllocError> {
        if self.starts_line() {
            self.blank = !self.out.is_empty();
            return Ok(());
        }
        self.feed()
    }

    /// Begins a line at this column, behind the empty line that is to stand before it.
    pub(crate) fn begin(&mut self, column: usize) -> Result<(), AllocError> {
        if self.blank {
            self.blank = false;
            self.feed()?;
        }
        self.spaces(column)
    }

    /// What was printed.
    pub(crate) fn finish(mut self) -> Result<Vec<u8>, AllocError> {
        self.end_line()?;
        Ok(self.out)
    }
}
