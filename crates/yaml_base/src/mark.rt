//! Where an event begins.

ghost use Rattle.std.specs.Prelude.{◌≡◌, ◌+◌, ◌^◌, ◌<◌, SomeIff, Some};
ghost use Rattle.yaml_base.specs.MarkText.{is_beside, is_start, mark_debug_text, mark_text};

use std::fmt;
use std::marker::Model;

/// A place in the input: an index in bytes, a line and a column, each counted from 0.
///
/// Line and column can always be counted from 1 too: neither is the greatest `u64`.
#[derive(Clone, Copy)]
pub struct Mark {
    index: u64,
    line: u64,
    column: u64,
}

impl Model for Mark {
    ghost use Rattle.std.specs.Prelude.{ℕ, ◌+◌, ◌<◌, ◌^◌};
    ghost use Rattle.yaml_base.specs.Position.{Position};

    ghost Value = { Position };

    ghost view = { λ m. record { index = m.index; line = m.line; column = m.column } };

    ghost invariant = { λ m. (m.line + 1 < 2 ^ 64) × (m.column + 1 < 2 ^ 64) };

    ghost inverse = { λ p. record { index = p.index; line = p.line; column = p.column } };
}

impl Mark {
    /// The mark with these numbers, each counted from 0, or `None` where the line or the column is the greatest `u64`.
    /// Takes no memory.
    pub fn new(index: u64, line: u64, column: u64) -> Option<Mark>
        ensures { SomeIff result ((line + 1 < 2 ^ 64) × (column + 1 < 2 ^ 64))
            (record { index = index; line = line; column = column }) }
    {
        if line < u64::MAX && column < u64::MAX {
            Some(Mark {
                index,
                line,
                column,
            })
        } else {
            None
        }
    }

    /// The index in bytes, counted from 0.
    pub fn index(&self) -> u64
        ensures { result ≡ self.now.index }
    {
        self.index
    }

    /// The line, counted from 0.
    pub fn line(&self) -> u64
        ensures value { result ≡ self.now.line }
        ensures countable { result + 1 < 2 ^ 64 }
    {
        self.line
    }

    /// The column, counted from 0.
    pub fn column(&self) -> u64
        ensures value { result ≡ self.now.column }
        ensures countable { result + 1 < 2 ^ 64 }
    {
        self.column
    }

    // Whether line and column are both 0.
    pub(crate) fn is_start(&self) -> bool
        ensures { result ≡ is_start self.now }
    {
        self.line == 0 && self.column == 0
    }

    // Whether both marks are in the same line and column.
    pub(crate) fn is_beside(&self, other: Mark) -> bool
        ensures { result ≡ is_beside self.now other }
    {
        self.line == other.line && self.column == other.column
    }
}

impl fmt::Display for Mark {
    ghost output = { λ m. Some (mark_text m) };

    fn fmt<W: fmt::Write>(&self, f: &mut fmt::Formatter<W>) -> fmt::Result {
        if self.line != 0 || self.column != 0 {
            let line = self.line + 1;
            let column = self.column + 1;
            write!(f, "line {line} column {column}")
        } else {
            let index = self.index;
            write!(f, "position {index}")
        }
    }
}

impl fmt::Debug for Mark {
    ghost debug_output = { λ m. Some (mark_debug_text m) };

    fn fmt<W: fmt::Write>(&self, f: &mut fmt::Formatter<W>) -> fmt::Result {
        if self.line != 0 || self.column != 0 {
            let line = self.line + 1;
            let column = self.column + 1;
            write!(f, "Mark {{ line: {line}, column: {column} }}")
        } else {
            let index = self.index;
            write!(f, "Mark {{ index: {index} }}")
        }
    }
}
