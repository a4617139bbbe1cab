//! Where a fault is, as people count.

ghost use Rattle.std.specs.Prelude.{◌≡◌};
ghost use Rattle.yaml_base.specs.Position.{counted_from_one};

use crate::mark::Mark;
use std::marker::Model;

/// A place in the input: an index in bytes, counted from 0, and a line and a column, counted from 1.
#[derive(Debug, Drop)]
pub struct Location {
    index: usize,
    line: usize,
    column: usize,
}

impl Model for Location {
    ghost use Rattle.yaml_base.specs.Position.{Position};

    ghost Value = { Position };

    ghost view = { λ l. record { index = l.index; line = l.line; column = l.column } };
}

impl Location {
    // The place that the mark names.
    pub(crate) fn from_mark(mark: Mark) -> Location
        ensures { result ≡ counted_from_one mark }
    {
        Location {
            index: mark.index() as usize,
            line: mark.line() as usize + 1,
            column: mark.column() as usize + 1,
        }
    }

    /// The index in bytes, counted from 0.
    pub fn index(&self) -> usize
        ensures { result ≡ self.now.index }
    {
        self.index
    }

    /// The line, counted from 1.
    pub fn line(&self) -> usize
        ensures { result ≡ self.now.line }
    {
        self.line
    }

    /// The column, counted from 1.
    pub fn column(&self) -> usize
        ensures { result ≡ self.now.column }
    {
        self.column
    }
}
