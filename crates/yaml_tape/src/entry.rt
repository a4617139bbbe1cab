//! What stands on a tape.

ghost use Rattle.std.specs.Prelude.{◌≡◌};
ghost use Rattle.yaml_tape.specs.OnTape.{starts};

use yaml_base::{Anchor, ScalarStyle, Tag};

/// What an entry is.
#[derive(Clone, Copy, PartialEq, Eq)]
pub enum EntryKind {
    /// The first event of each stream.
    StreamStart,
    /// The last event of each stream.
    StreamEnd,
    /// A document begins.
    DocumentStart,
    /// The document ends.
    DocumentEnd,
    /// A node that stands for an earlier one.
    Alias,
    /// A scalar.
    Scalar,
    /// A sequence begins.
    SequenceStart,
    /// The sequence begun last that is still open ends.
    SequenceEnd,
    /// A mapping begins.
    MappingStart,
    /// The mapping begun last that is still open ends.
    MappingEnd,
}

impl EntryKind {
    /// Whether a collection begins.
    #[inline(always)]
    pub fn starts(self) -> bool
        ensures { result ≡ starts self }
    {
        matches!(self, EntryKind::SequenceStart | EntryKind::MappingStart)
    }
}

/// An event on a tape.
#[derive(Clone, Copy)]
pub struct Entry {
    /// Where it begins in the source.
    pub index: u32,
    /// Where its text begins, in the source or in the arena.
    pub from: u32,
    /// The place behind its text.
    pub to: u32,
    /// Of a scalar where its source ends; of the start of a collection the place of its end on the tape.
    pub end: u32,
    /// The number of its anchor and its tag, or of an alias's name, counted from 1; 0 where there are none. An `Option`
    /// would make the entry longer.
    pub names: u32,
    /// What it is.
    pub kind: EntryKind,
    /// How a scalar stands in the source.
    pub style: ScalarStyle,
    /// Whether its text lies in the arena.
    pub stored: bool,
    /// Whether its mark stands on the line behind the last, which no line feed ends.
    pub late: bool,
}

/// An anchor and a tag. Of an alias the anchor is the name.
#[derive(Drop)]
pub struct Names {
    /// The anchor, if there is one.
    pub anchor: Option<Anchor>,
    /// The tag, if there is one.
    pub tag: Option<Tag>,
}

/// Where an event begins.
#[derive(Clone, Copy)]
pub struct Spot {
    /// The place in the source.
    pub index: usize,
    /// Whether its mark stands on the line behind the last, which no line feed ends.
    pub late: bool,
}

/// A text that lies in the source or in the arena.
#[derive(Clone, Copy)]
pub struct Piece {
    /// Where it begins.
    pub from: usize,
    /// The place behind it.
    pub to: usize,
    /// Whether it lies in the arena.
    pub stored: bool,
}
