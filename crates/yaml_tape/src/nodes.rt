//! The nodes that are added to a tape.

ghost use Rattle.std.specs.Prelude.{◌≡◌, ◌≤◌, length, true, false};

use crate::entry::{Entry, EntryKind, Piece, Spot};
use crate::tape::Tape;
use yaml_base::ScalarStyle;

impl<'t> Tape<'t> {
    ghost use Rattle.yaml_base.specs.PlainEvent.{alias, mapping_start, sequence_start};
    ghost use Rattle.yaml_tape.specs.OnTape.{anchor_in, names_at, or_empty, tag_in};
    ghost use Rattle.yaml_tape.specs.Pushes.{Adds, IsPiece, Stays, piece_of, scalar_at};

    /// Adds a scalar with the names of this number.
    #[inline(always)]
    pub fn push_scalar(
        &mut self,
        spot: Spot,
        text: Piece,
        style: ScalarStyle,
        end: usize,
        names: u32,
    ) -> bool
        requires begun { spot.index ≤ end }
        requires within { end ≤ length self.old.text.now }
        requires piece { IsPiece self.old text }
        requires named { names ≤ length self.old.names.items }
        ensures added { result ≡ true → Adds self.old self.new (scalar_at self.old spot
            (anchor_in (names_at self.old.names.items names)) (tag_in (names_at self.old.names.items names))
            (piece_of self.old text) style end) spot }
        ensures kept { result ≡ false → Stays self.old self.new }
    {
        self.push_entry(Entry {
            index: spot.index as u32,
            from: text.from as u32,
            to: text.to as u32,
            end: end as u32,
            names,
            kind: EntryKind::Scalar,
            style,
            stored: text.stored,
            late: spot.late,
        })
    }

    /// Adds the start of a sequence with the names of this number.
    #[inline(always)]
    pub fn push_sequence(&mut self, spot: Spot, names: u32) -> bool
        requires within { spot.index ≤ length self.old.text.now }
        requires named { names ≤ length self.old.names.items }
        ensures added { result ≡ true → Adds self.old self.new (sequence_start
            (anchor_in (names_at self.old.names.items names)) (tag_in (names_at self.old.names.items names))) spot }
        ensures kept { result ≡ false → Stays self.old self.new }
    {
        let entry = self.bare(EntryKind::SequenceStart, spot, names);
        self.push_entry(entry)
    }

    /// Adds the start of a mapping with the names of this number.
    #[inline(always)]
    pub fn push_mapping(&mut self, spot: Spot, names: u32) -> bool
        requires within { spot.index ≤ length self.old.text.now }
        requires named { names ≤ length self.old.names.items }
        ensures added { result ≡ true → Adds self.old self.new (mapping_start
            (anchor_in (names_at self.old.names.items names)) (tag_in (names_at self.old.names.items names))) spot }
        ensures kept { result ≡ false → Stays self.old self.new }
    {
        let entry = self.bare(EntryKind::MappingStart, spot, names);
        self.push_entry(entry)
    }

    /// Adds an alias whose name is the anchor of this number.
    #[inline(always)]
    pub fn push_alias(&mut self, spot: Spot, names: u32) -> bool
        requires within { spot.index ≤ length self.old.text.now }
        requires named { names ≤ length self.old.names.items }
        ensures added { result ≡ true → Adds self.old self.new
            (alias (or_empty (anchor_in (names_at self.old.names.items names)))) spot }
        ensures kept { result ≡ false → Stays self.old self.new }
    {
        let entry = self.bare(EntryKind::Alias, spot, names);
        self.push_entry(entry)
    }
}
