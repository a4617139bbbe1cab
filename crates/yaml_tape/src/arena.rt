//! The texts that the source does not show, one behind another.

ghost use Rattle.std.specs.Prelude.{◌≡◌, ◌++◌, IfSome, if◌then◌else◌, replicate};

use crate::entry::Piece;
use crate::tape::{LONGEST, Tape};

impl<'t> Tape<'t> {
    ghost use Rattle.yaml_tape.specs.Pushes.{IsPiece, Stays, piece_of};

    /// Puts bytes behind these texts.
    #[inline(always)]
    #[tactic(auto, using(crate::proofs::Growing::marked_stay, crate::proofs::Growing::inside_stay))]
    pub fn append(&mut self, bytes: &[u8]) -> bool
        ensures kept { Stays self.old self.new }
        ensures names { self.new.names.items ≡ self.old.names.items }
        ensures arena { self.new.arena.items
            ≡ (if result then self.old.arena.items ++ bytes.now else self.old.arena.items) }
    {
        if bytes.len() > LONGEST - self.arena.len() {
            return false;
        }
        self.arena.extend_from_slice(bytes).is_ok()
    }

    /// Puts a byte behind these texts, so many times.
    #[inline(always)]
    #[tactic(auto, using(crate::proofs::Growing::marked_stay, crate::proofs::Growing::inside_stay, crate::proofs::Growing::filled))]
    pub fn append_repeated(&mut self, byte: u8, count: usize) -> bool
        ensures kept { Stays self.old self.new }
        ensures names { self.new.names.items ≡ self.old.names.items }
        ensures arena { self.new.arena.items
            ≡ (if result then self.old.arena.items ++ replicate count byte else self.old.arena.items) }
    {
        let from = self.arena.len();
        if count > LONGEST - from {
            return false;
        }
        if count == 1 {
            return self.arena.push(byte).is_ok();
        }
        self.arena.resize(from + count, byte).is_ok()
    }

    /// Keeps a text that the source does not show.
    #[tactic(auto, using(crate::proofs::Growing::range_behind))]
    pub fn store(&mut self, bytes: &[u8]) -> Option<Piece>
        ensures kept { Stays self.old self.new }
        ensures names { self.new.names.items ≡ self.old.names.items }
        ensures piece { IfSome result (λ p. IsPiece self.new p × (piece_of self.new p ≡ bytes.now)) }
    {
        let from = self.arena.len();
        if !self.append(bytes) {
            return None;
        }
        Some(Piece {
            from,
            to: from + bytes.len(),
            stored: true,
        })
    }
}
