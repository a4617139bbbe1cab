//! A mapping that begins before events that are there.

ghost use Rattle.std.specs.Prelude.{◌≡◌, ◌≤◌, None, false, length, true};

use crate::entry::{EntryKind, Spot};
use crate::tape::Tape;

impl<'t> Tape<'t> {
    ghost use Rattle.yaml_base.specs.PlainEvent.{mapping_start};
    ghost use Rattle.yaml_tape.specs.Pushes.{Inserts, Stays};

    // Collections that begin behind so many events end one event later.
    fn move_ends(&mut self, count: usize)
        ensures kept { Stays self.old self.new }
    {
        'entries: for place in count..self.entries.len() {
            let end = self.entries[place].end.saturating_add(1);
            self.close(place, end);
        }
    }

    /// Adds the start of a mapping behind so many events and before the others, whose collections then end one event
    /// later.
    #[tactic(auto, using(crate::proofs::Growing::inserted, crate::proofs::Growing::inside_inserted))]
    pub fn insert_mapping(&mut self, count: usize, spot: Spot) -> bool
        requires within { spot.index ≤ length self.old.text.now }
        ensures inserted { result ≡ true → Inserts self.old self.new count (mapping_start None None) spot }
        ensures kept { result ≡ false → Stays self.old self.new }
    {
        let entry = self.bare(EntryKind::MappingStart, spot, 0);
        if count > self.entries.len() || self.entries.insert(count, entry).is_err() {
            return false;
        }
        self.move_ends(count + 1);
        true
    }
}
