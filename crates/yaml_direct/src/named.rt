//! Nodes by columns with an anchor or a tag.
#![tactic(auto, using(crate::proofs::Growing::grows_on, crate::proofs::Growing::grows_same))]

ghost use Rattle.std.specs.Prelude.{◌≡◌, ◌≢◌, ◌+◌, ◌<◌, ◌≤◌, ◌⊎◌, List, false, length, true, ℕ};
ghost use Rattle.yaml_direct.specs.Bytes.{at};
ghost use Rattle.yaml_direct.specs.ByColumns.{IsBelowNames, IsBlockNode, Reads, room_of};
ghost use Rattle.yaml_direct.specs.Held.{IsUnnamed};
ghost use Rattle.yaml_direct.specs.InBrackets.{IsOf, opens};
ghost use Rattle.yaml_direct.specs.Gaps.{begins_token};
ghost use Rattle.yaml_direct.specs.LeftByColumns.{HasNoContent, LeavesBlockNode};
ghost use Rattle.yaml_direct.specs.Places.{Grows, IsHere, Reaches, no_place};
ghost use Rattle.yaml_direct.specs.Tokens.{IsCounted};
ghost use Rattle.yaml_direct.specs.declared.block.Room.TheVariants as rooms;
ghost use Rattle.yaml_grammar.specs.Blocks as grammar;
ghost use Rattle.yaml_grammar.specs.Bytes.{is_over};
ghost use Rattle.yaml_reading.specs.BlockReader.{begins_entry};
ghost use Rattle.yaml_reading.specs.BracketReader.{brackets_at};

use crate::block::Room;
use crate::byte::{at, is_mark, is_one_line};
use crate::key::colon_behind;
use crate::leaf::{Leaf, LeafKind, find_leaf};
use crate::place::{NO_PLACE, reach};
use crate::reader::{Reader, spot};

impl Reader<'_> {
    // A node with an anchor or a tag.
    #[inline(never)]
    #[cycle(block)]
    pub(crate) fn named(&mut self, place: usize, least: usize, room: Room, depth: usize) -> usize
        requires here { IsHere self.old place }
        requires begun { self.old.start.index ≡ place }
        requires near { least ≤ length self.old.text.now + 1 }
        ensures reached { Reaches self.old self.new place result }
        ensures found { (text : List ℕ) → IsOf text self.old → IsUnnamed self.old → self.old.start.late ≡ false
            → is_over text place ≡ false → (room ≢ rooms.Value → IsCounted self.old place) → result ≢ no_place
            → Reads self.old self.new result (IsBlockNode text depth least (room_of room) place result) }
        ensures missed { (text : List ℕ) → IsOf text self.old → IsUnnamed self.old → self.old.start.late ≡ false
            → is_over text place ≡ false → (at text place ≡ 38) ⊎ (at text place ≡ 33)
            → (room ≢ rooms.Value → IsCounted self.old place) → result ≡ no_place → self.new.starved ≡ false
            → LeavesBlockNode text depth least (room_of room) place }
    {
        let end = reach!(self.properties(place, false));
        if end == place {
            return NO_PLACE;
        }
        if colon_behind(self.text, end) != NO_PLACE {
            return self.keyed(Leaf::plain(end, end), room, depth);
        }
        let line = self.line;
        let next = reach!(self.gap(end));
        if self.line == line && next != self.text.len() {
            return self.content(next, least, room, depth);
        }
        if self.is_within(next, least) {
            return self.named_below(next, least, depth);
        }
        if self.is_own_sequence(next, least, room) {
            return self.sequence(next, depth);
        }
        self.push_nothing(end, next)
    }

    // A node in a line below that of its anchor and its tag.
    #[cycle(block)]
    fn named_below(&mut self, place: usize, least: usize, depth: usize) -> usize
        requires here { IsHere self.old place }
        requires begun { self.old.start.index ≤ place }
        requires near { least ≤ length self.old.text.now + 1 }
        ensures reached { Reaches self.old self.new self.old.start.index result }
        ensures found { (text : List ℕ) (in_room : grammar.Room) → IsOf text self.old
            → IsBelowNames text least self.old place → result ≢ no_place
            → Reads self.old self.new result (IsBlockNode text depth least in_room self.old.start.index result) }
        ensures missed { (text : List ℕ) (in_room : grammar.Room) → IsOf text self.old
            → IsBelowNames text least self.old place → begins_token text place ≡ true → result ≡ no_place
            → self.new.starved ≡ false → LeavesBlockNode text depth least in_room self.old.start.index }
    {
        if is_mark(self.text, b'-', place) {
            return self.sequence(place, depth);
        }
        if self.begins_entry(place) {
            return self.mapping(place, depth);
        }
        if matches!(at(self.text, place), b'[' | b'{') {
            return self.brackets_below(place, depth);
        }
        self.content(place, least, Room::Value, depth)
    }

    // A collection between brackets in such a line, or a mapping that begins with it as a key and has the names. Where
    // it turns out to be one, the events are taken back, and the names and the mapping are read again, in its first
    // line.
    #[inline(never)]
    #[cycle(block)]
    fn brackets_below(&mut self, place: usize, depth: usize) -> usize
        requires here { IsHere self.old place }
        requires begun { self.old.start.index ≤ place }
        requires within { place < length self.old.text.now }
        ensures reached { Reaches self.old self.new self.old.start.index result }
        ensures found { (text : List ℕ) (least : ℕ) (in_room : grammar.Room) → IsOf text self.old
            → opens (at text place) ≡ true → IsBelowNames text least self.old place → result ≢ no_place
            → Reads self.old self.new result (IsBlockNode text depth least in_room self.old.start.index result) }
        ensures missed { (text : List ℕ) (least : ℕ) (in_room : grammar.Room) → IsOf text self.old
            → opens (at text place) ≡ true → IsBelowNames text least self.old place → result ≡ no_place
            → self.new.starved ≡ false → LeavesBlockNode text depth least in_room self.old.start.index }
    {
        let start = self.start.index;
        let line = self.line;
        let line_start = self.line_start;
        let first = self.tape.entries.len();
        let end = reach!(self.flow(place, depth));
        let colon = colon_behind(self.text, end);
        if colon == NO_PLACE {
            return self.margin(end);
        }
        self.go_back(first, line, line_start);
        if !self.begins_mapping(place, colon, Room::Part) || !is_one_line(self.text, place, colon) {
            return NO_PLACE;
        }
        self.begin_above(start);
        reach!(self.properties(start, false));
        self.mapping(place, depth)
    }

    // A node begins here, which may be in an earlier line.
    fn begin_above(&mut self, place: usize)
        ensures text { self.new.text.now ≡ self.old.text.now }
        ensures line { self.new.line_start ≡ self.old.line_start }
        ensures start { self.new.start.index ≡ place }
        ensures early { self.new.start.late ≡ false }
        ensures still { self.new.tape ≡ self.old.tape }
        ensures names { self.new.names ≡ self.old.names }
        ensures grows { Grows self.old self.new }
    {
        self.start = spot(place);
    }

    // Whether a mapping begins here, with a key in its line or behind `?`, or else nothing does. Where a bracket stands
    // here, the answer is no.
    fn begins_entry(&self, place: usize) -> bool
        requires { IsHere self.now place }
        ensures content { (text : List ℕ) (depth : ℕ) → IsOf text self.now → is_over text place ≡ false
            → result ≡ true → HasNoContent text depth place }
        ensures entry { (text : List ℕ) (depth : ℕ) → IsOf text self.now → is_over text place ≡ false
            → begins_token text place ≡ true → opens (at text place) ≡ false → result ≡ false
            → begins_entry text (brackets_at text depth) place ≡ false }
    {
        if is_mark(self.text, b'?', place) || matches!(at(self.text, place), b'&' | b'!') {
            return true;
        }
        let Some(leaf) = find_leaf(self.text, false, place) else {
            return false;
        };
        if let LeafKind::Open(_) = leaf.kind {
            return false;
        }
        colon_behind(self.text, leaf.end) != NO_PLACE
    }
}
