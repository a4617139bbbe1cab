//! Nodes that stand by columns. Each function begins at the first token of what it reads, adds its events, and gives
//! the place of the next token, which stands at the beginning of a later line or ends the text.
#![tactic(auto, using(crate::proofs::Growing::grows_on, crate::proofs::Growing::grows_same))]

ghost use Rattle.std.specs.Prelude.{◌≡◌, ◌≢◌, ◌+◌, ◌-◌, ◌<◌, ◌≤◌, ◌==◌, IsTrue, List, false, length, suc, true, ℕ};
ghost use Rattle.std.specs.Prelude.{◌⊎◌};
ghost use Rattle.yaml_direct.specs.Bytes.{at};
ghost use Rattle.yaml_direct.specs.ByColumns.{AreEntriesBehind, BeginsColumns, BeginsWithKey, IsBehind, IsBlockNamed};
ghost use Rattle.yaml_direct.specs.ByColumns.{IsBlockNode, Reads, Takes, room_of};
ghost use Rattle.yaml_direct.specs.Gaps.{begins_token};
ghost use Rattle.yaml_direct.specs.Held.{IsUnnamed};
ghost use Rattle.yaml_direct.specs.InBrackets.{IsOf, opens, quotes};
ghost use Rattle.yaml_direct.specs.Leaves.{IsPart};
ghost use Rattle.yaml_direct.specs.LeftByColumns.{IsContent, IsKeyed, LeavesBehind, LeavesBlockNode};
ghost use Rattle.yaml_direct.specs.LeftByColumns.{LeavesEntriesBehind, begins_other};
ghost use Rattle.yaml_direct.specs.Places.{IsHere, Keeps, Reaches, no_place};
ghost use Rattle.yaml_direct.specs.Tokens.{IsCounted};
ghost use Rattle.yaml_direct.specs.declared.block.Room.TheVariants as rooms;
ghost use Rattle.yaml_grammar.specs.Blocks as grammar;
ghost use Rattle.yaml_grammar.specs.Blocks.{is_own};
ghost use Rattle.yaml_grammar.specs.Bytes.{column, is_mark, is_over, is_text};
ghost use Rattle.yaml_reading.proofs.Begins.{wanders};

use crate::byte::{at, is_gap, is_mark, is_one_line};
use crate::gap::begins_token;
use crate::key::{LONGEST_KEY, colon_behind};
use crate::leaf::{Leaf, LeafKind, find_leaf};
use crate::place::{NO_PLACE, reach};
use crate::plain::{begins_plain, plain_end};
use crate::reader::Reader;

// Where a node stands, and so what it may be.
#[derive(Clone, Copy, PartialEq, Eq)]
pub(crate) enum Room {
    // At the beginning of a line, or behind `-`: anything.
    Item,
    // Behind `?` or the `:` of a key behind `?`: anything, also a sequence in the mapping's own column.
    Part,
    // Behind the `:` of a key in its line: the same, but no collection by columns in this line.
    Value,
}

impl Room {
    // The same in a later line.
    fn later(self) -> Room
        ensures { room_of result ≡ grammar.later (room_of self) }
    {
        match self {
            Room::Value => Room::Part,
            room => room,
        }
    }

    // Whether a sequence may stand in the column of the collection around it.
    fn is_of_mapping(self) -> bool
        ensures { result ≡ grammar.is_of_mapping (room_of self) }
    {
        self != Room::Item
    }
}

impl Reader<'_> {
    // What stands behind an indicator, and further in than the collection in the column before `least`: in this line,
    // in a later one, or nothing.
    #[inline(always)]
    #[cycle(block)]
    pub(crate) fn part(&mut self, behind: usize, least: usize, room: Room, depth: usize) -> usize
        requires here { IsHere self.old behind }
        requires near { least ≤ length self.old.text.now + 1 }
        ensures reached { Reaches self.old self.new behind result }
        ensures found { (text : List ℕ) (c : ℕ) → IsOf text self.old → IsUnnamed self.old → least ≡ suc c
            → (column text behind == 0) ≡ false → (room ≢ rooms.Value → IsCounted self.old behind)
            → result ≢ no_place
            → Reads self.old self.new result (IsBehind text depth c (room_of room) behind result) }
        ensures missed { (text : List ℕ) (c : ℕ) → IsOf text self.old → IsUnnamed self.old → least ≡ suc c
            → (column text behind == 0) ≡ false → (room ≢ rooms.Value → IsCounted self.old behind)
            → result ≡ no_place → self.new.starved ≡ false → LeavesBehind text depth c (room_of room) behind }
    {
        let text = self.text;
        if at(text, behind) == b' ' && begins_token(at(text, behind + 1)) {
            return self.node(behind + 1, least, room, depth);
        }
        self.far_part(behind, least, room, depth)
    }

    // The same where more than one blank stands before it.
    #[inline(never)]
    #[cycle(block)]
    fn far_part(&mut self, behind: usize, least: usize, room: Room, depth: usize) -> usize
        requires here { IsHere self.old behind }
        requires near { least ≤ length self.old.text.now + 1 }
        ensures reached { Reaches self.old self.new behind result }
        ensures found { (text : List ℕ) (c : ℕ) → IsOf text self.old → IsUnnamed self.old → least ≡ suc c
            → (column text behind == 0) ≡ false → (room ≢ rooms.Value → IsCounted self.old behind)
            → result ≢ no_place
            → Reads self.old self.new result (IsBehind text depth c (room_of room) behind result) }
        ensures missed { (text : List ℕ) (c : ℕ) → IsOf text self.old → IsUnnamed self.old → least ≡ suc c
            → (column text behind == 0) ≡ false → (room ≢ rooms.Value → IsCounted self.old behind)
            → result ≡ no_place → self.new.starved ≡ false → LeavesBehind text depth c (room_of room) behind }
    {
        self.begin(behind);
        let line = self.line;
        let next = reach!(self.gap(behind));
        if self.line == line && next != self.text.len() {
            return self.node(next, least, room, depth);
        }
        if self.is_within(next, least) {
            return self.node(next, least, room.later(), depth);
        }
        if self.is_own_sequence(next, least, room) {
            self.begin(next);
            return self.sequence(next, depth);
        }
        self.push_nothing(behind, next)
    }

    // Whether a sequence stands here that is a part of a mapping, in the column of that, before `least`.
    pub(crate) fn is_own_sequence(&self, next: usize, least: usize, room: Room) -> bool
        requires { IsHere self.now next }
        ensures inside { IsTrue result → next < length self.now.text.now }
        ensures same { is_text self.now.text.now ≡ true → IsCounted self.now next
            → result ≡ is_own self.now.text.now (room_of room) least next }
    {
        room.is_of_mapping() && least > 0 && self.is_item(next, least - 1)
    }

    // A node.
    #[cycle(block)]
    pub(crate) fn node(&mut self, place: usize, least: usize, room: Room, depth: usize) -> usize
        requires here { IsHere self.old place }
        requires near { least ≤ length self.old.text.now + 1 }
        ensures reached { Reaches self.old self.new place result }
        ensures found { (text : List ℕ) → IsOf text self.old → IsUnnamed self.old → is_over text place ≡ false
            → (room ≢ rooms.Value → IsCounted self.old place) → result ≢ no_place
            → Reads self.old self.new result (IsBlockNode text depth least (room_of room) place result) }
        ensures missed { (text : List ℕ) → IsOf text self.old → IsUnnamed self.old → is_over text place ≡ false
            → begins_token text place ≡ true → (room ≢ rooms.Value → IsCounted self.old place) → result ≡ no_place
            → self.new.starved ≡ false → LeavesBlockNode text depth least (room_of room) place }
    {
        self.begin(place);
        let byte = at(self.text, place);
        match byte {
            b'-' | b'?' if is_gap(self.text, place + 1) => {
                self.compact(byte, place, room, depth)
            }
            b'&' | b'!' => self.named(place, least, room, depth),
            _ => self.content(place, least, room, depth),
        }
    }

    // A collection by columns whose indicator stands here.
    #[inline(always)]
    #[cycle(block)]
    fn compact(&mut self, indicator: u8, place: usize, room: Room, depth: usize) -> usize
        requires here { IsHere self.old place }
        requires begun { self.old.start.index ≤ place }
        requires within { place < length self.old.text.now }
        ensures reached { Reaches self.old self.new place result }
        ensures found { (text : List ℕ) (least : ℕ) → IsOf text self.old → IsUnnamed self.old
            → self.old.start.late ≡ false → self.old.start.index ≡ place → is_mark text indicator place ≡ true
            → is_over text place ≡ false → (room ≢ rooms.Value → IsCounted self.old place) → result ≢ no_place
            → Reads self.old self.new result (IsBlockNode text depth least (room_of room) place result) }
        ensures missed { (text : List ℕ) (least : ℕ) → IsOf text self.old → IsUnnamed self.old
            → self.old.start.late ≡ false → self.old.start.index ≡ place → is_mark text indicator place ≡ true
            → (indicator ≡ 45) ⊎ (indicator ≡ 63) → is_over text place ≡ false
            → (room ≢ rooms.Value → IsCounted self.old place) → result ≡ no_place → self.new.starved ≡ false
            → LeavesBlockNode text depth least (room_of room) place }
    {
        if room == Room::Value {
            NO_PLACE
        } else if indicator == b'-' {
            self.sequence(place, depth)
        } else {
            self.mapping(place, depth)
        }
    }

    // A node that begins in this line, behind its anchor and its tag if it has them: no collection by columns but a
    // mapping that begins with a key in its line.
    #[inline(always)]
    #[cycle(block)]
    pub(crate) fn content(&mut self, place: usize, least: usize, room: Room, depth: usize) -> usize
        requires here { IsHere self.old place }
        requires begun { self.old.start.index ≤ place }
        requires near { least ≤ length self.old.text.now + 1 }
        ensures reached { Reaches self.old self.new self.old.start.index result }
        ensures found { (text : List ℕ) (in_room : grammar.Room) → IsOf text self.old → Takes room in_room
            → is_over text place ≡ false
            → (wanders (at text place) ≡ false → IsBlockNamed text least room self.old place) → result ≢ no_place
            → Reads self.old self.new result (IsBlockNode text depth least in_room self.old.start.index result) }
        ensures missed { (text : List ℕ) (in_room : grammar.Room) → IsOf text self.old
            → IsContent text depth least room in_room self.old place → is_over text place ≡ false
            → begins_token text place ≡ true
            → result ≡ no_place → self.new.starved ≡ false
            → LeavesBlockNode text depth least in_room self.old.start.index }
    {
        match at(self.text, place) {
            b'|' | b'>' => self.block_scalar(place, least),
            b'[' | b'{' => self.brackets(place, room, depth),
            b'"' | b'\'' | b'*' => self.leaf(place, least, room, depth),
            _ => self.plain_leaf(place, least, room, depth),
        }
    }

    // Plain text, or a mapping that begins with it as a key.
    #[inline(always)]
    #[cycle(block)]
    fn plain_leaf(&mut self, place: usize, least: usize, room: Room, depth: usize) -> usize
        requires here { IsHere self.old place }
        requires begun { self.old.start.index ≤ place }
        ensures reached { Reaches self.old self.new self.old.start.index result }
        ensures found { (text : List ℕ) (in_room : grammar.Room) → IsOf text self.old → Takes room in_room
            → is_over text place ≡ false
            → (wanders (at text place) ≡ false → IsBlockNamed text least room self.old place) → result ≢ no_place
            → Reads self.old self.new result (IsBlockNode text depth least in_room self.old.start.index result) }
        ensures missed { (text : List ℕ) (in_room : grammar.Room) → IsOf text self.old
            → IsContent text depth least room in_room self.old place → is_over text place ≡ false
            → begins_other (at text place) ≡ true
            → result ≡ no_place → self.new.starved ≡ false
            → LeavesBlockNode text depth least in_room self.old.start.index }
    {
        let text = self.text;
        if !begins_plain(text, false, place) {
            return NO_PLACE;
        }
        let end = plain_end(text, false, place);
        if colon_behind(text, end) != NO_PLACE {
            return self.keyed(Leaf::plain(place, end), room, depth);
        }
        self.plain(place, end, least)
    }

    // Quotes or an alias, or a mapping that begins with them as a key.
    #[inline(never)]
    #[cycle(block)]
    fn leaf(&mut self, place: usize, least: usize, room: Room, depth: usize) -> usize
        requires here { IsHere self.old place }
        requires begun { self.old.start.index ≤ place }
        requires within { place < length self.old.text.now }
        ensures reached { Reaches self.old self.new self.old.start.index result }
        ensures found { (text : List ℕ) (in_room : grammar.Room) → IsOf text self.old → Takes room in_room
            → quotes (at text place) ≡ true
            → IsBlockNamed text least room self.old place → result ≢ no_place
            → Reads self.old self.new result (IsBlockNode text depth least in_room self.old.start.index result) }
        ensures missed { (text : List ℕ) (in_room : grammar.Room) → IsOf text self.old
            → IsContent text depth least room in_room self.old place → is_over text place ≡ false
            → quotes (at text place) ≡ true
            → result ≡ no_place → self.new.starved ≡ false
            → LeavesBlockNode text depth least in_room self.old.start.index }
    {
        let Some(leaf) = find_leaf(self.text, false, place) else {
            return NO_PLACE;
        };
        if let LeafKind::Open(quote) = leaf.kind {
            let end = reach!(self.quoted_lines(quote, place));
            return self.margin(end);
        }
        if colon_behind(self.text, leaf.end) != NO_PLACE {
            return self.keyed(leaf, room, depth);
        }
        reach!(self.push_leaf(leaf));
        self.margin(leaf.end)
    }

    // A mapping whose first key is this leaf. It begins where that does, or what stands before it.
    #[inline(never)]
    #[cycle(block)]
    pub(crate) fn keyed(&mut self, leaf: Leaf, room: Room, depth: usize) -> usize
        requires part { IsPart self.old.text.now self.old.start.index leaf }
        requires here { IsHere self.old leaf.end }
        ensures reached { Reaches self.old self.new leaf.end result }
        ensures found { (text : List ℕ) (least : ℕ) (in_room : grammar.Room) → IsOf text self.old → Takes room in_room
            → (room ≢ rooms.Value → BeginsWithKey text self.old leaf) → result ≢ no_place
            → Reads self.old self.new result (IsBlockNode text depth least in_room self.old.start.index result) }
        ensures missed { (text : List ℕ) (least : ℕ) (in_room : grammar.Room) → IsOf text self.old
            → (room ≢ rooms.Value → BeginsWithKey text self.old leaf)
            → IsKeyed text depth least room in_room self.old leaf → result ≡ no_place → self.new.starved ≡ false
            → LeavesBlockNode text depth least in_room self.old.start.index }
    {
        let colon = colon_behind(self.text, leaf.end);
        let start = self.start.index;
        if depth == 0 {
            return NO_PLACE;
        }
        if !self.begins_mapping(start, colon, room) {
            return NO_PLACE;
        }
        let first = self.tape.entries.len();
        reach!(self.push_mapping_before(leaf.end));
        reach!(self.push_leaf(leaf));
        self.keyed_entries(colon, start - self.line_start, first, depth - 1)
    }

    // Whether a mapping may begin here with a key whose `:` stands there.
    #[inline(always)]
    pub(crate) fn begins_mapping(&self, start: usize, colon: usize, room: Room) -> bool
        ensures line { IsTrue result → self.now.line_start ≤ start }
        ensures near { IsTrue result → colon ≤ start + 1024 }
        ensures room { IsTrue result → room ≢ rooms.Value }
        ensures missed { result ≡ false → room ≢ rooms.Value → self.now.line_start ≤ start → start + 1024 < colon }
    {
        room != Room::Value
            && start >= self.line_start
            && colon.saturating_sub(start) <= LONGEST_KEY
    }

    // The value behind the first key of a mapping, whose `:` stands here, and the other entries.
    #[inline(always)]
    #[cycle(block)]
    fn keyed_entries(&mut self, colon: usize, column: usize, first: usize, depth: usize) -> usize
        requires here { IsHere self.old colon }
        requires within { colon < length self.old.text.now }
        requires column { column ≤ length self.old.text.now }
        ensures reached { Reaches self.old self.new colon result }
        ensures found { (text : List ℕ) → IsOf text self.old → IsUnnamed self.old → at text colon ≡ 58
            → result ≢ no_place
            → Reads self.old self.new result (AreEntriesBehind text depth column colon result) }
        ensures missed { (text : List ℕ) → IsOf text self.old → IsUnnamed self.old → at text colon ≡ 58
            → result ≡ no_place → self.new.starved ≡ false → LeavesEntriesBehind text depth column colon }
    {
        let next = reach!(self.part(colon + 1, column + 1, Room::Value, depth));
        self.entries(next, column, first, depth)
    }

    // A collection between brackets, or a mapping that begins with it as a key. Where it turns out to be that, its
    // events are taken back, and the mapping is read from there, in the line where it begins.
    #[inline(never)]
    #[cycle(block)]
    fn brackets(&mut self, place: usize, room: Room, depth: usize) -> usize
        requires here { IsHere self.old place }
        requires begun { self.old.start.index ≤ place }
        requires within { place < length self.old.text.now }
        ensures reached { Reaches self.old self.new self.old.start.index result }
        ensures found { (text : List ℕ) (least : ℕ) (in_room : grammar.Room) → IsOf text self.old → Takes room in_room
            → opens (at text place) ≡ true
            → IsBlockNamed text least room self.old place → result ≢ no_place
            → Reads self.old self.new result (IsBlockNode text depth least in_room self.old.start.index result) }
        ensures missed { (text : List ℕ) (least : ℕ) (in_room : grammar.Room) → IsOf text self.old
            → IsContent text depth least room in_room self.old place → is_over text place ≡ false
            → opens (at text place) ≡ true
            → result ≡ no_place → self.new.starved ≡ false
            → LeavesBlockNode text depth least in_room self.old.start.index }
    {
        let start = self.start.index;
        let line = self.line;
        let line_start = self.line_start;
        let first = self.tape.entries.len();
        let end = reach!(self.flow(place, depth));
        let colon = colon_behind(self.text, end);
        if colon == NO_PLACE {
            return self.margin(end);
        }
        self.go_back(first, line, line_start);
        if !self.begins_mapping(start, colon, room) {
            return NO_PLACE;
        }
        if !is_one_line(self.text, start, colon) {
            return NO_PLACE;
        }
        self.begin(start);
        self.mapping(start, depth)
    }
}
