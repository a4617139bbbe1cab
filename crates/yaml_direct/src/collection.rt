//! Collections by columns.
#![tactic(auto, using(crate::proofs::Growing::grows_on, crate::proofs::Growing::grows_same))]

ghost use Rattle.std.specs.Prelude.{◌≡◌, ◌≢◌, ◌+◌, ◌-◌, ◌<◌, ◌≤◌, IsTrue, List, false, length, true, ℕ};
ghost use Rattle.yaml_direct.specs.ByColumns.{AreLastEntries, IsEntry, IsMapping, IsSequence, Reads};
ghost use Rattle.yaml_direct.specs.Held.{IsUnnamed, names_of};
ghost use Rattle.yaml_direct.specs.InBrackets.{IsOf};
ghost use Rattle.yaml_direct.specs.LeftByColumns.{LeavesColumns, LeavesEntries, LeavesEntry};
ghost use Rattle.yaml_direct.specs.Bytes.{at};
ghost use Rattle.yaml_reading.specs.BlockReader.{entries, items};
ghost use Rattle.yaml_direct.specs.Places.{Grows, IsHere, Keeps, Reaches, no_place};
ghost use Rattle.yaml_direct.specs.Tokens.{IsCounted};
ghost use Rattle.yaml_grammar.specs.Bytes.{column, is_mark, is_over};
ghost use Rattle.yaml_grammar.specs.Gaps.{is_at};
ghost use Rattle.yaml_grammar.specs.Nodes.{end_mark};
ghost use Rattle.yaml_tape.specs.OnTape.{position_at};

use crate::block::Room;
use crate::byte::is_mark;
use crate::place::{NO_PLACE, reach};
use crate::reader::Reader;
use yaml_tape::EntryKind;

impl Reader<'_> {
    // A sequence whose first `-` stands here.
    #[cycle(block)]
    pub(crate) fn sequence(&mut self, place: usize, depth: usize) -> usize
        requires here { IsHere self.old place }
        requires begun { self.old.start.index ≤ place }
        requires within { place < length self.old.text.now }
        ensures reached { Reaches self.old self.new place result }
        ensures nested { result ≢ no_place → depth ≢ 0 }
        ensures found { (text : List ℕ) → IsOf text self.old → self.old.start.late ≡ false
            → is_mark text 45 place ≡ true → IsCounted self.old place → result ≢ no_place
            → Reads self.old self.new result (IsSequence text (depth - 1) (column text place) self.old.start.index
            (names_of self.old) place result) }
        ensures missed { (text : List ℕ) → IsOf text self.old → self.old.start.late ≡ false
            → is_mark text 45 place ≡ true → IsCounted self.old place → result ≡ no_place → self.new.starved ≡ false
            → LeavesColumns text items depth place }
    {
        if depth == 0 {
            return NO_PLACE;
        }
        let column = place - self.line_start;
        let first = self.tape.entries.len();
        let mut next = reach!(self.push_collection(EntryKind::SequenceStart, place));
        next = reach!(self.part(next + 1, column + 1, Room::Item, depth - 1));
        'items: while self.is_item(next, column) {
            next = reach!(self.part(next + 1, column + 1, Room::Item, depth - 1));
        }
        if self.is_within(next, column + 1) {
            return NO_PLACE;
        }
        let mark = self.end_spot(next, column);
        self.push_end(EntryKind::SequenceEnd, mark, first, next)
    }

    // A mapping whose first entry begins here.
    #[cycle(block)]
    pub(crate) fn mapping(&mut self, place: usize, depth: usize) -> usize
        requires here { IsHere self.old place }
        requires begun { self.old.start.index ≤ place }
        ensures reached { Reaches self.old self.new place result }
        ensures nested { result ≢ no_place → depth ≢ 0 }
        ensures found { (text : List ℕ) → IsOf text self.old → self.old.start.late ≡ false
            → is_over text place ≡ false → IsCounted self.old place → result ≢ no_place
            → Reads self.old self.new result (IsMapping text (depth - 1) (column text place) self.old.start.index
            (names_of self.old) place result) }
        ensures missed { (text : List ℕ) → IsOf text self.old → self.old.start.late ≡ false
            → is_over text place ≡ false → at text place ≢ 32 → IsCounted self.old place → result ≡ no_place
            → self.new.starved ≡ false → LeavesColumns text entries depth place }
    {
        if depth == 0 {
            return NO_PLACE;
        }
        let column = place - self.line_start;
        let first = self.tape.entries.len();
        reach!(self.push_collection(EntryKind::MappingStart, place));
        let next = reach!(self.entry(place, column, depth - 1));
        self.entries(next, column, first, depth - 1)
    }

    // The entries of a mapping behind its first, and its end.
    #[cycle(block)]
    pub(crate) fn entries(
        &mut self,
        from: usize,
        column: usize,
        first: usize,
        depth: usize,
    ) -> usize
        requires here { IsHere self.old from }
        requires column { column ≤ length self.old.text.now }
        ensures reached { Reaches self.old self.new from result }
        ensures found { (text : List ℕ) → IsOf text self.old → IsUnnamed self.old → IsCounted self.old from
            → result ≢ no_place
            → Reads self.old self.new result (AreLastEntries text depth column from result) }
        ensures missed { (text : List ℕ) → IsOf text self.old → IsUnnamed self.old → IsCounted self.old from
            → at text from ≢ 32 → result ≡ no_place → self.new.starved ≡ false
            → LeavesEntries text depth column from }
    {
        let mut next = from;
        'entries: while self.is_at(next, column) {
            next = reach!(self.entry(next, column, depth));
        }
        if self.is_within(next, column + 1) {
            return NO_PLACE;
        }
        let mark = self.end_spot(next, column);
        self.push_end(EntryKind::MappingEnd, mark, first, next)
    }

    // An entry of a mapping.
    #[inline(always)]
    #[cycle(block)]
    fn entry(&mut self, place: usize, column: usize, depth: usize) -> usize
        requires here { IsHere self.old place }
        requires column { column ≤ length self.old.text.now }
        ensures reached { Reaches self.old self.new (place + 1) result }
        ensures found { (text : List ℕ) → IsOf text self.old → IsUnnamed self.old → IsCounted self.old place
            → is_at text column place ≡ true → result ≢ no_place
            → Reads self.old self.new result (IsEntry text depth column place result) }
        ensures missed { (text : List ℕ) → IsOf text self.old → IsUnnamed self.old → IsCounted self.old place
            → is_at text column place ≡ true → at text place ≢ 32 → result ≡ no_place → self.new.starved ≡ false
            → LeavesEntry text depth column place }
    {
        self.begin(place);
        if is_mark(self.text, b'?', place) {
            return self.marked_entry(place, column, depth);
        }
        let colon = reach!(self.key(place, depth));
        self.part(colon + 1, column + 1, Room::Value, depth)
    }

    // An entry whose key stands behind `?`.
    #[inline(never)]
    #[cycle(block)]
    fn marked_entry(&mut self, place: usize, column: usize, depth: usize) -> usize
        requires here { IsHere self.old place }
        requires begun { self.old.start.index ≤ place }
        requires column { column ≤ length self.old.text.now }
        requires within { place < length self.old.text.now }
        ensures reached { Reaches self.old self.new (place + 1) result }
        ensures found { (text : List ℕ) → IsOf text self.old → IsUnnamed self.old → IsCounted self.old place
            → is_mark text 63 place ≡ true → result ≢ no_place
            → Reads self.old self.new result (IsEntry text depth column place result) }
        ensures missed { (text : List ℕ) → IsOf text self.old → IsUnnamed self.old → IsCounted self.old place
            → is_mark text 63 place ≡ true → result ≡ no_place → self.new.starved ≡ false
            → LeavesEntry text depth column place }
    {
        let next = reach!(self.part(place + 1, column + 1, Room::Part, depth));
        if is_mark(self.text, b':', next) && self.is_at(next, column) {
            return self.part(next + 1, column + 1, Room::Part, depth);
        }
        self.begin_at_end(next, column);
        self.push_nothing(next, next)
    }

    // A node begins where a collection in this column ends, before the next token.
    #[inline(always)]
    fn begin_at_end(&mut self, next: usize, column: usize)
        ensures text { self.new.text.now ≡ self.old.text.now }
        ensures line { self.new.line_start ≡ self.old.line_start }
        ensures start { self.new.start.index ≡ next }
        ensures mark { position_at self.old.text.now self.new.start.index self.new.start.late
            ≡ end_mark self.old.text.now column next }
        ensures still { self.new.tape ≡ self.old.tape }
        ensures names { self.new.names ≡ self.old.names }
        ensures grows { Grows self.old self.new }
    {
        self.start = self.end_spot(next, column);
    }
}
