//! Nodes within brackets.
#![tactic(auto, using(crate::proofs::Growing::grows_on, crate::proofs::Growing::grows_same))]

ghost use Rattle.std.specs.Prelude.{◌≡◌, ◌≢◌, ◌+◌, ◌++◌, ◌-◌, ◌<◌, ◌≤◌, ◌⊎◌, IsTrue, List, None, Some, false, length};
ghost use Rattle.std.specs.Prelude.{true, ℕ};
ghost use Rattle.yaml_direct.specs.Bytes.{at};
ghost use Rattle.yaml_direct.specs.Held.{IsUnnamed, names_of};
ghost use Rattle.yaml_direct.specs.InBrackets.{AreFlowParts, Has, IsBehindNames, IsBrackets, IsFlowElement, IsFlowPart};
ghost use Rattle.yaml_direct.specs.InBrackets.{IsFlowValue, IsOf, alone_events, closing_of, opens};
ghost use Rattle.yaml_direct.specs.Gaps.{begins_token};
ghost use Rattle.yaml_direct.specs.LeftInBrackets.{HasNothing, LeavesPart, LeavesParts, LeavesValue};
ghost use Rattle.yaml_direct.specs.Places.{IsHere, Keeps, Reaches, no_place};
ghost use Rattle.yaml_direct.specs.Tokens.{IsAmidLine};
ghost use Rattle.yaml_direct.specs.declared.flow.Slot.TheVariants as slots;
ghost use Rattle.yaml_grammar.specs.Brackets.{part_after};
ghost use Rattle.yaml_grammar.specs.Bytes.{is_over, is_text};
ghost use Rattle.yaml_grammar.specs.Gaps.{next};
ghost use Rattle.yaml_grammar.specs.Names.{Names};
ghost use Rattle.yaml_grammar.specs.Nodes.{Marked};
ghost use Rattle.yaml_reading.specs.BracketReader.{brackets_at};
ghost use Rattle.yaml_reading.specs.Readers.{Read};
ghost use Rattle.yaml_tape.specs.Pushes.{marked_on};

use crate::byte::{at, is_one_line};
use crate::key::LONGEST_KEY;
use crate::leaf::Leaf;
use crate::place::{NO_PLACE, reach};
use crate::reader::{Reader, spot};
use yaml_tape::EntryKind;

// Where a node stands within brackets, and so what may go with it.
#[derive(Clone, Copy, PartialEq, Eq)]
pub(crate) enum Slot {
    // In a sequence: it may be the key of a pair, which is a mapping.
    Item,
    // In a mapping: it is a key, with a value or without.
    Entry,
    // Behind a key.
    Value,
}

impl Reader<'_> {
    // A collection whose bracket stands here, and the place behind it.
    #[cycle(flow)]
    pub(crate) fn flow(&mut self, place: usize, depth: usize) -> usize
        requires here { IsHere self.old place }
        requires begun { self.old.start.index ≤ place }
        requires within { place < length self.old.text.now }
        ensures reached { Reaches self.old self.new place result }
        ensures found { (text : List ℕ) → IsOf text self.old → self.old.start.late ≡ false
            → opens (at text place) ≡ true → result ≢ no_place
            → Has self.old self.new (IsBrackets text depth self.old.start.index (names_of self.old) place result) }
        ensures behind { result ≢ no_place → self.new.line_start < result }
        ensures missed { (text : List ℕ) → IsOf text self.old → opens (at text place) ≡ true → result ≡ no_place
            → self.new.starved ≡ false → (names : Names) (i : ℕ) (es : List Marked)
            → ◌≡◌ {A = Read} (brackets_at text depth names i es place) None }
    {
        if depth == 0 {
            return NO_PLACE;
        }
        let first = self.tape.entries.len();
        if at(self.text, place) == b'[' {
            reach!(self.push_collection(EntryKind::SequenceStart, place));
            let end = reach!(self.flow_parts(place + 1, Slot::Item, b']', depth - 1));
            self.push_end(EntryKind::SequenceEnd, spot(end), first, end + 1)
        } else {
            reach!(self.push_collection(EntryKind::MappingStart, place));
            let end = reach!(self.flow_parts(place + 1, Slot::Entry, b'}', depth - 1));
            self.push_end(EntryKind::MappingEnd, spot(end), first, end + 1)
        }
    }

    // What a collection holds, from behind its bracket, and the place of the bracket that ends it.
    #[inline(always)]
    #[cycle(flow)]
    fn flow_parts(&mut self, from: usize, slot: Slot, closing: u8, depth: usize) -> usize
        requires here { IsHere self.old from }
        ensures reached { Reaches self.old self.new from result }
        ensures inside { result ≢ no_place → result < length self.old.text.now }
        ensures found { (text : List ℕ) → IsOf text self.old → IsUnnamed self.old → IsAmidLine self.old from
            → closing ≡ closing_of slot → (slot ≢ slots.Value) → result ≢ no_place
            → Has self.old self.new (AreFlowParts text slot depth (next text from) result) }
        ensures missed { (text : List ℕ) → IsOf text self.old → IsUnnamed self.old → IsAmidLine self.old from
            → closing ≡ closing_of slot → (slot ≢ slots.Value) → result ≡ no_place → self.new.starved ≡ false
            → LeavesParts text slot depth (next text from) }
    {
        let mut next = reach!(self.flow_gap(from));
        'parts: while at(self.text, next) != closing {
            let behind = reach!(self.flow_element(next, slot, depth));
            next = reach!(self.flow_next(behind, closing));
        }
        next
    }

    // Behind an item or an entry, the place of the next one behind `,`, or of the bracket that ends the collection.
    #[inline(always)]
    fn flow_next(&mut self, behind: usize, closing: u8) -> usize
        requires here { IsHere self.old behind }
        requires within { behind < length self.old.text.now }
        ensures reached { Reaches self.old self.new behind result }
        ensures inside { result ≢ no_place → result < length self.old.text.now }
        ensures still { self.new.tape ≡ self.old.tape }
        ensures names { self.new.names ≡ self.old.names }
        ensures found { is_text self.old.text.now ≡ true → result ≢ no_place
            → part_after self.old.text.now closing behind ≡ Some result }
        ensures token { result ≢ no_place → (closing ≡ 93) ⊎ (closing ≡ 125)
            → begins_token self.old.text.now result ≡ true }
        ensures there { is_text self.old.text.now ≡ true → (closing ≡ 93) ⊎ (closing ≡ 125) → result ≢ no_place
            → is_over self.old.text.now result ≡ false }
        ensures missed { is_text self.old.text.now ≡ true → result ≡ no_place → (k : ℕ)
            → part_after self.old.text.now closing behind ≡ Some k → HasNothing self.old.text.now k }
        ensures further { result ≢ no_place
            → ((result ≡ behind) × (at self.old.text.now result ≡ closing)) ⊎ (behind < result) }
    {
        let byte = at(self.text, behind);
        if byte == closing {
            return behind;
        }
        if byte != b',' {
            return NO_PLACE;
        }
        self.flow_gap(behind + 1)
    }

    // An item, or an entry with its value, and the place of the next token.
    #[cycle(flow)]
    #[inline(always)]
    fn flow_element(&mut self, place: usize, slot: Slot, depth: usize) -> usize
        requires here { IsHere self.old place }
        ensures reached { Reaches self.old self.new place result }
        ensures inside { result ≢ no_place → result < length self.old.text.now }
        ensures found { (text : List ℕ) → IsOf text self.old → IsUnnamed self.old → is_over text place ≡ false
            → (slot ≢ slots.Value) → result ≢ no_place
            → Has self.old self.new (IsFlowElement text slot depth place result) }
        ensures missed { (text : List ℕ) → IsOf text self.old → IsUnnamed self.old → is_over text place ≡ false
            → begins_token text place ≡ true → result ≡ no_place → self.new.starved ≡ false
            → LeavesPart text slot depth place }
    {
        let next = reach!(self.flow_part(place, slot, depth));
        if slot != Slot::Entry {
            return next;
        }
        if at(self.text, next) != b':' {
            return next;
        }
        self.flow_value(next + 1, depth)
    }

    // An item, an entry or a value, and the place of the next token: of an entry with a value that of its `:`.
    #[cycle(flow)]
    fn flow_part(&mut self, place: usize, slot: Slot, depth: usize) -> usize
        requires here { IsHere self.old place }
        ensures reached { Reaches self.old self.new place result }
        ensures inside { result ≢ no_place → result < length self.old.text.now }
        ensures found { (text : List ℕ) → IsOf text self.old → IsUnnamed self.old → is_over text place ≡ false
            → result ≢ no_place
            → Has self.old self.new (IsFlowPart text slot depth place result) }
        ensures missed { (text : List ℕ) → IsOf text self.old → IsUnnamed self.old → is_over text place ≡ false
            → begins_token text place ≡ true → result ≡ no_place → self.new.starved ≡ false
            → LeavesPart text slot depth place }
    {
        self.begin(place);
        match at(self.text, place) {
            b'&' | b'!' => self.named_flow_part(place, slot, depth),
            b'[' | b'{' => self.flow_collection(place, slot, depth),
            b'"' | b'\'' | b'*' => self.flow_leaf(place, slot, depth),
            _ => self.flow_plain(place, slot, depth),
        }
    }

    // The same with an anchor or a tag.
    #[inline(never)]
    #[cycle(flow)]
    fn named_flow_part(&mut self, place: usize, slot: Slot, depth: usize) -> usize
        requires here { IsHere self.old place }
        requires begun { self.old.start.index ≤ place }
        ensures reached { Reaches self.old self.new place result }
        ensures inside { result ≢ no_place → result < length self.old.text.now }
        ensures found { (text : List ℕ) → IsOf text self.old → IsUnnamed self.old → self.old.start.late ≡ false
            → self.old.start.index ≡ place → result ≢ no_place
            → Has self.old self.new (IsFlowPart text slot depth place result) }
        ensures missed { (text : List ℕ) → IsOf text self.old → IsUnnamed self.old → self.old.start.late ≡ false
            → self.old.start.index ≡ place → (at text place ≡ 38) ⊎ (at text place ≡ 33) → result ≡ no_place
            → self.new.starved ≡ false → LeavesPart text slot depth place }
    {
        let end = reach!(self.properties(place, true));
        if end == place {
            return NO_PLACE;
        }
        let line = self.line;
        let next = reach!(self.flow_gap(end));
        if self.line != line {
            return NO_PLACE;
        }
        match at(self.text, next) {
            b'[' | b'{' => self.flow_collection(next, slot, depth),
            b',' | b']' | b'}' | b':' => self.flow_entry(Leaf::plain(end, end), next, slot, depth),
            b'"' | b'\'' | b'*' => self.flow_leaf(next, slot, depth),
            _ => self.flow_plain(next, slot, depth),
        }
    }

    // A collection within brackets, which is no key of a pair.
    #[inline(never)]
    #[cycle(flow)]
    fn flow_collection(&mut self, place: usize, slot: Slot, depth: usize) -> usize
        requires here { IsHere self.old place }
        requires begun { self.old.start.index ≤ place }
        requires within { place < length self.old.text.now }
        ensures reached { Reaches self.old self.new place result }
        ensures inside { result ≢ no_place → result < length self.old.text.now }
        ensures found { (text : List ℕ) → IsOf text self.old → IsBehindNames text true self.old place
            → opens (at text place) ≡ true → result ≢ no_place
            → Has self.old self.new (IsFlowPart text slot depth self.old.start.index result) }
        ensures missed { (text : List ℕ) → IsOf text self.old → IsBehindNames text true self.old place
            → opens (at text place) ≡ true → result ≡ no_place → self.new.starved ≡ false
            → LeavesPart text slot depth self.old.start.index }
    {
        let start = self.start.index;
        let end = reach!(self.flow(place, depth));
        let next = reach!(self.flow_gap(end));
        if at(self.text, next) != b':' {
            return self.flow_alone(next, slot);
        }
        if slot != Slot::Entry {
            return NO_PLACE;
        }
        if next > start + LONGEST_KEY {
            return NO_PLACE;
        }
        if is_one_line(self.text, start, next) {
            next
        } else {
            NO_PLACE
        }
    }

    // Behind a node that is no key with a value: in a mapping it is one without.
    #[inline(always)]
    pub(crate) fn flow_alone(&mut self, next: usize, slot: Slot) -> usize
        requires here { IsHere self.old next }
        requires within { next < length self.old.text.now }
        ensures reached { Reaches self.old self.new next result }
        ensures inside { result ≢ no_place → result < length self.old.text.now }
        ensures there { result ≢ no_place → result ≡ next }
        ensures found { (text : List ℕ) → IsOf text self.old → IsUnnamed self.old → result ≢ no_place
            → (marked_on self.new.tape ≡ marked_on self.old.tape ++ alone_events text slot next)
            × IsUnnamed self.new }
        ensures starved { result ≡ no_place → self.new.starved ≡ true }
    {
        if slot != Slot::Entry {
            return next;
        }
        self.begin(next);
        self.push_nothing(next, next)
    }

    // The value behind a `:` within brackets, or nothing, and the place of the next token.
    #[cycle(flow)]
    pub(crate) fn flow_value(&mut self, from: usize, depth: usize) -> usize
        requires here { IsHere self.old from }
        ensures reached { Reaches self.old self.new from result }
        ensures inside { result ≢ no_place → result < length self.old.text.now }
        ensures found { (text : List ℕ) → IsOf text self.old → IsUnnamed self.old → IsAmidLine self.old from
            → result ≢ no_place
            → Has self.old self.new (IsFlowValue text depth (next text from) result) }
        ensures missed { (text : List ℕ) → IsOf text self.old → IsUnnamed self.old → IsAmidLine self.old from
            → result ≡ no_place → self.new.starved ≡ false → LeavesValue text depth (next text from) }
    {
        let place = reach!(self.flow_gap(from));
        if matches!(at(self.text, place), b',' | b']' | b'}') {
            self.begin(place);
            return self.push_nothing(place, place);
        }
        self.flow_part(place, Slot::Value, depth)
    }
}
