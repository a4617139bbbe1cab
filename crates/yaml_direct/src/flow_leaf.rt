//! Leaves within brackets, and pairs that begin with one.
#![tactic(auto, using(crate::proofs::Growing::grows_on, crate::proofs::Growing::grows_same))]

ghost use Rattle.std.specs.Prelude.{◌≡◌, ◌≢◌, ◌+◌, ◌-◌, ◌<◌, ◌≤◌, ◌⊎◌, List, false, length, true, ℕ};
ghost use Rattle.yaml_direct.specs.Added.{AddsFlow};
ghost use Rattle.yaml_direct.specs.Leaves.{IsPart};
ghost use Rattle.yaml_direct.specs.LeftInBrackets.{IsOtherByte, LeavesItem, LeavesNode, LeavesPart};
ghost use Rattle.yaml_direct.specs.Places.{IsHere, Keeps, Reaches, no_place};
ghost use Rattle.yaml_direct.specs.Held.{IsUnnamed};
ghost use Rattle.yaml_direct.specs.InBrackets.{Has, IsAlone, IsBehindNames, IsFlowItem, IsFlowLeaf, IsFlowPart, IsOf, quotes};
ghost use Rattle.yaml_direct.specs.PlainTexts.{IsBrokenLine, IsFirstLine, LeavesFlow};
ghost use Rattle.yaml_grammar.specs.Brackets.{has_colon};
ghost use Rattle.yaml_grammar.specs.Bytes.{at, is_over, is_text};
ghost use Rattle.yaml_grammar.specs.Gaps as gaps;
ghost use Rattle.yaml_grammar.specs.Gaps.{breaks};
ghost use Rattle.yaml_grammar.specs.Plain.{begins_plain};

use crate::byte::{at, is_bracket, is_tight};
use crate::flow::Slot;
use crate::key::LONGEST_KEY;
use crate::leaf::{Leaf, LeafKind, find_leaf};
use crate::place::{NO_PLACE, reach};
use crate::plain::{begins_plain, plain_end};
use crate::reader::{Reader, spot};
use yaml_base::ScalarStyle;
use yaml_tape::EntryKind;

impl Reader<'_> {
    // Plain text within brackets, and what goes with it.
    #[inline(always)]
    #[cycle(flow)]
    pub(crate) fn flow_plain(&mut self, place: usize, slot: Slot, depth: usize) -> usize
        requires here { IsHere self.old place }
        requires begun { self.old.start.index ≤ place }
        ensures reached { Reaches self.old self.new place result }
        ensures inside { result ≢ no_place → result < length self.old.text.now }
        ensures found { (text : List ℕ) → IsOf text self.old
            → is_over text place ≡ false
            → (begins_plain text true place ≡ true → IsBehindNames text true self.old place) → result ≢ no_place
            → Has self.old self.new (IsFlowPart text slot depth self.old.start.index result) }
        ensures missed { (text : List ℕ) → IsOf text self.old → is_over text place ≡ false
            → IsBehindNames text true self.old place → IsOtherByte text self.old.start.index place
            → result ≡ no_place → self.new.starved ≡ false → LeavesPart text slot depth self.old.start.index }
    {
        let text = self.text;
        if !begins_plain(text, true, place) {
            return NO_PLACE;
        }
        let end = plain_end(text, true, place);
        if slot == Slot::Entry {
            return self.far_flow_plain(place, end, slot, depth);
        }
        if matches!(at(text, end), b',' | b']' | b'}') {
            return self.push_leaf(Leaf::plain(place, end));
        }
        self.far_flow_plain(place, end, slot, depth)
    }

    // The same where its end is not the next token.
    #[inline(never)]
    #[cycle(flow)]
    fn far_flow_plain(&mut self, place: usize, end: usize, slot: Slot, depth: usize) -> usize
        requires part { place ≤ end }
        requires here { IsHere self.old end }
        requires begun { self.old.start.index ≤ place }
        ensures reached { Reaches self.old self.new end result }
        ensures inside { result ≢ no_place → result < length self.old.text.now }
        ensures found { (text : List ℕ) → IsOf text self.old → IsBehindNames text true self.old place
            → IsFirstLine text true place end → result ≢ no_place
            → Has self.old self.new (IsFlowPart text slot depth self.old.start.index result) }
        ensures missed { (text : List ℕ) → IsOf text self.old → IsBehindNames text true self.old place
            → IsFirstLine text true place end → self.old.line_start ≤ place → result ≡ no_place
            → self.new.starved ≡ false → LeavesPart text slot depth self.old.start.index }
    {
        let text = self.text;
        let line = self.line;
        let next = reach!(self.flow_gap(end));
        if self.line != line {
            return self.flow_plain_lines(place, end, next, slot);
        }
        if is_tight(text, next) {
            return NO_PLACE;
        }
        self.flow_entry(Leaf::plain(place, end), next, slot, depth)
    }

    // Quotes or an alias within brackets, and what goes with it.
    #[inline(never)]
    #[cycle(flow)]
    pub(crate) fn flow_leaf(&mut self, place: usize, slot: Slot, depth: usize) -> usize
        requires here { IsHere self.old place }
        requires begun { self.old.start.index ≤ place }
        requires within { place < length self.old.text.now }
        ensures reached { Reaches self.old self.new place result }
        ensures inside { result ≢ no_place → result < length self.old.text.now }
        ensures found { (text : List ℕ) → IsOf text self.old → IsBehindNames text true self.old place
            → quotes (at text place) ≡ true → result ≢ no_place
            → Has self.old self.new (IsFlowPart text slot depth self.old.start.index result) }
        ensures missed { (text : List ℕ) → IsOf text self.old → IsBehindNames text true self.old place
            → quotes (at text place) ≡ true → result ≡ no_place → self.new.starved ≡ false
            → LeavesPart text slot depth self.old.start.index }
    {
        let Some(leaf) = find_leaf(self.text, true, place) else {
            return NO_PLACE;
        };
        if let LeafKind::Open(quote) = leaf.kind {
            let end = reach!(self.quoted_lines(quote, place));
            let next = reach!(self.flow_gap(end));
            return self.flow_no_key(next, slot);
        }
        let line = self.line;
        let next = reach!(self.flow_gap(leaf.end));
        if self.line == line {
            return self.flow_entry(leaf, next, slot, depth);
        }
        reach!(self.push_leaf(leaf));
        self.flow_no_key(next, slot)
    }

    // Behind a node that is no key, since it goes over lines.
    fn flow_no_key(&mut self, next: usize, slot: Slot) -> usize
        requires here { IsHere self.old next }
        requires within { next < length self.old.text.now }
        ensures reached { Reaches self.old self.new next result }
        ensures inside { result ≢ no_place → result < length self.old.text.now }
        ensures found { (text : List ℕ) → IsOf text self.old → IsUnnamed self.old → result ≢ no_place
            → IsAlone text slot self.old self.new next result }
        ensures other { result ≢ no_place → at self.old.text.now next ≢ 58 }
        ensures missed { result ≡ no_place → self.new.starved ≡ false
            → (at self.old.text.now next ≡ 58) × (self.old.starved ≡ false) }
    {
        if at(self.text, next) == b':' {
            return NO_PLACE;
        }
        self.flow_alone(next, slot)
    }

    // A leaf that was found here, alone or as a key with its value, in whose line the next token stands.
    #[cycle(flow)]
    pub(crate) fn flow_entry(&mut self, leaf: Leaf, next: usize, slot: Slot, depth: usize) -> usize
        requires part { IsPart self.old.text.now leaf.begin leaf }
        requires begun { self.old.start.index ≤ leaf.end }
        requires here { IsHere self.old next }
        requires within { next < length self.old.text.now }
        ensures reached { Reaches self.old self.new next result }
        ensures inside { result ≢ no_place → result < length self.old.text.now }
        ensures found { (text : List ℕ) → IsOf text self.old → IsFlowLeaf text self.old leaf
            → next ≡ gaps.next text leaf.end → breaks text leaf.end ≡ false → result ≢ no_place
            → Has self.old self.new (IsFlowPart text slot depth self.old.start.index result) }
        ensures missed { (text : List ℕ) → IsOf text self.old → IsFlowLeaf text self.old leaf
            → next ≡ gaps.next text leaf.end → breaks text leaf.end ≡ false → result ≡ no_place
            → self.new.starved ≡ false → LeavesPart text slot depth self.old.start.index }
    {
        if at(self.text, next) != b':' {
            reach!(self.push_leaf(leaf));
            return self.flow_alone(next, slot);
        }
        if slot == Slot::Value {
            return NO_PLACE;
        }
        if next > self.start.index + LONGEST_KEY {
            return NO_PLACE;
        }
        if slot == Slot::Item {
            return self.flow_pair(leaf, next, depth);
        }
        reach!(self.push_leaf(leaf));
        next
    }

    // A pair within a sequence, which is a mapping.
    #[cycle(flow)]
    fn flow_pair(&mut self, leaf: Leaf, colon: usize, depth: usize) -> usize
        requires part { IsPart self.old.text.now leaf.begin leaf }
        requires begun { self.old.start.index ≤ leaf.end }
        requires here { IsHere self.old colon }
        requires within { colon < length self.old.text.now }
        ensures reached { Reaches self.old self.new colon result }
        ensures inside { result ≢ no_place → result < length self.old.text.now }
        ensures found { (text : List ℕ) → IsOf text self.old → IsFlowLeaf text self.old leaf
            → has_colon text self.old.start.index leaf.end ≡ true → colon ≡ gaps.next text leaf.end
            → breaks text leaf.end ≡ false → result ≢ no_place
            → Has self.old self.new (IsFlowItem text depth self.old.start.index result) }
        ensures missed { (text : List ℕ) → IsOf text self.old → IsFlowLeaf text self.old leaf
            → has_colon text self.old.start.index leaf.end ≡ true → colon ≡ gaps.next text leaf.end
            → breaks text leaf.end ≡ false → result ≡ no_place → self.new.starved ≡ false
            → LeavesItem text depth self.old.start.index }
    {
        if depth == 0 {
            return NO_PLACE;
        }
        let first = self.tape.entries.len();
        reach!(self.push_mapping_before(leaf.end));
        reach!(self.push_leaf(leaf));
        let next = reach!(self.flow_value(colon + 1, depth - 1));
        self.push_end(EntryKind::MappingEnd, spot(next), first, next)
    }

    // A plain text within brackets behind which a line ends, and what goes with it.
    #[inline(never)]
    fn flow_plain_lines(&mut self, from: usize, first: usize, second: usize, slot: Slot) -> usize
        requires part { (from ≤ first) × (first ≤ second) }
        requires begun { self.old.start.index ≤ first }
        requires here { IsHere self.old second }
        requires within { second < length self.old.text.now }
        ensures reached { Reaches self.old self.new second result }
        ensures inside { result ≢ no_place → result < length self.old.text.now }
        ensures found { (text : List ℕ) (depth : ℕ) → IsOf text self.old → IsBehindNames text true self.old from
            → IsBrokenLine text from first second → result ≢ no_place
            → Has self.old self.new (IsFlowPart text slot depth self.old.start.index result) }
        ensures missed { (text : List ℕ) → IsOf text self.old → IsBehindNames text true self.old from
            → IsBrokenLine text from first second → result ≡ no_place → self.new.starved ≡ false
            → LeavesNode text self.old.start.index }
    {
        let next = reach!(self.push_flow_lines(from, first, second));
        self.flow_no_key(next, slot)
    }

    // Adds the node as such a text, and gives the place of the next token. It goes on in the next line unless something
    // else stands there.
    #[inline(always)]
    fn push_flow_lines(&mut self, from: usize, first: usize, second: usize) -> usize
        requires part { (from ≤ first) × (first ≤ second) }
        requires begun { self.old.start.index ≤ first }
        requires here { IsHere self.old second }
        requires within { second < length self.old.text.now }
        ensures reached { Reaches self.old self.new second result }
        ensures inside { result ≢ no_place → result < length self.old.text.now }
        ensures found { is_text self.old.text.now ≡ true → IsBrokenLine self.old.text.now from first second
            → result ≢ no_place → at self.old.text.now result ≢ 58
            → AddsFlow self.old self.new from result }
        ensures missed { is_text self.old.text.now ≡ true → IsBrokenLine self.old.text.now from first second
            → (result ≡ no_place) ⊎ (at self.old.text.now result ≡ 58) → self.new.starved ≡ false
            → LeavesFlow self.old.text.now from }
    {
        let Ok(mut value) = Vec::from_slice(self.alloc, &self.text[from..first]) else {
            return self.starve();
        };
        let (mut end, mut next) = (first, second);
        let mut broken = true;
        'lines: while broken && !is_bracket(at(self.text, next)) {
            end = reach!(self.plain_line(&mut value, end, next, true));
            let line = self.line;
            next = reach!(self.flow_gap(end));
            broken = self.line != line;
        }
        self.push_scalar(value, ScalarStyle::Plain, end, next)
    }
}
