//! Keys that stand in one line.
#![tactic(auto, using(crate::proofs::Growing::grows_on, crate::proofs::Growing::grows_same))]

ghost use Rattle.std.specs.Prelude.{false, true, ◌≡◌, ◌≢◌, ◌+◌, ◌-◌, ◌^◌, ◌<◌, ◌≤◌, ◌&&◌, not, length, ℕ, List, Some};
ghost use Rattle.yaml_direct.specs.Added.{AddsPlainKey};
ghost use Rattle.yaml_direct.specs.Bytes.{AreBlanks, at, is_gap, stops_plain};
ghost use Rattle.yaml_direct.specs.Held.{IsUnnamed, names_of};
ghost use Rattle.yaml_direct.specs.InBrackets.{Has, IsBehindNames, IsOf, opens};
ghost use Rattle.yaml_direct.specs.Keys.{IsKey, begins_content};
ghost use Rattle.yaml_direct.specs.LeftByColumns.{IsBehindBlanks, LeavesKey};
ghost use Rattle.yaml_direct.specs.Places.{IsHere, Keeps, Reaches, no_place};
ghost use Rattle.yaml_direct.specs.Tokens.{EndsKey};
ghost use Rattle.yaml_grammar.specs.Bytes.{is_mark, is_over, is_text, parts_documents};
ghost use Rattle.yaml_grammar.specs.Gaps.{breaks, next};
ghost use Rattle.yaml_grammar.specs.Names.{names_at};
ghost use Rattle.yaml_grammar.specs.Plain.{begins_plain};

use crate::byte::{at, is_mark, is_one_line, spaces_end};
use crate::leaf::{LeafKind, find_leaf};
use crate::place::{NO_PLACE, reach};
use crate::plain::{begins_plain, plain_end};
use crate::reader::Reader;
use yaml_base::ScalarStyle;

// How far a key's `:` may be behind its beginning.
pub(crate) const LONGEST_KEY: usize = 1024;

// The place of the `:` behind a leaf that ends here, if that is a key, or none.
#[inline(always)]
pub(crate) fn colon_behind(text: &[u8], end: usize) -> usize
    requires { end ≤ length text.now }
    ensures within { result ≢ no_place → (end ≤ result) × (result < length text.now) }
    ensures blanks { result ≢ no_place → AreBlanks text.now end result }
    ensures mark { result ≢ no_place → (at text.now result ≡ 58) × (is_gap text.now (result + 1) ≡ true) }
    ensures found { is_text text.now ≡ true → result ≢ no_place → EndsKey text.now end result }
    ensures missed { is_text text.now ≡ true → length text.now < 2 ^ 32 → result ≡ no_place
        → (not (breaks text.now end) && is_mark text.now 58 (next text.now end)) ≡ false }
{
    let colon = spaces_end(text, end);
    if is_mark(text, b':', colon) {
        colon
    } else {
        NO_PLACE
    }
}

impl Reader<'_> {
    // A key in a line, and where its `:` stands.
    #[inline(always)]
    pub(crate) fn key(&mut self, place: usize, depth: usize) -> usize
        requires start { self.old.start.index ≡ place }
        requires here { IsHere self.old place }
        requires begun { self.old.start.index ≤ place }
        ensures reached { Reaches self.old self.new place result }
        ensures inside { result ≢ no_place → result < length self.old.text.now }
        ensures found { (text : List ℕ) → IsOf text self.old → IsUnnamed self.old → self.old.start.late ≡ false
            → is_over text place ≡ false → result ≢ no_place
            → Has self.old self.new (IsKey text depth place result) }
        ensures missed { (text : List ℕ) → IsOf text self.old → IsUnnamed self.old → self.old.start.late ≡ false
            → is_over text place ≡ false → at text place ≢ 32 → result ≡ no_place → self.new.starved ≡ false
            → LeavesKey text depth place }
    {
        if begins_plain(self.text, false, place) {
            self.plain_key(place)
        } else {
            self.other_key(place, depth)
        }
    }

    // A key that is plain text.
    #[inline(always)]
    fn plain_key(&mut self, place: usize) -> usize
        requires here { IsHere self.old place }
        requires begun { self.old.start.index ≡ place }
        requires goes { stops_plain self.old.text.now false place ≡ false }
        requires some { at self.old.text.now place ≢ 32 }
        ensures reached { Reaches self.old self.new place result }
        ensures inside { result ≢ no_place → result < length self.old.text.now }
        ensures read { result ≢ no_place → AddsPlainKey self.old self.new place result }
        ensures found { (text : List ℕ) (depth : ℕ) → IsOf text self.old → IsUnnamed self.old
            → self.old.start.late ≡ false → begins_plain text false place ≡ true → result ≢ no_place
            → Has self.old self.new (IsKey text depth place result) }
        ensures missed { (text : List ℕ) (depth : ℕ) → IsOf text self.old → IsUnnamed self.old
            → self.old.start.late ≡ false → begins_plain text false place ≡ true → result ≡ no_place
            → self.new.starved ≡ false → LeavesKey text depth place }
    {
        let text = self.text;
        let end = plain_end(text, false, place);
        let colon = reach!(colon_behind(text, end));
        if colon > place + LONGEST_KEY {
            return NO_PLACE;
        }
        self.push_text(place, end, ScalarStyle::Plain, end, colon)
    }

    // A key that is nothing but an anchor or a tag, which end here.
    #[inline(never)]
    fn empty_key(&mut self, from: usize, end: usize, colon: usize) -> usize
        requires here { IsHere self.old from }
        requires begun { self.old.start.index ≤ from }
        requires part { (from ≤ end) × (end ≤ colon) }
        requires within { colon < length self.old.text.now }
        ensures reached { Reaches self.old self.new from result }
        ensures inside { result ≢ no_place → result < length self.old.text.now }
        ensures found { (text : List ℕ) (depth : ℕ) → IsOf text self.old → self.old.start.index ≡ from
            → names_at text false from ≡ Some (names_of self.old, end) → from < end → self.old.start.late ≡ false
            → EndsKey text end colon → result ≢ no_place → Has self.old self.new (IsKey text depth from result) }
        ensures missed { (text : List ℕ) (depth : ℕ) → IsOf text self.old → self.old.start.index ≡ from
            → names_at text false from ≡ Some (names_of self.old, end) → EndsKey text end colon → result ≡ no_place
            → self.new.starved ≡ false → LeavesKey text depth from }
    {
        if colon > from + LONGEST_KEY {
            return NO_PLACE;
        }
        self.push_text(end, end, ScalarStyle::Plain, end, colon)
    }

    // The same where it is no plain text or has an anchor or a tag.
    #[inline(never)]
    fn other_key(&mut self, from: usize, depth: usize) -> usize
        requires here { IsHere self.old from }
        requires begun { self.old.start.index ≤ from }
        ensures reached { Reaches self.old self.new from result }
        ensures inside { result ≢ no_place → result < length self.old.text.now }
        ensures found { (text : List ℕ) → IsOf text self.old → IsUnnamed self.old → self.old.start.index ≡ from
            → self.old.start.late ≡ false → is_over text from ≡ false → result ≢ no_place
            → Has self.old self.new (IsKey text depth from result) }
        ensures missed { (text : List ℕ) → IsOf text self.old → IsUnnamed self.old → self.old.start.index ≡ from
            → self.old.start.late ≡ false → is_over text from ≡ false → at text from ≢ 32 → result ≡ no_place
            → self.new.starved ≡ false → LeavesKey text depth from }
    {
        if !matches!(at(self.text, from), b'&' | b'!') {
            return self.content_key(from, from, depth);
        }
        let end = reach!(self.properties(from, false));
        let colon = colon_behind(self.text, end);
        if colon != NO_PLACE {
            return self.empty_key(from, end, colon);
        }
        let place = spaces_end(self.text, end);
        self.content_key(from, place, depth)
    }

    // The content of a key, which begins here or behind its anchor and its tag.
    fn content_key(&mut self, from: usize, place: usize, depth: usize) -> usize
        requires here { IsHere self.old from }
        requires begun { self.old.start.index ≤ from }
        requires part { (from ≤ place) × (place ≤ length self.old.text.now) }
        ensures reached { Reaches self.old self.new from result }
        ensures inside { result ≢ no_place → result < length self.old.text.now }
        ensures found { (text : List ℕ) → IsOf text self.old → self.old.start.index ≡ from
            → (begins_content (at text place) ≡ true → IsBehindNames text false self.old place)
            → parts_documents text place ≡ false → result ≢ no_place
            → Has self.old self.new (IsKey text depth from result) }
        ensures missed { (text : List ℕ) → IsOf text self.old → self.old.start.index ≡ from
            → self.old.start.late ≡ false → IsBehindBlanks text self.old place → parts_documents text place ≡ false
            → result ≡ no_place → self.new.starved ≡ false → LeavesKey text depth from }
    {
        if matches!(at(self.text, place), b'[' | b'{') {
            return self.brackets_key(from, place, depth);
        }
        let Some(leaf) = find_leaf(self.text, false, place) else {
            return NO_PLACE;
        };
        if let LeafKind::Open(_) = leaf.kind {
            return NO_PLACE;
        }
        let colon = reach!(colon_behind(self.text, leaf.end));
        if colon > from + LONGEST_KEY {
            return NO_PLACE;
        }
        reach!(self.push_leaf(leaf));
        colon
    }

    // A key that is a collection between brackets, which begins here or behind its anchor and its tag.
    #[inline(never)]
    fn brackets_key(&mut self, from: usize, place: usize, depth: usize) -> usize
        requires here { IsHere self.old from }
        requires begun { self.old.start.index ≤ from }
        requires part { from ≤ place }
        requires within { place < length self.old.text.now }
        ensures reached { Reaches self.old self.new from result }
        ensures inside { result ≢ no_place → result < length self.old.text.now }
        ensures found { (text : List ℕ) → IsOf text self.old → self.old.start.index ≡ from
            → IsBehindNames text false self.old place → opens (at text place) ≡ true → result ≢ no_place
            → Has self.old self.new (IsKey text depth from result) }
        ensures missed { (text : List ℕ) → IsOf text self.old → self.old.start.index ≡ from
            → IsBehindNames text false self.old place → opens (at text place) ≡ true → result ≡ no_place
            → self.new.starved ≡ false → LeavesKey text depth from }
    {
        let end = reach!(self.flow(place, depth));
        let colon = reach!(colon_behind(self.text, end));
        if colon > from + LONGEST_KEY {
            return NO_PLACE;
        }
        if !is_one_line(self.text, from, colon) {
            return NO_PLACE;
        }
        colon
    }
}
