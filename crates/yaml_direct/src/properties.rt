//! What stands before a node: an anchor and a tag.
#![tactic(auto, using(crate::proofs::Growing::grows_on, crate::proofs::Growing::grows_same))]

ghost use Rattle.std.specs.Prelude.{◌≡◌, ◌≢◌, ◌+◌, ◌<◌, ◌≤◌, ◌&&◌, ◌||◌, ◌==◌, IfSome, IsTrue, None, Some, codes, drop, false};
ghost use Rattle.std.specs.Prelude.{is_none, length, slice_range, true};
ghost use Rattle.yaml_direct.specs.Held.{IsUnnamed, ReadsTag, names_of};
ghost use Rattle.yaml_direct.specs.Places.{Keeps, no_place};
ghost use Rattle.yaml_grammar.specs.Bytes.{at, is_mark, is_one_of, is_text};
ghost use Rattle.yaml_grammar.specs.Names.{count_while, ends_name, is_name_byte, name_end, names_at, one_name, tag_at};

use crate::byte::{at, is_gap, is_mark, spaces_end};
use crate::place::{NO_PLACE, reach};
use crate::reader::Reader;
use crate::tag::{joined, tag_at};
use yaml_base::Anchor;

// Whether this byte may stand in a name.
#[inline(always)]
pub(crate) fn is_word(byte: u8) -> bool
    ensures { result ≡ is_name_byte byte }
{
    byte.is_ascii_alphanumeric() || byte == b'_' || byte == b'-'
}

// Where the bytes end that may stand in a name.
fn word_end(text: &[u8], from: usize) -> usize
    requires { from ≤ length text.now }
    ensures forward { from ≤ result }
    ensures within { result ≤ length text.now }
    ensures read { result ≡ from + count_while is_name_byte (drop from text.now) }
{
    for (count, byte) in text[from..].iter().enumerate() {
        if !is_word(*byte) {
            return from + count;
        }
    }
    text.len()
}

// Whether a name may end in brackets before this byte.
fn ends_in_brackets(flow: bool, byte: u8) -> bool
    ensures { result ≡ (flow && is_one_of (codes ",]}") byte) }
{
    flow && matches!(byte, b',' | b']' | b'}')
}

// Whether a name may end here.
fn ends_name(text: &[u8], flow: bool, place: usize) -> bool
    ensures { is_text text.now ≡ true
        → result ≡ (ends_name flow (at text.now place) || is_mark text.now 58 place) }
{
    if is_gap(text, place) {
        return true;
    }
    if ends_in_brackets(flow, at(text, place)) {
        return true;
    }
    is_mark(text, b':', place)
}

// Where the name ends that begins here, if it has a due end.
pub(crate) fn name_end(text: &[u8], flow: bool, from: usize) -> Option<usize>
    requires { from ≤ length text.now }
    ensures within { IfSome result (λ end. (from < end) × (end ≤ length text.now)) }
    ensures read { is_text text.now ≡ true → result ≡ name_end text.now flow from }
{
    let place = word_end(text, from);
    if place == from {
        return None;
    }
    if !ends_name(text, flow, place) {
        return None;
    }
    Some(place)
}

impl<'a> Reader<'a> {
    // Reads the anchor that stands here, and gives the place behind.
    fn anchor(&mut self, from: usize, flow: bool) -> usize
        requires { from < length self.old.text.now }
        ensures kept { Keeps self.old self.new }
        ensures still { self.new.tape ≡ self.old.tape }
        ensures forward { result ≢ no_place → (from < result) × (result ≤ length self.old.text.now) }
        ensures found { is_text self.old.text.now ≡ true → result ≢ no_place
            → (name_end self.old.text.now flow (from + 1) ≡ Some result) × (names_of self.new ≡ record {
              anchor = Some (slice_range self.old.text.now (from + 1) result);
              tag = self.old.names.tag;
            }) }
        ensures missed { is_text self.old.text.now ≡ true → result ≡ no_place → self.new.starved ≡ false
            → name_end self.old.text.now flow (from + 1) ≡ None }
    {
        let Some(end) = name_end(self.text, flow, from + 1) else {
            return NO_PLACE;
        };
        match Vec::from_slice(self.alloc, &self.text[from + 1..end]) {
            Ok(name) => {
                self.names.anchor = Some(Anchor::new(name));
                self.named = true;
                end
            }
            Err(_) => self.starve(),
        }
    }

    // Reads the tag that stands here, and gives the place behind.
    fn tag(&mut self, from: usize, flow: bool) -> usize
        requires { from < length self.old.text.now }
        ensures kept { Keeps self.old self.new }
        ensures still { self.new.tape ≡ self.old.tape }
        ensures forward { result ≢ no_place → (from < result) × (result ≤ length self.old.text.now) }
        ensures found { is_text self.old.text.now ≡ true → result ≢ no_place
            → ReadsTag self.old self.new flow from result }
        ensures missed { is_text self.old.text.now ≡ true → result ≡ no_place → self.new.starved ≡ false
            → tag_at self.old.text.now flow from ≡ None }
    {
        let text = self.text;
        let Some(written) = tag_at(text, flow, from) else {
            return NO_PLACE;
        };
        match joined(
            self.alloc,
            written.handle.prefix(),
            &text[written.from..written.text_end],
        ) {
            Ok(Some(tag)) => {
                self.names.tag = Some(tag);
                self.named = true;
                written.end
            }
            Ok(None) => NO_PLACE,
            Err(_) => self.starve(),
        }
    }

    // Whether an anchor begins here, and the node has none yet.
    fn begins_anchor(&self, place: usize) -> bool
        ensures within { IsTrue result → place < length self.now.text.now }
        ensures read { result ≡ (at self.now.text.now place == 38 && is_none self.now.names.anchor) }
    {
        at(self.text, place) == b'&' && self.names.anchor.is_none()
    }

    // Whether a tag begins here, and the node has none yet.
    fn begins_tag(&self, place: usize) -> bool
        ensures within { IsTrue result → place < length self.now.text.now }
        ensures read { result ≡ (at self.now.text.now place == 33 && is_none self.now.names.tag) }
    {
        at(self.text, place) == b'!' && self.names.tag.is_none()
    }

    // Reads an anchor or a tag that stands behind spaces, if the node has none yet, and gives the place behind, or else
    // the same.
    fn property(&mut self, from: usize, flow: bool) -> usize
        requires { from ≤ length self.old.text.now }
        ensures kept { Keeps self.old self.new }
        ensures still { self.new.tape ≡ self.old.tape }
        ensures forward { result ≢ no_place → (from ≤ result) × (result ≤ length self.old.text.now) }
        ensures found { is_text self.old.text.now ≡ true → result ≢ no_place
            → one_name self.old.text.now flow (names_of self.old, from) ≡ Some (names_of self.new, result) }
        ensures missed { is_text self.old.text.now ≡ true → result ≡ no_place → self.new.starved ≡ false
            → one_name self.old.text.now flow (names_of self.old, from) ≡ None }
    {
        let place = spaces_end(self.text, from);
        if self.begins_anchor(place) {
            return self.anchor(place, flow);
        }
        if self.begins_tag(place) {
            return self.tag(place, flow);
        }
        from
    }

    // Reads what stands before a node, which begins so: an anchor and a tag, in either order.
    pub(crate) fn properties(&mut self, from: usize, flow: bool) -> usize
        requires { from ≤ length self.old.text.now }
        ensures kept { Keeps self.old self.new }
        ensures still { self.new.tape ≡ self.old.tape }
        ensures forward { result ≢ no_place → (from ≤ result) × (result ≤ length self.old.text.now) }
        ensures found { is_text self.old.text.now ≡ true → IsUnnamed self.old → result ≢ no_place
            → names_at self.old.text.now flow from ≡ Some (names_of self.new, result) }
        ensures missed { is_text self.old.text.now ≡ true → IsUnnamed self.old → result ≡ no_place
            → self.new.starved ≡ false → names_at self.old.text.now flow from ≡ None }
    {
        let end = reach!(self.property(from, flow));
        self.property(end, flow)
    }
}
