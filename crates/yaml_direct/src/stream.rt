//! A stream's start and end, and one document of it.
#![tactic(auto, using(crate::proofs::Growing::grows_on, crate::proofs::Growing::grows_same))]

ghost use Rattle.std.specs.Prelude.{◌≡◌, ◌≢◌, ◌++◌, ◌∷◌, ◌<◌, ◌≤◌, ◌⊎◌, [], IfSome, List, None, Some, false, length, true, ℕ};
ghost use Rattle.yaml_base.specs.PlainEvent.{stream_end, stream_start};
ghost use Rattle.yaml_direct.specs.Added.{Adds};
ghost use Rattle.yaml_direct.specs.Bytes.{is_gap};
ghost use Rattle.yaml_direct.specs.ByColumns.{Reads};
ghost use Rattle.yaml_direct.specs.Documents.{AddsDocument, AddsEnd};
ghost use Rattle.yaml_direct.specs.Held.{IsUnnamed};
ghost use Rattle.yaml_direct.specs.Gaps.{begins_token};
ghost use Rattle.yaml_direct.specs.LeftDocuments.{LeavesContent, LeavesDirective, NoDocument, NoRoot};
ghost use Rattle.yaml_direct.specs.InBrackets.{IsOf};
ghost use Rattle.yaml_direct.specs.Places.{IsHere, Reaches, no_place};
ghost use Rattle.yaml_direct.specs.Standing.{IsContent, IsContentAt, IsDirective, IsDocument, IsRoot};
ghost use Rattle.yaml_direct.specs.Tokens.{HasNoToken, IsAmidLine, IsCounted};
ghost use Rattle.yaml_grammar.specs.Bytes.{column, is_over, is_text};
ghost use Rattle.yaml_grammar.specs.Documents as grammar;
ghost use Rattle.yaml_grammar.specs.Documents.{Earlier, ends_document, none, takes_directive};
ghost use Rattle.yaml_grammar.specs.Gaps.{next};
ghost use Rattle.yaml_grammar.specs.Nodes.{end_mark};
ghost use Rattle.yaml_tape.specs.Pushes.{marked_on};

use crate::block::Room;
use crate::byte::{at, begins_document, spaces_end};
use crate::place::{NO_PLACE, reach};
use crate::reader::{Reader, spot};
use yaml_tape::EntryKind;

// How many collections may be open at once.
const NESTINGS: usize = 128;

// The place behind a directive `%YAML 1.1` or `%YAML 1.2`, if one stands here.
fn directive_end(text: &[u8], place: usize) -> Option<usize>
    requires { place < length text.now }
    ensures within { IfSome result (λ end. (place < end) × (end ≤ length text.now)) }
    ensures read { column text.now place ≡ 0 → IfSome result (λ end. grammar.directive_end text.now place ≡ Some end) }
    ensures missed { result ≡ None → grammar.directive_end text.now place ≡ None }
{
    if !text[place..].starts_with(b"%YAML ") {
        return None;
    }
    let number = spaces_end(text, place + 6);
    if at(text, number) == b'1'
        && at(text, number + 1) == b'.'
        && matches!(at(text, number + 2), b'1' | b'2')
    {
        Some(number + 3)
    } else {
        None
    }
}

impl Reader<'_> {
    // The start of the stream, whose first line begins in this place, and the place of the first token.
    pub(crate) fn begin_stream(&mut self, from: usize) -> usize
        requires { IsHere self.old from }
        ensures reached { Reaches self.old self.new from result }
        ensures begun { result ≢ no_place → Adds self.old self.new stream_start (record { index = 0; late = false }) }
        ensures names { self.new.names ≡ self.old.names }
        ensures first { is_text self.old.text.now ≡ true → result ≢ no_place → IsCounted self.old from
            → (result ≡ next self.old.text.now from) × IsCounted self.new result }
        ensures token { result ≢ no_place → begins_token self.old.text.now result ≡ true }
        ensures missed { is_text self.old.text.now ≡ true → result ≡ no_place → self.new.starved ≡ false
            → HasNoToken self.old.text.now from }
    {
        reach!(self.push_bound(EntryKind::StreamStart, spot(0), from));
        self.gap(from)
    }

    // The end of the stream.
    pub(crate) fn end_stream(&mut self) -> usize
        ensures reached { Reaches self.old self.new (length self.old.text.now) result }
        ensures ended { result ≢ no_place → AddsEnd (marked_on self.old.tape) (marked_on self.new.tape) }
        ensures last { result ≢ no_place → marked_on self.new.tape ≡ marked_on self.old.tape
            ++ (stream_end, end_mark self.old.text.now 0 (length self.old.text.now)) ∷ [] }
    {
        let end = self.text.len();
        let mark = self.end_spot(end, 0);
        self.push_bound(EntryKind::StreamEnd, mark, end)
    }

    // A document whose first token stands here, and the place of the first token behind it. `bare` tells whether it may
    // have no `---`, and `directed` whether it may have a directive.
    #[tactic(auto, using(crate::proofs::Growing::grows_on, crate::proofs::Growing::document_added))]
    pub(crate) fn document(&mut self, place: usize, bare: bool, directed: bool) -> usize
        requires { IsHere self.old place }
        ensures reached { Reaches self.old self.new place result }
        ensures added { result ≢ no_place → AddsDocument (marked_on self.old.tape) (marked_on self.new.tape) }
        ensures found { (text : List ℕ) (earlier : Earlier) → IsOf text self.old → IsUnnamed self.old
            → IsCounted self.old place → place < length text → ends_document text place ≡ false
            → (bare ≡ true → earlier ≡ none) → (directed ≡ true → takes_directive earlier ≡ true)
            → result ≢ no_place → Reads self.old self.new result (IsDocument text earlier place result) }
        ensures missed { (text : List ℕ) (earlier : Earlier) → IsOf text self.old → IsUnnamed self.old
            → IsCounted self.old place → place < length text → ends_document text place ≡ false
            → begins_token text place ≡ true → (earlier ≡ none → bare ≡ true)
            → (takes_directive earlier ≡ true → directed ≡ true) → result ≡ no_place → self.new.starved ≡ false
            → NoDocument text earlier place }
    {
        reach!(self.push_bound(EntryKind::DocumentStart, spot(place), place));
        let next = reach!(self.directed_content(place, bare, directed));
        let mark = self.end_spot(next, 0);
        self.push_bound(EntryKind::DocumentEnd, mark, next)
    }

    // What a document holds, behind its directive and its `---` if it has them.
    fn directed_content(&mut self, place: usize, bare: bool, directed: bool) -> usize
        requires { IsHere self.old place }
        ensures reached { Reaches self.old self.new place result }
        ensures found { (text : List ℕ) (earlier : Earlier) → IsOf text self.old → IsUnnamed self.old
            → IsCounted self.old place → place < length text → ends_document text place ≡ false
            → (bare ≡ true → earlier ≡ none) → (directed ≡ true → takes_directive earlier ≡ true)
            → result ≢ no_place → Reads self.old self.new result (IsContent text earlier place result) }
        ensures missed { (text : List ℕ) (earlier : Earlier) → IsOf text self.old → IsUnnamed self.old
            → IsCounted self.old place → place < length text → ends_document text place ≡ false
            → begins_token text place ≡ true → (earlier ≡ none → bare ≡ true)
            → (takes_directive earlier ≡ true → directed ≡ true) → result ≡ no_place → self.new.starved ≡ false
            → NoDocument text earlier place }
    {
        let start = reach!(self.directives(place, directed));
        let next = reach!(self.content_at(start, bare, place));
        if !self.is_over(next) {
            return NO_PLACE;
        }
        next
    }

    // What a document holds that begins at this place, from its `---` on, or from there on where it may be bare.
    fn content_at(&mut self, start: usize, bare: bool, place: usize) -> usize
        requires { IsHere self.old start }
        ensures reached { Reaches self.old self.new start result }
        ensures found { (text : List ℕ) → IsOf text self.old → IsUnnamed self.old → IsCounted self.old start
            → place < length text → ends_document text place ≡ false → result ≢ no_place
            → IsContentAt text bare place self.old self.new start result }
        ensures missed { (text : List ℕ) → IsOf text self.old → IsUnnamed self.old → IsCounted self.old start
            → (start ≡ place → begins_token text start ≡ true) → result ≡ no_place → self.new.starved ≡ false
            → LeavesContent text bare place start }
    {
        if start == self.line_start && begins_document(self.text, start) {
            return self.marked_content(start + 3);
        }
        if bare && start == place {
            return self.node(start, 0, Room::Item, NESTINGS);
        }
        NO_PLACE
    }

    // Steps over a directive, if one stands here.
    fn directives(&mut self, place: usize, directed: bool) -> usize
        requires { IsHere self.old place }
        ensures reached { Reaches self.old self.new place result }
        ensures found { is_text self.old.text.now ≡ true → IsCounted self.old place → result ≢ no_place
            → ((result ≡ place) × (self.new ≡ self.old))
            ⊎ ((directed ≡ true) × IsDirective self.old self.new place result) }
        ensures none { is_text self.old.text.now ≡ true → IsCounted self.old place → place < length self.old.text.now
            → result ≡ place → grammar.directive_end self.old.text.now place ≡ None }
        ensures missed { is_text self.old.text.now ≡ true → IsCounted self.old place → place < length self.old.text.now
            → result ≡ no_place → LeavesDirective self.old.text.now directed place }
    {
        if at(self.text, place) != b'%' || place != self.line_start {
            return place;
        }
        match directive_end(self.text, place) {
            Some(end) if directed => self.margin(end),
            _ => NO_PLACE,
        }
    }

    // What stands behind `---`: in its line, in a later one, or nothing.
    fn marked_content(&mut self, behind: usize) -> usize
        requires { IsHere self.old behind }
        ensures reached { Reaches self.old self.new behind result }
        ensures found { (text : List ℕ) → IsOf text self.old → IsUnnamed self.old → IsAmidLine self.old behind
            → result ≢ no_place → Reads self.old self.new result (IsRoot text behind result) }
        ensures missed { (text : List ℕ) → IsOf text self.old → IsUnnamed self.old → IsAmidLine self.old behind
            → is_gap text behind ≡ true → result ≡ no_place → self.new.starved ≡ false → NoRoot text behind }
    {
        let line = self.line;
        let next = reach!(self.gap(behind));
        if self.is_over(next) {
            self.start = self.end_spot(next, 0);
            return self.push_nothing(next, next);
        }
        if self.line == line {
            return self.node(next, 0, Room::Value, NESTINGS);
        }
        self.node(next, 0, Room::Item, NESTINGS)
    }
}
