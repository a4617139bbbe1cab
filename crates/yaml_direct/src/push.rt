//! Events that a reader adds.
#![tactic(auto, using(crate::proofs::Growing::grows_on, crate::proofs::Growing::grows_same, crate::proofs::Growing::grows_pushed))]

ghost use Rattle.std.specs.Prelude.{◌≡◌, ◌≢◌, ◌≤◌, ◌++◌, IfSome, IsTrue, None, Some, [], false, length, replicate, slice_range};
ghost use Rattle.std.specs.Prelude.{true};
ghost use Rattle.yaml_direct.specs.Added.{Adds, AddsScalar, start_event};
ghost use Rattle.yaml_direct.specs.Held.{IsUnnamed};
ghost use Rattle.yaml_direct.specs.Places.{Grows, Keeps, no_place};
ghost use Rattle.yaml_tape.specs.OnTape.{bound_event, is_bound, names_at};
ghost use Rattle.yaml_base.specs.PlainEvent.{mapping_start};
ghost use Rattle.yaml_base.specs.declared.event.ScalarStyle.TheVariants as plain_style;
ghost use Rattle.yaml_tape.specs.Pushes.{IsPiece, marked_on, piece_of};

use crate::place::NO_PLACE;
use crate::reader::Reader;
use yaml_base::ScalarStyle;
use yaml_tape::{EntryKind, Names, Piece, Spot};

impl Reader<'_> {
    // What stands before the node, which then has it: its number on the tape, or 0.
    #[inline(never)]
    fn keep_names(&mut self) -> Option<u32>
        ensures kept { Keeps self.old self.new }
        ensures events { marked_on self.new.tape ≡ marked_on self.old.tape }
        ensures arena { self.new.tape.arena.items ≡ self.old.tape.arena.items }
        ensures named { IfSome result (λ id. id ≤ length self.new.tape.names.items) }
        ensures names { IfSome result (λ id. names_at self.new.tape.names.items id ≡ Some self.old.names) }
        ensures taken { IsUnnamed self.new }
    {
        self.named = false;
        let names = Names {
            anchor: self.names.anchor.take(),
            tag: self.names.tag.take(),
        };
        self.tape.keep_names(names)
    }

    // Adds what has no text and no names, and gives the place where reading goes on.
    #[inline(always)]
    pub(crate) fn push_bound(&mut self, kind: EntryKind, spot: Spot, next: usize) -> usize
        requires bound { IsTrue (is_bound kind) }
        requires within { spot.index ≤ length self.old.text.now }
        ensures kept { Keeps self.old self.new }
        ensures names { self.new.names ≡ self.old.names }
        ensures there { result ≢ no_place → result ≡ next }
        ensures starved { result ≡ no_place → next ≢ no_place → self.new.starved ≡ true }
        ensures added { result ≢ no_place → Adds self.old self.new (bound_event kind) spot }
    {
        if !self.tape.push_bound(kind, spot) {
            return self.starve();
        }
        next
    }

    // Adds the end of a collection whose start stands there on the tape.
    #[inline(always)]
    pub(crate) fn push_end(
        &mut self,
        kind: EntryKind,
        spot: Spot,
        start: usize,
        next: usize,
    ) -> usize
        requires bound { IsTrue (is_bound kind) }
        requires within { spot.index ≤ length self.old.text.now }
        ensures kept { Keeps self.old self.new }
        ensures names { self.new.names ≡ self.old.names }
        ensures there { result ≢ no_place → result ≡ next }
        ensures starved { result ≡ no_place → next ≢ no_place → self.new.starved ≡ true }
        ensures added { result ≢ no_place → Adds self.old self.new (bound_event kind) spot }
    {
        if !self.tape.push_end(kind, spot, start) {
            return self.starve();
        }
        next
    }

    // Adds the node as a scalar whose source ends at `end`.
    #[inline(always)]
    pub(crate) fn push_piece(
        &mut self,
        text: Piece,
        style: ScalarStyle,
        end: usize,
        next: usize,
    ) -> usize
        requires begun { self.old.start.index ≤ end }
        requires within { end ≤ length self.old.text.now }
        requires piece { IsPiece self.old.tape text }
        ensures kept { Keeps self.old self.new }
        ensures there { result ≢ no_place → result ≡ next }
        ensures starved { next ≢ no_place → result ≡ no_place → self.new.starved ≡ true }
        ensures added { result ≢ no_place
            → AddsScalar self.old self.new (piece_of self.old.tape text) style end }
    {
        if self.named {
            return self.push_named_piece(text, style, end, next);
        }
        let start = self.start;
        if !self.tape.push_scalar(start, text, style, end, 0) {
            return self.starve();
        }
        next
    }

    // The same with an anchor or a tag.
    #[inline(never)]
    fn push_named_piece(
        &mut self,
        text: Piece,
        style: ScalarStyle,
        end: usize,
        next: usize,
    ) -> usize
        requires begun { self.old.start.index ≤ end }
        requires within { end ≤ length self.old.text.now }
        requires piece { IsPiece self.old.tape text }
        ensures kept { Keeps self.old self.new }
        ensures there { result ≢ no_place → result ≡ next }
        ensures starved { next ≢ no_place → result ≡ no_place → self.new.starved ≡ true }
        ensures added { result ≢ no_place → AddsScalar self.old self.new (piece_of self.old.tape text) style end }
    {
        let Some(names) = self.keep_names() else {
            return self.starve();
        };
        let start = self.start;
        if !self.tape.push_scalar(start, text, style, end, names) {
            return self.starve();
        }
        next
    }

    // Adds the node as a scalar with a text that the source does not show.
    #[inline(never)]
    pub(crate) fn push_scalar(
        &mut self,
        value: Vec<u8>,
        style: ScalarStyle,
        end: usize,
        next: usize,
    ) -> usize
        requires begun { self.old.start.index ≤ end }
        requires within { end ≤ length self.old.text.now }
        ensures kept { Keeps self.old self.new }
        ensures there { result ≢ no_place → result ≡ next }
        ensures starved { next ≢ no_place → result ≡ no_place → self.new.starved ≡ true }
        ensures added { result ≢ no_place
            → AddsScalar self.old self.new value.items style end }
    {
        match self.tape.store(value.as_slice()) {
            Some(text) => self.push_piece(text, style, end, next),
            None => self.starve(),
        }
    }

    // Adds the node as a scalar with a text of the source.
    #[inline(always)]
    pub(crate) fn push_text(
        &mut self,
        from: usize,
        to: usize,
        style: ScalarStyle,
        end: usize,
        next: usize,
    ) -> usize
        requires part { from ≤ to }
        requires shown { to ≤ length self.old.text.now }
        requires begun { self.old.start.index ≤ end }
        requires within { end ≤ length self.old.text.now }
        ensures kept { Keeps self.old self.new }
        ensures there { result ≢ no_place → result ≡ next }
        ensures starved { result ≡ no_place → next ≢ no_place → self.new.starved ≡ true }
        ensures added { result ≢ no_place
            → AddsScalar self.old self.new (slice_range self.old.text.now from to) style end }
    {
        self.push_piece(
            Piece {
                from,
                to,
                stored: false,
            },
            style,
            end,
            next,
        )
    }

    // Adds the node as an empty scalar, whose source ends at `end`.
    #[inline(never)]
    pub(crate) fn push_nothing(&mut self, end: usize, next: usize) -> usize
        requires begun { self.old.start.index ≤ end }
        requires within { end ≤ length self.old.text.now }
        ensures kept { Keeps self.old self.new }
        ensures there { result ≢ no_place → result ≡ next }
        ensures starved { result ≡ no_place → next ≢ no_place → self.new.starved ≡ true }
        ensures added { result ≢ no_place → AddsScalar self.old self.new [] plain_style.Plain end }
    {
        self.push_text(end, end, ScalarStyle::Plain, end, next)
    }

    // Puts so many line feeds behind the texts that the source does not show.
    #[inline(always)]
    pub(crate) fn push_feeds(&mut self, count: usize) -> bool
        ensures kept { Keeps self.old self.new }
        ensures events { marked_on self.new.tape ≡ marked_on self.old.tape }
        ensures names { self.new.names ≡ self.old.names }
        ensures line { result ≡ true
            → self.new.tape.arena.items ≡ self.old.tape.arena.items ++ replicate count 10 }
    {
        self.tape.append_repeated(b'\n', count)
    }

    // Adds the start of a collection with the names of this number.
    #[inline(always)]
    fn push_start(&mut self, kind: EntryKind, names: u32) -> bool
        requires begun { self.old.start.index ≤ length self.old.text.now }
        requires named { names ≤ length self.old.tape.names.items }
        ensures kept { Keeps self.old self.new }
        ensures names { self.new.names ≡ self.old.names }
        ensures starved { self.new.starved ≡ self.old.starved }
        ensures added { result ≡ true → Adds self.old self.new
            (start_event kind (names_at self.old.tape.names.items names)) self.old.start }
    {
        let start = self.start;
        if kind == EntryKind::SequenceStart {
            self.tape.push_sequence(start, names)
        } else {
            self.tape.push_mapping(start, names)
        }
    }

    // Adds the node as a collection, which begins so.
    #[inline(never)]
    pub(crate) fn push_collection(&mut self, kind: EntryKind, next: usize) -> usize
        requires begun { self.old.start.index ≤ length self.old.text.now }
        ensures kept { Keeps self.old self.new }
        ensures there { result ≢ no_place → result ≡ next }
        ensures starved { result ≡ no_place → next ≢ no_place → self.new.starved ≡ true }
        ensures added { result ≢ no_place → Adds self.old self.new (start_event kind (Some self.old.names)) self.old.start }
        ensures unnamed { result ≢ no_place → IsUnnamed self.new }
    {
        let mut names = 0;
        if self.named {
            match self.keep_names() {
                Some(id) => names = id,
                None => return self.starve(),
            }
        }
        if !self.push_start(kind, names) {
            return self.starve();
        }
        next
    }

    // Adds a mapping that begins with the node, which is its first key and keeps its anchor and its tag.
    #[inline(always)]
    pub(crate) fn push_mapping_before(&mut self, next: usize) -> usize
        requires begun { self.old.start.index ≤ length self.old.text.now }
        ensures kept { Keeps self.old self.new }
        ensures there { result ≢ no_place → result ≡ next }
        ensures starved { result ≡ no_place → next ≢ no_place → self.new.starved ≡ true }
        ensures names { self.new.names ≡ self.old.names }
        ensures added { result ≢ no_place → Adds self.old self.new (mapping_start None None) self.old.start }
    {
        let start = self.start;
        if !self.tape.push_mapping(start, 0) {
            return self.starve();
        }
        next
    }
}
