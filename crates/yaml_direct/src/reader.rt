//! A text, the line that is read, the node that begins, and the events that were made.
#![tactic(auto, using(crate::proofs::Growing::grows_on, crate::proofs::Growing::grows_same))]

ghost use Rattle.std.specs.Prelude.{◌≡◌, ◌≢◌, ◌+◌, ◌-◌, ◌^◌, ◌<◌, ◌≤◌, ◌&&◌, IfNone, IsTrue, false, length, not, true};
ghost use Rattle.std.specs.Option.{is_none};

use crate::byte::{is_mark, parts_documents};
use crate::column::reaches_column;
use crate::place::NO_PLACE;
use std::alloc::Global;
use yaml_tape::{Names, Spot, Tape};

// Reads a text. A place that is handed to its methods stands in the line that was begun last.
#[derive(Drop)]
pub(crate) struct Reader<'a> {
    pub(crate) alloc: Global,
    pub(crate) text: &'a [u8],
    // How many lines ended, and where the one behind them begins.
    pub(crate) line: usize,
    pub(crate) line_start: usize,
    // Whether each character is one byte.
    ascii: bool,
    // Where the node that is read begins, or what stands before it.
    pub(crate) start: Spot,
    // What stands before that node, and whether anything does.
    pub(crate) names: Names,
    pub(crate) named: bool,
    pub(crate) tape: Tape<'a>,
    // Whether memory ran out, or room on the tape.
    pub(crate) starved: bool,
    ghost inside: { line_start ≤ length text.now },
    ghost fewer: { line ≤ line_start },
    ghost same: { tape.text.now ≡ text.now },
    ghost held: { named ≡ not (is_none names.anchor && is_none names.tag) },
}

// The mark of a place.
#[inline(always)]
pub(crate) fn spot(index: usize) -> Spot
    ensures { (result.index ≡ index) × (result.late ≡ false) }
{
    Spot { index, late: false }
}

impl<'a> Reader<'a> {
    ghost use Rattle.yaml_direct.specs.Held.{IsUnnamed};
    ghost use Rattle.yaml_direct.specs.Places.{Grows, IsHere, Keeps, no_place};
    ghost use Rattle.yaml_direct.specs.Tokens.{IsCounted, IsLined};
    ghost use Rattle.yaml_grammar.specs.Bytes.{at, is_over, is_text};
    ghost use Rattle.yaml_grammar.specs.Gaps.{is_at, is_item, is_within};
    ghost use Rattle.std.specs.Prelude.{[], IfSome, take, true};
    ghost use Rattle.yaml_grammar.specs.Nodes.{end_mark};
    ghost use Rattle.yaml_tape.specs.OnTape.{position_at};
    ghost use Rattle.yaml_tape.specs.Pushes.{marked_on};

    // At the beginning of a text, whose first line begins in this place.
    pub(crate) fn new(alloc: Global, text: &'a [u8], from: usize, ascii: bool) -> Option<Reader<'a>>
        requires { from ≤ length text.now }
        ensures text { IfSome result (λ r. r.text.now ≡ text.now) }
        ensures begun { IfSome result (λ r. r.line_start ≡ from) }
        ensures empty { IfSome result (λ r. marked_on r.tape ≡ []) }
        ensures unnamed { IfSome result IsUnnamed }
        ensures none { IfNone result (2 ^ 32 ≤ length text.now) }
    {
        let tape = Tape::new(alloc, text)?;
        Some(Reader {
            alloc,
            text,
            line: 0,
            line_start: from,
            ascii,
            start: spot(0),
            names: Names {
                anchor: None,
                tag: None,
            },
            named: false,
            tape,
            starved: false,
        })
    }

    // What was put on the tape, which is empty then.
    pub(crate) fn take_tape(&mut self) -> Tape<'a>
        ensures text { self.new.text.now ≡ self.old.text.now }
        ensures line { self.new.line_start ≡ self.old.line_start }
        ensures of_text { result.text.now ≡ self.old.text.now }
        ensures taken { marked_on result ≡ marked_on self.old.tape }
        ensures none { marked_on self.new.tape ≡ [] }
        ensures names { self.new.names ≡ self.old.names }
    {
        self.tape.take(self.alloc)
    }

    // Memory ran out.
    #[cold]
    pub(crate) fn starve(&mut self) -> usize
        ensures none { result ≡ no_place }
        ensures starved { self.new.starved ≡ true }
        ensures kept { Keeps self.old self.new }
        ensures tape { self.new.tape ≡ self.old.tape }
        ensures names { self.new.names ≡ self.old.names }
    {
        self.starved = true;
        NO_PLACE
    }

    // A line ends right before this place.
    #[inline(always)]
    pub(crate) fn begin_line(&mut self, place: usize)
        requires forward { self.old.line_start < place }
        requires within { place ≤ length self.old.text.now }
        ensures text { self.new.text.now ≡ self.old.text.now }
        ensures begun { self.new.line_start ≡ place }
        ensures start { self.new.start ≡ self.old.start }
        ensures counted { self.new.line ≡ self.old.line + 1 }
        ensures names { self.new.names ≡ self.old.names }
        ensures tape { self.new.tape ≡ self.old.tape }
        ensures grows { Grows self.old self.new }
        ensures column { at self.old.text.now (place - 1) ≡ 10 → IsCounted self.new place }
    {
        self.line += 1;
        self.line_start = place;
    }

    // The mark at which a collection in this column ends, before the next token. Where the text has ended in a line
    // without a line feed, that line counts as ended, unless the collection stands further in.
    #[inline(always)]
    pub(crate) fn end_spot(&self, next: usize, column: usize) -> Spot
        ensures index { result.index ≡ next }
        ensures ended { position_at self.now.text.now result.index result.late
            ≡ end_mark self.now.text.now column next }
    {
        let late = next == self.text.len() && reaches_column(self.text, column);
        Spot { index: next, late }
    }

    // Whether the document ends before the next token.
    #[inline(always)]
    pub(crate) fn is_over(&self, next: usize) -> bool
        ensures inside { result ≡ false → next ≡ length self.now.text.now → ⊥ }
        ensures ends { result ≡ true → next ≢ self.now.line_start → next ≡ length self.now.text.now }
        ensures same { is_text self.now.text.now ≡ true → IsLined self.now next
            → result ≡ is_over self.now.text.now next }
    {
        next == self.text.len() || (next == self.line_start && parts_documents(self.text, next))
    }

    // Whether the next token stands in the column `least` at least, in this document.
    #[inline(always)]
    pub(crate) fn is_within(&self, next: usize, least: usize) -> bool
        requires { IsHere self.now next }
        ensures inside { IsTrue result → next < length self.now.text.now }
        ensures same { is_text self.now.text.now ≡ true → IsCounted self.now next
            → result ≡ is_within self.now.text.now least next }
    {
        next - self.line_start >= least && !self.is_over(next)
    }

    // Whether the next token stands in this column, in this document.
    #[inline(always)]
    pub(crate) fn is_at(&self, next: usize, column: usize) -> bool
        requires { IsHere self.now next }
        ensures inside { IsTrue result → next < length self.now.text.now }
        ensures same { is_text self.now.text.now ≡ true → IsCounted self.now next
            → result ≡ is_at self.now.text.now column next }
    {
        next - self.line_start == column && !self.is_over(next)
    }

    // Whether `-` stands here as an indicator, in this column.
    #[inline(always)]
    pub(crate) fn is_item(&self, next: usize, column: usize) -> bool
        requires { IsHere self.now next }
        ensures inside { IsTrue result → next < length self.now.text.now }
        ensures same { is_text self.now.text.now ≡ true → IsCounted self.now next
            → result ≡ is_item self.now.text.now column next }
    {
        is_mark(self.text, b'-', next) && next - self.line_start == column
    }

    // A node begins here.
    #[inline(always)]
    pub(crate) fn begin(&mut self, place: usize)
        requires { IsHere self.old place }
        ensures text { self.new.text.now ≡ self.old.text.now }
        ensures line { self.new.line_start ≡ self.old.line_start }
        ensures start { self.new.start.index ≡ place }
        ensures early { self.new.start.late ≡ false }
        ensures still { self.new.tape ≡ self.old.tape }
        ensures names { self.new.names ≡ self.old.names }
        ensures grows { Grows self.old self.new }
    {
        self.start = spot(place);
    }

    // Goes back to a line that begins there, behind so many lines: takes off all events behind so many.
    pub(crate) fn go_back(&mut self, count: usize, line: usize, line_start: usize)
        requires fewer { line ≤ line_start }
        requires inside { line_start ≤ length self.old.text.now }
        ensures text { self.new.text.now ≡ self.old.text.now }
        ensures line { self.new.line_start ≡ line_start }
        ensures names { self.new.names ≡ self.old.names }
        ensures events { marked_on self.new.tape ≡ take count (marked_on self.old.tape) }
        ensures starved { self.new.starved ≡ self.old.starved }
    {
        self.tape.cut(count);
        self.line = line;
        self.line_start = line_start;
    }

    // Takes off all events behind so many.
    pub(crate) fn take_back(&mut self, count: usize)
        ensures text { self.new.text.now ≡ self.old.text.now }
        ensures line { self.new.line_start ≡ self.old.line_start }
        ensures names { self.new.names ≡ self.old.names }
        ensures events { marked_on self.new.tape ≡ take count (marked_on self.old.tape) }
        ensures starved { self.new.starved ≡ self.old.starved }
    {
        self.tape.cut(count);
    }
}
