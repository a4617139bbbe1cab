//! Blocks of text behind `|` or `>`.
#![tactic(auto, using(crate::proofs::Growing::grows_on, crate::proofs::Growing::grows_same))]

ghost use Rattle.std.specs.Prelude.{◌≡◌, ◌≢◌, ◌+◌, ◌-◌, ◌++◌, ◌<◌, ◌≤◌, false, length, replicate, true};
ghost use Rattle.yaml_direct.specs.Added.{AddsBlock, LeavesBlock, begins_block};
ghost use Rattle.yaml_direct.specs.BlockHeads.{chomping_as};
ghost use Rattle.yaml_direct.specs.BlockRows.{EndsAtTab, HasNoBlock, IsIndented, ReadsBlock, ReadsEmpty, ReadsRows};
ghost use Rattle.yaml_direct.specs.BlockRows.{kept_feeds};
ghost use Rattle.yaml_direct.specs.Bytes.{at};
ghost use Rattle.yaml_direct.specs.Blocks.{begins_blank, joins, joint};
ghost use Rattle.yaml_direct.specs.Gaps.{IsLineEnd};
ghost use Rattle.yaml_direct.specs.Places.{Grows, IsHere, IsLonger, Keeps, Reaches, no_place};
ghost use Rattle.yaml_direct.specs.Tokens.{IsLineBegin};
ghost use Rattle.yaml_grammar.specs.Bytes.{is_text};
ghost use Rattle.yaml_tape.specs.Pushes.{marked_on};

use crate::byte::{at, feed_at, line_end};
use crate::header::{Chomping, Header, block_style, indentation, read_header};
use crate::place::{NO_PLACE, reach};
use crate::reader::Reader;
use yaml_tape::Piece;

// Empty lines: how many, and the place behind them and behind the spaces of the next line, as many as the block is
// far in.
#[derive(Clone, Copy)]
struct EmptyLines {
    count: usize,
    // Where the line behind them begins.
    line: usize,
    // Where its text begins.
    place: usize,
}

// Where the spaces end that begin a line, up to so many.
#[inline(always)]
fn indentation_end(text: &[u8], line: usize, indent: usize) -> usize
    requires { line ≤ length text.now }
    ensures forward { line ≤ result }
    ensures within { result ≤ length text.now }
    ensures read { IsIndented text.now indent line result }
{
    for (count, byte) in text[line..].iter().enumerate() {
        if count == indent || *byte != b' ' {
            return line + count;
        }
    }
    text.len()
}

// The empty lines here.
#[inline(always)]
fn empties(text: &[u8], from: usize, indent: usize) -> EmptyLines
    requires { from ≤ length text.now }
    ensures places { (result.line ≤ result.place) × (result.place ≤ length text.now) × (from ≤ result.line) }
    ensures counted { from + result.count ≤ result.line }
    ensures feed { at text.now (from - 1) ≡ 10 → at text.now (result.line - 1) ≡ 10 }
    ensures read { is_text text.now ≡ true → ReadsEmpty text.now indent from result }
{
    let (mut count, mut line) = (0, from);
    let mut place = indentation_end(text, line, indent);
    let mut feed = feed_at(text, place);
    'lines: while at(text, feed) == b'\n' {
        count += 1;
        line = feed + 1;
        place = indentation_end(text, line, indent);
        feed = feed_at(text, place);
    }
    EmptyLines { count, line, place }
}

// Where the text of a line ends whose line feed stands here: before a carriage return.
#[inline(always)]
fn text_end(text: &[u8], from: usize, feed: usize) -> usize
    requires { (from ≤ feed) × (feed ≤ length text.now) }
    ensures part { (from ≤ result) × (result ≤ feed) }
    ensures same { is_text text.now ≡ true → result ≡ feed }
{
    if from < feed && text[feed - 1] == b'\r' {
        feed - 1
    } else {
        feed
    }
}

// The lines of a block that were read.
#[derive(Clone, Copy)]
struct Block {
    // Whether a line feed between two lines may stand for a space.
    folds: bool,
    // Whether there are any.
    begun: bool,
    // Whether the last line begins with a blank.
    blank: bool,
    // How many line feeds are behind the last line, or before the first.
    feeds: usize,
}

// A byte, so many times.
#[derive(Clone, Copy)]
struct Repeated {
    byte: u8,
    count: usize,
}

// What so many line feeds between two lines stand for, if they are folded or not.
#[inline(always)]
fn joint(folded: bool, feeds: usize) -> Repeated
    ensures { replicate result.count result.byte ≡ joint folded feeds }
{
    if !folded {
        Repeated {
            byte: b'\n',
            count: feeds,
        }
    } else if feeds == 1 {
        Repeated {
            byte: b' ',
            count: 1,
        }
    } else {
        Repeated {
            byte: b'\n',
            count: feeds.saturating_sub(1),
        }
    }
}

impl Block {
    // Whether the line feeds behind the last line are folded, before this line.
    #[inline(always)]
    fn joins(&self, line: &[u8]) -> bool
        ensures { result ≡ joins self.now line.now }
    {
        self.folds && self.begun && !self.blank && !begins_blank(line)
    }

    // How many of the last line feeds are wanted.
    fn feeds_kept(&self, chomping: Chomping) -> usize
        ensures { result ≡ kept_feeds (chomping_as chomping) self.now }
    {
        match chomping {
            Chomping::Strip => 0,
            Chomping::Clip => self.feeds.min(self.begun as usize),
            Chomping::Keep => self.feeds,
        }
    }
}

// Whether a blank begins this line.
#[inline(always)]
fn begins_blank(line: &[u8]) -> bool
    ensures { result ≡ begins_blank line.now }
{
    matches!(at(line, 0), b' ' | b'\t')
}

impl<'a> Reader<'a> {
    // Empty lines of a block, before which a line ends.
    fn pass_lines(&mut self, empties: EmptyLines)
        requires counted { self.old.line + empties.count + 1 ≤ empties.line }
        requires within { empties.line ≤ length self.old.text.now }
        ensures text { self.new.text.now ≡ self.old.text.now }
        ensures begun { self.new.line_start ≡ empties.line }
        ensures start { self.new.start ≡ self.old.start }
        ensures tape { self.new.tape ≡ self.old.tape }
        ensures names { self.new.names ≡ self.old.names }
        ensures grows { Grows self.old self.new }
    {
        self.line += empties.count + 1;
        self.line_start = empties.line;
    }

    // Puts a line behind the text, and before it what the line feeds between stand for.
    #[inline(always)]
    fn push_line(&mut self, block: &mut Block, line: &[u8]) -> bool
        ensures kept { Keeps self.old self.new }
        ensures longer { IsLonger self.old self.new }
        ensures events { marked_on self.new.tape ≡ marked_on self.old.tape }
        ensures names { self.new.names ≡ self.old.names }
        ensures line { result ≡ true → self.new.tape.arena.items
            ≡ (self.old.tape.arena.items ++ joint (joins block.old line.now) block.old.feeds) ++ line.now }
        ensures row { (block.new.folds ≡ block.old.folds) × ((block.new.begun ≡ true)
            × ((block.new.blank ≡ begins_blank line.now) × (block.new.feeds ≡ 0))) }
    {
        let before = joint(block.joins(line), block.feeds);
        block.begun = true;
        block.blank = begins_blank(line);
        block.feeds = 0;
        self.tape.append_repeated(before.byte, before.count) && self.tape.append(line)
    }

    // Reads the lines of a block that stand so far in, and gives the place behind them.
    fn block_lines(&mut self, block: &mut Block, from: usize, indent: usize) -> usize
        requires line { self.old.line_start < from }
        requires within { from ≤ length self.old.text.now }
        ensures reached { Reaches self.old self.new from result }
        ensures start { self.new.start ≡ self.old.start }
        ensures longer { IsLonger self.old self.new }
        ensures events { marked_on self.new.tape ≡ marked_on self.old.tape }
        ensures names { self.new.names ≡ self.old.names }
        ensures begun { at self.old.text.now (from - 1) ≡ 10 → result ≢ no_place → IsLineBegin self.new result }
        ensures found { is_text self.old.text.now ≡ true → block.old.begun ≡ false → result ≢ no_place
            → ReadsRows self.old.text.now block.old.folds indent from result self.old.tape.arena.items
            self.new.tape.arena.items block.new }
        ensures missed { is_text self.old.text.now ≡ true → block.old.begun ≡ false → result ≡ no_place
            → self.new.starved ≡ false → EndsAtTab self.old.text.now block.old.folds indent from }
    {
        let text = self.text;
        let mut next = empties(text, from, indent);
        self.pass_lines(next);
        block.feeds = next.count;
        'lines: while next.place < text.len() && next.place - next.line == indent {
            let end = line_end(text, next.place);
            let stop = text_end(text, next.place, end);
            if !self.push_line(block, &text[next.place..stop]) {
                return self.starve();
            }
            if end == text.len() {
                return end;
            }
            next = empties(text, end + 1, indent);
            self.pass_lines(next);
            block.feeds = next.count + 1;
        }
        if at(text, next.place) == b'\t' {
            return NO_PLACE;
        }
        next.line
    }

    // Reads the lines behind a block's first one, which ends here, and gives the place behind them.
    fn block_text(&mut self, block: &mut Block, header: Header, least: usize) -> usize
        requires here { IsHere self.old header.end }
        ensures reached { Reaches self.old self.new header.end result }
        ensures start { self.new.start ≡ self.old.start }
        ensures longer { IsLonger self.old self.new }
        ensures events { marked_on self.new.tape ≡ marked_on self.old.tape }
        ensures names { self.new.names ≡ self.old.names }
        ensures begun { IsLineEnd self.old.text.now header.end → result ≢ no_place → IsLineBegin self.new result }
        ensures found { is_text self.old.text.now ≡ true → least ≤ length self.old.text.now + 1 → header.step ≤ 9
            → IsLineEnd self.old.text.now header.end → (block.old.begun ≡ false) × (block.old.feeds ≡ 0)
            → result ≢ no_place → ReadsBlock self.old.text.now block.old.folds header.step least header.end result
            self.old.tape.arena.items self.new.tape.arena.items block.new }
        ensures missed { is_text self.old.text.now ≡ true → least ≤ length self.old.text.now + 1 → header.step ≤ 9
            → IsLineEnd self.old.text.now header.end → block.old.begun ≡ false → result ≡ no_place
            → self.new.starved ≡ false
            → HasNoBlock self.old.text.now block.old.folds header.step least header.end }
    {
        let text = self.text;
        if header.end == text.len() {
            return header.end;
        }
        let first = header.end + 1;
        let indent = reach!(indentation(text, first, header.step, least));
        self.block_lines(block, first, indent)
    }

    // A block of text whose `|` or `>` stands here, and whose lines stand in the column `least` at least.
    #[inline(never)]
    pub(crate) fn block_scalar(&mut self, from: usize, least: usize) -> usize
        requires here { IsHere self.old from }
        requires within { from < length self.old.text.now }
        requires begun { self.old.start.index ≤ from }
        ensures reached { Reaches self.old self.new from result }
        ensures found { is_text self.old.text.now ≡ true → least ≤ length self.old.text.now + 1
            → begins_block (at self.old.text.now from) ≡ true → result ≢ no_place
            → AddsBlock self.old self.new least from result }
        ensures missed { is_text self.old.text.now ≡ true → least ≤ length self.old.text.now + 1
            → begins_block (at self.old.text.now from) ≡ true → result ≡ no_place → self.new.starved ≡ false
            → LeavesBlock self.old.text.now least from }
    {
        let folds = self.text[from] == b'>';
        let style = block_style(folds);
        let header = read_header(self.text, from + 1);
        reach!(header.end);
        let mut block = Block {
            folds,
            begun: false,
            blank: false,
            feeds: 0,
        };
        let start = self.tape.arena.len();
        let end = reach!(self.block_text(&mut block, header, least));
        if !self.push_feeds(block.feeds_kept(header.chomping)) {
            return self.starve();
        }
        let text = Piece {
            from: start,
            to: self.tape.arena.len(),
            stored: true,
        };
        reach!(self.push_piece(text, style, end, end));
        self.gap(end)
    }
}
