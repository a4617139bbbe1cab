//! Plain text, in one line or in more.
#![tactic(auto, using(crate::proofs::Growing::grows_on, crate::proofs::Growing::grows_same))]

ghost use Rattle.std.specs.Prelude.{◌≡◌, ◌≢◌, ◌+◌, ◌++◌, ◌-◌, ◌<◌, ◌≤◌, length, ℕ, IfOk, Some, replicate, slice_range};
ghost use Rattle.std.specs.Prelude.{false, true};
ghost use Rattle.yaml_direct.specs.Added.{AddsPlain};
ghost use Rattle.yaml_direct.specs.Bytes.{at, may_stop, stops_at_colon, stops_plain};
ghost use Rattle.yaml_direct.specs.Lines.{PlainLine};
ghost use Rattle.yaml_direct.specs.Places.{IsHere, Keeps, Reaches, no_place};
ghost use Rattle.yaml_direct.specs.PlainTexts.{HasFeeds, HasNoLine, IsFirstLine, IsFurtherLine, LeavesPlain, flow_line};
ghost use Rattle.yaml_direct.specs.Tokens.{IsBehindLine};
ghost use Rattle.yaml_grammar.specs.Bytes.{is_text, parts_documents};
ghost use Rattle.yaml_grammar.specs.Folding.{folded};
ghost use Rattle.yaml_grammar.specs.Gaps.{breaks};
ghost use Rattle.yaml_grammar.specs.Plain.{as_key, begins_plain, in_brackets, plain_at};

use crate::byte::{at, feed_at, is_bracket, is_gap, spaces_end};
use crate::place::{NO_PLACE, reach};
use crate::reader::Reader;
use std::alloc::AllocError;
use yaml_base::ScalarStyle;

// Whether plain text begins here, within brackets or not.
#[inline(always)]
pub(crate) fn begins_plain(text: &[u8], flow: bool, place: usize) -> bool
    requires { place ≤ length text.now }
    ensures goes { result ≡ true → stops_plain text.now flow place ≡ false }
    ensures some { result ≡ true → at text.now place ≢ 32 }
    ensures same { is_text text.now ≡ true → parts_documents text.now place ≡ false
        → result ≡ begins_plain text.now flow place }
{
    match at(text, place) {
        b'-' => !is_gap(text, place + 1) && !(flow && is_bracket(at(text, place + 1))),
        b'?' | b':' => !flow && !is_gap(text, place + 1),
        b'#' | b'&' | b'*' | b'!' | b'|' | b'>' | b'\'' | b'"' | b'%' | b'@' | b'`' => false,
        b',' | b'[' | b']' | b'{' | b'}' => false,
        byte => byte > b' ',
    }
}

// Whether plain text may end before this byte.
#[inline(always)]
fn may_stop(flow: bool, byte: u8) -> bool
    ensures { result ≡ may_stop flow byte }
{
    matches!(byte, 0 | b'\t' | b'\n' | b'\r' | b' ' | b':') || (flow && is_bracket(byte))
}

// Where the bytes end before which plain text may not.
#[inline(always)]
fn run_end(text: &[u8], flow: bool, from: usize) -> usize
    requires { from ≤ length text.now }
    ensures forward { from ≤ result }
    ensures within { result ≤ length text.now }
    ensures goes_on { (k : ℕ) → from ≤ k → k < result → may_stop flow (at text.now k) ≡ false }
    ensures stops { may_stop flow (at text.now result) ≡ true }
{
    for (count, byte) in text[from..].iter().enumerate() {
        if may_stop(flow, *byte) {
            return from + count;
        }
    }
    text.len()
}

// Whether plain text stops before the `:` that stands here.
#[inline(always)]
fn stops_at_colon(text: &[u8], flow: bool, place: usize) -> bool
    requires { place ≤ length text.now }
    ensures { result ≡ stops_at_colon text.now flow place }
{
    let next = at(text, place + 1);
    next <= b' ' || (flow && (next == b'?' || is_bracket(next)))
}

// Whether plain text stops here.
#[inline(always)]
fn stops_plain(text: &[u8], flow: bool, place: usize) -> bool
    requires { place ≤ length text.now }
    ensures { result ≡ stops_plain text.now flow place }
{
    match at(text, place) {
        b'\n' | b'\r' | b'\t' | 0 => true,
        b':' => stops_at_colon(text, flow, place),
        b'#' => place != 0 && text[place - 1] == b' ',
        byte => flow && is_bracket(byte),
    }
}

// Where the part of a plain text that stands in this line ends, without the blanks behind it.
#[inline(always)]
pub(crate) fn plain_end(text: &[u8], flow: bool, from: usize) -> usize
    requires within { from ≤ length text.now }
    requires begins { stops_plain text.now flow from ≡ false }
    requires some { at text.now from ≢ 32 }
    ensures forward { from ≤ result }
    ensures within { result ≤ length text.now }
    ensures line { PlainLine text.now flow from result }
    ensures key { is_text text.now ≡ true → flow ≡ false → begins_plain text.now false from ≡ true
        → plain_at text.now as_key from ≡ Some (result - from, slice_range text.now from result) }
    ensures flow { is_text text.now ≡ true → flow ≡ true → begins_plain text.now true from ≡ true
        → breaks text.now result ≡ false → plain_at text.now in_brackets from ≡ flow_line text.now from result }
{
    let mut place = run_end(text, flow, from);
    'runs: while place < text.len() {
        place = match text[place] {
            b' ' => {
                let next = spaces_end(text, place + 1);
                if stops_plain(text, flow, next) {
                    break 'runs;
                }
                run_end(text, flow, next)
            }
            b':' if !stops_at_colon(text, flow, place) => run_end(text, flow, place + 1),
            _ => break 'runs,
        };
    }
    place
}

// How many line feeds stand here, with spaces around them, and the place behind.
#[derive(Clone, Copy)]
pub(crate) struct LineFeeds {
    pub(crate) count: usize,
    pub(crate) end: usize,
}

// The line feeds here, and the spaces around them.
fn feeds(text: &[u8], from: usize) -> LineFeeds
    requires { from ≤ length text.now }
    ensures within { result.end ≤ length text.now }
    ensures read { is_text text.now ≡ true → HasFeeds text.now result.count from result.end }
{
    let mut count = 0;
    let mut end = feed_at(text, spaces_end(text, from));
    'feeds: while at(text, end) == b'\n' {
        count += 1;
        end = feed_at(text, spaces_end(text, end + 1));
    }
    LineFeeds { count, end }
}

// Puts so many line feeds behind a text.
pub(crate) fn push_feeds(out: &mut Vec<u8>, count: usize) -> Result<(), AllocError>
    ensures { IfOk result (λ _. out.new.items ≡ out.old.items ++ replicate count 10) }
{
    for _ in 0..count {
        out.push(b'\n')?;
    }
    Ok(())
}

// Puts behind a text what so many line feeds within a scalar stand for: one is a space, and of more the first goes.
pub(crate) fn push_folded(out: &mut Vec<u8>, count: usize) -> Result<(), AllocError>
    ensures { IfOk result (λ _. out.new.items ≡ out.old.items ++ folded count) }
{
    if count == 1 {
        out.push(b' ')?;
        return Ok(());
    }
    push_feeds(out, count.saturating_sub(1))
}

// Puts behind a text what so many line feeds stand for, and then a line.
fn push_line(out: &mut Vec<u8>, feeds: usize, line: &[u8]) -> Result<(), AllocError>
    ensures { IfOk result (λ _. out.new.items ≡ out.old.items ++ (folded feeds ++ line.now)) }
{
    push_folded(out, feeds)?;
    out.extend_from_slice(line)
}

impl<'a> Reader<'a> {
    // A plain text outside of brackets whose first line ends here and is no key. It goes on in each line that stands in
    // the column `least` at least.
    #[inline(always)]
    pub(crate) fn plain(&mut self, from: usize, end: usize, least: usize) -> usize
        requires part { from ≤ end }
        requires begun { self.old.start.index ≤ end }
        requires here { IsHere self.old end }
        ensures reached { Reaches self.old self.new end result }
        ensures found { is_text self.old.text.now ≡ true → IsFirstLine self.old.text.now false from end
            → result ≢ no_place → AddsPlain self.old self.new least from result }
        ensures missed { is_text self.old.text.now ≡ true → IsFirstLine self.old.text.now false from end
            → result ≡ no_place → self.new.starved ≡ false → LeavesPlain self.old.text.now least from }
    {
        let next = reach!(self.margin(end));
        if self.is_within(next, least) {
            return self.plain_lines(from, end, next, least);
        }
        let text = self.text;
        self.push_text(from, end, ScalarStyle::Plain, end, next)
    }

    // The same where it goes on in the next line, whose text begins at `second`.
    #[inline(never)]
    fn plain_lines(&mut self, from: usize, first: usize, second: usize, least: usize) -> usize
        requires part { (from ≤ first) × (first ≤ second) }
        requires begun { self.old.start.index ≤ first }
        requires here { IsHere self.old second }
        ensures reached { Reaches self.old self.new second result }
        ensures found { is_text self.old.text.now ≡ true → IsFirstLine self.old.text.now false from first
            → IsBehindLine self.old.text.now self.old first second → result ≢ no_place
            → AddsPlain self.old self.new least from result }
        ensures missed { is_text self.old.text.now ≡ true → IsFirstLine self.old.text.now false from first
            → IsBehindLine self.old.text.now self.old first second → result ≡ no_place → self.new.starved ≡ false
            → LeavesPlain self.old.text.now least from }
    {
        let Ok(mut value) = Vec::from_slice(self.alloc, &self.text[from..first]) else {
            return self.starve();
        };
        let (mut end, mut next) = (first, second);
        'lines: while self.is_within(next, least) {
            end = reach!(self.plain_line(&mut value, end, next, false));
            next = reach!(self.margin(end));
        }
        self.push_scalar(value, ScalarStyle::Plain, end, next)
    }

    // One further line of a plain text that had ended at `end`.
    pub(crate) fn plain_line(
        &mut self,
        value: &mut Vec<u8>,
        end: usize,
        next: usize,
        flow: bool,
    ) -> usize
        requires here { IsHere self.old next }
        requires before { end ≤ next }
        ensures reached { Reaches self.old self.new (next + 1) result }
        ensures kept { Keeps self.old self.new }
        ensures still { self.new.tape ≡ self.old.tape }
        ensures names { self.new.names ≡ self.old.names }
        ensures found { is_text self.old.text.now ≡ true → result ≢ no_place
            → IsFurtherLine self.old.text.now flow end next result value.old.items value.new.items }
        ensures missed { is_text self.old.text.now ≡ true → result ≡ no_place → self.new.starved ≡ false
            → HasNoLine self.old.text.now flow end next }
    {
        let text = self.text;
        let feeds = feeds(text, end);
        if feeds.end != next || at(text, next) == b' ' || stops_plain(text, flow, next) {
            return NO_PLACE;
        }
        let stop = plain_end(text, flow, next);
        if stop == next {
            return NO_PLACE;
        }
        match push_line(value, feeds.count, &text[next..stop]) {
            Ok(()) => stop,
            Err(_) => self.starve(),
        }
    }
}
