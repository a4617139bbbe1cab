//! What single bytes of a text mean. A place is an index; behind the text each byte is 0.

ghost use Rattle.std.specs.Prelude.{false, true, ◌≡◌, ◌≢◌, ◌+◌, ◌<◌, ◌≤◌, ℕ, IsTrue, drop, length, map};
ghost use Rattle.std.specs.Simd.Lanes.{mask_l};
ghost use Rattle.memchr.specs.Find.{is_byte};
ghost use Rattle.yaml_direct.specs.Gaps.{InLine, IsLineEnd};
ghost use Rattle.yaml_direct.specs.Bytes.{AreBlanks, at, is_bracket, is_gap};
ghost use Rattle.yaml_direct.specs.PlainTexts.{is_tight};
ghost use Rattle.yaml_grammar.specs.Bytes.{is_blank, is_mark, is_one_line, is_text, is_triple, parts};

use memchr::memchr;
use std::simd::prelude::*;

// How many bytes are looked at together.
const PART: usize = 32;

// The byte at a place, or 0 behind the end.
#[inline(always)]
pub(crate) fn at(text: &[u8], place: usize) -> u8
    ensures value { result ≡ at text.now place }
    ensures within { result ≢ 0 → place < length text.now }
{
    if place < text.len() { text[place] } else { 0 }
}

// Whether a blank stands here, or the line or the text ends.
#[inline(always)]
pub(crate) fn is_gap(text: &[u8], place: usize) -> bool
    ensures { result ≡ is_gap text.now place }
{
    at(text, place) <= b' '
}

// Whether `-`, `?` or `:` stands here as an indicator.
#[inline(always)]
pub(crate) fn is_mark(text: &[u8], byte: u8, place: usize) -> bool
    ensures within { IsTrue result → place < length text.now }
    ensures mark { IsTrue result → at text.now place ≡ byte }
    ensures apart { IsTrue result → is_gap text.now (place + 1) ≡ true }
    ensures same { is_text text.now ≡ true → 0 < byte → result ≡ is_mark text.now byte place }
{
    place < text.len() && text[place] == byte && is_gap(text, place + 1)
}

// Whether this byte has a meaning of its own within brackets.
#[inline(always)]
pub(crate) fn is_bracket(byte: u8) -> bool
    ensures { result ≡ is_bracket byte }
{
    matches!(byte, b',' | b'[' | b']' | b'{' | b'}')
}

// Whether this byte is three times here, at the beginning of a line, and alone.
#[inline(always)]
fn is_triple(text: &[u8], byte: u8, place: usize) -> bool
    requires { 0 < byte }
    ensures within { IsTrue result → place + 3 ≤ length text.now }
    ensures same { is_text text.now ≡ true → result ≡ is_triple byte (drop place text.now) }
{
    place < text.len()
        && text[place] == byte
        && at(text, place + 1) == byte
        && at(text, place + 2) == byte
        && is_gap(text, place + 3)
}

// Whether `---` stands here, where a line begins.
pub(crate) fn begins_document(text: &[u8], place: usize) -> bool
    ensures within { IsTrue result → place + 3 ≤ length text.now }
    ensures same { is_text text.now ≡ true → result ≡ is_triple 45 (drop place text.now) }
{
    is_triple(text, b'-', place)
}

// Whether `...` stands here, where a line begins.
pub(crate) fn ends_document(text: &[u8], place: usize) -> bool
    ensures within { IsTrue result → place + 3 ≤ length text.now }
    ensures same { is_text text.now ≡ true → result ≡ is_triple 46 (drop place text.now) }
{
    is_triple(text, b'.', place)
}

// Whether `---` or `...` stands here, where a line begins.
pub(crate) fn parts_documents(text: &[u8], place: usize) -> bool
    ensures { is_text text.now ≡ true → result ≡ parts (drop place text.now) }
{
    matches!(at(text, place), b'-' | b'.')
        && (begins_document(text, place) || ends_document(text, place))
}

// The first place from here on where no space stands.
#[inline(always)]
pub(crate) fn spaces_end(text: &[u8], from: usize) -> usize
    requires { from ≤ length text.now }
    ensures forward { from ≤ result }
    ensures within { result ≤ length text.now }
    ensures blanks { AreBlanks text.now from result }
    ensures over { at text.now result ≢ 32 }
{
    for (count, byte) in text[from..].iter().enumerate() {
        if *byte != b' ' {
            return from + count;
        }
    }
    text.len()
}

// The first place from here on where neither a space nor a tab stands.
pub(crate) fn blanks_end(text: &[u8], from: usize) -> usize
    requires { from ≤ length text.now }
    ensures forward { from ≤ result }
    ensures within { result ≤ length text.now }
    ensures blanks { (k : ℕ) → from ≤ k → k < result → is_blank (at text.now k) ≡ true }
    ensures over { is_blank (at text.now result) ≡ false }
{
    for (count, byte) in text[from..].iter().enumerate() {
        if !matches!(*byte, b' ' | b'\t') {
            return from + count;
        }
    }
    text.len()
}

// Whether no line feed stands between two places.
pub(crate) fn is_one_line(text: &[u8], from: usize, to: usize) -> bool
    requires { (from ≤ to) × (to ≤ length text.now) }
    ensures line { IsTrue result → InLine text.now from to }
    ensures lines { result ≡ false → is_one_line text.now from to ≡ false }
{
    match memchr(b'\n', &text[from..to]) {
        Some(_) => false,
        None => true,
    }
}

// Whether a line feed stands here.
#[inline(always)]
pub(crate) fn is_feed(text: &[u8], place: usize) -> bool
    ensures { IsTrue result → at text.now place ≡ 10 }
{
    at(text, place) == b'\n'
}

// The place of the line feed, where a line ends here: this one, or the next where a carriage return stands before it.
// If none does, this one.
#[inline(always)]
pub(crate) fn feed_at(text: &[u8], place: usize) -> usize
    requires { place ≤ length text.now }
    ensures forward { place ≤ result }
    ensures within { result ≤ length text.now }
    ensures here { at text.now place ≢ 13 → result ≡ place }
{
    if at(text, place) == b'\r' && at(text, place + 1) == b'\n' {
        place + 1
    } else {
        place
    }
}

// Which of these bytes are line feeds, the first of them in the lowest bit.
#[inline(always)]
fn feeds_in(part: u8x32) -> u64
    ensures { result ≡ mask_l (map (is_byte 10) part) }
{
    part.simd_eq(u8x32::splat(b'\n')).to_bitmask()
}

// How many of the next bytes stand before a line feed, of those that are looked at together.
#[inline(always)]
fn count_in_line(text: &[u8], from: usize) -> usize
    requires { from + PART ≤ length text.now }
    ensures few { result ≤ PART }
    ensures line { InLine text.now from (from + result) }
    ensures feed { result < PART → at text.now (from + result) ≡ 10 }
{
    let feeds = feeds_in(u8x32::from_slice(&text[from..]));
    if feeds == 0 {
        PART
    } else {
        feeds.trailing_zeros() as usize
    }
}

// Where the line ends.
#[inline(always)]
pub(crate) fn line_end(text: &[u8], from: usize) -> usize
    requires { from ≤ length text.now }
    ensures forward { from ≤ result }
    ensures within { result ≤ length text.now }
    ensures inside { InLine text.now from result }
    ensures ends { IsLineEnd text.now result }
{
    if text.len() - from < PART {
        return far_line_end(text, from);
    }
    let count = count_in_line(text, from);
    if count < PART {
        return from + count;
    }
    far_line_end(text, from + PART)
}

// The same where the line may be long, or the text ends.
#[inline(never)]
fn far_line_end(text: &[u8], from: usize) -> usize
    requires { from ≤ length text.now }
    ensures forward { from ≤ result }
    ensures within { result ≤ length text.now }
    ensures inside { InLine text.now from result }
    ensures ends { IsLineEnd text.now result }
{
    match memchr(b'\n', &text[from..]) {
        Some(len) => from + len,
        None => text.len(),
    }
}

// Whether `:` stands here before a byte that is no gap.
#[inline(always)]
pub(crate) fn is_tight(text: &[u8], place: usize) -> bool
    ensures { is_text text.now ≡ true → result ≡ is_tight text.now place }
{
    at(text, place) == b':' && !is_gap(text, place + 1)
}
