//! The first line of a block of text, and how far in its lines stand.

ghost use Rattle.std.specs.Option.{option_map};
ghost use Rattle.std.specs.Prelude.{◌≡◌, ◌≢◌, ◌<◌, ◌≤◌, ◌⊎◌, None, Some, drop, if◌then◌else◌, length, max, true};
ghost use Rattle.yaml_base.specs.declared.event.ScalarStyle.TheVariants as style;
ghost use Rattle.yaml_direct.specs.BlockHeads.{HasNoRemark, IsCommented, IsRemark, IsSpaced, ReadsHeader, ReadsSigns};
ghost use Rattle.yaml_direct.specs.BlockHeads.{IsShort, StandsIn, chomping_as};
ghost use Rattle.yaml_direct.specs.Places.{no_place};
ghost use Rattle.yaml_grammar.specs.BlockTexts.{chomping_of, found_indent, is_sign, lines_of, step_of};
ghost use Rattle.yaml_grammar.specs.Bytes.{is_text};

use crate::byte::{at, feed_at, line_end, spaces_end};
use crate::place::NO_PLACE;
use yaml_base::ScalarStyle;

// Which of the last line feeds of a block stay.
#[derive(Clone, Copy, PartialEq, Eq)]
pub(crate) enum Chomping {
    // One, if there is any.
    Clip,
    // None.
    Strip,
    // All.
    Keep,
}

// What the first line of a block says.
#[derive(Clone, Copy)]
pub(crate) struct Header {
    pub(crate) chomping: Chomping,
    // How many columns further in the lines stand, or 0 where that is not said.
    pub(crate) step: usize,
    // Where it ends, if it has a due end.
    pub(crate) end: usize,
}

// The style of a block whose lines are folded or not.
#[inline(always)]
pub(crate) fn block_style(folds: bool) -> ScalarStyle
    ensures { result ≡ (if folds then style.Folded else style.Literal) }
{
    if folds {
        ScalarStyle::Folded
    } else {
        ScalarStyle::Literal
    }
}

// What a sign in the first line of a block says, if it is one.
fn chomping_of(byte: u8) -> Option<Chomping>
    ensures { option_map chomping_as result ≡ (if is_sign byte then Some (chomping_of byte) else None) }
{
    match byte {
        b'-' => Some(Chomping::Strip),
        b'+' => Some(Chomping::Keep),
        _ => None,
    }
}

// How many columns further in a block stands by a digit of its first line, or 0.
fn step_of(byte: u8) -> usize
    ensures { result ≡ step_of byte }
{
    match byte {
        b'1'..=b'9' => (byte - b'0') as usize,
        _ => 0,
    }
}

// Where spaces end, and a comment behind one.
fn remark_end(text: &[u8], from: usize) -> usize
    requires { from ≤ length text.now }
    ensures forward { from ≤ result }
    ensures within { result ≤ length text.now }
    ensures read { IsCommented text.now from result ⊎ IsSpaced text.now from result }
{
    let place = spaces_end(text, from);
    if place != from && at(text, place) == b'#' {
        return line_end(text, place);
    }
    place
}

// Where the rest of a block's first line ends, if it is a remark.
fn header_end(text: &[u8], from: usize) -> usize
    requires { from ≤ length text.now }
    ensures within { result ≢ no_place → (from ≤ result) × (result ≤ length text.now) }
    ensures found { is_text text.now ≡ true → result ≢ no_place → IsRemark text.now from result }
    ensures missed { is_text text.now ≡ true → length text.now < no_place → result ≡ no_place
        → HasNoRemark text.now from }
{
    let place = remark_end(text, from);
    let feed = feed_at(text, place);
    match at(text, feed) {
        b'\n' | 0 => feed,
        _ => NO_PLACE,
    }
}

// What a sign and a digit say behind `|` or `>`, and where they end.
#[derive(Clone, Copy)]
struct Signs {
    chomping: Chomping,
    step: usize,
    end: usize,
}

// A sign and a digit, in either order, one of them, or neither.
fn read_signs(text: &[u8], from: usize) -> Signs
    requires { from ≤ length text.now }
    ensures { ReadsSigns text.now from result }
{
    let first = at(text, from);
    if let Some(chomping) = chomping_of(first) {
        let step = step_of(at(text, from + 1));
        if step == 0 {
            return Signs {
                chomping,
                step,
                end: from + 1,
            };
        }
        return Signs {
            chomping,
            step,
            end: from + 2,
        };
    }
    let step = step_of(first);
    if step == 0 {
        return Signs {
            chomping: Chomping::Clip,
            step,
            end: from,
        };
    }
    match chomping_of(at(text, from + 1)) {
        Some(chomping) => Signs {
            chomping,
            step,
            end: from + 2,
        },
        None => Signs {
            chomping: Chomping::Clip,
            step,
            end: from + 1,
        },
    }
}

// Reads a block's first line, from behind `|` or `>`.
pub(crate) fn read_header(text: &[u8], from: usize) -> Header
    requires { from ≤ length text.now }
    ensures within { result.end ≢ no_place → (from ≤ result.end) × (result.end ≤ length text.now) }
    ensures read { is_text text.now ≡ true → length text.now < no_place → ReadsHeader text.now from result }
{
    if at(text, from) == b'\n' {
        return Header {
            chomping: Chomping::Clip,
            step: 0,
            end: from,
        };
    }
    let signs = read_signs(text, from);
    Header {
        chomping: signs.chomping,
        step: signs.step,
        end: header_end(text, signs.end),
    }
}

// How far in the lines of a block stand, counted from the column before `least` where the first line says it.
#[inline(always)]
pub(crate) fn indentation(text: &[u8], from: usize, step: usize, least: usize) -> usize
    requires { from ≤ length text.now }
    ensures found { is_text text.now ≡ true → IsShort text.now least → step ≤ 9 → result ≢ no_place
        → StandsIn text.now from step least (Some result) }
    ensures missed { is_text text.now ≡ true → IsShort text.now least → step ≤ 9 → result ≡ no_place
        → StandsIn text.now from step least None }
{
    match step {
        0 => detected(text, from, least),
        step => least.saturating_sub(1).saturating_add(step),
    }
}

// How far in a block stands that does not say it: as far as its first line with text, or as the widest line before
// it, and at least as far as `least`. No tab may begin that line.
pub(crate) fn detected(text: &[u8], from: usize, least: usize) -> usize
    requires { from ≤ length text.now }
    ensures found { is_text text.now ≡ true → result ≢ no_place
        → found_indent (max least 1) (lines_of (drop from text.now)) ≡ Some result }
    ensures missed { is_text text.now ≡ true → length text.now < no_place → least < no_place → result ≡ no_place
        → found_indent (max least 1) (lines_of (drop from text.now)) ≡ None }
{
    let mut widest = least.max(1);
    let mut line = from;
    let mut place = spaces_end(text, line);
    let mut feed = feed_at(text, place);
    'lines: while at(text, feed) == b'\n' {
        widest = widest.max(place - line);
        line = feed + 1;
        place = spaces_end(text, line);
        feed = feed_at(text, place);
    }
    if at(text, place) == b'\t' {
        return NO_PLACE;
    }
    widest.max(place - line)
}
