//! What stands between two tokens: blanks, comments and line feeds.
#![tactic(auto, using(crate::proofs::Growing::grows_on, crate::proofs::Growing::grows_same))]

ghost use Rattle.std.specs.Prelude.{◌≡◌, ◌==◌, not, ◌≢◌, ◌<◌, ◌≤◌, ◌⊎◌, IsTrue, false, length, true};
ghost use Rattle.yaml_direct.specs.Gaps.{Between, begins_token, is_apart};
ghost use Rattle.yaml_direct.specs.Places.{IsHere, Keeps, Reaches, no_place};
ghost use Rattle.yaml_direct.specs.Tokens.{HasNoToken, IsAmidLine, IsAtNext};
ghost use Rattle.yaml_grammar.specs.Bytes.{is_over, is_text};
ghost use Rattle.yaml_grammar.specs.Gaps.{breaks, ends_its_line, next};

use crate::byte::{at, is_feed, line_end, spaces_end};
use crate::place::{NO_PLACE, reach};
use crate::reader::Reader;
use crate::text::has_order_mark;

// Whether a comment may begin here: at the beginning of a line, or behind a blank.
fn is_apart(text: &[u8], place: usize) -> bool
    requires { place ≤ length text.now }
    ensures { result ≡ is_apart text.now place }
{
    place == 0 || (matches!(text[place - 1], b' ' | b'\n') || (place == 3 && has_order_mark(text)))
}

// Whether a token begins with this byte.
#[inline(always)]
pub(crate) fn begins_token(byte: u8) -> bool
    ensures some { IsTrue result → 0 < byte }
    ensures token { IsTrue result → (32 < byte) × (byte ≢ 35) }
    ensures other { result ≡ false → 32 < byte → byte ≡ 35 }
{
    byte > b' ' && byte != b'#'
}

impl Reader<'_> {
    // Steps over all that stands before the next token, or before the end.
    #[inline(never)]
    pub(crate) fn gap(&mut self, from: usize) -> usize
        requires here { IsHere self.old from }
        ensures reached { Reaches self.old self.new from result }
        ensures start { self.new.start ≡ self.old.start }
        ensures still { self.new.tape ≡ self.old.tape }
        ensures names { self.new.names ≡ self.old.names }
        ensures between { result ≢ no_place
            → Between self.old.text.now (not (self.new.line == self.old.line)) from result }
        ensures found { is_text self.old.text.now ≡ true → result ≢ no_place
            → IsAtNext self.old self.new from result }
        ensures missed { is_text self.old.text.now ≡ true → result ≡ no_place
            → HasNoToken self.old.text.now from }
    {
        let text = self.text;
        let mut place = from;
        'gap: while place < text.len() {
            match text[place] {
                b' ' => place += 1,
                b'\r' => {
                    if is_feed(text, place + 1) {
                        place += 1;
                    } else {
                        return NO_PLACE;
                    }
                }
                b'\n' => {
                    place += 1;
                    self.begin_line(place);
                }
                b'#' if is_apart(text, place) => place = line_end(text, place + 1),
                b'#' => return NO_PLACE,
                _ => break 'gap,
            }
        }
        place
    }

    // The same behind a node, where the next token has to stand in a later line.
    #[inline(always)]
    pub(crate) fn margin(&mut self, from: usize) -> usize
        requires here { IsHere self.old from }
        ensures reached { Reaches self.old self.new from result }
        ensures start { self.new.start ≡ self.old.start }
        ensures still { self.new.tape ≡ self.old.tape }
        ensures names { self.new.names ≡ self.old.names }
        ensures found { is_text self.old.text.now ≡ true → result ≢ no_place
            → IsAtNext self.old self.new from result }
        ensures ended { is_text self.old.text.now ≡ true → result ≢ no_place
            → ends_its_line self.old.text.now from ≡ true }
        ensures token { result ≢ no_place → begins_token self.old.text.now result ≡ true }
        ensures missed { is_text self.old.text.now ≡ true → result ≡ no_place
            → ends_its_line self.old.text.now from ≡ false }
    {
        let text = self.text;
        if at(text, from) != b'\n' {
            return self.far_margin(from);
        }
        self.begin_line(from + 1);
        let next = spaces_end(text, from + 1);
        if begins_token(at(text, next)) {
            next
        } else {
            self.gap(next)
        }
    }

    // The same where something stands behind the node in its line.
    #[inline(never)]
    fn far_margin(&mut self, from: usize) -> usize
        requires here { IsHere self.old from }
        ensures reached { Reaches self.old self.new from result }
        ensures start { self.new.start ≡ self.old.start }
        ensures still { self.new.tape ≡ self.old.tape }
        ensures names { self.new.names ≡ self.old.names }
        ensures found { is_text self.old.text.now ≡ true → result ≢ no_place
            → IsAtNext self.old self.new from result }
        ensures ended { is_text self.old.text.now ≡ true → result ≢ no_place
            → ends_its_line self.old.text.now from ≡ true }
        ensures token { result ≢ no_place → begins_token self.old.text.now result ≡ true }
        ensures missed { is_text self.old.text.now ≡ true → result ≡ no_place
            → ends_its_line self.old.text.now from ≡ false }
    {
        let line = self.line;
        let next = self.gap(from);
        if self.line == line && next != self.text.len() {
            return NO_PLACE;
        }
        next
    }

    // The same within brackets, where no document may end.
    #[inline(always)]
    pub(crate) fn flow_gap(&mut self, from: usize) -> usize
        requires here { IsHere self.old from }
        ensures reached { Reaches self.old self.new from result }
        ensures start { self.new.start ≡ self.old.start }
        ensures still { self.new.tape ≡ self.old.tape }
        ensures names { self.new.names ≡ self.old.names }
        ensures inside { result ≢ no_place → result < length self.old.text.now }
        ensures token { result ≢ no_place → begins_token self.old.text.now result ≡ true }
        ensures found { is_text self.old.text.now ≡ true → result ≢ no_place
            → IsAtNext self.old self.new from result }
        ensures there { is_text self.old.text.now ≡ true
            → (breaks self.old.text.now from ≡ false → IsAmidLine self.old from) → result ≢ no_place
            → is_over self.old.text.now result ≡ false }
        ensures missed { is_text self.old.text.now ≡ true
            → (breaks self.old.text.now from ≡ false → self.old.line_start < from) → result ≡ no_place
            → HasNoToken self.old.text.now from ⊎ (is_over self.old.text.now (next self.old.text.now from) ≡ true) }
    {
        let text = self.text;
        if begins_token(at(text, from)) {
            return from;
        }
        if at(text, from) == b' ' && begins_token(at(text, from + 1)) {
            return from + 1;
        }
        self.far_flow_gap(from)
    }

    // The same where more than a space stands before the token.
    #[inline(never)]
    fn far_flow_gap(&mut self, from: usize) -> usize
        requires here { IsHere self.old from }
        ensures reached { Reaches self.old self.new from result }
        ensures start { self.new.start ≡ self.old.start }
        ensures still { self.new.tape ≡ self.old.tape }
        ensures names { self.new.names ≡ self.old.names }
        ensures inside { result ≢ no_place → result < length self.old.text.now }
        ensures token { result ≢ no_place → begins_token self.old.text.now result ≡ true }
        ensures found { is_text self.old.text.now ≡ true → result ≢ no_place
            → IsAtNext self.old self.new from result }
        ensures there { is_text self.old.text.now ≡ true
            → (breaks self.old.text.now from ≡ false → IsAmidLine self.old from) → result ≢ no_place
            → is_over self.old.text.now result ≡ false }
        ensures missed { is_text self.old.text.now ≡ true
            → (breaks self.old.text.now from ≡ false → self.old.line_start < from) → result ≡ no_place
            → HasNoToken self.old.text.now from ⊎ (is_over self.old.text.now (next self.old.text.now from) ≡ true) }
    {
        let next = reach!(self.gap(from));
        if self.is_over(next) {
            return NO_PLACE;
        }
        next
    }
}
