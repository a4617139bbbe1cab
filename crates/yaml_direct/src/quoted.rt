//! Scalars between quotes.
#![tactic(auto, using(crate::proofs::Growing::grows_on, crate::proofs::Growing::grows_same))]

ghost use Rattle.yaml_direct.specs.Places.{IsHere, Keeps, Reaches, no_place};
ghost use Rattle.yaml_direct.specs.Quoted.{AddsQuoted, ClosesInLine, EndsRun, IsLineBegin, Unquotes, UnquotesBehind};
ghost use Rattle.yaml_direct.specs.Quoted.{is_closing, passed_by, quoted_from, quoted_rest, said_break};
ghost use Rattle.yaml_direct.specs.declared.quote.Quote.{Quote};
ghost use Rattle.yaml_grammar.specs.Bytes.{at, is_blank, is_text, parts};
ghost use Rattle.std.specs.Prelude.{◌≡◌, ◌≢◌, ◌+◌, ◌++◌, ◌<◌, ◌≤◌, IfOk, None, drop, false, length, true};

use crate::byte::{at, blanks_end, feed_at, parts_documents};
use crate::place::{NO_PLACE, reach};
use crate::plain::{push_feeds, push_folded};
use crate::quote::{Quote, read_other, run_end, run_text_end, stands_for_another, unquoted};
use crate::reader::Reader;
use std::alloc::AllocError;

// Puts behind a text what so many further line feeds stand for, where one was passed, or one behind a backslash.
fn push_break(out: &mut Vec<u8>, passed: usize, count: usize) -> Result<(), AllocError>
    requires few { passed ≤ 1 }
    requires fits { count < no_place }
    ensures { IfOk result (λ _. out.new.items ≡ out.old.items ++ said_break passed count) }
{
    if passed == 0 {
        push_feeds(out, count)
    } else {
        push_folded(out, count + 1)
    }
}

impl<'a> Reader<'a> {
    // Adds the node as a scalar between quotes in one line, some of which stands for something else.
    #[inline(never)]
    pub(crate) fn push_escaped(
        &mut self,
        quote: Quote,
        from: usize,
        stop: usize,
        end: usize,
    ) -> usize
        requires part { (from ≤ stop) × (stop ≤ end) }
        requires begun { self.old.start.index ≤ end }
        requires within { end ≤ length self.old.text.now }
        ensures kept { Keeps self.old self.new }
        ensures there { result ≢ no_place → result ≡ end }
        ensures found { ClosesInLine self.old.text.now quote from stop → end ≡ stop + 1 → result ≢ no_place → AddsQuoted self.old self.new quote from end }
        ensures missed { ClosesInLine self.old.text.now quote from stop → end ≢ no_place → result ≡ no_place
            → self.new.starved ≡ false → quoted_from self.old.text.now quote from ≡ None }
    {
        match unquoted(self.alloc, self.text, quote, from, stop) {
            Ok(Some(value)) => self.push_scalar(value, quote.style(), end, end),
            Ok(None) => NO_PLACE,
            Err(_) => self.starve(),
        }
    }

    // A line begins at this place, between quotes, where no document may end. Steps over its blanks, up to the line
    // feed where nothing else is in it.
    fn begin_quoted_line(&mut self, place: usize) -> usize
        requires forward { self.old.line_start < place }
        requires within { place ≤ length self.old.text.now }
        ensures reached { Reaches self.old self.new place result }
        ensures start { self.new.start ≡ self.old.start }
        ensures still { self.new.tape ≡ self.old.tape }
        ensures names { self.new.names ≡ self.old.names }
        ensures found { is_text self.old.text.now ≡ true → result ≢ no_place
            → IsLineBegin self.old.text.now place result }
        ensures missed { is_text self.old.text.now ≡ true → result ≡ no_place
            → parts (drop place self.old.text.now) ≡ true }
    {
        self.begin_line(place);
        if parts_documents(self.text, place) {
            return NO_PLACE;
        }
        feed_at(self.text, blanks_end(self.text, place))
    }

    // Steps over further line feeds and the blanks around them, where so many of them were passed, and puts what all
    // stand for behind a text.
    fn quoted_break(&mut self, from: usize, passed: usize, value: &mut Vec<u8>) -> usize
        requires here { IsHere self.old from }
        requires few { passed ≤ 1 }
        ensures reached { Reaches self.old self.new from result }
        ensures start { self.new.start ≡ self.old.start }
        ensures still { self.new.tape ≡ self.old.tape }
        ensures names { self.new.names ≡ self.old.names }
        ensures found { is_text self.old.text.now ≡ true → is_blank (at self.old.text.now from) ≡ false
            → result ≢ no_place → (quote : Quote)
            → UnquotesBehind self.old.text.now quote (passed_by passed) from result value.old.items value.new.items }
        ensures missed { is_text self.old.text.now ≡ true → is_blank (at self.old.text.now from) ≡ false
            → result ≡ no_place → self.new.starved ≡ false → (quote : Quote)
            → quoted_rest quote false (passed_by passed) (drop from self.old.text.now) ≡ None }
    {
        let mut count = 0;
        let mut place = from;
        'feeds: while at(self.text, place) == b'\n' {
            count += 1;
            place = reach!(self.begin_quoted_line(place + 1));
        }
        match push_break(value, passed, count) {
            Ok(()) => place,
            Err(_) => self.starve(),
        }
    }

    // Reads on from the end of a run between quotes where no quote closes the scalar: a line feed, one that is escaped,
    // a doubled quote or an escape.
    fn quoted_other(&mut self, quote: Quote, stop: usize, value: &mut Vec<u8>) -> usize
        requires here { IsHere self.old stop }
        ensures reached { Reaches self.old self.new (stop + 1) result }
        ensures start { self.new.start ≡ self.old.start }
        ensures still { self.new.tape ≡ self.old.tape }
        ensures names { self.new.names ≡ self.old.names }
        ensures found { is_text self.old.text.now ≡ true → EndsRun self.old.text.now quote stop → result ≢ no_place
            → Unquotes self.old.text.now quote stop result value.old.items value.new.items }
        ensures missed { is_text self.old.text.now ≡ true → EndsRun self.old.text.now quote stop
            → is_closing self.old.text.now quote stop ≡ false → result ≡ no_place → self.new.starved ≡ false
            → quoted_from self.old.text.now quote stop ≡ None }
    {
        let text = self.text;
        if at(text, stop) == b'\n' {
            let line = reach!(self.begin_quoted_line(stop + 1));
            return self.quoted_break(line, 1, value);
        }
        if stands_for_another(text, quote, stop) {
            return match read_other(text, quote, stop, value) {
                Ok(place) => place,
                Err(_) => self.starve(),
            };
        }
        if at(text, stop) != b'\\' {
            return NO_PLACE;
        }
        let feed = feed_at(text, stop + 1);
        if at(text, feed) != b'\n' {
            return NO_PLACE;
        }
        let line = reach!(self.begin_quoted_line(feed + 1));
        self.quoted_break(line, 0, value)
    }

    // Adds the node as a scalar between quotes that goes over lines, and gives the place behind its closing quote.
    #[inline(never)]
    pub(crate) fn quoted_lines(&mut self, quote: Quote, from: usize) -> usize
        requires here { IsHere self.old from }
        requires within { from < length self.old.text.now }
        requires begun { self.old.start.index ≤ from }
        ensures reached { Reaches self.old self.new from result }
        ensures found { is_text self.old.text.now ≡ true → result ≢ no_place
            → AddsQuoted self.old self.new quote (from + 1) result }
        ensures missed { is_text self.old.text.now ≡ true → result ≡ no_place → self.new.starved ≡ false
            → quoted_from self.old.text.now quote (from + 1) ≡ None }
        ensures behind { result ≢ no_place → from + 2 ≤ result }
        ensures begun { result ≢ no_place → self.new.line_start < result }
    {
        let text = self.text;
        let mut value = Vec::new(self.alloc);
        let mut place = from + 1;
        'runs: while place < text.len() {
            let stop = run_end(text, quote, place);
            let kept = run_text_end(text, place, stop);
            let Ok(()) = value.extend_from_slice(&text[place..kept]) else {
                return self.starve();
            };
            if at(text, stop) == quote.byte() && !stands_for_another(text, quote, stop) {
                return self.push_scalar(value, quote.style(), stop + 1, stop + 1);
            }
            place = reach!(self.quoted_other(quote, stop, &mut value));
        }
        NO_PLACE
    }
}
