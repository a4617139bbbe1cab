//! Quotes, and what stands between them in one line.

ghost use Rattle.std.specs.Prelude.{◌≡◌, ◌≢◌, ◌+◌, ◌-◌, ◌<◌, ◌≤◌, ℕ, IfOk, IsTrue, false, length, slice_range, true};
ghost use Rattle.memchr.specs.Find.{IsFirstByte};
ghost use Rattle.std.specs.Option.{option_map};
ghost use Rattle.yaml_direct.specs.Bytes.{at};
ghost use Rattle.yaml_direct.specs.LeftInBrackets.{Passes};
ghost use Rattle.yaml_direct.specs.Places.{no_place};
ghost use Rattle.yaml_direct.specs.Quoted.{Closes, ClosesInLine, EndsRun, IsRun, UnquotesIf, is_other, is_stop};
ghost use Rattle.yaml_direct.specs.Quoted.{is_end_blank, quote_of, quoted_from, style_of};
ghost use Rattle.yaml_direct.specs.declared.quote.Quote.{Quote};
ghost use Rattle.yaml_grammar.specs.Bytes.{is_text};
ghost use Rattle.yaml_grammar.specs.Folding.{with_bytes};

use crate::byte::at;
use crate::escape::read_escape;
use crate::place::NO_PLACE;
use memchr::{memchr2, memchr3};
use std::alloc::{AllocError, Global};
use yaml_base::ScalarStyle;

// The quotes around a scalar.
#[derive(Clone, Copy, PartialEq, Eq)]
pub(crate) enum Quote {
    Single,
    Double,
}

impl Quote {
    // The quote itself.
    #[inline(always)]
    pub(crate) fn byte(self) -> u8
        ensures some { 0 < result }
        ensures quote { result ≡ quote_of self }
    {
        match self {
            Quote::Single => b'\'',
            Quote::Double => b'"',
        }
    }

    // The style of such a scalar.
    pub(crate) fn style(self) -> ScalarStyle
        ensures { result ≡ style_of self }
    {
        match self {
            Quote::Single => ScalarStyle::SingleQuoted,
            Quote::Double => ScalarStyle::DoubleQuoted,
        }
    }
}

// The first byte that does not stand for itself between such quotes.
#[inline(always)]
fn first_stop(text: &[u8], quote: Quote) -> Option<usize>
    ensures { IsFirstByte (is_stop quote) text.now result }
{
    match quote {
        Quote::Single => memchr2(b'\'', b'\n', text),
        Quote::Double => memchr3(b'"', b'\\', b'\n', text),
    }
}

// Where the bytes end that stand for themselves: at a quote, a line feed, the end, or a backslash between double
// quotes.
#[inline(always)]
pub(crate) fn run_end(text: &[u8], quote: Quote, from: usize) -> usize
    requires { from ≤ length text.now }
    ensures forward { from ≤ result }
    ensures within { result ≤ length text.now }
    ensures run { IsRun text.now quote from result }
    ensures ends { EndsRun text.now quote result }
{
    match first_stop(&text[from..], quote) {
        Some(len) => from + len,
        None => text.len(),
    }
}

// Where the closing quote stands, or where the line ends before it, from the end of a run on.
pub(crate) fn closing(text: &[u8], quote: Quote, from: usize) -> usize
    requires { from ≤ length text.now }
    ensures forward { from ≤ result }
    ensures within { result ≤ length text.now }
    ensures closes { at text.now result ≡ quote_of quote → Closes text.now quote from result }
    ensures passes { Passes text.now quote from result }
    ensures ends { EndsRun text.now quote from → EndsRun text.now quote result }
    ensures opened { is_other text.now quote result ≡ false }
{
    let mut place = from;
    'runs: while stands_for_another(text, quote, place) {
        place = run_end(text, quote, place + 2);
    }
    place
}

// Whether a quote that is doubled stands here, or an escape that ends no line.
#[inline(always)]
pub(crate) fn stands_for_another(text: &[u8], quote: Quote, place: usize) -> bool
    requires { place ≤ length text.now }
    ensures value { result ≡ is_other text.now quote place }
    ensures within { IsTrue result → place + 2 ≤ length text.now }
{
    match quote {
        Quote::Single => at(text, place) == b'\'' && at(text, place + 1) == b'\'',
        Quote::Double => at(text, place) == b'\\'
            && !matches!(at(text, place + 1), b'\n' | b'\r' | 0),
    }
}

// Puts a doubled quote or what an escape stands for behind a text, and gives the place behind, or none.
pub(crate) fn read_other(
    text: &[u8],
    quote: Quote,
    place: usize,
    out: &mut Vec<u8>,
) -> Result<usize, AllocError>
    requires { place < length text.now }
    ensures forward { IfOk result (λ end. place + 1 ≤ end) }
    ensures within { IfOk result (λ end. end ≢ no_place → end ≤ length text.now) }
    ensures read { is_other text.now quote place ≡ true
        → IfOk result (λ end. UnquotesIf text.now quote place end out.old.items out.new.items) }
    ensures run { is_other text.now quote place ≡ true
        → IfOk result (λ end. end ≢ no_place → (place + 2 ≤ end) × IsRun text.now quote (place + 2) end) }
{
    match quote {
        Quote::Single => {
            out.reserve(1)?;
            out.push_reserved(b'\'');
            Ok((place + 2).min(text.len()))
        }
        Quote::Double => read_escape(text, place, out),
    }
}

// How many blanks end a run before a line feed, with the carriage return that may stand before that.
fn blanks_at_end(run: &[u8]) -> usize
    ensures within { result ≤ length run.now }
    ensures blanks { (k : ℕ) → length run.now - result ≤ k → k < length run.now
        → is_end_blank (at run.now k) ≡ true }
    ensures dark { result < length run.now → is_end_blank (at run.now (length run.now - 1 - result)) ≡ false }
{
    for count in 0..run.len() {
        if !matches!(run[run.len() - 1 - count], b' ' | b'\t' | b'\r') {
            return count;
        }
    }
    run.len()
}

// Where the text of a run ends, without the blanks before a line feed that ends it.
#[inline(always)]
pub(crate) fn run_text_end(text: &[u8], from: usize, stop: usize) -> usize
    requires { (from ≤ stop) × (stop ≤ length text.now) }
    ensures part { (from ≤ result) × (result ≤ stop) }
    ensures says { is_text text.now ≡ true → (quote : Quote) → IsRun text.now quote from stop
        → EndsRun text.now quote stop → quoted_from text.now quote from
        ≡ with_bytes (stop - from) (slice_range text.now from result) (quoted_from text.now quote stop) }
{
    if at(text, stop) == b'\n' {
        stop - blanks_at_end(&text[from..stop])
    } else {
        stop
    }
}

// The text between quotes in one line, if its escapes are in due form.
pub(crate) fn unquoted(
    alloc: Global,
    text: &[u8],
    quote: Quote,
    from: usize,
    end: usize,
) -> Result<Option<Vec<u8>>, AllocError>
    requires { (from ≤ end) × (end ≤ length text.now) }
    ensures { ClosesInLine text.now quote from end → IfOk result (λ value.
        quoted_from text.now quote from ≡ option_map (λ v. (end + 1 - from, v.items)) value) }
{
    let mut value = Vec::with_capacity(alloc, end - from)?;
    let mut place = from;
    'runs: while place < end {
        let stop = run_end(text, quote, place);
        value.extend_from_slice(&text[place..stop])?;
        place = stop;
        if place < end {
            place = read_other(text, quote, place, &mut value)?;
        }
    }
    if place == NO_PLACE {
        return Ok(None);
    }
    Ok(Some(value))
}
