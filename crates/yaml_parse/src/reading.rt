//! Tokens to events, step by step.

ghost use Rattle.std.specs.Prelude.{◌≡◌, ◌<◌, ◌≤◌, ◌∷◌, ◌++◌, [], IfOk, false, true};
ghost use Rattle.std.specs.Option.{ForSome};
ghost use Rattle.yaml_base.specs.declared.fault.FaultKind.TheVariants as kind;
ghost use Rattle.yaml_parse.specs.Handed.{handed_out, made_so_far, waiting};

use crate::Parser;
use std::alloc::AllocError;
use yaml_base::{Event, Mark};
use yaml_scan::{Fault, Tokens};

// How many events are made before the first of them is handed out. One that was just written is slow to move on. No more
// are, but those of one token, however many collections end there: tokens that are ready wait as well.
const BATCH: usize = 64;

// The tokens of a text and its parser.
#[derive(Drop)]
pub(crate) struct Reading<'a> {
    tokens: Tokens<'a>,
    parser: Parser<'a>,
    // The most steps that the scanner has left; none where the text has ended, whose last tokens may be ready yet, or no
    // more of it is parsed.
    steps: usize,
}

// Hands tokens that are ready over to the parser, until so many events wait, and tells whether it takes more.
#[inline(always)]
fn hand_over(
    tokens: &mut Tokens<'_>,
    parser: &mut Parser<'_>,
    enough: usize,
) -> Result<bool, AllocError>
    ensures text { parser.new.text.now ≡ parser.old.text.now }
    ensures handed { handed_out parser.new ≡ handed_out parser.old }
{
    'ready: for _ in 0..tokens.ready() {
        if parser.waiting() >= enough {
            break;
        }
        match tokens.next() {
            Some(placed) => {
                if !parser.take(placed)? {
                    return Ok(false);
                }
            }
            None => break,
        }
    }
    Ok(true)
}

impl<'a> Reading<'a> {
    // The tokens of a text of so many bytes and its parser, of which nothing was read.
    pub(crate) fn new(tokens: Tokens<'a>, parser: Parser<'a>, len: usize) -> Reading<'a>
        ensures { result.parser ≡ parser.entry }
    {
        Reading {
            tokens,
            parser,
            steps: len.saturating_add(1),
        }
    }

    // Parses the tokens that are ready, until so many events wait, and scans no more where the parser takes no more.
    #[inline(always)]
    fn parse_ready(&mut self, enough: usize) -> Result<(), AllocError>
        ensures text { self.new.parser.text.now ≡ self.old.parser.text.now }
        ensures handed { handed_out self.new.parser ≡ handed_out self.old.parser }
        ensures steps { self.new.steps ≤ self.old.steps }
    {
        if !hand_over(&mut self.tokens, &mut self.parser, enough)? {
            self.steps = 0;
        }
        Ok(())
    }

    // Scans a step, and parses the tokens that are ready then, until so many events wait.
    #[inline(always)]
    fn advance(&mut self, enough: usize) -> Result<(), AllocError>
        requires { 0 < self.old.steps }
        ensures text { self.new.parser.text.now ≡ self.old.parser.text.now }
        ensures handed { handed_out self.new.parser ≡ handed_out self.old.parser }
        ensures fewer { self.new.steps < self.old.steps }
    {
        self.steps -= 1;
        if !self.tokens.advance()? {
            self.steps = 0;
        }
        self.parse_ready(enough)
    }

    // Parses what is ready, and scans and parses on until so many events wait, or the tokens have ended.
    fn refill(&mut self, enough: usize) -> Result<(), AllocError>
        ensures text { self.new.parser.text.now ≡ self.old.parser.text.now }
        ensures handed { handed_out self.new.parser ≡ handed_out self.old.parser }
    {
        self.parse_ready(enough)?;
        'steps: while self.steps > 0 && self.parser.waiting() < enough {
            self.advance(enough)?;
        }
        Ok(())
    }

    // Scans and parses all that is left.
    pub(crate) fn read_all(&mut self) -> Result<(), AllocError>
        ensures text { self.new.parser.text.now ≡ self.old.parser.text.now }
        ensures handed { handed_out self.new.parser ≡ handed_out self.old.parser }
    {
        self.refill(usize::MAX)
    }

    // What is wrong with the tokens, behind all of them, if that was found, and the parser.
    pub(crate) fn into_parts(self) -> (Option<Fault>, Parser<'a>)
        ensures parser { result.1 ≡ self.entry.parser }
        ensures scanners { ForSome result.0 (λ f. f.kind ≡ kind.Scanner) }
    {
        let Reading { tokens, parser, .. } = self;
        (tokens.fault(), parser)
    }

    // The parser.
    pub(crate) fn parser(&self) -> &Parser<'a>
        ensures { result.now ≡ self.now.parser }
    {
        &self.parser
    }

    // Reads on where no event waits, and tells whether one does then: none where the tokens have ended.
    #[inline(always)]
    pub(crate) fn has_next(&mut self) -> Result<bool, AllocError>
        ensures text { self.new.parser.text.now ≡ self.old.parser.text.now }
        ensures handed { handed_out self.new.parser ≡ handed_out self.old.parser }
        ensures waits { IfOk result (λ more. more ≡ true → 0 < waiting self.new.parser) }
        ensures none { IfOk result (λ more. more ≡ false → handed_out self.new.parser ≡ made_so_far self.new.parser) }
    {
        if !self.parser.has_waiting() {
            self.refill(BATCH)?;
        }
        Ok(self.parser.has_waiting())
    }

    // Hands out the next of the events that wait, of which there is one.
    #[inline(always)]
    pub(crate) fn take_next(&mut self) -> (Event<'a>, Mark)
        requires { 0 < waiting self.old.parser }
        ensures text { self.new.parser.text.now ≡ self.old.parser.text.now }
        ensures handed { handed_out self.new.parser ≡ handed_out self.old.parser ++ result ∷ [] }
    {
        self.parser.take_waiting()
    }
}
