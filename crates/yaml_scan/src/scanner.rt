//! The scanner's state: its place, the tokens that wait, and which collections are open.

ghost use Rattle.std.specs.Prelude.{◌≡◌, ◌+◌, ◌≤◌, IfOk, length};

mod flow;
mod indicator;
mod next;
mod node;

use crate::candidate::{Candidate, Candidates};
use crate::cursor::Cursor;
use crate::{Context, Finding, Lead, Placed, Problem, Span, Stop, Token};
pub(crate) use next::More;
use std::alloc::{AllocError, Global};
use std::collections::VecDeque;
use yaml_base::Mark;

// Ends of block collections at one place, which wait as a single token.
#[derive(Clone, Copy)]
struct Run {
    // Which of the tokens is the first of them.
    first: usize,
    // How many were not handed over.
    left: usize,
}

// A scanner amid a text.
#[derive(Drop)]
pub(crate) struct Scanner<'a> {
    alloc: Global,
    cursor: Cursor<'a>,
    // The tokens that were not handed over, but for a run of ends, of which one stands here.
    tokens: VecDeque<Placed>,
    // The runs among them that have more than one end.
    runs: VecDeque<Run>,
    // How many tokens were handed over, and how many were not.
    taken: usize,
    waiting: usize,
    // The columns of the open block collections, each plus 1.
    indents: Vec<usize>,
    candidates: Candidates,
    // Whether a key may begin here.
    key_allowed: bool,
}

impl<'a> Scanner<'a> {
    // A scanner at the start of a text.
    pub(crate) fn new(alloc: Global, text: &'a [u8]) -> Result<Scanner<'a>, AllocError>
        ensures { IfOk result (λ scanner. scanner.cursor.text.now ≡ text.now) }
    {
        let cursor = Cursor::new(text);
        let candidates = Candidates::new(alloc)?;
        Ok(Scanner {
            alloc,
            cursor,
            tokens: VecDeque::new(alloc),
            runs: VecDeque::new(alloc),
            taken: 0,
            waiting: 0,
            indents: Vec::new(alloc),
            candidates,
            key_allowed: true,
        })
    }

    // A scanner at a mark of a text where a document may begin.
    pub(crate) fn behind(
        alloc: Global,
        text: &'a [u8],
        mark: Mark,
    ) -> Result<Scanner<'a>, AllocError>
        requires within { mark.index ≤ length text.now }
        requires counted { mark.line + mark.column ≤ mark.index }
    {
        let mut scanner = Scanner::new(alloc, text)?;
        scanner.cursor.go_to(mark);
        Ok(scanner)
    }

    // What is wrong with the text, if that was found.
    pub(crate) fn found(&self) -> Option<Finding> {
        self.cursor.found()
    }

    // How many of the tokens that wait can't change any more: those before the first that may be a key.
    #[inline(always)]
    fn released(&mut self) -> usize {
        match self.candidates.first_place() {
            Some(place) => place.saturating_sub(self.taken),
            None => self.waiting,
        }
    }

    // How many tokens wait.
    #[inline(always)]
    pub(crate) fn waiting(&self) -> usize {
        self.waiting
    }

    // The first of the tokens that wait, if it is one of a run of which more are left, which then wait on.
    #[inline(never)]
    fn pop_of_run(&mut self) -> Option<Placed> {
        let run = self.runs.get_mut(0)?;
        if run.first > self.taken {
            return None;
        }
        if run.left <= 1 {
            let _ = self.runs.pop_front();
            return None;
        }
        run.left -= 1;
        let span = self.tokens.get(0)?.span;
        Some(Placed {
            lead: Lead::Nothing,
            token: Token::BlockEnd,
            span,
        })
    }

    // Takes the first of the tokens that wait.
    #[inline(always)]
    fn pop_token(&mut self) -> Option<Placed> {
        if !self.runs.is_empty() {
            if let Some(end) = self.pop_of_run() {
                return Some(end);
            }
        }
        self.tokens.pop_front()
    }

    // Hands over the first of the tokens that wait.
    #[inline(always)]
    pub(crate) fn pop(&mut self) -> Option<Placed> {
        let first = self.pop_token();
        if first.is_some() {
            self.taken = self.taken.saturating_add(1);
            self.waiting = self.waiting.saturating_sub(1);
        }
        first
    }

    // Whether a bracket is open.
    #[inline(always)]
    fn is_flow(&self) -> bool {
        self.candidates.is_flow()
    }

    // The column of the innermost open block collection plus 1, or 0.
    #[inline(always)]
    fn indent(&self) -> usize {
        match self.indents.as_slice().last() {
            Some(indent) => *indent,
            None => 0,
        }
    }

    // Adds a token.
    #[inline(always)]
    fn put(&mut self, token: Token, start: Mark, end: u64) -> Result<(), Stop> {
        if self.tokens.len() == self.tokens.capacity() {
            self.tokens.reserve(1)?;
        }
        self.tokens.push_back_reserved(Placed {
            lead: Lead::Nothing,
            token,
            span: Span { start, end },
        });
        self.waiting = self.waiting.saturating_add(1);
        Ok(())
    }

    // Adds a token that ends here.
    #[inline(always)]
    fn put_here(&mut self, token: Token, start: Mark) -> Result<(), Stop> {
        let end = self.cursor.index();
        self.put(token, start, end)
    }

    // Adds a token that has no text.
    #[inline(always)]
    fn put_empty(&mut self, token: Token) -> Result<(), Stop> {
        let mark = self.cursor.mark();
        self.put(token, mark, mark.index())
    }

    // Steps over a character, and adds it as a token.
    #[inline(always)]
    fn put_byte(&mut self, token: Token) -> Result<(), Stop> {
        let start = self.cursor.mark();
        self.cursor.skip();
        self.put_here(token, start)
    }

    // The fault of a key that has no `:`.
    fn no_colon(&mut self, candidate: Candidate) -> Stop {
        let problem = Problem::CouldNotFindExpectedColon;
        self.cursor
            .fault(Context::ScanningASimpleKey, candidate.mark, problem)
    }

    // Gives up the candidates that can't be keys any more.
    #[inline(always)]
    fn drop_stale(&mut self) -> Result<(), Stop> {
        match self.candidates.drop_stale(&self.cursor) {
            Some(candidate) => Err(self.no_colon(candidate)),
            None => Ok(()),
        }
    }

    // Gives up the candidate of the innermost bracket.
    #[inline(always)]
    fn remove_candidate(&mut self) -> Result<(), Stop> {
        if let Some(candidate) = self.candidates.last() {
            if candidate.required {
                return Err(self.no_colon(candidate));
            }
            self.candidates.remove();
        }
        Ok(())
    }

    // Where a key may stand, the next token may be one.
    #[inline(always)]
    fn save_candidate(&mut self) -> Result<(), Stop> {
        if self.key_allowed {
            self.remove_candidate()?;
            let required = !self.is_flow()
                && self.indent() == self.cursor.column().saturating_add(1);
            let place = self.taken.saturating_add(self.waiting);
            let mark = self.cursor.mark();
            self.candidates.save(Candidate {
                required,
                place,
                mark,
            });
        }
        Ok(())
    }

    // Adds the ends of so many block collections. However many they are, they wait as one token.
    fn put_ends(&mut self, count: usize) -> Result<(), Stop> {
        if count > 1 {
            self.runs.push_back(Run {
                first: self.taken.saturating_add(self.waiting),
                left: count,
            })?;
            self.waiting = self.waiting.saturating_add(count - 1);
        }
        self.put_empty(Token::BlockEnd)
    }

    // Ends the block collections whose column plus 1 is more than `indent`.
    #[inline(always)]
    fn unroll(&mut self, indent: usize) -> Result<(), Stop> {
        if self.is_flow() || self.indent() <= indent {
            return Ok(());
        }
        let mut count: usize = 0;
        for _ in 0..self.indents.len() {
            if self.indent() <= indent {
                break;
            }
            let _ = self.indents.pop();
            count = count.saturating_add(1);
        }
        self.put_ends(count)
    }

    // Begins a block collection at this column, if none is open there or further to the right, and tells whether one
    // begins.
    #[inline(always)]
    fn roll(&mut self, column: usize) -> Result<bool, Stop> {
        let begins = !self.is_flow() && self.indent() <= column;
        if begins {
            self.indents.push(column.saturating_add(1))?;
        }
        Ok(begins)
    }
}
