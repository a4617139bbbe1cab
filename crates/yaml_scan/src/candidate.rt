//! Tokens that a `:` may still show to be keys.

use crate::cursor::Cursor;
use std::alloc::{AllocError, Global};
use yaml_base::Mark;

// How many bytes a key has at most.
const MOST_BYTES: u64 = 1024;

// A token that a `:` may still show to be a key.
#[derive(Clone, Copy)]
pub(crate) struct Candidate {
    // Whether it has to be a key, since it stands where the keys of a mapping by indentation do.
    pub(crate) required: bool,
    // Which of the tokens it is.
    pub(crate) place: usize,
    // Where it begins.
    pub(crate) mark: Mark,
}

impl Candidate {
    // Whether the candidate can't be a key any more at this place: on a later line, or too far behind.
    #[inline(always)]
    fn is_stale(&self, here: &Cursor<'_>) -> bool {
        self.mark.line() != here.line() as u64
            || self.mark.index().saturating_add(MOST_BYTES) < here.at() as u64
    }
}

// A candidate or none outside of brackets, and one or none in each open bracket.
#[derive(Drop)]
pub(crate) struct Candidates {
    levels: Vec<Option<Candidate>>,
    // Below this level no candidate is possible.
    fresh: usize,
}

impl Candidates {
    // No open bracket, and no candidate.
    pub(crate) fn new(alloc: Global) -> Result<Candidates, AllocError> {
        let mut levels = Vec::new(alloc);
        levels.push(None)?;
        Ok(Candidates { levels, fresh: 1 })
    }

    // Whether a bracket is open.
    #[inline(always)]
    pub(crate) fn is_flow(&self) -> bool {
        self.levels.len() > 1
    }

    // A bracket opens.
    pub(crate) fn open(&mut self) -> Result<(), AllocError> {
        self.levels.push(None)?;
        Ok(())
    }

    // The innermost bracket closes, if one is open.
    pub(crate) fn close(&mut self) {
        if self.is_flow() {
            let _ = self.levels.pop();
            self.fresh = self.fresh.min(self.levels.len());
        }
    }

    // The candidate of the innermost bracket, if it has one that is not stale.
    #[inline(always)]
    pub(crate) fn last(&self) -> Option<Candidate> {
        match self.levels.as_slice().last() {
            Some(candidate) if self.fresh < self.levels.len() => *candidate,
            _ => None,
        }
    }

    // Puts a candidate in the place of the innermost bracket's.
    #[inline(always)]
    fn set(&mut self, candidate: Option<Candidate>) {
        if let Some(last) = self.levels.as_mut_slice().last_mut() {
            *last = candidate;
        }
    }

    // The next token is the candidate of the innermost bracket.
    #[inline(always)]
    pub(crate) fn save(&mut self, candidate: Candidate) {
        self.set(Some(candidate));
        self.fresh = self.fresh.min(self.levels.len().saturating_sub(1));
    }

    // The innermost bracket has no candidate any more.
    #[inline(always)]
    pub(crate) fn remove(&mut self) {
        self.set(None);
        if self.fresh.saturating_add(1) == self.levels.len() {
            self.fresh = self.levels.len();
        }
    }

    // Gives up the candidates that are stale at this place. One of them that has to be a key stays, and is given.
    #[inline(always)]
    pub(crate) fn drop_stale(&mut self, here: &Cursor<'_>) -> Option<Candidate> {
        for _ in self.fresh..self.levels.len() {
            match self.levels.as_slice().get(self.fresh) {
                Some(Some(candidate)) => {
                    if !candidate.is_stale(here) {
                        break;
                    }
                    if candidate.required {
                        return Some(*candidate);
                    }
                }
                _ => {}
            }
            self.fresh = self.fresh.saturating_add(1);
        }
        None
    }

    // Which token is the first that may be a key, if one may.
    #[inline(always)]
    pub(crate) fn first_place(&mut self) -> Option<usize> {
        for _ in self.fresh..self.levels.len() {
            if let Some(Some(candidate)) = self.levels.as_slice().get(self.fresh) {
                return Some(candidate.place);
            }
            self.fresh = self.fresh.saturating_add(1);
        }
        None
    }
}
