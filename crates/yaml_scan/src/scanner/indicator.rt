//! Indicators of entries, keys and values, and where documents begin and end.

use crate::directive::scan_directive;
use crate::scanner::Scanner;
use crate::{Lead, Problem, Stop, Token};

impl Scanner<'_> {
    // The end of the text.
    pub(super) fn stream_end(&mut self) -> Result<(), Stop> {
        self.cursor.end_line();
        self.unroll(0)?;
        self.remove_candidate()?;
        self.key_allowed = false;
        self.put_empty(Token::StreamEnd)
    }

    // `%`
    pub(super) fn directive(&mut self) -> Result<(), Stop> {
        self.unroll(0)?;
        self.remove_candidate()?;
        self.key_allowed = false;
        let start = self.cursor.mark();
        let directive = scan_directive(self.alloc, &mut self.cursor)?;
        self.put(directive.token, start, directive.end)
    }

    // `---` or `...`
    pub(super) fn document_indicator(&mut self, token: Token) -> Result<(), Stop> {
        self.unroll(0)?;
        self.remove_candidate()?;
        self.key_allowed = false;
        let start = self.cursor.mark();
        self.cursor.skip_many(3);
        self.put_here(token, start)
    }

    // A collection by indentation begins at an indicator, if none is open at this column. Within brackets it doesn't.
    #[inline(always)]
    fn begin_block(&mut self, token: Token, problem: Problem) -> Result<(), Stop> {
        if self.is_flow() {
            return Ok(());
        }
        if !self.key_allowed {
            return Err(self.cursor.bare_fault(problem));
        }
        let column = self.cursor.column();
        if self.roll(column)? {
            self.put_empty(token)?;
        }
        Ok(())
    }

    // `-`
    pub(super) fn block_entry(&mut self) -> Result<(), Stop> {
        let problem = Problem::BlockSequenceEntriesAreNotAllowedInThisContext;
        self.begin_block(Token::BlockSequenceStart, problem)?;
        self.remove_candidate()?;
        self.key_allowed = true;
        self.put_byte(Token::BlockEntry)
    }

    // `?`
    pub(super) fn key(&mut self) -> Result<(), Stop> {
        let problem = Problem::MappingKeysAreNotAllowedInThisContext;
        self.begin_block(Token::BlockMappingStart, problem)?;
        self.remove_candidate()?;
        self.key_allowed = !self.is_flow();
        self.put_byte(Token::Key)
    }

    // Tells the token at this place that it is a key. It stands in this line, in which no collection has ended, so
    // that no run of ends stands behind it.
    #[inline(always)]
    fn set_lead(&mut self, place: usize, lead: Lead) {
        let end = self.taken.saturating_add(self.waiting);
        let behind = end.saturating_sub(place);
        let at = self.tokens.len().saturating_sub(behind);
        if let Some(placed) = self.tokens.get_mut(at) {
            placed.lead = lead;
        }
    }

    // `:`
    pub(super) fn value(&mut self) -> Result<(), Stop> {
        if let Some(candidate) = self.candidates.last() {
            let begins = self.roll(candidate.mark.column() as usize)?;
            let lead = if begins { Lead::MappingKey } else { Lead::Key };
            self.set_lead(candidate.place, lead);
            self.candidates.remove();
            self.key_allowed = false;
        } else {
            let problem = Problem::MappingValuesAreNotAllowedInThisContext;
            self.begin_block(Token::BlockMappingStart, problem)?;
            self.key_allowed = !self.is_flow();
        }
        self.put_byte(Token::Value)
    }
}
