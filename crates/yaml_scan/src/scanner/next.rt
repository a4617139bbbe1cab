//! Which token comes next.

use crate::quoted::Quote;
use crate::scanner::Scanner;
use crate::{Context, MarkedStyle, Problem, Stop, Token};

// Whether the text goes on behind a token.
#[derive(Clone, Copy, PartialEq, Eq)]
pub(crate) enum More {
    Yes,
    No,
}

impl Scanner<'_> {
    // Steps over blanks, comments and line breaks. Tabs are blanks where no key may begin.
    #[inline(always)]
    fn to_next_token(&mut self) {
        for _ in 0..self.cursor.left() {
            if self.cursor.is_ascii_start() || self.cursor.skip_lone_space() {
                break;
            }
            if self.cursor.is_order_mark() {
                self.cursor.skip();
            }
            let tabs = self.is_flow() || !self.key_allowed;
            self.cursor.skip_spaces(tabs);
            self.cursor.skip_comment();
            if !self.cursor.is_break(0) {
                break;
            }
            self.cursor.skip_line();
            if !self.is_flow() {
                self.key_allowed = true;
            }
        }
    }

    // Whether a plain scalar may begin here.
    #[inline(always)]
    fn begins_plain(&self) -> bool {
        match self.cursor.byte(0) {
            b'-' => !self.cursor.is_blank(1),
            b'?' | b':' => !self.is_flow() && !self.cursor.is_blank_or_end(1),
            b',' | b'[' | b']' | b'{' | b'}' | b'#' | b'&' | b'*' | b'!' => false,
            b'|' | b'>' | b'\'' | b'"' | b'%' | b'@' | b'`' => false,
            _ => !self.cursor.is_blank_or_end(0),
        }
    }

    // Scans the next token, once stale candidates are given up, and tells whether the text goes on behind it.
    pub(crate) fn next(&mut self) -> Result<More, Stop> {
        self.to_next_token();
        self.drop_stale()?;
        let indent = self.cursor.column().saturating_add(1);
        self.unroll(indent)?;
        if self.cursor.is_end() {
            self.stream_end()?;
            self.drop_stale()?;
            return Ok(More::No);
        }
        if self.cursor.column() == 0 && self.begin_line()? {
            return Ok(More::Yes);
        }
        self.token()?;
        Ok(More::Yes)
    }

    // Scans what may stand only at the beginning of a line, and tells whether something did.
    #[inline(always)]
    fn begin_line(&mut self) -> Result<bool, Stop> {
        if self.cursor.byte(0) == b'%' {
            self.directive()?;
        } else if self.cursor.is_triple(b'-') {
            self.document_indicator(Token::DocumentStart)?;
        } else if self.cursor.is_triple(b'.') {
            self.document_indicator(Token::DocumentEnd)?;
        } else {
            return Ok(false);
        }
        Ok(true)
    }

    // Scans a token that may stand anywhere.
    fn token(&mut self) -> Result<(), Stop> {
        let flow = self.is_flow();
        match self.cursor.byte(0) {
            b'[' => self.flow_start(Token::FlowSequenceStart),
            b'{' => self.flow_start(Token::FlowMappingStart),
            b']' => self.flow_end(Token::FlowSequenceEnd),
            b'}' => self.flow_end(Token::FlowMappingEnd),
            b',' => self.flow_entry(),
            b'-' if self.cursor.is_blank_or_end(1) => self.block_entry(),
            b'?' if flow || self.cursor.is_blank_or_end(1) => self.key(),
            b':' if flow || self.cursor.is_blank_or_end(1) => self.value(),
            _ => self.node(flow),
        }
    }

    // Scans a token that belongs to a node.
    fn node(&mut self, flow: bool) -> Result<(), Stop> {
        match self.cursor.byte(0) {
            b'*' => self.alias(),
            b'&' => self.anchor(),
            b'!' => self.tag(),
            b'|' if !flow => self.block_scalar(MarkedStyle::Literal),
            b'>' if !flow => self.block_scalar(MarkedStyle::Folded),
            b'\'' => self.quoted_scalar(Quote::Single),
            b'"' => self.quoted_scalar(Quote::Double),
            _ if self.begins_plain() => self.plain_scalar(),
            _ => {
                let problem = Problem::FoundCharacterThatCannotStartAnyToken;
                let mark = self.cursor.mark();
                Err(
                    self.cursor
                        .fault(Context::ScanningForTheNextToken, mark, problem),
                )
            }
        }
    }

    // Scans the next token. Before that stale candidates are given up, and it is found how many of the tokens that wait
    // can't change any more. Behind the last token none can.
    pub(crate) fn advance(&mut self, ready: &mut usize) -> Result<More, Stop> {
        self.drop_stale()?;
        *ready = self.released();
        let more = self.next()?;
        if more == More::No {
            *ready = self.waiting();
        }
        Ok(more)
    }
}
