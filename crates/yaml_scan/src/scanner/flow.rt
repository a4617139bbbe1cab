//! Brackets, and what stands between their parts.

use crate::scanner::Scanner;
use crate::{Stop, Token};

impl Scanner<'_> {
    // `[` or `{`
    #[inline(always)]
    pub(super) fn flow_start(&mut self, token: Token) -> Result<(), Stop> {
        self.save_candidate()?;
        self.candidates.open()?;
        self.key_allowed = true;
        self.put_byte(token)
    }

    // `]` or `}`
    #[inline(always)]
    pub(super) fn flow_end(&mut self, token: Token) -> Result<(), Stop> {
        self.remove_candidate()?;
        self.candidates.close();
        self.key_allowed = false;
        self.put_byte(token)
    }

    // `,`
    pub(super) fn flow_entry(&mut self) -> Result<(), Stop> {
        self.remove_candidate()?;
        self.key_allowed = true;
        self.put_byte(Token::FlowEntry)
    }
}
