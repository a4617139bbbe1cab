//! What belongs to a node: anchors, aliases, tags and scalars.

use crate::block::scan_block;
use crate::name::scan_anchor;
use crate::plain::scan_plain;
use crate::quoted::{Quote, scan_quoted};
use crate::scanner::Scanner;
use crate::tag::scan_tag;
use crate::{Context, MarkedStyle, Stop, Token};

impl Scanner<'_> {
    // `&` with a name.
    pub(super) fn anchor(&mut self) -> Result<(), Stop> {
        self.save_candidate()?;
        self.key_allowed = false;
        let start = self.cursor.mark();
        let name = scan_anchor(self.alloc, &mut self.cursor, Context::ScanningAnAnchor)?;
        self.put_here(Token::Anchor(name), start)
    }

    // `*` with a name.
    pub(super) fn alias(&mut self) -> Result<(), Stop> {
        self.save_candidate()?;
        self.key_allowed = false;
        let start = self.cursor.mark();
        let name = scan_anchor(self.alloc, &mut self.cursor, Context::ScanningAnAlias)?;
        self.put_here(Token::Alias(name), start)
    }

    // `!`
    pub(super) fn tag(&mut self) -> Result<(), Stop> {
        self.save_candidate()?;
        self.key_allowed = false;
        let start = self.cursor.mark();
        let flow = self.is_flow();
        let token = scan_tag(self.alloc, &mut self.cursor, flow)?;
        self.put_here(token, start)
    }

    // `|` or `>`
    pub(super) fn block_scalar(&mut self, style: MarkedStyle) -> Result<(), Stop> {
        self.remove_candidate()?;
        self.key_allowed = true;
        let start = self.cursor.mark();
        let least = self.indent();
        let literal = style == MarkedStyle::Literal;
        let block = scan_block(self.alloc, &mut self.cursor, literal, least)?;
        let token = Token::Scalar {
            value: block.text,
            style,
        };
        self.put(token, start, block.end)
    }

    // `'` or `"`
    pub(super) fn quoted_scalar(&mut self, quote: Quote) -> Result<(), Stop> {
        self.save_candidate()?;
        self.key_allowed = false;
        let start = self.cursor.mark();
        let value = scan_quoted(self.alloc, &mut self.cursor, quote)?;
        let style = match quote {
            Quote::Single => MarkedStyle::SingleQuoted,
            Quote::Double => MarkedStyle::DoubleQuoted,
        };
        self.put_here(Token::Scalar { value, style }, start)
    }

    // A scalar with neither quotes nor an indicator.
    pub(super) fn plain_scalar(&mut self) -> Result<(), Stop> {
        self.save_candidate()?;
        self.key_allowed = false;
        let start = self.cursor.mark();
        let (flow, indent) = (self.is_flow(), self.indent());
        let plain = scan_plain(&mut self.cursor, flow, indent)?;
        if plain.broken {
            self.key_allowed = true;
        }
        self.put(Token::Plain, start, plain.end)
    }
}
