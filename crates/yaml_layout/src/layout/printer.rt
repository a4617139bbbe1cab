//! The tokens of a text, printed one behind the other.

use crate::layout::gap::Next;
use crate::layout::lines::is_block;
use crate::layout::place::{Places, Shape};
use crate::layout::sheet::Sheet;
use crate::layout::spaces::{Kind, is_spaced, kind_of};
use crate::options::Options;
use std::alloc::{AllocError, Global};
use yaml_base::Mark;
use yaml_scan::{Lead, MarkedStyle, Placed, Token};

/// What was printed.
#[derive(Drop)]
pub(crate) struct Laid {
    pub(crate) text: Vec<u8>,
    /// The first token that a comment stands behind without a blank.
    pub(crate) touched: Option<Mark>,
}

/// What was printed of a text, and what is open.
#[derive(Drop)]
pub(crate) struct Printer<'a> {
    text: &'a [u8],
    pub(super) sheet: Sheet,
    pub(super) places: Places,
    // Where the last token begins and ends.
    pub(super) at: Option<Mark>,
    end: usize,
    // The first token that a comment stands behind without a blank.
    pub(super) touched: Option<Mark>,
    // What it is.
    before: Kind,
    // The block collection that begins with the next token.
    begins: Option<Shape>,
    // The column at which what is printed in the line begins.
    start: usize,
}

// The bytes of a text between two places.
fn part(text: &[u8], from: usize, to: usize) -> &[u8] {
    if from <= to && to <= text.len() {
        &text[from..to]
    } else {
        &text[..0]
    }
}

impl<'a> Printer<'a> {
    /// Nothing of a text.
    pub(crate) fn new(alloc: Global, text: &'a [u8], options: Options) -> Printer<'a> {
        Printer {
            text,
            sheet: Sheet::new(alloc),
            places: Places::new(alloc, options),
            at: None,
            end: 0,
            touched: None,
            before: Kind::Line,
            begins: None,
            start: 0,
        }
    }

    // The block collection that begins with a token, if one does.
    fn begun(&mut self, placed: &Placed) -> Option<Shape> {
        if let Some(shape) = self.begins.take() {
            return Some(shape);
        }
        if placed.lead == Lead::MappingKey {
            return Some(Shape::Mapping);
        }
        let flush = matches!(placed.token, Token::BlockEntry) && self.places.is_in(Shape::Mapping);
        if flush { Some(Shape::Flush) } else { None }
    }

    // Ends the flush sequence that no token of this kind goes on with.
    fn leave_flush(&mut self, placed: &Placed) {
        let leaves = placed.lead == Lead::Key || matches!(placed.token, Token::Key | Token::Value);
        if leaves && !self.places.is_flow() {
            self.places.end_flush();
        }
    }

    // The column of a token that begins a line.
    fn column_of(&self, placed: &Placed, begun: Option<Shape>) -> usize {
        let goes_on = placed.lead == Lead::Key;
        match placed.token {
            Token::FlowSequenceEnd | Token::FlowMappingEnd => {
                self.places.of_closing(placed.span.start.column())
            }
            Token::VersionDirective { .. } | Token::TagDirective { .. } => 0,
            Token::DocumentStart | Token::DocumentEnd | Token::StreamEnd => 0,
            _ if self.places.is_flow() => self.places.of_content(),
            _ => match begun {
                Some(shape) => self.places.of_block(shape),
                None => match placed.token {
                    Token::BlockEntry | Token::Key | Token::Value => self.places.of_entry(),
                    _ if goes_on => self.places.of_entry(),
                    _ => self.places.of_content(),
                },
            },
        }
    }

    // Prints what stands before a token, and begins its line or puts a space before it.
    fn approach(&mut self, placed: &Placed, begun: Option<Shape>) -> Result<(), AllocError> {
        let from = placed.span.start.index() as usize;
        let next = Next {
            old: placed.span.start.column(),
            new: self.column_of(placed, begun),
        };
        let text = self.text;
        let gap = part(text, self.end, from);
        self.gap(gap, next)?;
        let kind = kind_of(&placed.token);
        if kind == Kind::Empty {
            return Ok(());
        }
        if self.sheet.starts_line() {
            self.sheet.begin(next.new)?;
            self.start = next.new;
        } else if is_spaced(self.before, kind, !gap.is_empty()) {
            self.sheet.spaces(1)?;
        }
        Ok(())
    }

    // Begins the block collection that begins with a token, where it is printed.
    fn enter(&mut self, placed: &Placed, begun: Option<Shape>) -> Result<(), AllocError> {
        self.places.settle();
        if let Some(shape) = begun {
            let old = placed.span.start.column();
            self.places.begin_block(shape, old, self.sheet.column())?;
        }
        if self.places.is_flow() {
            return Ok(());
        }
        if matches!(placed.token, Token::Value) {
            self.places.set_in_value(true);
        } else if matches!(placed.token, Token::Key) || placed.lead != Lead::Nothing {
            self.places.set_in_value(false);
        }
        Ok(())
    }

    // Prints a token.
    fn print(&mut self, placed: &Placed) -> Result<(), AllocError> {
        let from = placed.span.start.index() as usize;
        let bytes = part(self.text, from, placed.span.end as usize);
        match &placed.token {
            Token::Scalar { style, .. } => {
                if is_block(*style) {
                    self.block_scalar(bytes)
                } else {
                    self.flow_scalar(bytes, *style == MarkedStyle::DoubleQuoted)
                }
            }
            Token::Plain => self.flow_scalar(bytes, false),
            Token::FlowSequenceStart | Token::FlowMappingStart => {
                self.places.open_bracket(self.sheet.lines(), self.start)?;
                self.sheet.put(bytes)
            }
            Token::FlowSequenceEnd | Token::FlowMappingEnd => {
                self.places.close_bracket();
                self.sheet.put(bytes)
            }
            _ => self.sheet.put(bytes),
        }
    }

    // A token with a text.
    fn shown(&mut self, placed: &Placed) -> Result<(), AllocError> {
        self.leave_flush(placed);
        let begun = self.begun(placed);
        self.approach(placed, begun)?;
        self.enter(placed, begun)?;
        self.print(placed)?;
        self.at = Some(placed.span.start);
        self.end = placed.span.end as usize;
        self.before = kind_of(&placed.token);
        Ok(())
    }

    /// Prints a token, with what stands before it.
    pub(crate) fn token(&mut self, placed: &Placed) -> Result<(), AllocError> {
        match placed.token {
            Token::BlockEnd => {
                self.places.end_block();
                Ok(())
            }
            Token::BlockMappingStart => {
                self.begins = Some(Shape::Mapping);
                Ok(())
            }
            Token::BlockSequenceStart => {
                self.begins = Some(Shape::Sequence);
                Ok(())
            }
            _ => self.shown(placed),
        }
    }

    /// What was printed.
    pub(crate) fn finish(self) -> Result<Laid, AllocError> {
        Ok(Laid {
            text: self.sheet.finish()?,
            touched: self.touched,
        })
    }
}
