//! What is open around a token, and at which column what stands in it begins.

use crate::options::Options;
use std::alloc::{AllocError, Global};

/// What a block collection is.
#[derive(Clone, Copy, PartialEq, Eq)]
pub(crate) enum Shape {
    Mapping,
    Sequence,
    /// A sequence whose entries stood at the column of the mapping that it is a value of.
    Flush,
}

/// An open block collection.
#[derive(Clone, Copy)]
pub(crate) struct Block {
    pub(crate) shape: Shape,
    /// The column at which it stood.
    pub(crate) old: u64,
    /// The column at which it stands.
    pub(crate) new: usize,
    /// Whether it is a mapping amid the value of a key.
    pub(crate) in_value: bool,
}

/// An open bracket.
#[derive(Clone, Copy)]
pub(crate) struct Bracket {
    /// In which line it opens.
    line: usize,
    /// The column of a line that begins within.
    inner: usize,
    /// The column of a line that begins with the bracket that closes it.
    closing: usize,
    /// If it is the outermost, the column at which the innermost block collection stood.
    around: Option<u64>,
}

/// What is open.
#[derive(Drop)]
pub(crate) struct Places {
    step: u8,
    indent_sequences: bool,
    // The open block collections, and behind them those that have ended since the last token.
    blocks: Vec<Block>,
    // How many of them are open.
    open: usize,
    brackets: Vec<Bracket>,
}

impl Places {
    /// Nothing.
    pub(crate) fn new(alloc: Global, options: Options) -> Places {
        Places {
            step: options.indent.clamp(1, 9),
            indent_sequences: options.indent_sequences,
            blocks: Vec::new(alloc),
            open: 0,
            brackets: Vec::new(alloc),
        }
    }

    /// How many columns what stands in a collection stands further to the right.
    pub(crate) fn step(&self) -> u8 {
        self.step
    }

    /// Whether a bracket is open.
    pub(crate) fn is_flow(&self) -> bool {
        !self.brackets.is_empty()
    }

    /// The innermost open block collection.
    pub(crate) fn innermost(&self) -> Option<Block> {
        match self.open.checked_sub(1) {
            Some(last) => self.blocks.get(last).copied(),
            None => None,
        }
    }

    /// Whether the innermost block collection has this shape.
    pub(crate) fn is_in(&self, shape: Shape) -> bool {
        match self.innermost() {
            Some(block) => block.shape == shape,
            None => false,
        }
    }

    /// A block collection ends, with a flush sequence at its end.
    pub(crate) fn end_block(&mut self) {
        self.end_flush();
        self.open = self.open.saturating_sub(1);
    }

    /// A flush sequence ends, if one is innermost.
    pub(crate) fn end_flush(&mut self) {
        if self.is_in(Shape::Flush) {
            self.open = self.open.saturating_sub(1);
        }
    }

    /// Forgets what has ended.
    pub(crate) fn settle(&mut self) {
        self.blocks.truncate(self.open);
    }

    /// A block collection begins.
    pub(crate) fn begin_block(
        &mut self,
        shape: Shape,
        old: u64,
        new: usize,
    ) -> Result<(), AllocError> {
        self.settle();
        self.blocks.push(Block {
            shape,
            old,
            new,
            in_value: false,
        })?;
        self.open = self.blocks.len();
        Ok(())
    }

    /// The innermost mapping goes on with a key, or with a value.
    pub(crate) fn set_in_value(&mut self, in_value: bool) {
        if let Some(last) = self.open.checked_sub(1) {
            if let Some(block) = self.blocks.get_mut(last) {
                block.in_value = in_value;
            }
        }
    }

    /// The column of what stands in the innermost block collection.
    pub(crate) fn within(&self) -> usize {
        match self.innermost() {
            Some(block) => block.new.saturating_add(self.step as usize),
            None => 0,
        }
    }

    /// The column of a line that a block collection begins.
    pub(crate) fn of_block(&self, shape: Shape) -> usize {
        match self.innermost() {
            Some(block) => {
                let flush = shape != Shape::Mapping
                    && block.shape == Shape::Mapping
                    && block.in_value
                    && !self.indent_sequences;
                if flush {
                    block.new
                } else {
                    block.new.saturating_add(self.step as usize)
                }
            }
            None => 0,
        }
    }

    /// The column of a line that goes on with the innermost block collection.
    pub(crate) fn of_entry(&self) -> usize {
        match self.innermost() {
            Some(block) => block.new,
            None => 0,
        }
    }

    /// The column of a line that begins with a token that no block collection begins or goes on with.
    pub(crate) fn of_content(&self) -> usize {
        match self.brackets.as_slice().last() {
            Some(bracket) => bracket.inner,
            None => self.within(),
        }
    }

    /// The column of a line that begins with a bracket that closes.
    pub(crate) fn of_closing(&self, old: u64) -> usize {
        match self.brackets.as_slice().last() {
            Some(bracket) => match bracket.around {
                Some(around) if around < old => bracket.inner,
                _ => bracket.closing,
            },
            None => 0,
        }
    }

    /// A bracket opens in this line, in which what is printed begins at this column.
    pub(crate) fn open_bracket(&mut self, line: usize, start: usize) -> Result<(), AllocError> {
        let bracket = match self.brackets.as_slice().last() {
            Some(outer) if outer.line == line => Bracket {
                around: None,
                ..*outer
            },
            Some(_) => Bracket {
                line,
                inner: start.saturating_add(self.step as usize),
                closing: start,
                around: None,
            },
            None => Bracket {
                line,
                inner: self.of_entry().saturating_add(self.step as usize),
                closing: self.of_entry(),
                around: self.innermost().map(|block| block.old),
            },
        };
        self.brackets.push(bracket)?;
        Ok(())
    }

    /// A bracket closes.
    pub(crate) fn close_bracket(&mut self) {
        let _ = self.brackets.pop();
    }

    /// The column of a comment that stands in a line by itself, before a token that stood at a column and stands at
    /// another.
    pub(crate) fn of_comment(&self, old: u64, next_old: u64, next_new: usize) -> usize {
        if let Some(bracket) = self.brackets.as_slice().last() {
            return bracket.inner;
        }
        if old == next_old {
            return next_new;
        }
        let mut best_old = 0;
        let mut best_new = 0;
        for block in self.blocks.as_slice() {
            if block.old <= old && best_old <= block.old {
                best_old = block.old;
                best_new = block.new;
            }
        }
        if next_old < old && best_old < next_old {
            return next_new;
        }
        best_new
    }
}
