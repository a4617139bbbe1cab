//! Scalars that are blocks of lines.

use crate::byte::Run;
use crate::cursor::Cursor;
use crate::{Context, Problem, Stop};
use std::alloc::{AllocError, Global};
use yaml_base::Mark;

const CONTEXT: Context = Context::ScanningABlockScalar;

// What is done with the line breaks at the end.
#[derive(Clone, Copy, PartialEq, Eq)]
enum Chomping {
    Strip,
    Clip,
    Keep,
}

// A block's text and end.
#[derive(Drop)]
pub(crate) struct Block {
    pub(crate) text: Vec<u8>,
    pub(crate) end: u64,
}

// What stands behind `|` or `>`: what is done with the last line breaks, and the indentation, or 0 if none is asked.
#[derive(Clone, Copy)]
struct Header {
    chomping: Chomping,
    step: usize,
}

// Reads `+` or `-`, if one is here.
fn read_chomping(cursor: &mut Cursor<'_>) -> Option<Chomping> {
    let chomping = match cursor.byte(0) {
        b'+' => Chomping::Keep,
        b'-' => Chomping::Strip,
        _ => return None,
    };
    cursor.skip();
    Some(chomping)
}

// Reads a digit, if one is here, which may not be 0; else 0.
fn read_step(cursor: &mut Cursor<'_>, start: Mark) -> Result<usize, Stop> {
    let byte = cursor.byte(0);
    if !byte.is_ascii_digit() {
        return Ok(0);
    }
    if byte == b'0' {
        return Err(cursor.fault(CONTEXT, start, Problem::FoundAnIndentationIndicatorZero));
    }
    cursor.skip();
    Ok((byte & 0xF) as usize)
}

// Reads what stands behind `|` or `>`, with the rest of the line.
fn read_header(cursor: &mut Cursor<'_>, start: Mark) -> Result<Header, Stop> {
    let before = read_chomping(cursor);
    let step = read_step(cursor, start)?;
    let chomping = match before {
        Some(chomping) => chomping,
        None if step != 0 => read_chomping(cursor).unwrap_or(Chomping::Clip),
        None => Chomping::Clip,
    };
    cursor.skip_blanks();
    cursor.skip_comment();
    if !cursor.is_break_or_end(0) {
        let problem = Problem::DidNotFindExpectedCommentOrLineBreak;
        return Err(cursor.fault(CONTEXT, start, problem));
    }
    cursor.skip_line();
    Ok(Header { chomping, step })
}

// The lines that have been read, and what waits behind them.
#[derive(Drop)]
struct Lines {
    start: Mark,
    end: u64,
    // The column of the lines, or 0 while it is not known.
    indent: usize,
    text: Vec<u8>,
    // The line break behind the last line.
    first: Vec<u8>,
    // The empty lines behind it.
    rest: Vec<u8>,
    // Whether the last line begins with a blank.
    blank: bool,
}

impl Lines {
    // Whether the indentation goes on at this column.
    fn is_left(&self, column: usize) -> bool {
        self.indent == 0 || column < self.indent
    }

    // Steps over the spaces of an indentation.
    fn skip_indentation(&self, cursor: &mut Cursor<'_>) {
        for _ in 0..cursor.left() {
            if !(self.is_left(cursor.column()) && cursor.byte(0) == b' ') {
                break;
            }
            cursor.skip();
        }
    }

    // Steps over indentation and copies empty lines. The end goes behind the last of them, and an indentation that is
    // not known is told by the widest of them and the least that may be.
    fn read_breaks(&mut self, cursor: &mut Cursor<'_>, least: usize) -> Result<(), Stop> {
        let mut widest = 0;
        self.end = cursor.index();
        for _ in 0..cursor.left() {
            self.skip_indentation(cursor);
            widest = cursor.column().max(widest);
            if self.is_left(cursor.column()) && cursor.byte(0) == b'\t' {
                let problem = Problem::FoundATabCharacterWhereAnIndentationSpaceIsExpected;
                return Err(cursor.fault(CONTEXT, self.start, problem));
            }
            if !cursor.is_break(0) {
                break;
            }
            cursor.read_line(&mut self.rest)?;
            self.end = cursor.index();
        }
        if self.indent == 0 {
            self.indent = widest.max(least).max(1);
        }
        Ok(())
    }

    // Puts what the line breaks stand for behind the text, before a line that begins with a blank or not.
    fn join(&mut self, literal: bool, blank: bool) -> Result<(), AllocError> {
        let is_feed = self.first.as_slice() == b"\n".as_slice();
        let folds = !literal && is_feed && !self.blank && !blank;
        if !folds {
            self.text.extend_from_slice(self.first.as_slice())?;
        } else if self.rest.is_empty() {
            self.text.push(b' ')?;
        }
        self.text.extend_from_slice(self.rest.as_slice())?;
        self.first.clear();
        self.rest.clear();
        self.blank = blank;
        Ok(())
    }

    // Copies a line, and the empty lines behind it.
    fn read_line(
        &mut self,
        cursor: &mut Cursor<'_>,
        literal: bool,
        least: usize,
    ) -> Result<(), Stop> {
        self.join(literal, cursor.is_blank(0))?;
        for _ in 0..cursor.left() {
            if cursor.is_break_or_end(0) {
                break;
            }
            cursor.read_run(Run::Line, &mut self.text)?;
        }
        cursor.read_line(&mut self.first)?;
        self.read_breaks(cursor, least)
    }

    // The block, with as many of the last line breaks as are wanted.
    fn finish(mut self, chomping: Chomping) -> Result<Block, AllocError> {
        if chomping != Chomping::Strip {
            self.text.extend_from_slice(self.first.as_slice())?;
        }
        if chomping == Chomping::Keep {
            self.text.extend_from_slice(self.rest.as_slice())?;
        }
        Ok(Block {
            text: self.text,
            end: self.end,
        })
    }
}

// Reads a block, whose `|` or `>` stands here and whose lines stand at the column `least` at least.
pub(crate) fn scan_block(
    alloc: Global,
    cursor: &mut Cursor<'_>,
    literal: bool,
    least: usize,
) -> Result<Block, Stop> {
    let start = cursor.mark();
    cursor.skip();
    let header = read_header(cursor, start)?;
    let indent = match header.step {
        0 => 0,
        step => least.saturating_sub(1).saturating_add(step),
    };
    let mut lines = Lines {
        start,
        end: start.index(),
        indent,
        text: Vec::new(alloc),
        first: Vec::new(alloc),
        rest: Vec::new(alloc),
        blank: false,
    };
    lines.read_breaks(cursor, least)?;
    for _ in 0..cursor.left() {
        if cursor.column() != lines.indent || cursor.is_end() {
            break;
        }
        lines.read_line(cursor, literal, least)?;
    }
    Ok(lines.finish(header.chomping)?)
}
