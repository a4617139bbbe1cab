//! Scalars of several lines.

use crate::layout::printer::Printer;
use std::alloc::AllocError;
use yaml_scan::MarkedStyle;

// How many of the bytes at the end are this one.
fn count_at_end(bytes: &[u8], wanted: u8) -> usize {
    bytes
        .iter()
        .rev()
        .take_while(|byte| **byte == wanted)
        .count()
}

// A line of a scalar between double quotes without the blanks at its end, but for one that a backslash stands before.
fn without_end(line: &[u8]) -> &[u8] {
    let short = line.trim_ascii_end();
    if short.len() < line.len() && count_at_end(short, b'\\') % 2 == 1 {
        return &line[..short.len() + 1];
    }
    short
}

// What the first line of a block scalar asks for.
#[derive(Clone, Copy)]
struct Header {
    // By how many columns its lines stand further to the right than what it stands in, if that is said.
    step: Option<usize>,
    // `+` or `-`, if one stands there.
    chomping: Option<u8>,
}

// What the first line of a block scalar asks for.
fn header_of(line: &[u8]) -> Header {
    let mut header = Header {
        step: None,
        chomping: None,
    };
    for byte in line {
        match *byte {
            b'1'..=b'9' => header.step = Some((*byte & 0xF) as usize),
            b'+' | b'-' => header.chomping = Some(*byte),
            b' ' | b'\t' => break,
            _ => {}
        }
    }
    header
}

// How many spaces the line begins with.
fn indentation(line: &[u8]) -> usize {
    line.iter().take_while(|byte| **byte == b' ').count()
}

// How many spaces the first line of a block begins with that has something else.
fn first_indentation(body: &[u8]) -> usize {
    for line in body.split(|byte| *byte == b'\n') {
        let spaces = indentation(line);
        if spaces < line.len() {
            return spaces;
        }
    }
    body.len()
}

// The line behind an indentation.
fn behind(line: &[u8], indentation_of_all: usize) -> &[u8] {
    let spaces = indentation(line).min(indentation_of_all);
    if spaces <= line.len() {
        &line[spaces..]
    } else {
        line
    }
}

// The lines without the empty ones at the end.
fn without_empty_lines(body: &[u8], indentation_of_all: usize) -> &[u8] {
    let mut end = 0;
    let mut at = 0usize;
    for line in body.split(|byte| *byte == b'\n') {
        at = at.saturating_add(line.len());
        if !behind(line, indentation_of_all).is_empty() {
            end = at;
        }
        at = at.saturating_add(1);
    }
    &body[..end.min(body.len())]
}

impl Printer<'_> {
    /// Prints a scalar that may have several lines, plain or between quotes.
    pub(crate) fn flow_scalar(&mut self, text: &[u8], doubly: bool) -> Result<(), AllocError> {
        let column = self.places.of_content();
        let mut is_first = true;
        for line in text.split(|byte| *byte == b'\n') {
            let mut rest = line;
            if !is_first {
                self.sheet.feed()?;
                rest = line.trim_ascii_start();
            }
            let shown = if doubly {
                without_end(rest)
            } else {
                rest.trim_ascii_end()
            };
            if !is_first && !shown.is_empty() {
                self.sheet.spaces(column)?;
            }
            self.sheet.put(shown)?;
            is_first = false;
        }
        Ok(())
    }

    // Prints the first line of a block scalar.
    fn block_header(&mut self, line: &[u8], header: Header) -> Result<(), AllocError> {
        self.sheet.put(&line[..line.len().min(1)])?;
        if header.step.is_some() {
            self.sheet.put(&[b'0' | (self.places.step() & 0xF)])?;
        }
        if let Some(chomping) = header.chomping {
            self.sheet.put(&[chomping])?;
        }
        if let Some(at) = line.iter().position(|byte| *byte == b'#') {
            let before = &line[..at];
            let blanks = before.len().saturating_sub(before.trim_ascii_end().len());
            self.sheet.spaces(blanks.max(1))?;
            self.sheet.put(line[at..].trim_ascii_end())?;
        }
        self.sheet.feed()
    }

    // Prints the lines of a block scalar, each behind the new indentation.
    fn block_lines(&mut self, body: &[u8], old: usize, new: usize) -> Result<(), AllocError> {
        for line in body.split(|byte| *byte == b'\n') {
            let rest = behind(line, old);
            if !rest.is_empty() {
                self.sheet.spaces(new)?;
                self.sheet.put(rest)?;
            }
            self.sheet.feed()?;
        }
        Ok(())
    }

    // Prints what stands behind the first line of a block scalar.
    fn block_body(&mut self, body: &[u8], old: usize, keeps: bool) -> Result<(), AllocError> {
        let new = match self.places.innermost() {
            Some(_) => self.places.within(),
            None => self.places.step() as usize,
        };
        let ends = body.last() == Some(&b'\n');
        let whole = if ends {
            &body[..body.len().saturating_sub(1)]
        } else {
            body
        };
        if keeps {
            if body.is_empty() {
                return Ok(());
            }
            return self.block_lines(whole, old, new);
        }
        let short = without_empty_lines(whole, old);
        if !short.is_empty() {
            self.block_lines(short, old, new)?;
        }
        if short.len() < whole.len() || (short.is_empty() && !body.is_empty()) {
            self.sheet.line_ends()?;
        }
        Ok(())
    }

    /// Prints a block scalar.
    pub(crate) fn block_scalar(&mut self, text: &[u8]) -> Result<(), AllocError> {
        let end = match text.iter().position(|byte| *byte == b'\n') {
            Some(at) => at,
            None => text.len(),
        };
        let line = &text[..end];
        let body = if end < text.len() {
            &text[end + 1..]
        } else {
            &text[end..]
        };
        let mut header = header_of(line);
        let around = match self.places.innermost() {
            Some(block) => block.old as usize,
            None => 0,
        };
        let old = match header.step {
            Some(step) => around.saturating_add(step),
            None => first_indentation(body),
        };
        // behind the last line of a text no line feed is one of the scalar
        if body.last() != Some(&b'\n') && !body.is_empty() {
            header.chomping = Some(b'-');
        }
        self.block_header(line, header)?;
        self.block_body(body, old, header.chomping == Some(b'+'))
    }
}

/// Whether a scalar is a block.
pub(crate) fn is_block(style: MarkedStyle) -> bool {
    matches!(style, MarkedStyle::Literal | MarkedStyle::Folded)
}
