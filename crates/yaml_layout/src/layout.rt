//! How a text is laid out: token by token, each line of it a line, at a column that tells what it stands in.

mod gap;
mod lines;
mod place;
mod printer;
mod sheet;
mod spaces;

use crate::options::Options;
pub(crate) use printer::Laid;
use printer::Printer;
use std::alloc::{AllocError, Global};
use yaml_scan::{Scanned, scan};

// The text with a line feed at the end of each line.
fn with_line_feeds(alloc: Global, text: &[u8]) -> Result<Vec<u8>, AllocError> {
    let mut feeds = Vec::new(alloc);
    let mut behind_return = false;
    for byte in text {
        let byte = *byte;
        if byte == b'\r' || (byte == b'\n' && !behind_return) {
            feeds.push(b'\n')?;
        } else if byte != b'\n' {
            feeds.push(byte)?;
        }
        behind_return = byte == b'\r';
    }
    Ok(feeds)
}

// A text whose lines end with line feeds, laid out.
fn lay_out_lines(alloc: Global, text: &[u8], options: Options) -> Result<Laid, AllocError> {
    let mut printer = Printer::new(alloc, text, options);
    if let Scanned::Tokens(mut tokens) = scan(alloc, text)? {
        // A text has at most as many steps as bytes, and one more.
        for _ in 0..text.len().saturating_add(2) {
            let goes_on = tokens.advance()?;
            for _ in 0..tokens.ready() {
                if let Some(placed) = tokens.next() {
                    printer.token(&placed)?;
                }
            }
            if !goes_on {
                break;
            }
        }
    }
    printer.finish()
}

/// The text, laid out. Nothing is known of what is printed: it has to be read again.
pub(crate) fn lay_out(alloc: Global, text: &[u8], options: Options) -> Result<Laid, AllocError> {
    if text.contains(&b'\r') {
        let feeds = with_line_feeds(alloc, text)?;
        return lay_out_lines(alloc, feeds.as_slice(), options);
    }
    lay_out_lines(alloc, text, options)
}
