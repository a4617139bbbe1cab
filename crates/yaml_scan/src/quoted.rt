//! Scalars between quotes.

use crate::byte::Run;
use crate::cursor::Cursor;
use crate::escape::read_escape;
use crate::fold::Fold;
use crate::{Context, Problem, Stop};
use std::alloc::Global;
use yaml_base::Mark;

const CONTEXT: Context = Context::ScanningAQuotedScalar;

// The quotes around a scalar.
#[derive(Clone, Copy, PartialEq, Eq)]
pub(crate) enum Quote {
    Single,
    Double,
}

impl Quote {
    // The quote itself.
    fn byte(self) -> u8 {
        match self {
            Quote::Single => b'\'',
            Quote::Double => b'"',
        }
    }

    // The bytes that stand for themselves between such quotes.
    fn run(self) -> Run {
        match self {
            Quote::Single => Run::Single,
            Quote::Double => Run::Double,
        }
    }
}

// Reads up to the closing quote or the end of a line, whose last blanks stay, and tells whether an escaped line break
// ended it.
fn read_part(
    cursor: &mut Cursor<'_>,
    start: Mark,
    quote: Quote,
    out: &mut Vec<u8>,
) -> Result<bool, Stop> {
    for _ in 0..cursor.left() {
        if cursor.is_break_or_end(0) {
            break;
        }
        let byte = cursor.byte(0);
        if quote == Quote::Single && byte == b'\'' && cursor.byte(1) == b'\'' {
            out.push(b'\'')?;
            cursor.skip_many(2);
        } else if byte == quote.byte() {
            break;
        } else if quote == Quote::Double && byte == b'\\' {
            if cursor.is_break(1) {
                cursor.skip();
                cursor.skip_line();
                return Ok(true);
            }
            read_escape(cursor, start, out)?;
        } else if !cursor.read_quoted(quote.run(), out)? {
            break;
        }
    }
    Ok(false)
}

// Reads a scalar between quotes, whose first quote stands here.
pub(crate) fn scan_quoted(
    alloc: Global,
    cursor: &mut Cursor<'_>,
    quote: Quote,
) -> Result<Vec<u8>, Stop> {
    let start = cursor.mark();
    let mut text = Vec::new(alloc);
    cursor.skip();
    for _ in 0..cursor.left() {
        if cursor.is_document_indicator() {
            return Err(cursor.fault(CONTEXT, start, Problem::FoundUnexpectedDocumentIndicator));
        }
        if cursor.is_end() {
            break;
        }
        let broken = read_part(cursor, start, quote, &mut text)?;
        if cursor.byte(0) == quote.byte() {
            cursor.skip();
            return Ok(text);
        }
        let mut fold = Fold::new(alloc, broken);
        take_blanks(cursor, &mut fold)?;
        fold.join(&mut text)?;
    }
    Err(cursor.fault(CONTEXT, start, Problem::FoundUnexpectedEndOfStream))
}

// Takes in blanks and line breaks.
fn take_blanks(cursor: &mut Cursor<'_>, fold: &mut Fold) -> Result<(), Stop> {
    for _ in 0..cursor.left() {
        if !(cursor.is_blank(0) || cursor.is_break(0)) {
            break;
        }
        fold.take(cursor)?;
    }
    Ok(())
}
