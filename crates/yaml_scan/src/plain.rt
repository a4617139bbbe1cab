//! Where plain scalars end.

use crate::byte::{Run, is_blank, is_flow_indicator, may_break};
use crate::cursor::Cursor;
use crate::{Context, Problem, Stop};
use yaml_base::Mark;

// The end of a plain scalar, and whether a line break follows it.
#[derive(Clone, Copy)]
pub(crate) struct Plain {
    pub(crate) end: u64,
    pub(crate) broken: bool,
}

const CONTEXT: Context = Context::ScanningAPlainScalar;

// Whether the scalar ends here, within brackets or outside.
fn is_over(cursor: &mut Cursor<'_>, flow: bool, start: Mark) -> Result<bool, Stop> {
    let byte = cursor.byte(0);
    if byte == b':' {
        let next = cursor.byte(1);
        if flow && (next == b'?' || is_flow_indicator(next)) {
            return Err(cursor.fault(CONTEXT, start, Problem::FoundUnexpectedColon));
        }
        return Ok(cursor.is_blank_or_end(1));
    }
    Ok(cursor.is_blank_or_end(0) || (flow && is_flow_indicator(byte)))
}

// Whether the scalar goes on with this byte behind a space.
fn goes_on(byte: u8, flow: bool) -> bool {
    !(byte == 0
        || byte == b'#'
        || byte == b':'
        || is_blank(byte)
        || may_break(byte)
        || (flow && is_flow_indicator(byte)))
}

// Steps over what is of the scalar up to the next blank that is not a single space amid the line, and tells whether
// there was anything.
fn skip_part(cursor: &mut Cursor<'_>, flow: bool, start: Mark) -> Result<bool, Stop> {
    let run = if flow { Run::Flow } else { Run::Plain };
    let mut any = false;
    for _ in 0..cursor.left() {
        if is_over(cursor, flow, start)? {
            if !(any && cursor.byte(0) == b' ' && goes_on(cursor.byte(1), flow)) {
                break;
            }
            cursor.skip();
        }
        cursor.skip_run(run);
        any = true;
    }
    Ok(any)
}

// Steps over blanks and line breaks, and tells whether a line ended there; `broken` where one had ended before. No tab
// may stand left of the column `indent` in a later line.
fn skip_gap(
    cursor: &mut Cursor<'_>,
    indent: usize,
    start: Mark,
    mut broken: bool,
) -> Result<bool, Stop> {
    for _ in 0..cursor.left() {
        if cursor.is_break(0) {
            cursor.skip_line();
            broken = true;
        } else if !cursor.is_blank(0) {
            break;
        } else if broken && cursor.column() < indent && cursor.byte(0) == b'\t' {
            let problem = Problem::FoundATabCharacterThatViolatesIndentation;
            return Err(cursor.fault(CONTEXT, start, problem));
        } else {
            cursor.skip();
            cursor.skip_spaces(false);
        }
    }
    Ok(broken)
}

// Steps over a plain scalar, whose lines stand at the column `indent` at least, and the gap behind it.
pub(crate) fn scan_plain(
    cursor: &mut Cursor<'_>,
    flow: bool,
    indent: usize,
) -> Result<Plain, Stop> {
    let start = cursor.mark();
    let mut plain = Plain {
        end: start.index(),
        broken: false,
    };
    for _ in 0..cursor.left() {
        if cursor.is_document_indicator() || cursor.byte(0) == b'#' {
            break;
        }
        if skip_part(cursor, flow, start)? {
            plain = Plain {
                end: cursor.index(),
                broken: false,
            };
        }
        if !(cursor.is_blank(0) || cursor.is_break(0)) {
            break;
        }
        plain.broken = skip_gap(cursor, indent, start, plain.broken)?;
        if !flow && cursor.column() < indent {
            break;
        }
    }
    Ok(plain)
}
