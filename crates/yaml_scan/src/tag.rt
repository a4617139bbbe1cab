//! Tags before nodes.

use crate::cursor::Cursor;
use crate::name::scan_handle;
use crate::uri::{Place, scan_uri};
use crate::{Context, Problem, Stop, Token};
use std::alloc::Global;
use yaml_base::Mark;

const CONTEXT: Context = Context::ScanningATag;

// Reads a tag between angle brackets, which has no handle.
fn read_whole(cursor: &mut Cursor<'_>, start: Mark, suffix: &mut Vec<u8>) -> Result<(), Stop> {
    cursor.skip_many(2);
    scan_uri(cursor, Place::Angles, false, start, suffix)?;
    if cursor.byte(0) != b'>' {
        return Err(cursor.fault(CONTEXT, start, Problem::DidNotFindTheExpectedAngle));
    }
    cursor.skip();
    Ok(())
}

// Reads a tag with a handle. A handle that is not closed is a part of the tag's text, behind the handle `!`, and the
// tag `!` alone has none.
fn read_parts(
    alloc: Global,
    cursor: &mut Cursor<'_>,
    start: Mark,
    suffix: &mut Vec<u8>,
) -> Result<Vec<u8>, Stop> {
    let mut handle = scan_handle(alloc, cursor, false, start)?;
    if handle.len() > 1 && handle.as_slice().last() == Some(&b'!') {
        scan_uri(cursor, Place::Suffix, false, start, suffix)?;
        return Ok(handle);
    }
    if let [_, name @ ..] = handle.as_slice() {
        suffix.extend_from_slice(name)?;
    }
    scan_uri(cursor, Place::Suffix, true, start, suffix)?;
    handle.clear();
    if suffix.is_empty() {
        suffix.push(b'!')?;
    } else {
        handle.push(b'!')?;
    }
    Ok(handle)
}

// Reads a tag, whose `!` stands here, within brackets or outside.
pub(crate) fn scan_tag(alloc: Global, cursor: &mut Cursor<'_>, flow: bool) -> Result<Token, Stop> {
    let start = cursor.mark();
    let mut suffix = Vec::new(alloc);
    let handle = if cursor.byte(1) == b'<' {
        read_whole(cursor, start, &mut suffix)?;
        Vec::new(alloc)
    } else {
        read_parts(alloc, cursor, start, &mut suffix)?
    };
    if !(flow && cursor.byte(0) == b',') && !cursor.is_blank_or_end(0) {
        let problem = Problem::DidNotFindExpectedWhitespaceOrLineBreak;
        return Err(cursor.fault(CONTEXT, start, problem));
    }
    Ok(Token::Tag { handle, suffix })
}
