//! Names: anchors, aliases and the handles of tags.

use crate::cursor::Cursor;
use crate::{Context, Problem, Stop};
use std::alloc::Global;
use yaml_base::Mark;

// Reads the name behind `&` or `*`, which stands here.
pub(crate) fn scan_anchor(
    alloc: Global,
    cursor: &mut Cursor<'_>,
    context: Context,
) -> Result<Vec<u8>, Stop> {
    let start = cursor.mark();
    cursor.skip();
    let mut name = Vec::new(alloc);
    cursor.read_word(&mut name)?;
    let is_ended = cursor.is_blank_or_end(0)
        || matches!(
            cursor.byte(0),
            b'?' | b':' | b',' | b']' | b'}' | b'%' | b'@' | b'`'
        );
    if name.is_empty() || !is_ended {
        let problem = Problem::DidNotFindExpectedAlphabeticOrNumericCharacter;
        return Err(cursor.fault(context, start, problem));
    }
    Ok(name)
}

// Reads the handle of a tag, in a directive or before a node.
pub(crate) fn scan_handle(
    alloc: Global,
    cursor: &mut Cursor<'_>,
    directive: bool,
    start: Mark,
) -> Result<Vec<u8>, Stop> {
    const NO_BANG: Problem = Problem::DidNotFindExpectedBang;
    if cursor.byte(0) != b'!' {
        let context = if directive {
            Context::ScanningATagDirective
        } else {
            Context::ScanningATag
        };
        return Err(cursor.fault(context, start, NO_BANG));
    }
    let mut handle = Vec::new(alloc);
    cursor.read(&mut handle)?;
    cursor.read_word(&mut handle)?;
    if cursor.byte(0) == b'!' {
        cursor.read(&mut handle)?;
    } else if directive && handle.len() != 1 {
        return Err(cursor.fault(Context::ParsingATagDirective, start, NO_BANG));
    }
    Ok(handle)
}
