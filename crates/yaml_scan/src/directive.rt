//! Directives: lines that begin with `%`.

use crate::cursor::Cursor;
use crate::name::scan_handle;
use crate::uri::{Place, scan_uri};
use crate::{Context, Problem, Stop, Token};
use std::alloc::Global;
use yaml_base::Mark;

const DIRECTIVE: Context = Context::ScanningADirective;

const VERSION: Context = Context::ScanningAVersionDirective;

const TAG: Context = Context::ScanningAHandleDirective;

// How many digits a number of a version has at most.
const MOST_DIGITS: usize = 9;

// A directive, and where it ends.
#[derive(Drop)]
pub(crate) struct Directive {
    pub(crate) token: Token,
    pub(crate) end: u64,
}

// Reads a number of a version.
fn read_number(cursor: &mut Cursor<'_>, start: Mark) -> Result<u32, Stop> {
    let mut value: u32 = 0;
    for count in 0..MOST_DIGITS + 1 {
        let byte = cursor.byte(0);
        if !byte.is_ascii_digit() {
            if count == 0 {
                break;
            }
            return Ok(value);
        }
        if count == MOST_DIGITS {
            return Err(cursor.fault(VERSION, start, Problem::FoundExtremelyLongVersionNumber));
        }
        value = value.saturating_mul(10).saturating_add((byte & 0xF) as u32);
        cursor.skip();
    }
    Err(cursor.fault(VERSION, start, Problem::DidNotFindExpectedVersionNumber))
}

// Reads both numbers of a version.
fn read_version(cursor: &mut Cursor<'_>, start: Mark) -> Result<Token, Stop> {
    cursor.skip_blanks();
    let major = read_number(cursor, start)?;
    if cursor.byte(0) != b'.' {
        let problem = Problem::DidNotFindExpectedDigitOrDotCharacter;
        return Err(cursor.fault(VERSION, start, problem));
    }
    cursor.skip();
    let minor = read_number(cursor, start)?;
    Ok(Token::VersionDirective { major, minor })
}

// Reads a handle and what it stands for.
fn read_handle(alloc: Global, cursor: &mut Cursor<'_>, start: Mark) -> Result<Token, Stop> {
    cursor.skip_blanks();
    let handle = scan_handle(alloc, cursor, true, start)?;
    if !cursor.is_blank(0) {
        return Err(cursor.fault(TAG, start, Problem::DidNotFindExpectedWhitespace));
    }
    cursor.skip_blanks();
    let mut prefix = Vec::new(alloc);
    scan_uri(cursor, Place::Prefix, false, start, &mut prefix)?;
    if !cursor.is_blank_or_end(0) {
        let problem = Problem::DidNotFindExpectedWhitespaceOrLineBreak;
        return Err(cursor.fault(TAG, start, problem));
    }
    Ok(Token::TagDirective { handle, prefix })
}

// Reads the name of a directive.
fn read_name(alloc: Global, cursor: &mut Cursor<'_>, start: Mark) -> Result<Vec<u8>, Stop> {
    let mut name = Vec::new(alloc);
    cursor.read_word(&mut name)?;
    if name.is_empty() {
        let problem = Problem::CouldNotFindExpectedDirectiveName;
        return Err(cursor.fault(DIRECTIVE, start, problem));
    }
    if !cursor.is_blank_or_end(0) {
        let problem = Problem::FoundUnexpectedNonAlphabeticalCharacter;
        return Err(cursor.fault(DIRECTIVE, start, problem));
    }
    Ok(name)
}

// Reads a directive, whose `%` stands here, with the rest of its line.
pub(crate) fn scan_directive(alloc: Global, cursor: &mut Cursor<'_>) -> Result<Directive, Stop> {
    let start = cursor.mark();
    cursor.skip();
    let name = read_name(alloc, cursor, start)?;
    let token = if name.as_slice() == b"YAML".as_slice() {
        read_version(cursor, start)?
    } else if name.as_slice() == b"TAG".as_slice() {
        read_handle(alloc, cursor, start)?
    } else {
        return Err(cursor.fault(DIRECTIVE, start, Problem::FoundUnknownDirectiveName));
    };
    let end = cursor.index();
    cursor.skip_blanks();
    cursor.skip_comment();
    if !cursor.is_break_or_end(0) {
        let problem = Problem::DidNotFindExpectedCommentOrLineBreak;
        return Err(cursor.fault(DIRECTIVE, start, problem));
    }
    cursor.skip_line();
    Ok(Directive { token, end })
}
