//! Hints on the commonest mistakes.

use crate::findings::Findings;
use crate::hint::{has_key, has_tight_colon};
use crate::line::line_around;
use std::alloc::{AllocError, Global};
use yaml_base::{Cause, Error, Mark};
use yaml_scan::{Context, Fault, Problem};

const TAB: &str = "tabs can't indent YAML: use blanks";

const TIGHT: &str = "a blank has to stand behind the `:` of a key";

const COLON: &str = "a text with `: ` in it has to stand in quotes";

const UTF_16: &str = "the text is UTF-16: YAML is read as UTF-8";

const UTF_8: &str = "the text is not UTF-8";

// Where a mark is.
#[derive(Clone, Copy, Drop)]
struct Spot(u64, u64);

impl Spot {
    fn of(mark: Mark) -> Spot {
        Spot(mark.line() + 1, mark.column() + 1)
    }
}

// What is said of what is not closed: what it is, and where it began.
fn unclosed(alloc: Global, what: &str, began: Mark) -> Result<Option<String>, AllocError> {
    let Spot(line, column) = Spot::of(began);
    let hint = format!(in alloc; "the {what} at line {line} column {column} is not closed")?;
    Ok(Some(hint))
}

// The same of a bracket, where a comma may be missing too.
fn unclosed_or_comma(alloc: Global, what: &str, began: Mark) -> Result<Option<String>, AllocError> {
    let Spot(line, column) = Spot::of(began);
    let hint = format!(in alloc;
        "the `{what}` at line {line} column {column} is not closed, or a `,` is missing"
    )?;
    Ok(Some(hint))
}

fn fixed(alloc: Global, text: &str) -> Result<Option<String>, AllocError> {
    Ok(Some(String::from_str(alloc, text)?))
}

// The line around a mark, up to it and whole.
fn line_at(text: &[u8], mark: Mark) -> (&[u8], &[u8]) {
    let index = (mark.index() as usize).min(text.len());
    let (start, end) = line_around(text, index);
    (&text[start..index], &text[start..end])
}

// The line before that around a mark.
fn line_before(text: &[u8], mark: Mark) -> &[u8] {
    let index = (mark.index() as usize).min(text.len());
    let (start, _) = line_around(text, index);
    match start.checked_sub(1) {
        Some(last) => {
            let (start, end) = line_around(text, last);
            &text[start..end]
        }
        None => &text[..0],
    }
}

// The hint on a character that begins no token.
fn hint_of_character(alloc: Global, text: &[u8], mark: Mark) -> Result<Option<String>, AllocError> {
    match text.get(mark.index() as usize) {
        Some(b'\t') => fixed(alloc, TAB),
        Some(byte) => {
            let c = *byte as char;
            let hint = format!(in alloc; "a text that begins with `{c}` has to stand in quotes")?;
            Ok(Some(hint))
        }
        None => Ok(None),
    }
}

// The hint on a colon that no key stands before.
fn hint_of_colon(alloc: Global, text: &[u8], mark: Mark) -> Result<Option<String>, AllocError> {
    let (before, _) = line_at(text, mark);
    if has_key(before) {
        return fixed(alloc, COLON);
    }
    if has_tight_colon(line_before(text, mark)) {
        return fixed(alloc, TIGHT);
    }
    Ok(None)
}

// The hint on bytes that no text has.
fn hint_of_bytes(alloc: Global, text: &[u8]) -> Result<Option<String>, AllocError> {
    let is_utf_16 = matches!(text, [0xFF, 0xFE, ..] | [0xFE, 0xFF, ..]);
    fixed(alloc, if is_utf_16 { UTF_16 } else { UTF_8 })
}

// The hint on what the parser met.
fn hint_of_parser(alloc: Global, text: &[u8], fault: &Fault) -> Result<Option<String>, AllocError> {
    match fault.problem {
        Problem::FoundCharacterThatCannotStartAnyToken => {
            hint_of_character(alloc, text, fault.mark)
        }
        Problem::FoundATabCharacterThatViolatesIndentation
        | Problem::FoundATabCharacterWhereAnIndentationSpaceIsExpected => fixed(alloc, TAB),
        Problem::MappingValuesAreNotAllowedInThisContext => hint_of_colon(alloc, text, fault.mark),
        Problem::CouldNotFindExpectedColon => {
            let (_, line) = line_at(text, fault.context_mark);
            if has_tight_colon(line) {
                fixed(alloc, TIGHT)
            } else {
                Ok(None)
            }
        }
        Problem::FoundUnexpectedEndOfStream if is_quoted(fault.context) => {
            unclosed(alloc, "quote", fault.context_mark)
        }
        Problem::DidNotFindExpectedCommaOrBracket => {
            unclosed_or_comma(alloc, "[", fault.context_mark)
        }
        Problem::DidNotFindExpectedCommaOrBrace => {
            unclosed_or_comma(alloc, "{", fault.context_mark)
        }
        Problem::InvalidLeadingUtf8Octet
        | Problem::InvalidTrailingUtf8Octet
        | Problem::IncompleteUtf8OctetSequence
        | Problem::InvalidLengthOfAUtf8Sequence => hint_of_bytes(alloc, text),
        _ => Ok(None),
    }
}

fn is_quoted(context: Option<Context>) -> bool {
    matches!(
        context,
        Some(Context::ScanningAQuotedScalar | Context::ParsingAQuotedScalar)
    )
}

// The hint on an alias without an anchor.
fn hint_of_alias(
    alloc: Global,
    findings: &Findings,
    mark: Mark,
) -> Result<Option<String>, AllocError> {
    let Some(alias) = findings.unanchored_at(mark) else {
        return Ok(None);
    };
    let Some(nearest) = &alias.nearest else {
        return Ok(None);
    };
    let nearest = nearest.as_str();
    let hint = format!(in alloc; "is `*{nearest}` meant?")?;
    Ok(Some(hint))
}

/// What may help with a fault, by what was found in its text. The only error is that memory runs out.
pub fn hint_of(
    alloc: Global,
    text: &[u8],
    findings: &Findings,
    fault: &Error,
) -> Result<Option<String>, AllocError> {
    if let Some(repeated) = findings.repeated_by(fault) {
        let Spot(line, column) = Spot::of(repeated.first);
        let hint = format!(in alloc; "it stands first at line {line} column {column}")?;
        return Ok(Some(hint));
    }
    match fault.cause() {
        Cause::UnknownAnchor(mark) => hint_of_alias(alloc, findings, *mark),
        Cause::MoreThanOneDocument => fixed(alloc, "`--documents` reads each"),
        Cause::Parser(_) => match &findings.fault {
            Some(fault) => hint_of_parser(alloc, text, fault),
            None => Ok(None),
        },
        _ => Ok(None),
    }
}
