//! Which styles a text may stand in.

ghost use Rattle.std.specs.Prelude.{◌≡◌, not, ◌&&◌, length};
ghost use Rattle.std.specs.List.{list_all, list_any};
ghost use Rattle.std.specs.Str.{chars};
ghost use Rattle.yaml_emit.specs.Characters.{is_break, is_line_text, is_printable};
ghost use Rattle.yaml_emit.specs.Styles.{begins_otherwise, fits_block, fits_plain, fits_single_quotes};
ghost use Rattle.yaml_emit.specs.Styles.{ends_with_byte, goes_on_plain, has_break, is_dash, is_first, is_indicator};
ghost use Rattle.yaml_emit.specs.Styles.{is_mild};
ghost use Rattle.yaml_emit.specs.Styles.{stand_side_by_side};

use crate::character::{is_break, is_line_text, is_printable};

// Whether the byte at the head of a text always means something else than text.
fn is_indicator(byte: u8) -> bool
    ensures { result ≡ is_indicator byte }
{
    matches!(
        byte,
        b'#' | b','
            | b'['
            | b']'
            | b'{'
            | b'}'
            | b'&'
            | b'*'
            | b'!'
            | b'|'
            | b'>'
            | b'\''
            | b'"'
            | b'%'
            | b'@'
            | b'`'
    )
}

// Whether the byte at the head of a text means something else than text before a blank or the end.
fn is_dash(byte: u8) -> bool
    ensures { result ≡ is_dash byte }
{
    matches!(byte, b'-' | b'?' | b':')
}

// Whether the text begins with the byte.
pub(crate) fn begins_with(text: &[u8], byte: u8) -> bool
    ensures { result ≡ is_first byte text.now }
{
    match text.first() {
        Some(first) => *first == byte,
        None => false,
    }
}

// Whether the text ends with the byte.
pub(crate) fn ends_with(text: &[u8], byte: u8) -> bool
    ensures { result ≡ ends_with_byte byte text.now }
{
    match text.last() {
        Some(last) => *last == byte,
        None => false,
    }
}

// Whether these bytes stand side by side somewhere in the text.
fn has_pair(text: &[u8], first: u8, second: u8) -> bool
    ensures { result ≡ stand_side_by_side first second text.now }
{
    let mut before = false;
    for byte in text {
        if before && *byte == second {
            return true;
        }
        before = *byte == first;
    }
    false
}

// Whether the text begins as something else than a plain text does: with an indicator, with `-`, `?` or `:` that has a
// blank or nothing behind it, or as the mark of a document does.
fn begins_otherwise(text: &[u8]) -> bool
    ensures { result ≡ begins_otherwise text.now }
{
    let Some((first, rest)) = text.split_first() else {
        return false;
    };
    is_indicator(*first)
        || text.starts_with(b"---")
        || text.starts_with(b"...")
        || (is_dash(*first) && (rest.is_empty() || begins_with(rest, b' ')))
}

// Whether each character of the text may stand as it is.
fn is_printable_text(text: &str) -> bool
    ensures { result ≡ list_all is_printable (chars text.now) }
{
    text.chars().all(|letter| is_printable(letter))
}

// Whether each character of the text may stand as it is, or is a line feed.
fn is_text_of_lines(text: &str) -> bool
    ensures { result ≡ list_all is_line_text (chars text.now) }
{
    text.chars().all(|letter| is_line_text(letter))
}

// Whether each byte of the text is a printable one of ASCII, and neither `:` nor `#`, as in most texts.
fn is_mild(text: &[u8]) -> bool
    ensures { result ≡ list_all is_mild text.now }
{
    text.iter().all(|byte| is_mild_byte(*byte))
}

// The same of a byte.
#[inline(always)]
fn is_mild_byte(byte: u8) -> bool
    ensures { result ≡ is_mild byte }
{
    matches!(byte, b' '..=b'"' | b'$'..=b'9' | b';'..=b'~')
}

// Whether a text that begins and ends as a plain one, but for a `:` at its end, may stand without quotes.
fn goes_on_plain(text: &str) -> bool
    ensures { result ≡ goes_on_plain text.now }
{
    let bytes = text.as_bytes();
    !ends_with(bytes, b':')
        && !has_pair(bytes, b':', b' ')
        && !has_pair(bytes, b' ', b'#')
        && is_printable_text(text)
}

// Whether the text may stand without quotes, though as a key only where it is not empty.
#[tactic(auto, using(crate::proofs::MildLaws::mild_goes_on))]
pub(crate) fn fits_plain(text: &str) -> bool
    ensures { result ≡ fits_plain text.now }
{
    let bytes = text.as_bytes();
    !begins_otherwise(bytes)
        && !begins_with(bytes, b' ')
        && !ends_with(bytes, b' ')
        && (is_mild(bytes) || goes_on_plain(text))
}

// Whether the text may stand between single quotes.
pub(crate) fn fits_single_quotes(text: &str) -> bool
    ensures { result ≡ fits_single_quotes text.now }
{
    let bytes = text.as_bytes();
    !has_pair(bytes, b' ', b'\n') && !has_pair(bytes, b'\n', b' ') && is_text_of_lines(text)
}

// Whether the text may stand as a literal block.
pub(crate) fn fits_block(text: &str) -> bool
    ensures { result ≡ fits_block text.now }
{
    let bytes = text.as_bytes();
    !text.is_empty()
        && !ends_with(bytes, b' ')
        && !has_pair(bytes, b' ', b'\n')
        && is_text_of_lines(text)
}

// Whether the text has a break, and so can't be a key in one line.
#[tactic(auto, using(crate::proofs::MildLaws::mild_is_one_line))]
pub(crate) fn has_break(text: &str) -> bool
    ensures { result ≡ has_break text.now }
{
    !is_mild(text.as_bytes()) && text.chars().any(|letter| is_break(letter))
}
