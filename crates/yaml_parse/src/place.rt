//! Where the bytes of a text stand: in which line, and at which column of it.

ghost use Rattle.std.specs.Prelude.{◌≡◌, ◌<◌, ◌≤◌, false, length, true};
ghost use Rattle.yaml_base.specs.Places.{begins_character, ends_line, place_of};
ghost use Rattle.yaml_parse.specs.Places.{IsInPlace};

use yaml_base::Mark;

// Whether a line ends with the byte at this index.
#[inline(always)]
fn ends_line(text: &[u8], at: usize) -> bool
    requires { at < length text.now }
    ensures { result ≡ ends_line text.now at }
{
    match text[at] {
        b'\n' => true,
        b'\r' => at + 1 == text.len() || text[at + 1] != b'\n',
        0x85 => at >= 1 && text[at - 1] == 0xC2,
        0xA8 | 0xA9 => at >= 2 && text[at - 1] == 0x80 && text[at - 2] == 0xE2,
        _ => false,
    }
}

// Whether the byte at this index is a character of ASCII that is printed: it ends no line, and takes a column.
#[inline(always)]
fn is_printed(text: &[u8], at: usize) -> bool
    requires { at < length text.now }
    ensures goes_on { result ≡ true → ends_line text.now at ≡ false }
    ensures counts { result ≡ true → begins_character text.now at ≡ true }
{
    matches!(text[at], b' '..=b'~')
}

// Whether a character that counts begins with the byte at this index.
#[inline(always)]
fn begins_character(text: &[u8], at: usize) -> bool
    requires { at < length text.now }
    ensures { result ≡ begins_character text.now at }
{
    let byte = text[at];
    if at == 0 && byte == 0xEF {
        return !(text.len() >= 3 && text[1] == 0xBB && text[2] == 0xBF);
    }
    byte < 0x80 || byte > 0xBF
}

/// The mark at this index of a text, by the one at an index that is no greater.
pub fn mark_at(text: &[u8], from: Mark, index: u64) -> Mark
    requires forward { from.index ≤ index }
    requires within { index ≤ length text.now }
    requires place { (from.line, from.column) ≡ place_of text.now from.index }
    ensures index { result.index ≡ index }
    ensures place { (result.line, result.column) ≡ place_of text.now index }
{
    let mut line = from.line();
    let mut column = from.column();
    for at in from.index() as usize..index as usize {
        if is_printed(text, at) {
            column += 1;
        } else if ends_line(text, at) {
            line += 1;
            column = 0;
        } else if begins_character(text, at) {
            column += 1;
        }
    }
    match Mark::new(index, line, column) {
        Some(mark) => mark,
        None => unreachable!(),
    }
}

/// The mark at the same index where the next event begins: the same one, or behind a last line that has no line break,
/// where the next event is said to begin in column 0, the start of the line behind it.
#[inline(always)]
pub fn mark_of_event(text: &[u8], here: Mark, said: Mark) -> Mark
    requires index { said.index ≡ here.index }
    requires place { (here.line, here.column) ≡ place_of text.now here.index }
    requires within { here.index ≤ length text.now }
    ensures index { result.index ≡ here.index }
    ensures place { IsInPlace text.now result }
{
    let is_behind = here.index() == text.len() as u64 && said.column() == 0 && here.column() != 0;
    if !is_behind {
        return here;
    }
    match Mark::new(here.index(), here.line() + 1, 0) {
        Some(mark) => mark,
        None => unreachable!(),
    }
}
