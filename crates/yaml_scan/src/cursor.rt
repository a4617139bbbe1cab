//! A place in the text that only goes forward.

ghost use Rattle.std.specs.Prelude.{◌≡◌, ◌+◌, ◌-◌, ◌<◌, ◌≤◌, IsTrue, length};

mod look;
mod report;
mod step;

use crate::Finding;
use yaml_base::Mark;

// A place in a text, with its line and its column, which counts characters, each from 0.
#[derive(Drop)]
pub(crate) struct Cursor<'a> {
    text: &'a [u8],
    at: usize,
    line: usize,
    column: usize,
    // What is wrong with the text, if that was found.
    found: Option<Finding>,
    ghost inside: { at ≤ length text.now },
    ghost counted: { line + column ≤ at },
}

// How many bytes the mark of the order of bytes has, if a text begins with one.
fn order_mark_len(text: &[u8]) -> usize
    ensures { result ≤ length text.now }
{
    if text.starts_with(b"\xEF\xBB\xBF") {
        3
    } else {
        0
    }
}

impl<'a> Cursor<'a> {
    // The start of a text, behind its mark of the order of bytes.
    pub(crate) fn new(text: &'a [u8]) -> Cursor<'a>
        ensures { result.text.now ≡ text.now }
    {
        Cursor {
            text,
            at: order_mark_len(text),
            line: 0,
            column: 0,
            found: None,
        }
    }

    // Goes to the place with this mark.
    pub(crate) fn go_to(&mut self, mark: Mark)
        requires within { mark.index ≤ length self.old.text.now }
        requires counted { mark.line + mark.column ≤ mark.index }
    {
        self.at = mark.index() as usize;
        self.line = mark.line() as usize;
        self.column = mark.column() as usize;
    }

    // How many bytes come before this place.
    #[inline(always)]
    pub(crate) fn at(&self) -> usize {
        self.at
    }

    // The index of this place.
    #[inline(always)]
    pub(crate) fn index(&self) -> u64 {
        self.at as u64
    }

    // How many bytes are left.
    #[inline(always)]
    pub(crate) fn left(&self) -> usize {
        self.text.len() - self.at
    }

    // Whether the text ends here.
    #[inline(always)]
    pub(crate) fn is_end(&self) -> bool {
        self.at == self.text.len()
    }

    // Counts the last line as ended, though no line break stands there. Called where the text ends.
    pub(crate) fn end_line(&mut self) {
        if self.column != 0 {
            self.line += 1;
            self.column = 0;
        }
    }

    // The line, counted from 0.
    #[inline(always)]
    pub(crate) fn line(&self) -> usize
        ensures { result ≤ self.now.at }
    {
        self.line
    }

    // The column in characters, counted from 0.
    #[inline(always)]
    pub(crate) fn column(&self) -> usize
        ensures { result ≤ self.now.at }
    {
        self.column
    }

    // The mark of this place.
    #[inline(always)]
    pub(crate) fn mark(&self) -> Mark {
        match Mark::new(self.at as u64, self.line() as u64, self.column() as u64) {
            Some(mark) => mark,
            None => unreachable!(),
        }
    }
}
