//! What stands between two tokens: blanks, line breaks and comments.

use crate::layout::printer::Printer;
use std::alloc::AllocError;

// What stands in a line before its comment, and the comment. None begins with something else.
fn comment_in(line: &[u8]) -> Option<(usize, &[u8])> {
    let rest = line.trim_ascii_start();
    match rest.first() {
        Some(b'#') => Some((line.len().saturating_sub(rest.len()), rest.trim_ascii_end())),
        _ => None,
    }
}

/// Where a token stands next, at which column it stood and at which it stands if it begins a line.
#[derive(Clone, Copy)]
pub(crate) struct Next {
    pub(crate) old: u64,
    pub(crate) new: usize,
}

impl Printer<'_> {
    // Prints a comment, before which so many blanks stood in its line.
    fn comment(&mut self, blanks: usize, comment: &[u8], next: Next) -> Result<(), AllocError> {
        if self.sheet.starts_line() {
            let column = self.places.of_comment(blanks as u64, next.old, next.new);
            self.sheet.begin(column)?;
        } else {
            if blanks == 0 && self.touched.is_none() {
                self.touched = self.at;
            }
            self.sheet.spaces(blanks.max(1))?;
        }
        self.sheet.put(comment)
    }

    /// Prints the comments and ends the lines of what stands before a token.
    pub(crate) fn gap(&mut self, gap: &[u8], next: Next) -> Result<(), AllocError> {
        let mut is_first = true;
        for line in gap.split(|byte| *byte == b'\n') {
            if !is_first {
                self.sheet.line_ends()?;
            }
            is_first = false;
            if let Some((blanks, comment)) = comment_in(line) {
                self.comment(blanks, comment, next)?;
            }
        }
        Ok(())
    }
}
