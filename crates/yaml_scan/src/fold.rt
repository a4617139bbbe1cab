//! How blanks and line breaks within a scalar fold.

use crate::cursor::Cursor;
use std::alloc::{AllocError, Global};

// Blanks and line breaks that wait for what follows them.
#[derive(Drop)]
pub(crate) struct Fold {
    spaces: Vec<u8>,
    first: Vec<u8>,
    rest: Vec<u8>,
    broken: bool,
}

impl Fold {
    // Nothing waits; `broken` where a line has just ended by an escape.
    pub(crate) fn new(alloc: Global, broken: bool) -> Fold {
        Fold {
            spaces: Vec::new(alloc),
            first: Vec::new(alloc),
            rest: Vec::new(alloc),
            broken,
        }
    }

    // Takes in a blank or a line break, whichever stands here. Blanks that begin a line count for nothing.
    pub(crate) fn take(&mut self, cursor: &mut Cursor<'_>) -> Result<(), AllocError> {
        if cursor.is_blank(0) {
            if self.broken {
                cursor.skip();
            } else {
                cursor.read(&mut self.spaces)?;
            }
        } else if self.broken {
            cursor.read_line(&mut self.rest)?;
        } else {
            cursor.read_line(&mut self.first)?;
            self.broken = true;
        }
        Ok(())
    }

    // Puts what the line breaks stand for behind a text: one line feed is a space, and of several the first goes.
    fn join_lines(&self, out: &mut Vec<u8>) -> Result<(), AllocError> {
        if self.first.as_slice() != b"\n".as_slice() {
            out.extend_from_slice(self.first.as_slice())?;
        } else if self.rest.is_empty() {
            out.push(b' ')?;
        }
        out.extend_from_slice(self.rest.as_slice())
    }

    // Puts what the blanks and line breaks stand for behind a text, and begins anew.
    pub(crate) fn join(&mut self, out: &mut Vec<u8>) -> Result<(), AllocError> {
        if self.broken {
            self.join_lines(out)?;
        } else {
            out.extend_from_slice(self.spaces.as_slice())?;
        }
        self.spaces.clear();
        self.first.clear();
        self.rest.clear();
        self.broken = false;
        Ok(())
    }
}
