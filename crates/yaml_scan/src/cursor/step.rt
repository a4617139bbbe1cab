//! How a place goes forward, and what is copied on the way.

ghost use Rattle.std.specs.Prelude.{◌-◌, ◌≤◌, length};

use crate::byte::{Part, Run, blanks_at_end, is_ascii_start, may_break, spaces_in, word_in};
use crate::cursor::Cursor;
use std::alloc::AllocError;

impl Cursor<'_> {
    // How many bytes the next character has, by its first; 0 at the end.
    #[inline(always)]
    fn width(&self) -> usize
        ensures { result ≤ length self.now.text.now - self.now.at }
    {
        let wanted: usize = match self.byte(0) {
            0..=0x7F => 1,
            0x80..=0xDF => 2,
            0xE0..=0xEF => 3,
            _ => 4,
        };
        wanted.min(self.text.len() - self.at)
    }

    // Steps over a character that ends no line.
    #[inline(always)]
    pub(crate) fn skip(&mut self) {
        let width = self.width();
        if width != 0 {
            self.column += 1;
            self.at += width;
        }
    }

    // Steps over bytes that end no line.
    #[inline(always)]
    fn pass(&mut self, part: Part)
        requires { part.bytes ≤ length self.old.text.now - self.old.at }
    {
        self.column += part.characters;
        self.at += part.bytes;
    }

    // Steps over so many characters that end no line.
    pub(crate) fn skip_many(&mut self, count: usize) {
        for _ in 0..count {
            self.skip();
        }
    }

    // Steps over a line break, if one stands here.
    #[inline(always)]
    pub(crate) fn skip_line(&mut self) {
        let width = self.break_len(0).min(self.text.len() - self.at);
        if width != 0 {
            self.line += 1;
            self.column = 0;
            self.at += width;
        }
    }

    // Steps over spaces and tabs.
    pub(crate) fn skip_blanks(&mut self) {
        self.skip_spaces(true);
    }

    // Steps over spaces, and over tabs where `tabs` says so.
    #[inline(always)]
    pub(crate) fn skip_spaces(&mut self, tabs: bool) {
        let width = spaces_in(&self.text[self.at..], tabs);
        self.column += width;
        self.at += width;
    }

    // Steps over a single space, if one stands here right before a token of ASCII, and tells whether one did.
    #[inline(always)]
    pub(crate) fn skip_lone_space(&mut self) -> bool {
        if self.text.len() - self.at < 2 {
            return false;
        }
        let found = self.text[self.at] == b' ' && is_ascii_start(self.text[self.at + 1]);
        if found {
            self.column += 1;
            self.at += 1;
        }
        found
    }

    // Steps over a comment, up to the end of its line.
    #[inline(always)]
    pub(crate) fn skip_comment(&mut self) {
        if self.byte(0) == b'#' {
            for _ in 0..self.left() {
                if self.is_break_or_end(0) {
                    break;
                }
                self.skip_run(Run::Line);
            }
        }
    }

    // Copies a character that ends no line.
    pub(crate) fn read(&mut self, out: &mut Vec<u8>) -> Result<(), AllocError> {
        let width = self.width();
        out.extend_from_slice(&self.text[self.at..self.at + width])?;
        self.skip();
        Ok(())
    }

    // Steps over bytes up to the first that ends such a run, or else over the character that it is of.
    #[inline(always)]
    pub(crate) fn skip_run(&mut self, run: Run) {
        let part = run.part_of(&self.text[self.at..]);
        if part.bytes == 0 {
            self.skip();
        } else {
            self.pass(part);
        }
    }

    // Copies bytes up to the first that ends such a run, or else the character that it is of.
    pub(crate) fn read_run(&mut self, run: Run, out: &mut Vec<u8>) -> Result<(), AllocError> {
        let part = run.part_of(&self.text[self.at..]);
        if part.bytes == 0 {
            return self.read(out);
        }
        out.extend_from_slice(&self.text[self.at..self.at + part.bytes])?;
        self.pass(part);
        Ok(())
    }

    // Copies bytes up to the first that ends such a run, or else the character that it is of, and tells whether there
    // was anything. Blanks stay if a line may end behind them.
    pub(crate) fn read_quoted(&mut self, run: Run, out: &mut Vec<u8>) -> Result<bool, AllocError> {
        let rest = &self.text[self.at..];
        let part = run.part_of(rest);
        if part.bytes == 0 {
            self.read(out)?;
            return Ok(true);
        }
        let ends = part.bytes < rest.len() && may_break(rest[part.bytes]);
        let kept = if ends {
            part.without(blanks_at_end(&rest[..part.bytes]))
        } else {
            part
        };
        out.extend_from_slice(&rest[..kept.bytes])?;
        self.pass(kept);
        Ok(kept.bytes != 0)
    }

    // Copies what may stand in a name.
    pub(crate) fn read_word(&mut self, out: &mut Vec<u8>) -> Result<(), AllocError> {
        let width = word_in(&self.text[self.at..]);
        out.extend_from_slice(&self.text[self.at..self.at + width])?;
        self.column += width;
        self.at += width;
        Ok(())
    }

    // Copies a line break: a line feed stands for each but the separators of Unicode.
    pub(crate) fn read_line(&mut self, out: &mut Vec<u8>) -> Result<(), AllocError> {
        match self.break_len(0) {
            0 => {}
            3 => out.extend_from_slice(&self.text[self.at..self.at + self.width()])?,
            _ => out.push(b'\n')?,
        }
        self.skip_line();
        Ok(())
    }
}
