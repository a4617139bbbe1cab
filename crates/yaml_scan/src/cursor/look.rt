//! What stands at a place and ahead of it.

ghost use Rattle.std.specs.Prelude.{◌<◌};

use crate::byte::{is_ascii_start, is_blank};
use crate::cursor::Cursor;

impl Cursor<'_> {
    // The byte that lies so many bytes ahead, or 0 behind the end. A text has no byte 0.
    #[inline(always)]
    pub(crate) fn byte(&self, ahead: usize) -> u8 {
        if ahead < self.text.len() - self.at {
            self.text[self.at + ahead]
        } else {
            0
        }
    }

    // How many bytes the line break has that lies so many bytes ahead; 0 where there is none.
    pub(crate) fn break_len(&self, ahead: usize) -> usize
        requires { ahead < 8 }
    {
        match self.byte(ahead) {
            b'\n' => 1,
            b'\r' if self.byte(ahead + 1) == b'\n' => 2,
            b'\r' => 1,
            0xC2 if self.byte(ahead + 1) == 0x85 => 2,
            0xE2 if self.byte(ahead + 1) == 0x80 => match self.byte(ahead + 2) {
                0xA8 | 0xA9 => 3,
                _ => 0,
            },
            _ => 0,
        }
    }

    // Whether a line break lies so many bytes ahead.
    #[inline(always)]
    pub(crate) fn is_break(&self, ahead: usize) -> bool
        requires { ahead < 8 }
    {
        match self.byte(ahead) {
            b'\n' | b'\r' => true,
            0xC2 | 0xE2 => self.break_len(ahead) != 0,
            _ => false,
        }
    }

    // Whether a token of ASCII begins here.
    #[inline(always)]
    pub(crate) fn is_ascii_start(&self) -> bool {
        is_ascii_start(self.byte(0))
    }

    // Whether a space or a tab lies so many bytes ahead.
    #[inline(always)]
    pub(crate) fn is_blank(&self, ahead: usize) -> bool {
        is_blank(self.byte(ahead))
    }

    // Whether a line break lies so many bytes ahead, or the text has ended there.
    #[inline(always)]
    pub(crate) fn is_break_or_end(&self, ahead: usize) -> bool
        requires { ahead < 8 }
    {
        self.byte(ahead) == 0 || self.is_break(ahead)
    }

    // Whether a space, a tab or a line break lies so many bytes ahead, or the text has ended there.
    #[inline(always)]
    pub(crate) fn is_blank_or_end(&self, ahead: usize) -> bool
        requires { ahead < 8 }
    {
        self.is_blank(ahead) || self.is_break_or_end(ahead)
    }

    // Whether this byte comes three times, with a blank or an end behind.
    #[inline(always)]
    pub(crate) fn is_triple(&self, byte: u8) -> bool {
        self.byte(0) == byte
            && self.byte(1) == byte
            && self.byte(2) == byte
            && self.is_blank_or_end(3)
    }

    // Whether `---` or `...` stands at the beginning of this line, alone.
    #[inline(always)]
    pub(crate) fn is_document_indicator(&self) -> bool {
        self.column() == 0 && (self.is_triple(b'-') || self.is_triple(b'.'))
    }

    // Whether a mark of the order of bytes stands here, at the beginning of a line.
    #[inline(always)]
    pub(crate) fn is_order_mark(&self) -> bool {
        self.column() == 0 && self.byte(0) == 0xEF && self.byte(1) == 0xBB && self.byte(2) == 0xBF
    }
}
