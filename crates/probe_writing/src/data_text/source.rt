//! The rest of a text, from which parts are taken one after another.

use std::alloc::Global;
use std::str;
use yaml_lines::LineFault;

/// What is left of a text.
#[derive(Drop)]
pub struct Source<'a> {
    rest: &'a [u8],
}

// Whether a byte may stand in a decimal integer.
fn is_digit(byte: u8) -> bool {
    byte == b'-' || byte.is_ascii_digit()
}

// The byte that two hexadecimal digits give.
fn hex_byte(high: u8, low: u8) -> Option<u8> {
    let high = (high as char).to_digit(16)?;
    let low = (low as char).to_digit(16)?;
    Some((16 * high + low) as u8)
}

impl<'a> Source<'a> {
    /// All of a text.
    pub fn new(text: &'a [u8]) -> Source<'a> {
        Source { rest: text }
    }

    /// How many bytes are left.
    pub fn left(&self) -> usize {
        self.rest.len()
    }

    /// The first byte that is left.
    pub fn first(&self) -> Option<u8> {
        self.rest.first().copied()
    }

    /// Takes these bytes, if they are the first that are left.
    pub fn take(&mut self, word: &[u8]) -> bool {
        match self.rest.strip_prefix(word) {
            Some(rest) => {
                self.rest = rest;
                true
            }
            None => false,
        }
    }

    /// Takes these bytes, which have to be the first that are left.
    pub fn want(&mut self, word: &[u8]) -> Result<(), LineFault> {
        if self.take(word) {
            Ok(())
        } else {
            Err(LineFault::Bad)
        }
    }

    /// Takes what stands before the part with this place: nothing before the first.
    pub fn separate(&mut self, place: usize) -> Result<(), LineFault> {
        if place == 0 {
            return Ok(());
        }
        self.want(b", ")
    }

    // Takes so many bytes, or all, as a text.
    fn take_text(&mut self, length: usize) -> Result<&'a str, LineFault> {
        let (text, rest) = self.rest.split_at(length.min(self.rest.len()));
        self.rest = rest;
        match str::from_utf8(text) {
            Ok(text) => Ok(text),
            Err(_) => Err(LineFault::Bad),
        }
    }

    /// Takes digits and signs.
    pub fn digits(&mut self) -> Result<&'a str, LineFault> {
        let length = self.rest.iter().position(|b| !is_digit(*b));
        self.take_text(length.unwrap_or(self.rest.len()))
    }

    /// Takes what stands before the next space.
    pub fn word(&mut self) -> Result<&'a str, LineFault> {
        let length = self.rest.iter().position(|b| *b == b' ');
        self.take_text(length.unwrap_or(self.rest.len()))
    }

    // Takes a byte.
    fn byte(&mut self) -> Result<u8, LineFault> {
        let (first, rest) = self.rest.split_first().ok_or(LineFault::Bad)?;
        self.rest = rest;
        Ok(*first)
    }

    // Takes the rest of an escape, whose backslash is taken.
    fn escaped(&mut self) -> Result<u8, LineFault> {
        let letter = self.byte()?;
        if letter != b'x' {
            return Ok(letter);
        }
        let high = self.byte()?;
        let low = self.byte()?;
        hex_byte(high, low).ok_or(LineFault::Bad)
    }

    /// Takes bytes between quotes.
    pub fn bytes(&mut self, alloc: Global) -> Result<Vec<u8>, LineFault> {
        self.want(b"\"")?;
        let mut bytes = Vec::new(alloc);
        for _ in 0..self.rest.len() {
            match self.byte()? {
                b'"' => return Ok(bytes),
                b'\\' => bytes.push(self.escaped()?)?,
                byte => bytes.push(byte)?,
            }
        }
        Err(LineFault::Bad)
    }

    /// Takes a text between quotes.
    pub fn text(&mut self, alloc: Global) -> Result<String, LineFault> {
        match String::from_utf8(self.bytes(alloc)?) {
            Ok(text) => Ok(text),
            Err(_) => Err(LineFault::Bad),
        }
    }
}
