//! Scalars that are read where they lie on a tape.

use crate::borrowed::range_to;
use crate::tape_reader::{Miss, TapeReader};
use simdutf8::basic::from_utf8;
use std::alloc::Global;
use yaml_base::{
    ScalarStyle, borrowed_bytes, parse_bool, parse_null, parse_signed_int, parse_unsigned_int,
};
use yaml_float::{parse_f32, parse_f64};
use yaml_scalar::{small_signed_of, small_unsigned_of};
use yaml_shape::IntegerType;
use yaml_tape::{Entry, EntryKind};

/// Whether a plain text stands for nothing.
#[inline(always)]
pub(crate) fn is_null(text: &[u8]) -> bool {
    text.is_empty() || parse_null(text).is_some()
}

// The `i64` that a plain text writes.
#[inline(always)]
fn signed_in(text: &[u8]) -> Option<i64> {
    if let Some(number) = small_signed_of(IntegerType::I64, text) {
        return Some(number);
    }
    let number = parse_signed_int(from_utf8(text).ok()?, i64::MIN as i128, i64::MAX as i128)?;
    i64::try_from(number).ok()
}

// The `u64` that a plain text writes.
#[inline(always)]
fn unsigned_in(text: &[u8]) -> Option<u64> {
    if let Some(number) = small_unsigned_of(IntegerType::U64, text) {
        return Some(number);
    }
    let number = parse_unsigned_int(from_utf8(text).ok()?, u64::MAX as u128)?;
    u64::try_from(number).ok()
}

// The one character of a text.
fn only_char(text: &str) -> Option<char> {
    let mut characters = text.chars();
    let character = characters.next()?;
    match characters.next() {
        None => Some(character),
        Some(_) => None,
    }
}

impl<'a, 'de> TapeReader<'a, 'de> {
    // The bytes of the next node, which is a plain scalar without a tag.
    #[inline(always)]
    fn plain_bytes(&mut self) -> Result<&'a [u8], Miss> {
        let entry = self.bare_scalar()?;
        if entry.style != ScalarStyle::Plain {
            return Err(Miss::Other);
        }
        match self.bytes_of(entry) {
            Some(bytes) => Ok(bytes),
            None => Err(self.lose()),
        }
    }

    // The text of the next node, which is a scalar.
    #[inline(always)]
    fn text(&mut self) -> Result<&'a str, Miss> {
        let entry = self.scalar()?;
        match self.text_of(entry) {
            Some(text) => Ok(text),
            None => Err(self.lose()),
        }
    }

    /// The text of a scalar.
    #[inline(always)]
    pub(crate) fn text_of(&self, entry: Entry) -> Option<&'a str> {
        from_utf8(self.bytes_of(entry)?).ok()
    }

    // Goes on behind a scalar that was read as a value, if it was.
    #[inline(always)]
    fn taken<T: Copy + Drop>(&mut self, value: Option<T>) -> Result<T, Miss> {
        match value {
            Some(value) => {
                self.pass_scalar();
                Ok(value)
            }
            None => Err(Miss::Other),
        }
    }

    /// The boolean that the next node is.
    pub(crate) fn boolean(&mut self) -> Result<bool, Miss> {
        let bytes = self.plain_bytes()?;
        let Ok(text) = from_utf8(bytes) else {
            return Err(self.lose());
        };
        self.taken(parse_bool(text))
    }

    /// The `i64` that the next node is.
    pub(crate) fn signed(&mut self) -> Result<i64, Miss> {
        let bytes = self.plain_bytes()?;
        self.taken(signed_in(bytes))
    }

    /// The `u64` that the next node is.
    pub(crate) fn unsigned(&mut self) -> Result<u64, Miss> {
        let bytes = self.plain_bytes()?;
        self.taken(unsigned_in(bytes))
    }

    /// The `i128` that the next node is.
    pub(crate) fn wide_signed(&mut self) -> Result<i128, Miss> {
        let bytes = self.plain_bytes()?;
        let Ok(text) = from_utf8(bytes) else {
            return Err(self.lose());
        };
        self.taken(parse_signed_int(text, i128::MIN, i128::MAX))
    }

    /// The `u128` that the next node is.
    pub(crate) fn wide_unsigned(&mut self) -> Result<u128, Miss> {
        let bytes = self.plain_bytes()?;
        let Ok(text) = from_utf8(bytes) else {
            return Err(self.lose());
        };
        self.taken(parse_unsigned_int(text, u128::MAX))
    }

    /// The `f32` that the next node's text is.
    pub(crate) fn single(&mut self) -> Result<f32, Miss> {
        let bytes = self.plain_bytes()?;
        self.taken(parse_f32(bytes))
    }

    /// The `f64` that the next node's text is.
    pub(crate) fn double(&mut self) -> Result<f64, Miss> {
        let bytes = self.plain_bytes()?;
        self.taken(parse_f64(bytes))
    }

    /// The character that the next node's text is.
    pub(crate) fn character(&mut self) -> Result<char, Miss> {
        let text = self.text()?;
        self.taken(only_char(text))
    }

    /// A copy of the next node's text.
    pub(crate) fn owned_text(&mut self, alloc: Global) -> Result<String, Miss> {
        let text = self.text()?;
        match String::from_str(alloc, text) {
            Ok(owned) => {
                self.pass_scalar();
                Ok(owned)
            }
            Err(_) => Err(self.lose()),
        }
    }

    // Where a scalar's text stands in the input, if its source shows it and the input has it there.
    #[inline(always)]
    fn range_of(&self, input: &[u8], entry: Entry, text: &str) -> Option<(usize, usize)> {
        let (index, end) = (entry.index as usize, entry.end as usize);
        let source = self.tape.text.get(index..end);
        borrowed_bytes(text.as_bytes(), source, entry.style)?;
        match range_to(input, end, text) {
            Some(range) => Some(range),
            None => range_to(input, end.checked_sub(1)?, text),
        }
    }

    /// Where the next node's text stands in the input. The node is passed also where its text is not lent.
    pub(crate) fn lent_text(&mut self, input: &[u8]) -> Result<(usize, usize), Miss> {
        let entry = self.scalar()?;
        let Some(text) = self.text_of(entry) else {
            return Err(self.lose());
        };
        let range = self.range_of(input, entry, text);
        self.pass_scalar();
        match range {
            Some(range) => Ok(range),
            None => Err(Miss::Other),
        }
    }

    // Whether a scalar stands for nothing. None where that can't be told: of one with a tag that is not local.
    fn is_nothing(&self, entry: Entry) -> Option<bool> {
        if self.has_tag(entry) {
            self.tag_name(entry)?;
            return Some(false);
        }
        Some(entry.style == ScalarStyle::Plain && is_null(self.bytes_of(entry)?))
    }

    /// Whether the next node is null, which is then taken.
    pub(crate) fn null(&mut self) -> Result<bool, Miss> {
        if self.is_bare() {
            return Ok(true);
        }
        let Some(entry) = self.here() else {
            return Err(self.lose());
        };
        match entry.kind {
            EntryKind::SequenceStart | EntryKind::MappingStart if self.spot.nestings > 0 => {
                Ok(false)
            }
            EntryKind::Scalar => match self.is_nothing(entry) {
                Some(true) => {
                    self.pass_scalar();
                    Ok(true)
                }
                Some(false) => Ok(false),
                None => Err(self.lose()),
            },
            _ => Err(self.lose()),
        }
    }
}
