//! A tape of one document as a format of the crate `serde`.

use crate::frame::Mark;
use crate::tape_reader::{Miss, TapeReader};
use serde::{Format, Kind, Name};
use std::alloc::Global;

impl<'a, 'de> Format for TapeReader<'a, 'de> {
    type Error = Miss;

    type Mark = Mark;

    fn bool(&mut self, _input: &[u8]) -> Result<bool, Miss> {
        self.boolean()
    }

    fn i64(&mut self, _input: &[u8]) -> Result<i64, Miss> {
        self.signed()
    }

    fn u64(&mut self, _input: &[u8]) -> Result<u64, Miss> {
        self.unsigned()
    }

    fn i128(&mut self, _input: &[u8]) -> Result<i128, Miss> {
        self.wide_signed()
    }

    fn u128(&mut self, _input: &[u8]) -> Result<u128, Miss> {
        self.wide_unsigned()
    }

    fn f32(&mut self, _input: &[u8]) -> Result<f32, Miss> {
        self.single()
    }

    fn f64(&mut self, _input: &[u8]) -> Result<f64, Miss> {
        self.double()
    }

    fn char(&mut self, _input: &[u8]) -> Result<char, Miss> {
        self.character()
    }

    fn plain_str(&mut self, input: &[u8]) -> Result<(usize, usize), Miss> {
        self.lent_text(input)
    }

    fn plain_bytes(&mut self, _input: &[u8]) -> Result<(usize, usize), Miss> {
        Err(self.lose())
    }

    fn string(&mut self, alloc: Global, _input: &[u8]) -> Result<String, Miss> {
        self.owned_text(alloc)
    }

    // Bytes are asked for of tags and of places, which are left to the exact reading.
    fn byte_buf(&mut self, _alloc: Global, _input: &[u8]) -> Result<Vec<u8>, Miss> {
        Err(self.lose())
    }

    fn peek(&mut self, _input: &[u8]) -> Result<Kind, Miss> {
        self.kind()
    }

    fn take_unit(&mut self, _input: &[u8]) -> Result<bool, Miss> {
        self.null()
    }

    fn take_none(&mut self, _input: &[u8]) -> Result<bool, Miss> {
        self.null()
    }

    fn begin_seq(&mut self, _input: &[u8]) -> Result<(), Miss> {
        self.open_sequence()
    }

    fn next_item(&mut self, _input: &[u8]) -> Result<bool, Miss> {
        self.item()
    }

    fn begin_map(&mut self, _input: &[u8]) -> Result<(), Miss> {
        self.spot.begun = true;
        Ok(())
    }

    fn begin_struct(&mut self, _input: &[u8]) -> Result<bool, Miss> {
        self.open_mapping()?;
        Ok(false)
    }

    fn next_key(&mut self, _input: &[u8], names: &[Name<'_>]) -> Result<Option<usize>, Miss> {
        self.key(names)
    }

    fn next_entry(&mut self, _input: &[u8]) -> Result<bool, Miss> {
        self.entry()
    }

    fn variant(&mut self, _input: &[u8], names: &[Name<'_>]) -> Result<usize, Miss> {
        self.name(names)
    }

    fn skip(&mut self, _input: &[u8]) -> Result<(), Miss> {
        self.pass()
    }

    fn mark(&mut self) -> Mark {
        let below = self.marks;
        self.marks = below.saturating_add(1);
        Mark {
            spot: self.spot,
            below,
        }
    }

    fn rewind(&mut self, mark: Mark) {
        self.spot = mark.spot;
        self.marks = mark.below.saturating_add(1);
    }

    fn release(&mut self, mark: Mark) {
        self.marks = mark.below;
    }

    fn is_fatal(&self, miss: &Miss) -> bool {
        matches!(miss, Miss::Lost)
    }

    fn missing(&self, _name: &str) -> Miss {
        Miss::Other
    }

    fn duplicate(&self, _name: &str) -> Miss {
        Miss::Other
    }

    fn unknown_key(&self) -> Miss {
        Miss::Other
    }

    fn unknown_variant(&self) -> Miss {
        Miss::Other
    }

    fn wrong_len(&self) -> Miss {
        Miss::Other
    }

    fn invalid(&self) -> Miss {
        Miss::Other
    }

    fn no_memory(&self) -> Miss {
        Miss::Lost
    }

    fn custom(&self, _message: &str) -> Miss {
        Miss::Other
    }
}
