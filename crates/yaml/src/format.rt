//! A document as a format of the crate `serde`.

ghost use Rattle.std.specs.Prelude.{◌≡◌, Some, IfOk};

use crate::frame::{Deed, Mark};
use crate::leaf::Leaf;
use crate::makers::is_fatal;
use crate::reader::Reader;
use serde::{Format, Kind, Name};
use std::alloc::Global;
use yaml_base::{Cause, Error};
use yaml_shape::{Data, Text};

// The number, where it has this type.
fn narrowed<N: Copy + Drop>(number: Option<N>, reader: &Reader<'_, '_>) -> Result<N, Error>
    ensures { IfOk result (λ n. number ≡ Some n) }
{
    match number {
        Some(number) => Ok(number),
        None => Err(reader.ended()),
    }
}

impl<'a, 'de> Format for Reader<'a, 'de> {
    ghost use Rattle.yaml.specs.Picks.{Picks};
    ghost use Rattle.yaml.specs.Steps.{Stays, StepReads};

    type Error = Error;

    type Mark = Mark;

    ghost gives = { StepReads };

    ghost picks = { Picks };

    ghost stays = { Stays };

    fn bool(&mut self, _input: &[u8]) -> Result<bool, Error> {
        match self.leaf(Leaf::Bool, Deed::Read)? {
            Data::Bool(value) => Ok(value),
            _ => Err(self.ended()),
        }
    }

    #[tactic(auto, using(crate::proofs::StepLaws::took_stays))]
    fn i64(&mut self, _input: &[u8]) -> Result<i64, Error> {
        match self.leaf(Leaf::I64, Deed::Read)? {
            Data::Signed(number) => {
                let number = narrowed(i64::try_from(number).ok(), self)?;
                self.tell(Deed::Signed(number));
                Ok(number)
            }
            _ => Err(self.ended()),
        }
    }

    #[tactic(auto, using(crate::proofs::StepLaws::took_stays))]
    fn u64(&mut self, _input: &[u8]) -> Result<u64, Error> {
        match self.leaf(Leaf::U64, Deed::Read)? {
            Data::Unsigned(number) => {
                let number = narrowed(u64::try_from(number).ok(), self)?;
                self.tell(Deed::Unsigned(number));
                Ok(number)
            }
            _ => Err(self.ended()),
        }
    }

    fn i128(&mut self, _input: &[u8]) -> Result<i128, Error> {
        match self.leaf(Leaf::I128, Deed::Read)? {
            Data::Signed(number) => Ok(number),
            _ => Err(self.ended()),
        }
    }

    fn u128(&mut self, _input: &[u8]) -> Result<u128, Error> {
        match self.leaf(Leaf::U128, Deed::Read)? {
            Data::Unsigned(number) => Ok(number),
            _ => Err(self.ended()),
        }
    }

    fn f32(&mut self, _input: &[u8]) -> Result<f32, Error> {
        self.f32_here()
    }

    fn f64(&mut self, _input: &[u8]) -> Result<f64, Error> {
        self.f64_here()
    }

    fn char(&mut self, _input: &[u8]) -> Result<char, Error> {
        match self.leaf(Leaf::Char, Deed::Read)? {
            Data::Char(character) => Ok(character),
            _ => Err(self.ended()),
        }
    }

    // A text stands at the end of its source, or before the quote there. It is compared with what was read.
    #[tactic(auto, using(crate::proofs::StepLaws::took_text))]
    fn plain_str(&mut self, input: &[u8]) -> Result<(usize, usize), Error> {
        match self.leaf(Leaf::Str, Deed::Read)? {
            Data::Str(Text::Borrowed(text)) => match self.range_in(input, text) {
                Some(range) => Ok(range),
                None => Err(self.fault_of_borrowing(text)),
            },
            Data::Str(Text::Owned(text)) => Err(self.fault_of_borrowing(text.as_str())),
            _ => Err(self.ended()),
        }
    }

    fn plain_bytes(&mut self, _input: &[u8]) -> Result<(usize, usize), Error> {
        match self.leaf(Leaf::Bytes, Deed::Read) {
            Ok(_) => Err(self.ended()),
            Err(fault) => Err(fault),
        }
    }

    #[tactic(auto, using(crate::proofs::StepLaws::took_text))]
    fn string(&mut self, alloc: Global, _input: &[u8]) -> Result<String, Error> {
        match self.leaf(Leaf::Str, Deed::Read)? {
            Data::Str(Text::Borrowed(text)) => Ok(String::from_str(alloc, text)?),
            Data::Str(Text::Owned(text)) => Ok(text),
            _ => Err(self.ended()),
        }
    }

    // Bytes are given of the name of a tag that was asked for, and where a map was begun of the place where the node
    // stands, which `Spanned` asks for.
    fn byte_buf(&mut self, alloc: Global, _input: &[u8]) -> Result<Vec<u8>, Error> {
        if matches!(self.last.deed, Deed::TagAsked) && self.is_at_mark() {
            return self.marked_name(alloc);
        }
        if self.spot.begun {
            return self.place_here(alloc);
        }
        match self.leaf(Leaf::Bytes, Deed::Read) {
            Ok(_) => Err(self.ended()),
            Err(fault) => Err(fault),
        }
    }

    fn peek(&mut self, _input: &[u8]) -> Result<Kind, Error> {
        let kind = self.kind()?;
        if matches!(kind, Kind::Bytes) {
            self.note(Deed::SawTag);
        }
        Ok(kind)
    }

    fn take_unit(&mut self, _input: &[u8]) -> Result<bool, Error> {
        self.null(Leaf::Unit)
    }

    fn take_none(&mut self, _input: &[u8]) -> Result<bool, Error> {
        self.null(Leaf::Option)
    }

    fn begin_seq(&mut self, _input: &[u8]) -> Result<(), Error> {
        self.open_seq()
    }

    fn next_item(&mut self, _input: &[u8]) -> Result<bool, Error> {
        self.item()
    }

    fn begin_map(&mut self, _input: &[u8]) -> Result<(), Error> {
        self.spot.begun = true;
        Ok(())
    }

    fn begin_struct(&mut self, _input: &[u8]) -> Result<bool, Error> {
        self.open_map()?;
        Ok(false)
    }

    fn next_key(&mut self, _input: &[u8], names: &[Name<'_>]) -> Result<Option<usize>, Error> {
        self.key(names)
    }

    fn next_entry(&mut self, _input: &[u8]) -> Result<bool, Error> {
        self.entry()
    }

    fn variant(&mut self, _input: &[u8], names: &[Name<'_>]) -> Result<usize, Error> {
        self.name(names, false)
    }

    fn skip(&mut self, _input: &[u8]) -> Result<(), Error> {
        self.pass()
    }

    fn mark(&mut self) -> Mark {
        let below = self.marks;
        self.marks = below.saturating_add(1);
        Mark {
            spot: self.spot,
            below,
        }
    }

    fn rewind(&mut self, mark: Mark) {
        self.spot = mark.spot;
        self.marks = mark.below.saturating_add(1);
        self.note(Deed::WentBack);
    }

    fn release(&mut self, mark: Mark) {
        self.marks = mark.below;
    }

    fn is_fatal(&self, error: &Error) -> bool {
        is_fatal(error)
    }

    fn missing(&self, name: &str) -> Error {
        self.fault_of_missing(name)
    }

    fn duplicate(&self, name: &str) -> Error {
        self.fault_of_twice(name)
    }

    fn unknown_key(&self) -> Error {
        self.fault_of_field()
    }

    fn unknown_variant(&self) -> Error {
        self.fault_of_variant()
    }

    fn wrong_len(&self) -> Error {
        self.fault_of_length()
    }

    fn invalid(&self) -> Error {
        self.fault_of_value()
    }

    fn no_memory(&self) -> Error {
        Error::new(Cause::Memory)
    }

    fn custom(&self, message: &str) -> Error {
        self.told(message)
    }
}
