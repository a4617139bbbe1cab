//! Writing with the variants of a value as mappings of one entry.

use crate::reach::Reach;
use serde::{Case, Serialize, Serializer};
use std::fmt::Display;

// A serializer that is not told how many entries the mapping of a variant has, over one that makes a tag of a variant
// only where it is told that there is one.
#[derive(Drop)]
struct Keyed<'a, S: Serializer> {
    inner: &'a mut S,
    reach: Reach,
    // Whether a mapping of one entry was begun, of which it is not known whether it is a variant.
    is_held: bool,
}

/// Writes a value whose variants are mappings so far.
pub(crate) fn write<T: Serialize, S: Serializer>(
    value: &T,
    out: &mut S,
    reach: Reach,
) -> Result<(), S::Error> {
    value.serialize(&mut Keyed {
        inner: out,
        reach,
        is_held: false,
    })
}

impl<'a, S: Serializer> Keyed<'a, S> {
    // A mapping that was held back begins, and is no variant.
    fn settle(&mut self) -> Result<(), S::Error> {
        if self.is_held {
            self.is_held = false;
            return self.inner.begin_map(Some(1));
        }
        Ok(())
    }
}

impl<'a, S: Serializer> Serializer for Keyed<'a, S> {
    type Error = S::Error;

    fn bool(&mut self, v: bool) -> Result<(), S::Error> {
        self.inner.bool(v)
    }

    fn i64(&mut self, v: i64) -> Result<(), S::Error> {
        self.inner.i64(v)
    }

    fn u64(&mut self, v: u64) -> Result<(), S::Error> {
        self.inner.u64(v)
    }

    fn i128(&mut self, v: i128) -> Result<(), S::Error> {
        self.inner.i128(v)
    }

    fn u128(&mut self, v: u128) -> Result<(), S::Error> {
        self.inner.u128(v)
    }

    fn f32(&mut self, v: f32) -> Result<(), S::Error> {
        self.inner.f32(v)
    }

    fn f64(&mut self, v: f64) -> Result<(), S::Error> {
        self.inner.f64(v)
    }

    fn char(&mut self, v: char) -> Result<(), S::Error> {
        self.inner.char(v)
    }

    fn str(&mut self, v: &str) -> Result<(), S::Error> {
        self.inner.str(v)
    }

    fn bytes(&mut self, v: &[u8]) -> Result<(), S::Error> {
        self.inner.bytes(v)
    }

    fn unit(&mut self) -> Result<(), S::Error> {
        self.inner.unit()
    }

    fn str_cased(&mut self, name: &str, case: Case) -> Result<(), S::Error> {
        self.inner.str_cased(name, case)
    }

    fn begin_seq(&mut self, len: Option<usize>) -> Result<(), S::Error> {
        self.reach = self.reach.part();
        self.inner.begin_seq(len)
    }

    fn end_seq(&mut self) -> Result<(), S::Error> {
        self.inner.end_seq()
    }

    fn begin_map(&mut self, len: Option<usize>) -> Result<(), S::Error> {
        let is_on = self.reach.is_on();
        self.reach = self.reach.part();
        if is_on && len == Some(1) {
            self.is_held = true;
            return Ok(());
        }
        self.inner.begin_map(len)
    }

    fn end_map(&mut self) -> Result<(), S::Error> {
        self.settle()?;
        self.inner.end_map()
    }

    fn key_cased(&mut self, name: &str, case: Case) -> Result<(), S::Error> {
        self.settle()?;
        self.inner.key_cased(name, case)
    }

    // A name with a `!` in front is that of a tag, which a value of any kind has.
    fn variant_key(&mut self, name: &str, case: Case) -> Result<(), S::Error> {
        if self.is_held && !name.starts_with('!') {
            self.is_held = false;
            self.inner.begin_map(None)?;
        }
        self.settle()?;
        self.inner.variant_key(name, case)
    }

    fn begin_key(&mut self) -> Result<(), S::Error> {
        self.settle()?;
        self.inner.begin_key()
    }

    fn end_key(&mut self) -> Result<(), S::Error> {
        self.inner.end_key()
    }

    fn flatten_next(&mut self) -> Result<(), S::Error> {
        self.settle()?;
        self.inner.flatten_next()
    }

    fn custom(&self, message: &str) -> S::Error {
        self.inner.custom(message)
    }

    fn collect_str<T: Display>(&mut self, value: &T) -> Result<(), S::Error> {
        self.inner.collect_str(value)
    }
}
