//! Reading with the variants of a value as mappings of one entry.

ghost use Rattle.std.specs.Prelude.{◌≡◌, IfOk};
ghost use Rattle.yaml_with.specs.Through.{NamedByKey};

use crate::names::asks_for_variants;
use crate::reach::Reach;
use crate::steps::Steps;
use serde::{Deserialize, DeserializeOwned, Deserializer, Format, Kind, Name};
use std::alloc::Global;

// A format whose variants are named by the one key of a mapping, over another. A node that is no mapping, or has a tag,
// is a variant as ever.
#[derive(Drop)]
struct Keyed<'a, D: Steps> {
    inner: &'a mut D,
    reach: Reach,
    // Whether a mapping was begun whose first key is the variant, where one is asked for.
    is_begun: bool,
    // Whether the last step found a key where none was asked for.
    is_more: bool,
}

// A place to come back to.
#[derive(Clone, Copy, Drop)]
struct Place<M> {
    inner: M,
    reach: Reach,
}

/// Reads a value whose variants are mappings so far.
pub(crate) fn read<'de, T: Deserialize<'de>, D: Steps>(
    alloc: Global,
    from: &mut D,
    reach: Reach,
) -> Result<T, D::Error> {
    let mut keyed = Keyed {
        inner: from,
        reach,
        is_begun: false,
        is_more: false,
    };
    let nothing: &'de [u8] = &[];
    T::deserialize(alloc, &mut Deserializer::new(nothing, &mut keyed))
}

/// The same of a value that borrows nothing.
pub(crate) fn read_owned<T: DeserializeOwned, D: Steps>(
    alloc: Global,
    from: &mut D,
    reach: Reach,
) -> Result<T, D::Error> {
    let mut keyed = Keyed {
        inner: from,
        reach,
        is_begun: false,
        is_more: false,
    };
    T::deserialize_owned(alloc, &mut Deserializer::new(&[], &mut keyed))
}

impl<'a, D: Steps> Keyed<'a, D> {
    // What comes next is within the value.
    fn go_within(&mut self)
        ensures { self.new.inner ≡ self.old.inner }
    {
        self.is_begun = false;
        self.is_more = false;
        self.reach = self.reach.part();
    }

    // The fault of a mapping that has not one entry.
    fn not_one(&self) -> D::Error {
        self.inner
            .custom("invalid value: map, expected map with a single key")
    }

    // The variant that the first key of the mapping is.
    fn variant_of_key(&mut self, names: &[Name<'_>]) -> Result<usize, D::Error>
        ensures { IfOk result (λ at. NamedByKey D.reads D.picks self.old.inner.now names.now at
            self.new.inner.now) }
    {
        if self.inner.next_entry()? {
            return self.inner.variant(names);
        }
        Err(self.not_one())
    }
}

impl<'a, D: Steps> Format for Keyed<'a, D> {
    ghost use Rattle.yaml_with.specs.Through.{PicksKeyed, ReadsKeyed};

    type Error = D::Error;

    type Mark = Place<D::Mark>;

    ghost gives = { λ old input e new. ReadsKeyed D.reads D.stays old.inner.now e new.inner.now };

    ghost picks = { λ old input is_key names at new.
        PicksKeyed D.reads D.picks old.is_begun old.inner.now is_key names at new.inner.now };

    ghost stays = { λ old new. D.stays old.inner.now new.inner.now };

    fn bool(&mut self, _input: &[u8]) -> Result<bool, D::Error> {
        self.inner.bool()
    }

    fn i64(&mut self, _input: &[u8]) -> Result<i64, D::Error> {
        self.inner.i64()
    }

    fn u64(&mut self, _input: &[u8]) -> Result<u64, D::Error> {
        self.inner.u64()
    }

    fn i128(&mut self, _input: &[u8]) -> Result<i128, D::Error> {
        self.inner.i128()
    }

    fn u128(&mut self, _input: &[u8]) -> Result<u128, D::Error> {
        self.inner.u128()
    }

    fn f32(&mut self, _input: &[u8]) -> Result<f32, D::Error> {
        self.inner.f32()
    }

    fn f64(&mut self, _input: &[u8]) -> Result<f64, D::Error> {
        self.inner.f64()
    }

    fn char(&mut self, _input: &[u8]) -> Result<char, D::Error> {
        self.inner.char()
    }

    fn plain_str(&mut self, _input: &[u8]) -> Result<(usize, usize), D::Error> {
        Err(self.inner.custom("no text is lent within a singleton map"))
    }

    fn plain_bytes(&mut self, _input: &[u8]) -> Result<(usize, usize), D::Error> {
        Err(
            self.inner
                .custom("no bytes are lent within a singleton map"),
        )
    }

    fn string(&mut self, alloc: Global, _input: &[u8]) -> Result<String, D::Error> {
        self.inner.string(alloc)
    }

    fn byte_buf(&mut self, alloc: Global, _input: &[u8]) -> Result<Vec<u8>, D::Error> {
        self.is_begun = false;
        self.inner.byte_buf(alloc)
    }

    fn peek(&mut self, _input: &[u8]) -> Result<Kind, D::Error> {
        self.inner.peek()
    }

    fn take_unit(&mut self, _input: &[u8]) -> Result<bool, D::Error> {
        self.inner.take_unit()
    }

    fn take_none(&mut self, _input: &[u8]) -> Result<bool, D::Error> {
        self.inner.take_none()
    }

    fn begin_seq(&mut self, _input: &[u8]) -> Result<(), D::Error> {
        self.go_within();
        self.inner.begin_seq()
    }

    fn next_item(&mut self, _input: &[u8]) -> Result<bool, D::Error> {
        self.inner.next_item()
    }

    fn end_tuple(&mut self, _input: &[u8]) -> Result<(), D::Error> {
        self.inner.end_tuple()
    }

    fn begin_map(&mut self, _input: &[u8]) -> Result<(), D::Error> {
        self.is_begun = self.reach.is_on() && matches!(self.inner.peek()?, Kind::Map);
        self.inner.begin_map()
    }

    fn begin_struct(&mut self, _input: &[u8]) -> Result<bool, D::Error> {
        self.go_within();
        self.inner.begin_struct()
    }

    fn next_key(&mut self, _input: &[u8], names: &[Name<'_>]) -> Result<Option<usize>, D::Error> {
        let is_variant = self.is_begun && asks_for_variants(names);
        self.go_within();
        if is_variant {
            return Ok(Some(self.variant_of_key(names)?));
        }
        let found = self.inner.next_key(names)?;
        self.is_more = names.is_empty() && found.is_some();
        Ok(found)
    }

    fn next_entry(&mut self, _input: &[u8]) -> Result<bool, D::Error> {
        self.go_within();
        self.inner.next_entry()
    }

    fn variant(&mut self, _input: &[u8], names: &[Name<'_>]) -> Result<usize, D::Error> {
        self.inner.variant(names)
    }

    fn skip(&mut self, _input: &[u8]) -> Result<(), D::Error> {
        self.inner.skip()
    }

    fn mark(&mut self) -> Place<D::Mark> {
        Place {
            inner: self.inner.mark(),
            reach: self.reach,
        }
    }

    fn rewind(&mut self, mark: Place<D::Mark>) {
        self.reach = mark.reach;
        self.is_begun = false;
        self.is_more = false;
        self.inner.rewind(mark.inner);
    }

    fn release(&mut self, mark: Place<D::Mark>) {
        self.inner.release(mark.inner);
    }

    fn is_fatal(&self, error: &D::Error) -> bool {
        self.inner.is_fatal(error)
    }

    fn missing(&self, name: &str) -> D::Error {
        self.inner.missing(name)
    }

    fn duplicate(&self, name: &str) -> D::Error {
        self.inner.duplicate(name)
    }

    fn unknown_key(&self) -> D::Error {
        self.inner.unknown_key()
    }

    fn unknown_variant(&self) -> D::Error {
        self.inner.unknown_variant()
    }

    fn wrong_len(&self) -> D::Error {
        self.inner.wrong_len()
    }

    fn invalid(&self) -> D::Error {
        if self.is_more {
            return self.not_one();
        }
        self.inner.invalid()
    }

    fn no_memory(&self) -> D::Error {
        self.inner.no_memory()
    }

    fn custom(&self, message: &str) -> D::Error {
        self.inner.custom(message)
    }
}
