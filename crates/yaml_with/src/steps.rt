//! The steps of a deserializer, as of a type that names no lifetime.

ghost use Rattle.std.specs.Prelude.{ℕ, Bool, true, false, List, None, string_bytes, IfOk, MatchBool, MatchOption, OnOk};
ghost use Rattle.serde.specs.Event.{Event, boolean, signed, unsigned, single, double, character, text, octets, nothing};
ghost use Rattle.serde.specs.Event.{seq_begins, seq_ends, map_begins, map_ends, key_begins, struct_begins};
ghost use Rattle.serde.specs.declared.name.Name.{Name as Named};

use serde::{Deserializer, Format, Kind, Name};
use std::alloc::Global;

/// The steps that a format over a deserializer takes, each as the deserializer has it.
pub(crate) trait Steps {
    type Error: Drop;

    type Mark: Copy + Drop;

    // What a step read.
    ghost reads: { Self → Event → Self → Type 0 };

    // Which name a step picked, of a key or of a text.
    ghost picks: { Self → Bool → List Named → ℕ → Self → Type 0 };

    // A step only looked.
    ghost stays: { Self → Self → Type 0 };

    fn bool(&mut self) -> Result<bool, Self::Error>
        ensures { IfOk result (λ v. reads self.old (boolean v) self.new) };

    fn i64(&mut self) -> Result<i64, Self::Error>
        ensures { IfOk result (λ v. reads self.old (signed v) self.new) };

    fn u64(&mut self) -> Result<u64, Self::Error>
        ensures { IfOk result (λ v. reads self.old (unsigned v) self.new) };

    fn i128(&mut self) -> Result<i128, Self::Error>
        ensures { IfOk result (λ v. reads self.old (signed v) self.new) };

    fn u128(&mut self) -> Result<u128, Self::Error>
        ensures { IfOk result (λ v. reads self.old (unsigned v) self.new) };

    fn f32(&mut self) -> Result<f32, Self::Error>
        ensures { IfOk result (λ v. reads self.old (single v) self.new) };

    fn f64(&mut self) -> Result<f64, Self::Error>
        ensures { IfOk result (λ v. reads self.old (double v) self.new) };

    fn char(&mut self) -> Result<char, Self::Error>
        ensures { IfOk result (λ v. reads self.old (character v) self.new) };

    fn string(&mut self, alloc: Global) -> Result<String, Self::Error>
        ensures { IfOk result (λ v. reads self.old (text (string_bytes v)) self.new) };

    fn byte_buf(&mut self, alloc: Global) -> Result<Vec<u8>, Self::Error>
        ensures { IfOk result (λ v. reads self.old (octets v.items) self.new) };

    fn peek(&mut self) -> Result<Kind, Self::Error>
        ensures { OnOk result (stays self.old self.new) };

    fn take_unit(&mut self) -> Result<bool, Self::Error>
        ensures { IfOk result (λ b. MatchBool b (reads self.old nothing self.new)
            (stays self.old self.new)) };

    fn take_none(&mut self) -> Result<bool, Self::Error>
        ensures { IfOk result (λ b. MatchBool b (reads self.old nothing self.new)
            (stays self.old self.new)) };

    fn begin_seq(&mut self) -> Result<(), Self::Error>
        ensures { OnOk result (reads self.old (seq_begins None) self.new) };

    fn next_item(&mut self) -> Result<bool, Self::Error>
        ensures { IfOk result (λ b. MatchBool b (stays self.old self.new)
            (reads self.old seq_ends self.new)) };

    fn end_tuple(&mut self) -> Result<(), Self::Error>
        ensures { OnOk result (reads self.old seq_ends self.new) };

    fn begin_map(&mut self) -> Result<(), Self::Error>
        ensures { OnOk result (reads self.old (map_begins None) self.new) };

    fn begin_struct(&mut self) -> Result<bool, Self::Error>
        ensures { IfOk result (λ b. reads self.old (struct_begins b) self.new) };

    fn next_key(&mut self, names: &[Name<'_>]) -> Result<Option<usize>, Self::Error>
        ensures { IfOk result (λ o. MatchOption o (reads self.old map_ends self.new)
            (λ at. picks self.old true names.now at self.new)) };

    fn next_entry(&mut self) -> Result<bool, Self::Error>
        ensures { IfOk result (λ b. MatchBool b (reads self.old key_begins self.new)
            (reads self.old map_ends self.new)) };

    fn variant(&mut self, names: &[Name<'_>]) -> Result<usize, Self::Error>
        ensures { IfOk result (λ at. picks self.old false names.now at self.new) };

    fn skip(&mut self) -> Result<(), Self::Error>;

    fn mark(&mut self) -> Self::Mark;

    fn rewind(&mut self, mark: Self::Mark);

    fn release(&mut self, mark: Self::Mark);

    fn is_fatal(&self, error: &Self::Error) -> bool;

    fn missing(&self, name: &str) -> Self::Error;

    fn duplicate(&self, name: &str) -> Self::Error;

    fn unknown_key(&self) -> Self::Error;

    fn unknown_variant(&self) -> Self::Error;

    fn wrong_len(&self) -> Self::Error;

    fn invalid(&self) -> Self::Error;

    fn no_memory(&self) -> Self::Error;

    fn custom(&self, message: &str) -> Self::Error;
}

impl<'de, 's, F: Format> Steps for Deserializer<'de, 's, F> {
    ghost use Rattle.serde.specs.Steps.{Picks, Stays};
    ghost use Rattle.yaml_with.specs.Through.{Reads};

    type Error = F::Error;

    type Mark = F::Mark;

    ghost reads = { λ old e new. Reads F.gives F.stays old e new };

    ghost picks = { λ old is_key names at new. Picks F.picks old is_key names at new };

    ghost stays = { λ old new. Stays F.stays old new };

    fn bool(&mut self) -> Result<bool, F::Error> {
        self.bool()
    }

    fn i64(&mut self) -> Result<i64, F::Error> {
        self.i64()
    }

    fn u64(&mut self) -> Result<u64, F::Error> {
        self.u64()
    }

    fn i128(&mut self) -> Result<i128, F::Error> {
        self.i128()
    }

    fn u128(&mut self) -> Result<u128, F::Error> {
        self.u128()
    }

    fn f32(&mut self) -> Result<f32, F::Error> {
        self.f32()
    }

    fn f64(&mut self) -> Result<f64, F::Error> {
        self.f64()
    }

    fn char(&mut self) -> Result<char, F::Error> {
        self.char()
    }

    fn string(&mut self, alloc: Global) -> Result<String, F::Error> {
        self.string(alloc)
    }

    fn byte_buf(&mut self, alloc: Global) -> Result<Vec<u8>, F::Error> {
        self.byte_buf(alloc)
    }

    fn peek(&mut self) -> Result<Kind, F::Error> {
        self.peek()
    }

    fn take_unit(&mut self) -> Result<bool, F::Error> {
        self.take_unit()
    }

    fn take_none(&mut self) -> Result<bool, F::Error> {
        self.take_none()
    }

    fn begin_seq(&mut self) -> Result<(), F::Error> {
        self.begin_seq()
    }

    fn next_item(&mut self) -> Result<bool, F::Error> {
        self.next_item()
    }

    fn end_tuple(&mut self) -> Result<(), F::Error> {
        self.expect_end()
    }

    fn begin_map(&mut self) -> Result<(), F::Error> {
        self.begin_map()
    }

    fn begin_struct(&mut self) -> Result<bool, F::Error> {
        self.begin_struct()
    }

    fn next_key(&mut self, names: &[Name<'_>]) -> Result<Option<usize>, F::Error> {
        self.next_key(names)
    }

    fn next_entry(&mut self) -> Result<bool, F::Error> {
        self.next_entry()
    }

    fn variant(&mut self, names: &[Name<'_>]) -> Result<usize, F::Error> {
        self.variant(names)
    }

    fn skip(&mut self) -> Result<(), F::Error> {
        self.skip()
    }

    fn mark(&mut self) -> F::Mark {
        self.mark()
    }

    fn rewind(&mut self, mark: F::Mark) {
        self.rewind(mark)
    }

    fn release(&mut self, mark: F::Mark) {
        self.release(mark)
    }

    fn is_fatal(&self, error: &F::Error) -> bool {
        self.is_fatal(error)
    }

    fn missing(&self, name: &str) -> F::Error {
        self.missing(name)
    }

    fn duplicate(&self, name: &str) -> F::Error {
        self.duplicate(name)
    }

    fn unknown_key(&self) -> F::Error {
        self.unknown_key()
    }

    fn unknown_variant(&self) -> F::Error {
        self.unknown_variant()
    }

    fn wrong_len(&self) -> F::Error {
        self.wrong_len()
    }

    fn invalid(&self) -> F::Error {
        self.invalid()
    }

    fn no_memory(&self) -> F::Error {
        self.no_memory()
    }

    fn custom(&self, message: &str) -> F::Error {
        self.custom(message)
    }
}
