//! Readers and writers that remember why they failed.

ghost use Rattle.std.specs.Prelude.{◌≡◌, Some, None, IfErr, OnOk};
ghost use Rattle.std.specs.Io.{ReadsAtMost, WritesAtMost};
ghost use Rattle.std.specs.Io.KnownBytes.{Keeps, ReadConsumes, WriteAppends};

use std::io::{self, Read, Write};

/// A reader or a writer, and why its last call failed, if it did.
#[derive(Drop)]
pub struct Watched<T> {
    inner: T,
    failure: Option<io::Error>,
}

impl<T> Watched<T> {
    /// The same reader or writer, none of whose calls has failed.
    pub fn new(inner: T) -> Watched<T>
        ensures inner { result.inner ≡ inner }
        ensures failure { result.failure ≡ None }
    {
        Watched {
            inner,
            failure: None,
        }
    }

    /// Why the last call failed, if it did.
    pub fn failure(&self) -> Option<io::Error>
        ensures { result ≡ self.now.failure }
    {
        self.failure
    }
}

// Why a call failed, if it did.
fn failure_of<X>(outcome: &io::Result<X>) -> Option<io::Error>
    ensures failed { IfErr outcome.now (λ why. result ≡ Some why) }
    ensures forgotten { OnOk outcome.now (result ≡ None) }
{
    match outcome {
        Ok(_) => None,
        Err(why) => Some(*why),
    }
}

impl<T: Read> Read for Watched<T> {
    ghost remaining = { λ watched. T.remaining watched.inner };

    fn read(&mut self, buffer: &mut [u8]) -> io::Result<usize>
        ensures bound { ReadsAtMost result buffer.new }
        ensures bytes { ReadConsumes (T.remaining self.old.inner) (T.remaining self.new.inner) result buffer.new }
        ensures failure { IfErr result (λ why. self.new.failure ≡ Some why) }
        ensures forgotten { OnOk result (self.new.failure ≡ None) }
    {
        let outcome = self.inner.read(buffer);
        self.failure = failure_of(&outcome);
        outcome
    }
}

impl<T: Write> Write for Watched<T> {
    ghost contents = { λ watched. T.contents watched.inner };

    fn write(&mut self, buffer: &[u8]) -> io::Result<usize>
        ensures bound { WritesAtMost result buffer.now }
        ensures bytes { WriteAppends (T.contents self.old.inner) (T.contents self.new.inner) result buffer.now }
        ensures failure { IfErr result (λ why. self.new.failure ≡ Some why) }
        ensures forgotten { OnOk result (self.new.failure ≡ None) }
    {
        let outcome = self.inner.write(buffer);
        self.failure = failure_of(&outcome);
        outcome
    }

    fn flush(&mut self) -> io::Result<()>
        ensures bytes { Keeps (T.contents self.old.inner) (T.contents self.new.inner) }
        ensures failure { IfErr result (λ why. self.new.failure ≡ Some why) }
        ensures forgotten { OnOk result (self.new.failure ≡ None) }
    {
        let outcome = self.inner.flush();
        self.failure = failure_of(&outcome);
        outcome
    }
}
