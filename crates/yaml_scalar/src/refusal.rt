//! Why a reading failed, in little room.

ghost use Rattle.std.specs.Prelude.{◌≡◌, false};
ghost use Rattle.yaml_meaning.specs.ReadFault.{IsOfReading, bytes_unsupported, cause_of, end_of_stream};
ghost use Rattle.yaml_meaning.specs.ReadFault.{out_of_memory, ran_out, refusal_by, refused};

use std::alloc::{AllocError, AllocFailed, Global};
use std::marker::Model;
use yaml_base::{Cause, Error};

/// The answer of a call within a reading.
pub type Result<T> = std::result::Result<T, Refusal>;

/// Why reading a document failed: memory ran out, or a fault was found in it. That a stream has no document, or more
/// than one, is no such fault. It takes one pointer; none stands for want of memory.
#[derive(Drop)]
pub struct Refusal {
    fault: Option<Box<Error>>,
}

impl Model for Refusal {
    ghost use Rattle.yaml_meaning.specs.ReadFault.{IsOfReading, PlainRefusal, refusal_by};
    ghost use Rattle.yaml_scalar.specs.BoxedFault.{boxed_cause};

    ghost Value = { PlainRefusal };

    ghost view = { λ r. refusal_by (boxed_cause r.fault) };

    ghost invariant = { λ r. IsOfReading (boxed_cause r.fault) };
}

impl Refusal {
    /// Want of memory. Takes no memory.
    pub fn memory() -> Refusal
        ensures { result ≡ out_of_memory }
    {
        Refusal { fault: None }
    }

    /// The same as a fault that callers are told. Takes no memory.
    pub fn into_error(self) -> Error
        ensures { result ≡ cause_of self }
    {
        match self.fault {
            Some(fault) => Box::into_inner(fault),
            None => Error::new(Cause::Memory),
        }
    }
}

/// The refusal by this fault, or want of memory.
pub fn refuse(alloc: Global, fault: Error) -> Refusal
    requires { IsOfReading fault }
    ensures { ran_out result ≡ false → result ≡ refusal_by fault }
{
    match Box::new(alloc, fault) {
        Ok(fault) => Refusal { fault: Some(fault) },
        Err(_) => Refusal::memory(),
    }
}

/// The refusal of bytes, which nothing is read as, or want of memory.
#[cold]
#[inline(never)]
pub fn refused_bytes(alloc: Global) -> Refusal
    ensures { ran_out result ≡ false → result ≡ refused bytes_unsupported }
{
    refuse(alloc, Error::new(Cause::BytesUnsupported))
}

/// The refusal where the events end too early, or want of memory.
#[cold]
#[inline(never)]
pub fn ended(alloc: Global) -> Refusal
    ensures { ran_out result ≡ false → result ≡ refused end_of_stream }
{
    refuse(alloc, Error::new(Cause::EndOfStream))
}

impl From<AllocError> for Refusal {
    ghost use Rattle.std.specs.Prelude.{◌≡◌};
    ghost use Rattle.yaml_meaning.specs.ReadFault.{out_of_memory};

    ghost from_gives = { λ _ e. e ≡ out_of_memory };

    fn from(_: AllocError) -> Refusal {
        Refusal { fault: None }
    }
}

impl<T: Drop> From<AllocFailed<T>> for Refusal {
    ghost use Rattle.std.specs.Prelude.{◌≡◌};
    ghost use Rattle.yaml_meaning.specs.ReadFault.{out_of_memory};

    ghost from_gives = { λ _ e. e ≡ out_of_memory };

    fn from(_: AllocFailed<T>) -> Refusal {
        Refusal { fault: None }
    }
}
