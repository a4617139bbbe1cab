//! The bytes of a reader.

ghost use Rattle.std.specs.Prelude.{◌≡◌, IfErr, IfOk, IfSome, OnOk};
ghost use Rattle.std.specs.Io.KnownBytes.{IsAtEnd};
ghost use Rattle.yaml_documents.specs.ReaderFaults.{IsOfReader};

use std::alloc::Global;
use std::fmt;
use std::io::{self, Read};
use yaml_base::Error;

/// Why no value was read from a reader.
#[derive(Debug, Drop)]
pub enum ReaderFault {
    /// The reader's text has no such value. All of it was read.
    Text(Error),
    /// The reader failed, or memory was wanting for its bytes. Some of them may be read.
    Reader(io::Error),
}

impl fmt::Display for ReaderFault {
    ghost use Rattle.yaml_documents.specs.ReaderFaults.{reader_fault_text};

    ghost output = { reader_fault_text };

    fn fmt<W: fmt::Write>(&self, f: &mut fmt::Formatter<W>) -> fmt::Result {
        match self {
            ReaderFault::Text(fault) => write!(f, "{fault}"),
            ReaderFault::Reader(fault) => write!(f, "{fault}"),
        }
    }
}

impl std::error::Error for ReaderFault {}

/// All bytes that a reader gives, up to its end.
pub fn read_bytes<R: Read>(alloc: Global, reader: &mut R) -> Result<Vec<u8>, ReaderFault>
    ensures bytes { IfOk result (λ bytes. IfSome (R.remaining reader.old) (λ text. bytes.items ≡ text)) }
    ensures end { OnOk result (IsAtEnd (R.remaining reader.new)) }
    ensures refused { IfErr result IsOfReader }
{
    let mut bytes = Vec::new(alloc);
    match reader.read_to_end(&mut bytes) {
        Ok(_) => Ok(bytes),
        Err(fault) => Err(ReaderFault::Reader(fault)),
    }
}
