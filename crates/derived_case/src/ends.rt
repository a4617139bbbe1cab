//! What is read from a reader, as it is written to a writer.

use serde::{DeserializeOwned, Serialize};
use std::alloc::Global;
use std::io::{self, ErrorKind, Read};
use yaml::{Error, ReaderFault, WriteFault, from_reader, to_writer};

// A reader that gives bytes, one a call, and then fails.
#[derive(Drop)]
struct Broken<'a> {
    rest: &'a [u8],
}

impl Read for Broken<'_> {
    fn read(&mut self, buffer: &mut [u8]) -> io::Result<usize> {
        if self.rest.is_empty() {
            return Err(io::Error::from(ErrorKind::ConnectionReset));
        }
        let count = buffer.len().min(1);
        self.rest.read(&mut buffer[..count])
    }
}

// The fault of the text, or a fault that tells the reader's.
fn fault_of_reading(alloc: Global, fault: ReaderFault) -> Error {
    match fault {
        ReaderFault::Text(fault) => fault,
        ReaderFault::Reader(fault) => match format!(in alloc; "the reader failed: {fault}") {
            Ok(text) => Error::custom(text),
            Err(refused) => refused.into(),
        },
    }
}

// The same of a writer.
fn fault_of_writing(alloc: Global, fault: WriteFault) -> Error {
    match fault {
        WriteFault::Value(fault) => fault,
        WriteFault::Writer(fault) => match format!(in alloc; "the writer failed: {fault}") {
            Ok(text) => Error::custom(text),
            Err(refused) => refused.into(),
        },
    }
}

// The text that a writer gets of a value.
fn written<T: Serialize>(alloc: Global, value: &T) -> Result<String, Error> {
    let mut bytes = Vec::new(alloc);
    if let Err(fault) = to_writer(alloc, &mut bytes, value) {
        return Err(fault_of_writing(alloc, fault));
    }
    match String::from_utf8(bytes) {
        Ok(text) => Ok(text),
        Err(_) => Err(Error::custom(String::from_str(alloc, "no text")?)),
    }
}

/// What `from_reader` reads, as a writer gets it by `to_writer`.
pub fn answer_of_reader<T: DeserializeOwned + Serialize>(
    alloc: Global,
    text: &str,
) -> Result<String, Error> {
    let mut reader = text.as_bytes();
    let read: Result<T, ReaderFault> = from_reader(alloc, &mut reader);
    match read {
        Ok(value) => written(alloc, &value),
        Err(fault) => Err(fault_of_reading(alloc, fault)),
    }
}

/// The same of a reader that fails behind the text.
pub fn answer_of_broken<T: DeserializeOwned + Serialize>(
    alloc: Global,
    text: &str,
) -> Result<String, Error> {
    let mut reader = Broken {
        rest: text.as_bytes(),
    };
    let read: Result<T, ReaderFault> = from_reader(alloc, &mut reader);
    match read {
        Ok(value) => written(alloc, &value),
        Err(fault) => Err(fault_of_reading(alloc, fault)),
    }
}
