//! What is read of a text, as it is written.

use serde::{Deserialize, DeserializeOwned, Serialize};
use std::alloc::Global;
use yaml::{
    DocumentStream, Documents, Error, from_events, from_slice, from_str, to_events, to_string,
};
use yaml_emit::emit;
use yaml_parse::{Parsed, parse};

/// What `from_str` reads, as `to_string` writes it.
pub fn answer<'a, T: Deserialize<'a> + Serialize>(
    alloc: Global,
    text: &'a str,
) -> Result<String, Error> {
    let value: T = from_str(alloc, text)?;
    to_string(alloc, &value)
}

/// The same by `from_slice`.
pub fn answer_of_slice<'a, T: Deserialize<'a> + Serialize>(
    alloc: Global,
    text: &'a str,
) -> Result<String, Error> {
    let value: T = from_slice(alloc, text.as_bytes())?;
    to_string(alloc, &value)
}

/// What `from_events` reads of the text's events, as the emitter prints the events that `to_events` writes.
pub fn answer_of_events<T: DeserializeOwned + Serialize + Drop>(
    alloc: Global,
    text: &str,
) -> Result<String, Error> {
    let Parsed { events, fault, .. } = parse(alloc, text.as_bytes())?;
    let value: T = from_events(alloc, events, fault)?;
    let written = to_events(alloc, &value)?;
    emit(alloc, written.as_slice())
}

/// A document's text, or its fault, as a text.
pub fn told<T: Serialize + Drop>(alloc: Global, read: Result<T, Error>) -> Result<String, Error> {
    match read {
        Ok(value) => to_string(alloc, &value),
        Err(fault) => Ok(format!(in alloc; "! {fault}\n")?),
    }
}

/// What `Documents` reads, each document's text behind `--- `.
pub fn answer_of_documents<'a, T: Deserialize<'a> + Serialize>(
    alloc: Global,
    text: &'a str,
) -> Result<String, Error> {
    let mut documents = Documents::from_str(alloc, text)?;
    let mut answer = String::new(alloc);
    for _ in 0..u64::MAX {
        let Some(read) = documents.read_next::<T>() else {
            break;
        };
        answer.push_str("--- ")?;
        answer.push_str(told(alloc, read)?.as_str())?;
    }
    Ok(answer)
}

/// The bytes that the letters of a text stand for, each by its code.
pub fn bytes_of(alloc: Global, text: &str) -> Result<Vec<u8>, Error> {
    let mut bytes = Vec::new(alloc);
    for letter in text.chars() {
        match u8::try_from(letter as u32) {
            Ok(byte) => bytes.push(byte)?,
            Err(_) => return Err(Error::custom(String::from_str(alloc, "no byte")?)),
        }
    }
    Ok(bytes)
}

/// What `DocumentStream` reads, likewise. The next document is asked for until it has answered that there is none, and
/// once more: bytes have no more documents than there are of them, and one where there are none.
pub fn answer_of_stream<'a, T: Deserialize<'a> + Serialize>(
    alloc: Global,
    bytes: &'a [u8],
) -> Result<String, Error> {
    let mut documents = DocumentStream::from_slice(alloc, bytes)?;
    let mut answer = String::new(alloc);
    for _ in 0..bytes.len() + 2 {
        if let Some(read) = documents.read_next::<T>() {
            answer.push_str("--- ")?;
            answer.push_str(told(alloc, read)?.as_str())?;
        }
    }
    Ok(answer)
}
