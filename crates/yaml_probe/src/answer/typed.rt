//! YAML text read as a type, and what the value prints.

use super::refused;
use super::text::spelled;
use serde_yaml::value::Value;
use serde_yaml::{
    Cause, Deserialize, Error, Result, Serialize, from_str, to_string, to_string_unambiguous,
};
use std::alloc::{AllocError, Global};
use std::boxed::BoxedStr;
use std::collections::{BTreeMap, BTreeSet};
use std::str;
use uses::{Address, Backup, Folder, Greeting, Listen, Ports, Server, Timeouts, Workers};
use yaml_run::{Audience, Status, Told, told_of};

// An integer of each type with a sign, and what else has no parts.
type Signed = (i8, i16, i32, i64, i128, isize, bool, char);

// An integer of each type without a sign, and nothing.
type Unsigned = (u8, u16, u32, u64, u128, usize, ());

// What the value prints that a text is read as.
fn printed<'de, T: Deserialize<'de> + Serialize + Drop>(
    alloc: Global,
    text: &'de str,
) -> Result<String> {
    let value: T = from_str(alloc, text)?;
    to_string(alloc, &value)
}

// What the value of any kind prints that a text is read as, so that no other reader takes it for something else.
fn printed_unambiguous(alloc: Global, text: &str) -> Result<String> {
    let value: Value = from_str(alloc, text)?;
    to_string_unambiguous(alloc, &value)
}

// What a text prints that the text is read as, which is borrowed of it.
fn printed_lent(alloc: Global, text: &str) -> Result<String> {
    let lent: &str = from_str(alloc, text)?;
    to_string(alloc, &String::from_str(alloc, lent)?)
}

// What the name of whom to greet prints, which is borrowed of a text.
fn printed_greeting(alloc: Global, text: &str) -> Result<String> {
    let greeting: Greeting<'_> = from_str(alloc, text)?;
    to_string(alloc, &String::from_str(alloc, greeting.whom)?)
}

// The same of a type of std with this name; none where there is no such type.
fn printed_as_standard(alloc: Global, name: &str, text: &str) -> Option<Result<String>> {
    match name {
        "Signed" => Some(printed::<Signed>(alloc, text)),
        "Unsigned" => Some(printed::<Unsigned>(alloc, text)),
        "(bool,char,i8)" => Some(printed::<(bool, char, i8)>(alloc, text)),
        "(u128,Box<i128>)" => Some(printed::<(u128, Box<i128>)>(alloc, text)),
        "String" => Some(printed::<String>(alloc, text)),
        "&str" => Some(printed_lent(alloc, text)),
        "Box<str>" => Some(printed::<BoxedStr>(alloc, text)),
        "Option<()>" => Some(printed::<Option<()>>(alloc, text)),
        "Vec<Option<i64>>" => Some(printed::<Vec<Option<i64>>>(alloc, text)),
        "[(i32,i32);2]" => Some(printed::<[(i32, i32); 2]>(alloc, text)),
        "[u16;3]" => Some(printed::<[u16; 3]>(alloc, text)),
        "[u8;0]" => Some(printed::<[u8; 0]>(alloc, text)),
        "[u8;4096]" => Some(printed::<[u8; 4096]>(alloc, text)),
        "BTreeMap<String,i64>" => Some(printed::<BTreeMap<String, i64>>(alloc, text)),
        "BTreeSet<String>" => Some(printed::<BTreeSet<String>>(alloc, text)),
        _ => None,
    }
}

// The same of the type with this name.
fn printed_as(alloc: Global, name: &str, text: &str) -> Option<Result<String>> {
    match name {
        "Value" => Some(printed::<Value>(alloc, text)),
        "Value/unambiguous" => Some(printed_unambiguous(alloc, text)),
        "Address" => Some(printed::<Address>(alloc, text)),
        "Backup" => Some(printed::<Backup>(alloc, text)),
        "Folder" => Some(printed::<Folder>(alloc, text)),
        "Greeting" => Some(printed_greeting(alloc, text)),
        "Listen" => Some(printed::<Listen>(alloc, text)),
        "Ports" => Some(printed::<Ports>(alloc, text)),
        "Server" => Some(printed::<Server>(alloc, text)),
        "Timeouts" => Some(printed::<Timeouts>(alloc, text)),
        "Workers" => Some(printed::<Workers>(alloc, text)),
        _ => printed_as_standard(alloc, name, text),
    }
}

// Whether a printed text reads back as what prints the same. The only fault is want of memory.
fn comes_back(alloc: Global, name: &str, text: &str) -> Result<bool> {
    match printed_as(alloc, name, text) {
        Some(Ok(again)) => Ok(again.as_str() == text),
        Some(Err(fault)) => match fault.cause() {
            Cause::Memory => Err(Error::new(Cause::Memory)),
            _ => Ok(false),
        },
        None => Ok(false),
    }
}

// What is told of a printed text.
fn told_of_printed(
    alloc: Global,
    name: &str,
    text: String,
) -> std::result::Result<Told, AllocError> {
    match comes_back(alloc, name, text.as_str()) {
        Ok(true) => Ok(Told {
            ended: Status::Read,
            text,
        }),
        Ok(false) => refused(alloc, "another text comes back"),
        Err(fault) => told_of(alloc, Audience::Programs, Err(fault)),
    }
}

// What a text is read as under the type with this name.
fn read(alloc: Global, name: &str, text: &str) -> std::result::Result<Told, AllocError> {
    match printed_as(alloc, name, text) {
        Some(Ok(text)) => told_of_printed(alloc, name, text),
        Some(Err(fault)) => told_of(alloc, Audience::Programs, Err(fault)),
        None => refused(alloc, "bad type"),
    }
}

/// What the value prints that a text is read as, under the type with this name. It is refused where the printed text
/// does not read back as what prints the same.
pub fn read_as_type(
    alloc: Global,
    name: &str,
    text: &[u8],
) -> std::result::Result<Told, AllocError> {
    match str::from_utf8(text) {
        Ok(text) => read(alloc, name, text),
        Err(_) => refused(alloc, "bad text"),
    }
}

/// The same of the text that a line spells.
pub fn read_typed(
    alloc: Global,
    name: &str,
    lines: &[u8],
) -> std::result::Result<Told, AllocError> {
    match spelled(alloc, lines)? {
        Some(text) => read_as_type(alloc, name, text.as_slice()),
        None => refused(alloc, "bad text"),
    }
}
