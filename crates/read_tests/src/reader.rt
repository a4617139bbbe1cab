//! What a reader gives, read by a type.

use serde_yaml::{ReaderFault, from_reader};
use std::collections::BTreeMap;
use std::io::{self, ErrorKind, Read};
use std::process::Abort;

// A reader that fails at once.
#[derive(Drop)]
struct Broken;

impl Read for Broken {
    fn read(&mut self, _buffer: &mut [u8]) -> io::Result<usize> {
        Err(io::Error::from(ErrorKind::ConnectionReset))
    }
}

// What a text is read as, as a map of numbers; its fault's text, if it is refused.
fn ports(
    rt: &(impl Abort + AllocGlobal),
    text: &str,
) -> Result<BTreeMap<String, u16>, ReaderFault> {
    let mut reader = text.as_bytes();
    let found = from_reader(rt.alloc(), &mut reader);
    assert!(rt; reader.is_empty(), "{text}");
    found
}

#[test]
fn a_reader_is_read_to_its_end(rt: HostRuntime) {
    let found = ports(&rt, "web: &n 80\n'proxy': *n\n").expect(&rt, "ports");
    assert_eq!(rt; found.get("proxy"), Some(&80));
    assert_eq!(rt; found.len(), 2);
}

#[test]
fn the_fault_is_that_of_the_text(rt: HostRuntime) {
    for &(text, wanted) in &[
        (
            "web: x\n",
            "web: invalid type: string \"x\", expected u16 at line 1 column 6",
        ),
        (
            "web: 1\n---\n",
            "deserializing from YAML containing more than one document is not supported",
        ),
    ] {
        let fault = ports(&rt, text).expect_err(&rt, "no ports");
        assert!(rt; matches!(&fault, ReaderFault::Text(_)), "{text}");
        let told = fault.to_string(rt.alloc()).expect(&rt, "memory");
        assert_eq!(rt; told.as_str(), wanted);
    }
}

#[test]
fn or_that_of_the_reader(rt: HostRuntime) {
    let found: Result<Vec<u16>, ReaderFault> = from_reader(rt.alloc(), &mut Broken);
    let fault = found.expect_err(&rt, "no numbers");
    assert!(rt; matches!(&fault, ReaderFault::Reader(_)));
    let told = fault.to_string(rt.alloc()).expect(&rt, "memory");
    assert_eq!(rt; told.as_str(), "connection reset");
}

// What would have to be lent is refused, since nothing keeps the bytes.
#[test]
fn nothing_is_lent(rt: HostRuntime) {
    let mut reader = "web".as_bytes();
    let found: Result<&str, ReaderFault> = from_reader(rt.alloc(), &mut reader);
    let fault = found.expect_err(&rt, "a lent text");
    let told = fault.to_string(rt.alloc()).expect(&rt, "memory");
    assert_eq!(rt; told.as_str(), "expected a borrowed string");
}
