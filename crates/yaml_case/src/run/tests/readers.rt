//! Readers that give one byte a call, that fail, that are interrupted and that are at their end.

use super::stream;
use crate::run::run;
use std::alloc::{AllocError, Global};
use std::io::{self, ErrorKind, Read};
use std::process::Abort;
use std::test::Fail;
use yaml_run::Status;

// A reader that gives one byte a call, and fails after so many calls. Each further error interrupts a call alone. It
// knows whether its end was told, and counts the calls behind it.
#[derive(Drop)]
struct SlowReader<'a> {
    rest: &'a [u8],
    calls: usize,
    interrupts: bool,
    ended: bool,
    late: u32,
}

impl<'a> SlowReader<'a> {
    // A reader of these bytes, which fails after so many calls.
    fn new(rest: &'a [u8], calls: usize, interrupts: bool) -> SlowReader<'a> {
        SlowReader {
            rest,
            calls,
            interrupts,
            ended: false,
            late: 0,
        }
    }
}

impl Read for SlowReader<'_> {
    fn read(&mut self, buffer: &mut [u8]) -> io::Result<usize> {
        if self.ended {
            self.late = self.late.saturating_add(1);
        }
        if self.calls == 0 {
            return Err(io::Error::from(ErrorKind::ConnectionReset));
        }
        self.calls -= 1;
        if self.interrupts && self.calls % 2 == 0 {
            return Err(io::Error::from(ErrorKind::Interrupted));
        }
        self.ended = self.rest.is_empty();
        let count = buffer.len().min(1);
        self.rest.read(&mut buffer[..count])
    }
}

// Runs the program on a reader, and compares what it writes and its status.
fn expect(
    rt: &(impl Abort + AllocGlobal),
    name: &str,
    reader: SlowReader<'_>,
    output: &str,
    status: Status,
) {
    let mut reader = reader;
    let calls = reader.calls;
    let mut writer = Vec::new(rt.alloc());
    let ended = run(rt.alloc(), name, &mut reader, &mut writer);
    assert_eq!(rt; ended, status, "{name} in {calls} calls");
    assert_eq!(rt;
        writer.as_slice(),
        output.as_bytes(),
        "{name} in {calls} calls"
    );
    assert_eq!(rt; reader.late, 0, "{name}: called behind the end");
}

#[test]
fn a_reader_that_fails_ends_the_run(rt: HostRuntime) -> Result<(), Fail> {
    let map = "0:0:0 +MAP\n0:0:0 =VAL :k\n3:0:3 =VAL :107\n7:1:0 -MAP\n";
    let good = stream(rt.alloc(), map)?;
    // A failed read comes before a bad line, wherever that is.
    for (text, output, status) in [
        (good.as_str(), "{\"k\": 107}\n", Status::Read),
        ("0:0:0 +SEQX\n0:0:0 +STR\n", "bad line 1\n", Status::Refused),
    ] {
        // One call for each byte, and one that finds the end.
        let reached = text.len() + 1;
        for calls in 0..=reached {
            let reader = SlowReader::new(text.as_bytes(), calls, false);
            if calls < reached {
                expect(&rt, "map", reader, "", Status::ReadFailed);
            } else {
                expect(&rt, "map", reader, output, status);
            }
        }
    }
    Ok(())
}

#[test]
fn a_reader_is_tried_again_and_not_called_behind_its_end(rt: HostRuntime) -> Result<(), Fail> {
    let text = stream(rt.alloc(), "0:0:0 =VAL :true\n")?;
    for (rest, interrupts, output, status) in [
        (text.as_str(), false, "true\n", Status::Read),
        (text.as_str(), true, "true\n", Status::Read),
        (
            "",
            false,
            "fault: event list is not a stream at event 0\n",
            Status::Fault,
        ),
        ("0:0:0 +SEQX\n", false, "bad line 1\n", Status::Refused),
    ] {
        let reader = SlowReader::new(rest.as_bytes(), usize::MAX, interrupts);
        expect(&rt, "bool", reader, output, status);
    }
    Ok(())
}

// The lines of a stream of `true`, made longer to so many bytes by its tag.
fn long_stream(alloc: Global, length: usize) -> Result<String, AllocError> {
    let mut text = String::from_str(alloc, "0:0:0 +STR\n0:0:0 +DOC\n0:0:0 =VAL <")?;
    let rest = "> :true\n0:0:0 -DOC\n0:0:0 -STR\n";
    for _ in 0..length.saturating_sub(text.len()).saturating_sub(rest.len()) {
        text.push('x')?;
    }
    text.push_str(rest)?;
    Ok(text)
}

#[test]
fn an_input_is_read_in_however_many_calls(rt: HostRuntime) -> Result<(), Fail> {
    for (length, interrupts) in [(1_048_576, false), (524_288, true)] {
        let text = long_stream(rt.alloc(), length)?;
        assert_eq!(rt; text.len(), length);
        let reader = SlowReader::new(text.as_bytes(), usize::MAX, interrupts);
        expect(&rt, "bool", reader, "true\n", Status::Read);
    }
    Ok(())
}
