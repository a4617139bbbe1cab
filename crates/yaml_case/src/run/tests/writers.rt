//! Writers that fail.

use super::stream;
use crate::run::run;
use std::io::{self, ErrorKind, Write};
use std::test::Fail;
use yaml_run::Status;

// A writer that takes one byte a call. It fails once, behind so many calls, and takes all bytes from then on.
#[derive(Drop)]
struct SlowWriter {
    written: Vec<u8>,
    calls: Option<usize>,
}

impl SlowWriter {
    // Counts a call, and fails where it is the one.
    fn count(&mut self) -> io::Result<()> {
        match self.calls {
            Some(0) => {
                self.calls = None;
                Err(io::Error::from(ErrorKind::BrokenPipe))
            }
            Some(left) => {
                self.calls = Some(left - 1);
                Ok(())
            }
            None => Ok(()),
        }
    }
}

impl Write for SlowWriter {
    fn write(&mut self, bytes: &[u8]) -> io::Result<usize> {
        self.count()?;
        let count = bytes.len().min(1);
        match self.written.extend_from_slice(&bytes[..count]) {
            Ok(()) => Ok(count),
            Err(_) => Err(io::Error::from(ErrorKind::OutOfMemory)),
        }
    }

    fn flush(&mut self) -> io::Result<()> {
        self.count()
    }
}

#[test]
fn a_writer_that_fails_gets_no_more(rt: HostRuntime) -> Result<(), Fail> {
    let text = stream(
        rt.alloc(),
        "0:0:0 +MAP\n0:0:0 =VAL :k\n3:0:3 =VAL :107\n7:1:0 -MAP\n",
    )?;
    let output = b"{\"k\": 107}\n";
    // One call for each byte, and one that flushes.
    let reached = output.len() + 1;
    for calls in 0..=reached {
        let mut reader = text.as_bytes();
        let mut writer = SlowWriter {
            written: Vec::new(rt.alloc()),
            calls: Some(calls),
        };
        let ended = run(rt.alloc(), "map", &mut reader, &mut writer);
        let status = if calls < reached {
            Status::WriteFailed
        } else {
            Status::Read
        };
        assert_eq!(rt; ended, status, "{calls}");
        let taken = calls.min(output.len());
        assert_eq!(rt; writer.written.as_slice(), &output[..taken], "{calls}");
    }
    Ok(())
}
