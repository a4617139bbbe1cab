//! Arguments that were not gathered.

use crate::run::refuse;
use std::io::{self, ErrorKind};
use yaml_run::Status;

#[test]
fn arguments_that_were_not_gathered_are_told(rt: HostRuntime) {
    for (kind, output, status) in [
        (
            ErrorKind::OutOfMemory,
            "fault: out of memory\n",
            Status::Fault,
        ),
        (ErrorKind::InvalidData, "bad argument\n", Status::Refused),
    ] {
        let mut writer = Vec::new(rt.alloc());
        let ended = refuse(&io::Error::from(kind), &mut writer);
        assert_eq!(rt; writer.as_slice(), output.as_bytes());
        assert_eq!(rt; ended, status);
    }
}
