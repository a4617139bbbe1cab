//! The program. It reads rows, each the name of a type and a YAML text, and prints each row with its answer: what is
//! read of the text as that type, as it is written, or the fault.
#![tactic(auto)]

mod answer;
mod budget;
mod callers;
mod ends;
mod json;
mod merging;
mod named;
mod places;
mod readme;
mod row;
mod values;

use row::answered;
use std::alloc::Global;
use std::io::{self, Read, Write, read_to_string};
use std::process::ExitCode;

// Answers all rows of the input.
fn run<R: Read, W: Write>(alloc: Global, reader: &mut R, writer: &mut W) -> io::Result<()> {
    let rows = read_to_string(alloc, reader)?;
    for row in rows.as_str().lines() {
        let line = answered(alloc, row)?;
        writer.write_all(line.as_bytes())?;
    }
    writer.flush()
}

fn main(rt: HostRuntime) -> ExitCode {
    let mut reader = rt.stdin();
    let mut writer = rt.stdout();
    match run(rt.alloc(), &mut reader, &mut writer) {
        Ok(()) => ExitCode::SUCCESS,
        Err(_) => ExitCode::FAILURE,
    }
}
