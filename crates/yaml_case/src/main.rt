//! The program: it reads events, a line each, as data of a named shape, and prints what was read.
#![tactic(auto)]

mod answer;
mod limits;
mod reply;
mod run;

use run::{refuse, start};
use std::env::{self, Env};
use std::io;
use std::process::ExitCode;

// The arguments behind the program's name.
fn arguments(rt: &(impl Env + AllocGlobal)) -> io::Result<Vec<String>> {
    Ok(env::args(rt)?.skip(1).collect(rt.alloc())?)
}

fn main(rt: HostRuntime) -> ExitCode {
    let mut reader = rt.stdin();
    let mut writer = rt.stdout();
    let status = match arguments(&rt) {
        Ok(arguments) => start(rt.alloc(), arguments.as_slice(), &mut reader, &mut writer),
        Err(why) => refuse(&why, &mut writer),
    };
    ExitCode::from(status.code())
}
