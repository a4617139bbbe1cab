//! The program: it reads tables of shapes with cases of each, and prints a line for each case: what its lines are read
//! as, or what its data is written as.
#![tactic(auto)]

mod answer;
mod batch;
mod case;
mod layer_task;
mod print;
mod reply;
mod run;
mod status;

use run::run;
use std::process::ExitCode;

fn main(rt: HostRuntime) -> ExitCode {
    let mut reader = rt.stdin();
    let mut writer = rt.stdout();
    let status = run(rt.alloc(), &mut reader, &mut writer);
    ExitCode::from(status.code())
}
