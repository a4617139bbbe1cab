//! The program: it reads YAML text and prints what is in it, as YAML text again, as a line or as events, or checks it.
#![tactic(auto)]

mod answer;
mod answered;
mod args;
mod asked;
mod bare;
mod characters;
mod complaint;
mod convert;
mod events;
mod files;
mod folder;
mod from_json;
mod json_text;
mod part;
mod question;
mod reply;
mod run;
mod task;
mod tell;
mod usage;

use args::{Color, Refusal, Request, Telling, requested};
use complaint::complain_of_words;
use files::{Order, run_all};
use std::env::{self, Env};
use std::io::{self, IsTerminal};
use std::process::ExitCode;
use tell::Manner;
use usage::{complain_of_path, show_usage};
use yaml_report::Look;
use yaml_run::{Status, Watched};

// The words of the call, the program's name first.
fn words(rt: &(impl Env + AllocGlobal)) -> io::Result<Vec<String>> {
    Ok(env::args(rt)?.collect(rt.alloc())?)
}

// Whether the one who calls wants no colors.
fn refuses_color(rt: &(impl Env + AllocGlobal)) -> bool {
    match env::var(rt, "NO_COLOR") {
        Ok(value) => !value.as_str().is_empty(),
        Err(_) => false,
    }
}

// Whether faults have colors: where that is asked, and else on a terminal, unless the environment refuses them.
fn look_of(rt: &HostRuntime, color: Color) -> Look {
    let colored = match color {
        Color::Always => true,
        Color::Never => false,
        Color::Auto => rt.stderr().is_terminal() && !refuses_color(rt),
    };
    if colored { Look::Colored } else { Look::Plain }
}

// How faults are told.
fn manner_of(rt: &HostRuntime, telling: Telling) -> Manner {
    match telling {
        Telling::Lines(color) => Manner::Lines(look_of(rt, color)),
        Telling::Records => Manner::Records,
    }
}

// Does what is asked.
fn perform(rt: &HostRuntime, request: Request<'_>) -> Status {
    let Request {
        task,
        telling,
        files,
    } = request;
    let mut writer = Watched::new(rt.stdout());
    let mut errors = rt.stderr();
    let order = Order {
        task,
        manner: manner_of(rt, telling),
    };
    run_all(rt, &order, files.as_slice(), &mut writer, &mut errors)
}

// Tells why the words of the call ask for nothing, or prints what they ask for of themselves.
fn tell_refusal(rt: &HostRuntime, refusal: &Refusal<'_>) -> Status {
    match refusal {
        Refusal::Words(error) => {
            show_usage(rt.alloc(), error, &mut rt.stdout(), &mut rt.stderr())
        }
        Refusal::Path(path, why) => complain_of_path(&mut rt.stderr(), path, *why),
    }
}

fn main(rt: HostRuntime) -> ExitCode {
    let status = match words(&rt) {
        Ok(words) => match requested(rt.alloc(), words.as_slice()) {
            Ok(request) => perform(&rt, request),
            Err(refusal) => tell_refusal(&rt, &refusal),
        },
        Err(why) => {
            let _told = complain_of_words(&mut rt.stderr(), &why);
            Status::Refused
        }
    };
    ExitCode::from(status.code())
}
