//! Runs on inputs with names, one behind the other. Why one failed is told on standard error.

ghost use Rattle.std.specs.Prelude.{◌≡◌, ◌∷◌, [], ◌++◌, codes, OnOk};
ghost use Rattle.std.specs.Io.KnownBytes.{Appends};
ghost use Rattle.yaml_base.specs.Quoted.{visible};

use crate::complaint::{complain, complain_of_output};
use crate::folder::{files_below, is_folder};
use crate::run::{Ran, run};
use crate::task::Task;
use crate::tell::{Manner, tell};
use std::alloc::Global;
use std::io::{ErrorKind, Read, Write};
use std::rt::Files;
use std::{fs, io};
use yaml_base::Visible;
use yaml_run::{Status, Watched};

/// The word for standard input, and the name by which it is told of.
const INPUT_WORD: &str = "-";

const INPUT_NAME: &str = "standard input";

/// What is asked of inputs, and how faults are told.
#[derive(Drop)]
pub struct Order {
    /// What is asked.
    pub task: Task,
    /// How faults are told.
    pub manner: Manner,
}

/// How runs ended, one behind the other.
#[derive(Clone, Copy)]
pub struct Tally {
    /// The worst status.
    pub ended: Status,
    /// How many inputs there were.
    pub inputs: u64,
    /// How many of them have faults.
    pub faulty: u64,
}

impl Tally {
    /// That of no run.
    pub fn new() -> Tally {
        Tally {
            ended: Status::Read,
            inputs: 0,
            faulty: 0,
        }
    }

    // With one more, which ended so and has faults or none.
    fn count(&mut self, ended: Status, has_faults: bool) {
        self.ended = self.ended.and(ended);
        self.inputs = self.inputs.saturating_add(1);
        if has_faults {
            self.faulty = self.faulty.saturating_add(1);
        }
    }
}

// Why a run failed: by its reader or its writer, of which neither tells where the other one failed.
fn cause_of<I, W>(ended: Status, reader: &Watched<I>, writer: &Watched<W>) -> io::Error {
    let cause = match ended {
        Status::ReadFailed => reader.failure(),
        _ => writer.failure(),
    };
    cause.unwrap_or(io::Error::from(ErrorKind::WriteZero))
}

// Tells the faults that a run leaves. What standard error does not take can be told nowhere.
fn tell_faults<E: Write>(alloc: Global, order: &Order, name: &str, ran: &Ran, errors: &mut E) {
    if let Some(input) = &ran.input {
        let input = input.as_slice();
        let _told = tell(
            alloc,
            errors,
            order.manner,
            name,
            input,
            ran.faults.as_slice(),
        );
    }
}

// Runs on an input with this name. Why it was not read, or its output not written, and its faults are told on standard
// error.
fn run_input<I: Read + Drop, W: Write, E: Write>(
    alloc: Global,
    order: &Order,
    name: &str,
    input: I,
    tally: &mut Tally,
    writer: &mut Watched<W>,
    errors: &mut E,
) {
    let mut reader = Watched::new(input);
    let ran = run(alloc, &order.task, &mut reader, writer);
    let why = cause_of(ran.ended, &reader, writer);
    let _told = complain(alloc, errors, name, ran.ended, &why);
    tell_faults(alloc, order, name, &ran, errors);
    tally.count(ran.ended, !ran.faults.is_empty());
}

// Runs on standard input.
fn run_standard<W: Write, E: Write>(
    rt: &HostRuntime,
    order: &Order,
    tally: &mut Tally,
    writer: &mut Watched<W>,
    errors: &mut E,
) {
    let (alloc, input) = (rt.alloc(), rt.stdin());
    run_input(alloc, order, INPUT_NAME, input, tally, writer, errors);
}

// Runs on a file with this name. One that can't be opened counts as one that can't be read.
fn run_file<W: Write, E: Write>(
    rt: &HostRuntime,
    order: &Order,
    name: &str,
    tally: &mut Tally,
    writer: &mut Watched<W>,
    errors: &mut E,
) {
    match fs::open(rt, name) {
        Ok(file) => run_input(rt.alloc(), order, name, file, tally, writer, errors),
        Err(why) => {
            let _told = complain(rt.alloc(), errors, name, Status::ReadFailed, &why);
            tally.count(Status::ReadFailed, false);
        }
    }
}

// Writes the line that names a file, before what is printed of it.
fn write_name<W: Write>(name: &str, writer: &mut W) -> io::Result<()>
    ensures { OnOk result (Appends (W.contents writer.old) (W.contents writer.new)
        (codes "@@ " ++ (visible name.now ++ 10 ∷ []))) }
{
    let name = Visible(name);
    writeln!(writer, "@@ {name}")
}

// Runs on a file with this name, or on standard input, behind a line with its name if that is wanted.
fn run_named<W: Write, E: Write>(
    rt: &HostRuntime,
    order: &Order,
    name: &str,
    titled: bool,
    tally: &mut Tally,
    writer: &mut Watched<W>,
    errors: &mut E,
) {
    if titled {
        if let Err(why) = write_name(name, writer) {
            let _told = complain(rt.alloc(), errors, name, Status::WriteFailed, &why);
            tally.count(Status::WriteFailed, false);
            return;
        }
    }
    if name == INPUT_WORD {
        run_standard(rt, order, tally, writer, errors);
    } else {
        run_file(rt, order, name, tally, writer, errors);
    }
}

// Runs on each YAML file of a folder. One that can't be looked at counts as a file that can't be read.
fn run_folder<W: Write, E: Write>(
    rt: &HostRuntime,
    order: &Order,
    name: &str,
    tally: &mut Tally,
    writer: &mut Watched<W>,
    errors: &mut E,
) {
    match files_below(rt, name) {
        Ok(names) => {
            for name in names.iter() {
                if tally.ended == Status::WriteFailed {
                    return;
                }
                let titled = order.task.is_titled();
                run_named(rt, order, name.as_str(), titled, tally, writer, errors);
            }
        }
        Err(why) => {
            let _told = complain(rt.alloc(), errors, name, Status::ReadFailed, &why);
            tally.count(Status::ReadFailed, false);
        }
    }
}

// Writes how many files were checked, and how many of them have faults.
fn write_tally<W: Write>(tally: &Tally, writer: &mut W) -> io::Result<()> {
    let (inputs, faulty) = (tally.inputs, tally.faulty);
    writeln!(writer, "{inputs} files checked, {faulty} with faults")?;
    writer.flush()
}

// Runs on each file, on those of each folder, and on standard input for `-`.
fn run_each<W: Write, E: Write>(
    rt: &HostRuntime,
    order: &Order,
    names: &[&str],
    tally: &mut Tally,
    writer: &mut Watched<W>,
    errors: &mut E,
) {
    let titled = order.task.is_titled() && names.len() > 1;
    for name in names {
        if tally.ended == Status::WriteFailed {
            return;
        }
        if is_folder(rt, name) {
            run_folder(rt, order, name, tally, writer, errors);
        } else {
            run_named(rt, order, name, titled, tally, writer, errors);
        }
    }
}

/// Runs on each file, and gives the worst status of them; on standard input where none is named, and for `-`. Of a
/// folder each YAML file in it and below it is one. Where there are several, a line with its name stands before what
/// is printed of each, if the task asks for that, and behind all that were checked how many have faults. Why a file was
/// not read is told on standard error, and the others are read all the same.
pub fn run_all<W: Write, E: Write>(
    rt: &HostRuntime,
    order: &Order,
    names: &[&str],
    writer: &mut Watched<W>,
    errors: &mut E,
) -> Status {
    let mut tally = Tally::new();
    if names.is_empty() {
        run_standard(rt, order, &mut tally, writer, errors);
        return tally.ended;
    }
    run_each(rt, order, names, &mut tally, writer, errors);
    if matches!(order.task, Task::Check) && tally.inputs > 1 && tally.ended != Status::WriteFailed {
        if let Err(why) = write_tally(&tally, writer) {
            let _told = complain_of_output(rt.alloc(), errors, &why);
            return Status::WriteFailed;
        }
    }
    tally.ended
}
