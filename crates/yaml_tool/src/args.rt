//! The words of the call.

use crate::question::{Form, Question};
use crate::task::Task;
use clap::builder::ValueParser;
use clap::{Arg, ArgAction, ArgMatches, Command, Error};
use serde_yaml::Limits;
use std::alloc::{AllocError, Global};
use yaml_query::{Path, PathFault, parse_path};

/// When faults have colors.
#[derive(Clone, Copy)]
pub enum Color {
    /// On a terminal.
    Auto,
    /// In each case.
    Always,
    /// Never.
    Never,
}

/// How faults are told.
#[derive(Clone, Copy)]
pub enum Telling {
    /// In lines for people.
    Lines(Color),
    /// As JSON for programs, a line each.
    Records,
}

/// What the words ask for.
#[derive(Drop)]
pub struct Request<'a> {
    /// What is asked.
    pub task: Task,
    /// How faults are told.
    pub telling: Telling,
    /// The files that it is asked of; standard input where there are none.
    pub files: Vec<&'a str>,
}

/// Why the words of a call ask for nothing.
#[derive(Drop)]
pub enum Refusal<'a> {
    /// They ask for help or for the version, or one of them is wrong.
    Words(Error),
    /// This one is no path.
    Path(&'a str, PathFault),
}

impl From<Error> for Refusal<'_> {
    fn from(error: Error) -> Self {
        Refusal::Words(error)
    }
}

impl From<AllocError> for Refusal<'_> {
    fn from(refused: AllocError) -> Self {
        Refusal::Words(refused.into())
    }
}

const ABOUT: &str = "Reads YAML, tells what is wrong with it, and prints what is in it";

const PATHS: &str = "Paths:
  servers[1].port        the port of the second server: keys, and places counted from 0
  labels.\"app.name\"      a key with a dot, a bracket or a quote in it stands in quotes
  .                      the whole";

const EXAMPLES: &str = "Examples:
  yaml check .                    each fault of the YAML files here and below
  yaml get 'servers[0].port' config.yaml
                                  a part of a file
  yaml json config.yaml           the data of a file, as JSON
  yaml from-json data.json        JSON as YAML

Without a FILE, or for -, standard input is read. What is asked is printed on standard
output, and faults on standard error. The status is 0, or 1 where a text has a fault, or 2
where something can't be read or written, or the words are wrong.";

const COLORS: &[&str] = &["auto", "always", "never"];

const FORMATS: &[&str] = &["text", "json"];

// The files that a command is asked of.
fn files<'a>(alloc: Global) -> Arg<'a> {
    Arg::new(alloc, "file")
        .value_name("FILE")
        .num_args(0..)
        .action(ArgAction::Append)
        .help(
            "The files to read, in turn: folders with all YAML files below them, and - for standard input",
        )
}

// The one file that a command is asked of.
fn one_file<'a>(alloc: Global, help: &'a str) -> Arg<'a> {
    Arg::new(alloc, "file").value_name("FILE").help(help)
}

// How deep documents may be nested.
fn nesting<'a>(alloc: Global) -> Arg<'a> {
    Arg::new(alloc, "nesting")
        .long("nesting")
        .value_name("N")
        .value_parser(ValueParser::unsigned(0, 255))
        .default_value("128")
        .help("How deep a document may be nested, at most 255")
}

// How many aliases may be followed.
fn follows<'a>(alloc: Global) -> Arg<'a> {
    Arg::new(alloc, "follows")
        .long("follows")
        .value_name("F")
        .value_parser(ValueParser::unsigned(0, 1000))
        .default_value("100")
        .help("How many aliases may be followed for each event, at most 1000")
}

// A word that is there or not.
fn flag<'a>(alloc: Global, name: &'a str, help: &'a str) -> Arg<'a> {
    Arg::new(alloc, name)
        .long(name)
        .action(ArgAction::SetTrue)
        .help(help)
}

// A command, with how its faults are told.
fn with_telling<'a>(alloc: Global, command: Command<'a>) -> Result<Command<'a>, AllocError> {
    command
        .arg(
            Arg::new(alloc, "format")
                .long("format")
                .value_name("FORMAT")
                .value_parser(FORMATS)
                .default_value("text")
                .help("How faults are told: for people, or as lines of JSON for editors"),
        )?
        .arg(
            Arg::new(alloc, "color")
                .long("color")
                .value_name("WHEN")
                .value_parser(COLORS)
                .default_value("auto")
                .help("When faults have colors; by auto on a terminal, unless NO_COLOR is set"),
        )
}

// The command that tells faults.
fn check<'a>(alloc: Global) -> Result<Command<'a>, AllocError> {
    let command = Command::new(alloc, "check").about(
        "Tells each fault of files: what is no YAML, keys that stand twice, unknown anchors",
    );
    with_telling(alloc, command)?.arg(files(alloc))
}

// The command that shows data.
fn show<'a>(alloc: Global) -> Result<Command<'a>, AllocError> {
    let command = Command::new(alloc, "show")
        .about("Prints the data of the one document in a line that keeps bytes and tags apart")
        .arg(flag(
            alloc,
            "documents",
            "Prints the data of each document, a line each",
        ))?
        .arg(nesting(alloc))?
        .arg(follows(alloc))?;
    with_telling(alloc, command)?.arg(files(alloc))
}

// The command that prints JSON.
fn json<'a>(alloc: Global) -> Result<Command<'a>, AllocError> {
    let command = Command::new(alloc, "json")
        .about("Prints the one document of each file as JSON, in a line")
        .arg(flag(alloc, "pretty", "Prints a line for each item and member"))?
        .arg(flag(
            alloc,
            "documents",
            "Prints each document of a file, one below the other",
        ))?;
    with_telling(alloc, command)?.arg(files(alloc))
}

// The command that prints a part of a document.
fn get<'a>(alloc: Global) -> Result<Command<'a>, AllocError> {
    let command = Command::new(alloc, "get")
        .about("Prints a part of the one document: a scalar by its text, anything else as YAML")
        .after_help(PATHS)
        .arg(
            Arg::new(alloc, "path")
                .value_name("PATH")
                .required(true)
                .help("The path to the part, as servers[1].port"),
        )?
        .arg(flag(alloc, "json", "Prints the part as JSON, in a line"))?
        .arg(flag(
            alloc,
            "documents",
            "Prints the part of each document, one below the other",
        ))?;
    with_telling(alloc, command)?.arg(files(alloc))
}

// The command that prints the YAML of JSON.
fn from_json<'a>(alloc: Global) -> Result<Command<'a>, AllocError> {
    let command = Command::new(alloc, "from-json").about(
        "Prints JSON as YAML, with quotes where other readers of YAML need them",
    );
    with_telling(alloc, command)?.arg(one_file(
        alloc,
        "The file with JSON to read; standard input where none is named",
    ))
}

// The command that prints documents as YAML text. It is also called by the name that a command which keeps comments is
// to have.
fn convert<'a>(alloc: Global) -> Result<Command<'a>, AllocError> {
    let command = Command::new(alloc, "convert")
        .visible_alias("format")?
        .about(
            "Prints the data of the documents as YAML: without comments, anchors, styles and core tags",
        )
        .arg(nesting(alloc))?
        .arg(follows(alloc))?;
    with_telling(alloc, command)?.arg(one_file(
        alloc,
        "The file to read; standard input where none is named",
    ))
}

// The command that prints events.
fn events<'a>(alloc: Global) -> Result<Command<'a>, AllocError> {
    let command = Command::new(alloc, "events")
        .about("Prints the events of the parser, a line each, and its fault")
        .arg(flag(
            alloc,
            "full",
            "Also prints where each scalar ends, and the context of a fault",
        ))?;
    with_telling(alloc, command)?.arg(files(alloc))
}

// The program.
fn program<'a>(alloc: Global) -> Result<Command<'a>, AllocError> {
    Command::new(alloc, "yaml")
        .bin_name("yaml")?
        .version("0.1.0")
        .about(ABOUT)
        .after_help(EXAMPLES)
        .subcommand_required(true)
        .subcommand(check(alloc)?)?
        .subcommand(get(alloc)?)?
        .subcommand(json(alloc)?)?
        .subcommand(from_json(alloc)?)?
        .subcommand(convert(alloc)?)?
        .subcommand(show(alloc)?)?
        .subcommand(events(alloc)?)
}

// The files that were named.
fn files_of<'a>(alloc: Global, matches: &ArgMatches<'a>) -> Result<Vec<&'a str>, AllocError> {
    match matches.get_strs("file") {
        Some(files) => Vec::from_slice(alloc, files),
        None => Ok(Vec::new(alloc)),
    }
}

// The limits that were named. The parser of the words lets no others pass.
fn limits_of(matches: &ArgMatches<'_>) -> Limits {
    let nesting = matches.get_one::<u8>("nesting").unwrap_or(128);
    let follows = matches.get_one::<u16>("follows").unwrap_or(100);
    Limits::new(nesting, follows).unwrap_or(Limits::DEFAULT)
}

fn color_of(matches: &ArgMatches<'_>) -> Color {
    match matches.get_str("color") {
        Some("always") => Color::Always,
        Some("never") => Color::Never,
        _ => Color::Auto,
    }
}

fn telling_of(matches: &ArgMatches<'_>) -> Telling {
    match matches.get_str("format") {
        Some("json") => Telling::Records,
        _ => Telling::Lines(color_of(matches)),
    }
}

// A question about the one document, or about each.
fn asking(matches: &ArgMatches<'_>, question: Question) -> Task {
    if matches.get_flag("documents") {
        Task::AskEach(question)
    } else {
        Task::Ask(question)
    }
}

// What `json` asks.
fn json_task(alloc: Global, matches: &ArgMatches<'_>) -> Task {
    let path = Path {
        steps: Vec::new(alloc),
    };
    let form = if matches.get_flag("pretty") {
        Form::PrettyJson
    } else {
        Form::Json
    };
    asking(matches, Question { path, form })
}

// What `get` asks.
fn get_task<'a>(alloc: Global, matches: &ArgMatches<'a>) -> Result<Task, Refusal<'a>> {
    let word = matches.get_str("path").unwrap_or(".");
    let path = match parse_path(alloc, word) {
        Ok(path) => path,
        Err(why) => return Err(Refusal::Path(word, why)),
    };
    let form = if matches.get_flag("json") {
        Form::Json
    } else {
        Form::Plain
    };
    Ok(asking(matches, Question { path, form }))
}

// What is asked by the command with this name.
fn task_of<'a>(alloc: Global, name: &str, matches: &ArgMatches<'a>) -> Result<Task, Refusal<'a>> {
    match name {
        "get" => get_task(alloc, matches),
        "json" => Ok(json_task(alloc, matches)),
        "from-json" => Ok(Task::FromJson),
        _ => Ok(older_task_of(name, matches)),
    }
}

// The same of the commands that need no memory to ask.
fn older_task_of(name: &str, matches: &ArgMatches<'_>) -> Task {
    match name {
        "show" if matches.get_flag("documents") => Task::ShowEach(limits_of(matches)),
        "show" => Task::Show(limits_of(matches)),
        "convert" => Task::Convert(limits_of(matches)),
        "check" => Task::Check,
        _ if matches.get_flag("full") => Task::FullEvents,
        _ => Task::Events,
    }
}

/// What the words of a call ask for, of which the first is the program's name. An error is help, the version, or what
/// is wrong with a word.
pub fn requested<'a>(alloc: Global, words: &'a [String]) -> Result<Request<'a>, Refusal<'a>> {
    let matches = program(alloc)?.try_get_matches_from(words)?;
    let Some((name, matches)) = matches.subcommand() else {
        return Ok(Request {
            task: Task::Check,
            telling: Telling::Lines(Color::Auto),
            files: Vec::new(alloc),
        });
    };
    Ok(Request {
        task: task_of(alloc, name, matches)?,
        telling: telling_of(matches),
        files: files_of(alloc, matches)?,
    })
}
