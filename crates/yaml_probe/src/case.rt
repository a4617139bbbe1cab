//! The line that begins a case.

use crate::layer_task::LayerTask;
use probe_writing::{WritingTask, first_word, number};
use serde_yaml::Limits;
use std::str;
use yaml_shape::ShapeId;

/// What is asked of a case.
#[derive(Clone, Copy)]
pub enum Task<'a> {
    /// Its lines are events, to be read as this shape.
    Read(ShapeId),
    /// Its lines are events, of which each document is to be read in turn, as this shape.
    ReadInTurn(ShapeId),
    /// Its one line spells a YAML text, to be read as this shape.
    ReadText(ShapeId),
    /// The same, of whose documents each is to be read in turn, as this shape.
    ReadTextInTurn(ShapeId),
    /// Its one line spells a YAML text, to be read as the type with this name and printed again.
    Typed(&'a str),
    /// Its one line spells a YAML text, whose documents are to be handed out one at a time.
    HandOut,
    /// What its lines of events are read as, as this shape, is to be copied: any value, or a fault.
    Copy(ShapeId),
    /// Something is asked of the layers below a whole reading.
    Layer(LayerTask),
    /// Something is asked that needs no reader.
    Writing(WritingTask),
}

/// How much memory there is for what is asked of a case.
#[derive(Clone, Copy)]
pub enum Room {
    /// As much as it takes.
    Ample,
    /// Little, and a little more each time.
    Little,
    /// Nothing.
    Nothing,
}

/// A case, but for its lines.
#[derive(Drop)]
pub struct Case<'a> {
    /// The name that its answer has.
    pub id: &'a str,
    /// What is asked.
    pub task: Task<'a>,
    /// How much a document may ask of a reading.
    pub limits: Limits,
    /// Whether the line feed of its last line is to be left out.
    pub cut: bool,
    /// How much memory there is for what is asked.
    pub room: Room,
}

/// Whether a line begins a case.
pub fn is_case(line: &[u8]) -> bool {
    line.starts_with(b"@@ ")
}

// What is asked by a word with a number of a shape or the name of a type.
fn with_argument(word: &str) -> Option<Task<'_>> {
    let (kind, rest) = word.split_once(':')?;
    match kind {
        "shape" => Some(Task::Read(number(rest)?)),
        "documents" => Some(Task::ReadInTurn(number(rest)?)),
        "text" => Some(Task::ReadText(number(rest)?)),
        "texts" => Some(Task::ReadTextInTurn(number(rest)?)),
        "typed" => Some(Task::Typed(rest)),
        "copy" => Some(Task::Copy(number(rest)?)),
        _ => None,
    }
}

// What is asked by a word.
fn task_of(word: &str) -> Option<Task<'_>> {
    if word == "handed" {
        return Some(Task::HandOut);
    }
    if let Some(task) = WritingTask::parse(word) {
        return Some(Task::Writing(task));
    }
    if let Some(task) = LayerTask::parse(word) {
        return Some(Task::Layer(task));
    }
    with_argument(word)
}

/// The limits that two numbers give, with a comma between.
pub fn limits_of(text: &str) -> Option<Limits> {
    let (nesting, follows) = text.split_once(',')?;
    Limits::new(nesting.parse::<u8>().ok()?, follows.parse::<u16>().ok()?)
}

// How much memory a word says that there is.
fn room_of(word: &str) -> Option<Room> {
    match word {
        "budget" => Some(Room::Little),
        "free" => Some(Room::Nothing),
        _ => None,
    }
}

// Adds what one more word says of a case, and gives whether it says anything.
fn add(word: &str, limits: &mut Limits, cut: &mut bool, room: &mut Room) -> bool {
    if word == "nolf" {
        *cut = true;
        return true;
    }
    if let Some(given) = room_of(word) {
        *room = given;
        return true;
    }
    let Some(text) = word.strip_prefix("limits:") else {
        return false;
    };
    match limits_of(text) {
        Some(given) => {
            *limits = given;
            true
        }
        None => false,
    }
}

impl<'a> Case<'a> {
    /// The case that a line begins: `@@`, the case's name, what is asked, and words in any order. They are `nolf`, if
    /// the last line feed is to be left out, `limits:` with nestings and follows, if they are not the default ones, and
    /// `budget`, if there is to be little memory, or `free`, if there is to be none.
    pub fn parse(line: &'a [u8]) -> Option<Case<'a>> {
        let Ok(line) = str::from_utf8(line) else {
            return None;
        };
        let (id, rest) = first_word(line.strip_prefix("@@ ")?);
        let (word, flags) = first_word(rest);
        let task = task_of(word)?;
        let mut limits = Limits::DEFAULT;
        let mut cut = false;
        let mut room = Room::Ample;
        for flag in flags.split(' ') {
            if !flag.is_empty() && !add(flag, &mut limits, &mut cut, &mut room) {
                return None;
            }
        }
        Some(Case {
            id,
            task,
            limits,
            cut,
            room,
        })
    }
}
