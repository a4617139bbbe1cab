//! What may be asked of a text.

use crate::question::Question;
use serde_yaml::Limits;

/// What is asked of a text.
#[derive(Drop)]
pub enum Task {
    /// The data of its one document, as a value of any kind within limits: a line.
    Show(Limits),
    /// The data of each of its documents, so read: a line each.
    ShowEach(Limits),
    /// Its documents printed as YAML text, each read as a value of any kind within limits.
    Convert(Limits),
    /// A part of its one document.
    Ask(Question),
    /// That part of each of its documents.
    AskEach(Question),
    /// The YAML of the JSON that it is.
    FromJson,
    /// Its events, a line each, and the parser's fault.
    Events,
    /// The same, with the slice of each scalar and the context of the fault.
    FullEvents,
    /// All its faults that need no type to tell.
    Check,
}

impl Task {
    /// Whether what is printed of each of several files stands behind a line with its name.
    pub fn is_titled(&self) -> bool {
        match self {
            Task::Show(_) | Task::ShowEach(_) | Task::Events | Task::FullEvents => true,
            Task::Ask(question) | Task::AskEach(question) => !question.is_whole(),
            Task::Convert(_) | Task::FromJson | Task::Check => false,
        }
    }
}
