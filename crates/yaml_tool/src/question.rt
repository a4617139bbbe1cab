//! What is asked of a document.

use yaml_query::Path;

/// How a part of a document is printed.
#[derive(Clone, Copy)]
pub enum Form {
    /// A scalar by its text, and anything else as YAML.
    Plain,
    /// As JSON, in a line.
    Json,
    /// As JSON, with a line for each item and member.
    PrettyJson,
}

/// A part of a document that is asked for.
#[derive(Drop)]
pub struct Question {
    /// The path to it.
    pub path: Path,
    /// How it is printed.
    pub form: Form,
}

impl Question {
    /// Whether it asks for the whole.
    pub fn is_whole(&self) -> bool {
        self.path.steps.is_empty()
    }
}
