//! The part of `yaml_probe` that needs no reader: its tables of shapes, its words for data, the cases that only write
//! or ask something of shapes, and memory that is used up. It stands apart, so that it is proved beside the reader.
#![tactic(auto)]

mod answers;
mod calls;
mod data_text;
mod emitting;
mod events;
mod fit;
mod outcome;
mod schemas;
mod shortage;
mod table;
mod task;
mod text;
mod writing;

pub use answers::{Prepared, answer, answer_prepared, prepare};
pub use events::escape;
pub use outcome::Outcome;
pub use schemas::told_of_table;
pub use shortage::Shortage;
pub use table::Table;
pub use task::WritingTask;
pub use text::{first_word, number, quote, until};
