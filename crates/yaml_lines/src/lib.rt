//! Events and the parser's fault as lines of text, read and written, and data written as text.
#![tactic(auto)]

mod escape;
mod fault;
mod input;
pub mod laws;
mod line;
mod show_data;
mod write;

pub use escape::unescape;
pub use fault::{InputFault, LineFault};
pub use input::{Input, first_line};
pub use line::Line;
pub use show_data::show;
pub use write::{write_event, write_fault};
