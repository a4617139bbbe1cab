//! YAML text laid out anew, with all that it says, its comments and its styles kept.
//!
//! What is laid out is read again by the parser before it is given out: its events are those of the text but for where
//! they stand, and its comments are those of the text in their order (`specs/LaidOut.antt`). Whatever would not be kept
//! is refused, so nothing has to be known of how a text is laid out.
#![tactic(auto)]

mod checked;
mod comments;
mod compare;
mod fault;
mod layout;
mod options;

pub use checked::{format, format_slice};
pub use fault::{LayoutFault, Reason};
pub use options::Options;
