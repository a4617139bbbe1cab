//! YAML text to the events of the layer above, as libyaml's parser makes them: of its tokens, one after another.
#![tactic(auto)]

mod block;
mod directives;
mod document;
mod events;
mod fault;
mod flow;
mod frame;
mod list;
mod machine;
mod node;
mod parser;
mod place;
mod plain;
mod properties;
mod queue;
mod reading;
mod stream;

pub use events::Events;
pub use list::{Parsed, parse};
pub use parser::{Ending, Parser, unread};
pub use place::{mark_at, mark_of_event};
