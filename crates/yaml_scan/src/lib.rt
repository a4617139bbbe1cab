//! YAML text to tokens, one after another, as libyaml sees them; and what may be wrong with a text.
#![tactic(auto)]

mod block;
mod byte;
mod candidate;
mod context;
mod cursor;
mod directive;
mod escape;
mod fault;
mod fold;
mod name;
mod plain;
mod problem;
mod quoted;
mod reader;
mod scanner;
mod start;
mod tag;
mod token;
mod tokens;
mod uri;

pub use context::Context;
pub use fault::{Fault, Finding, Stop};
pub use problem::Problem;
pub use start::{Scanned, scan, scan_behind};
pub use token::{Lead, MarkedStyle, Placed, Span, Token};
pub use tokens::Tokens;
