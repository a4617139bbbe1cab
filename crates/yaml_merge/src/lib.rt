//! Merge keys: documents whose entries `<<` are made entries of the mapping around them.
#![tactic(auto)]

mod fault;
mod first;
mod keys;
pub mod laws;
mod merge;
mod nodes;
mod plan;
mod source;
mod writer;

pub use merge::{Merge, merged};
