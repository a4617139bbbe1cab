//! The events of a text on a flat tape: an entry of 24 bytes for each, and no copy of what the source shows.
//!
//! An entry says where its event begins, which bytes are its text, and how it stands in the source. Texts that the
//! source does not show, such as those of escapes, lie one behind another in an arena. Anchors, tags and the names of
//! aliases, which few nodes have, lie in a list of their own. What a tape holds is, to all contracts, the list of its
//! events, each with its mark; what adds to a tape adds one event to that list.
#![tactic(auto)]

mod arena;
mod entry;
mod insert;
mod nodes;
mod tape;

pub use entry::{Entry, EntryKind, Names, Piece, Spot};
pub use tape::Tape;
