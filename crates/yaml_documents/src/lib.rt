//! The documents of a YAML text: all at once, loaded as the text is parsed, or one by one, a batch of them parsed and
//! loaded when its first is asked for.
//!
//! Where documents stand in a text by the grammar, and it has fewer than 2^32 bytes, its events are exactly theirs, and
//! it has no fault (`specs/TextEvents.antt`).
#![tactic(auto)]

mod ahead;
mod batch;
mod direct;
mod events;
mod filling;
mod input;
mod pending;
mod reader;
mod source;
mod taped;
mod whole;

pub use events::events_of_text;
pub use input::{ReaderFault, read_bytes};
pub use reader::DocumentReader;
pub use whole::{load, load_by_tokens, load_tape};
