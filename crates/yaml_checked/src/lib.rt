//! The events of a YAML text that the direct parser takes, each checked against the text before it is handed out.
//!
//! Where documents stand in a text by the grammar, they are handed out, and no check refuses one (`TapeEvents`: `whole`,
//! `left`): that rests on what is proved of the direct parser's tape. What is proved of the parser by tokens holds of the
//! events of each text, since each is looked at: it follows the one before as a stream's may, its source stands in the
//! text, plain text in a line is what stands there, marks ascend, and their lines and columns are counted anew.
#![tactic(auto)]

mod allowed;
mod bookmark;
mod events;
mod given;
mod laws;
mod names;
mod nodes;
mod part;
mod place;
mod rest;
mod scalar;
mod source;
mod standing;

pub use allowed::parse_allowed;
pub use bookmark::Bookmark;
pub use events::TapeEvents;
pub use laws::{
    events_of_documents_are_a_stream, marks_that_stand_ascend, scalars_that_stand_say_their_source,
};
pub use place::Refusal;
pub use standing::stands;
