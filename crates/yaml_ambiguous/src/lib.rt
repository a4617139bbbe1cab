//! Texts that other readers take for something else, and how they are kept from it.
//!
//! Here a plain text is read by the words and numbers of YAML 1.2, and a text that would be read as one of them is
//! written between quotes. Readers of YAML 1.1 have more: `yes` is a boolean there, `12:30` a number, and some know
//! dates, times and symbols. What is to be read by them too has such texts between quotes.
#![tactic(auto)]

mod events;
mod text;

pub use events::{quote_ambiguous, quoted_events_are_rendered_so};
pub use text::is_ambiguous;
