//! What is written reads back, from its events and from its own text: laws over `yaml_write` and `serde_yaml` together.
#![tactic(auto)]

pub mod again;
pub mod data_again;
mod fit;
pub mod held;
pub mod in_turn;
pub mod laws;
pub mod renderer;

pub use fit::{fits, value_fits};
