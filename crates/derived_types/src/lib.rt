//! Types with the derives of the crate `serde`, each for some of their attributes.
#![tactic(auto)]

pub mod any;
pub mod enums;
pub mod floats;
pub mod holders;
pub mod limits;
pub mod plain;
pub mod structs;
pub mod variants;
