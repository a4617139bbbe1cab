//! Questions to values: their JSON text, and what a path leads to.
//!
//! The JSON of a value, and why there may be none, are definitions; so are the steps that the text of a path has, what
//! they lead to, and the text that steps are printed as, which is read as these steps. Each call equals them. A float's
//! text is known by what it is read back as.
#![tactic(auto)]

mod encode;
mod fault;
pub mod laws;
mod lookup;
mod name;
mod out;
mod parse;
mod reading;
mod step;
mod way;

pub use encode::{to_json, to_json_pretty};
pub use fault::{JsonFault, Reason};
pub use lookup::{find, get};
pub use parse::{PathFault, parse_path};
pub use step::{Path, Step};
pub use way::Steps;
