//! Variants as mappings of one entry, `Exact: 80`, in place of tags, `!Exact 80`.
#![tactic(auto)]

mod format;
mod names;
mod reach;
mod serializer;
pub mod singleton_map;
pub mod singleton_map_optional;
pub mod singleton_map_recursive;
mod singletons;
mod steps;

pub use names::asks_for_variants;
pub use singletons::Singletons;
