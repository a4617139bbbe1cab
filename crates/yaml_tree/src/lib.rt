//! Values: the trees that YAML documents stand for, whose mappings have distinct keys.
#![tactic(auto)]

mod fault;
mod index;
mod look_up;
mod mapping;
mod number;
mod quoted;
mod sequence;
mod tag;
mod value;

pub use fault::TreeFault;
pub use look_up::{Index, MappingIndex};
pub use mapping::{IntoIter, Iter, Mapping};
pub use number::Number;
pub use quoted::{Quoted, QuotedBytes, Visible, hex_digit};
pub use sequence::Sequence;
pub use tag::Tag;
pub use value::{TaggedValue, Value};
