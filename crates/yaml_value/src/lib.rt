//! Values of any kind, for people: what a YAML document or a part of one holds, with floats, integers of 128 bits and
//! tags, which is looked through, changed, read and written.
//!
//! Clauses go by plain values, as which `plain` sees each value. That no key stands twice in a mapping, and that each
//! stands in the chain of its hash, is an invariant of the type: it holds of each mapping, however it came to be, and
//! whatever was lent of it. So a key is found where it stands, however many pairs there are and of whatever kind it is.
//! Equality, paths and merging answer what their definitions say. No clause tells of what is read and written.
#![tactic(auto)]

mod index;
mod mapping;
mod number;
mod read;
mod rest;
mod sequence;
mod tag;
mod value;
mod write;

pub use mapping::{Entry, Mapping};
pub use number::Number;
pub use read::TAG_MARK;
pub use rest::{Anything, Rest, Shared};
pub use sequence::Sequence;
pub use tag::Tag;
pub use value::{TaggedValue, Value};
