//! Mappings of values, what they are asked by, and what goes over their pairs.

pub use yaml_tree::{IntoIter, Iter, Mapping, MappingIndex as Index};
