//! Values of any kind, and what they are made of.

pub use yaml_tree::{Index, Mapping, Number, Sequence, Tag, TaggedValue, TreeFault, Value};
