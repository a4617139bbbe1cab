//! The same as `singleton_map`, which takes optional enums too.

pub use crate::singleton_map::{deserialize, serialize};
