//! For a field of any type: each variant in it is a mapping of one entry.

use crate::format::read;
use crate::reach::Reach;
use crate::serializer::write;
use serde::{Deserialize, Deserializer, Format, Serialize, Serializer};
use std::alloc::Global;

/// Writes the value.
pub fn serialize<T: Serialize, S: Serializer>(value: &T, out: &mut S) -> Result<(), S::Error> {
    write(value, out, Reach::Everywhere)
}

/// Reads the value. A text in it can't be lent from the source.
pub fn deserialize<'de, T: Deserialize<'de>, F: Format>(
    alloc: Global,
    from: &mut Deserializer<'de, '_, F>,
) -> Result<T, F::Error> {
    read(alloc, from, Reach::Everywhere)
}
