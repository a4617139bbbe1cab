//! A value whose variants are mappings of one entry.

use crate::format::{read, read_owned};
use crate::reach::Reach;
use crate::serializer::write;
use serde::{
    Described, Deserialize, DeserializeOwned, Deserializer, Format, Serialize, Serializer,
};
use std::alloc::Global;

/// A value, each variant in which is read and written as a mapping of one entry: a whole text, or a part. A text in it
/// can't be lent from the source.
#[derive(Drop)]
pub struct Singletons<T>(pub T);

impl<'de, T: Deserialize<'de>> Deserialize<'de> for Singletons<T> {
    fn deserialize<F: Format>(
        alloc: Global,
        from: &mut Deserializer<'de, '_, F>,
    ) -> Result<Singletons<T>, F::Error> {
        Ok(Singletons(read(alloc, from, Reach::Everywhere)?))
    }
}

impl<T: DeserializeOwned> DeserializeOwned for Singletons<T> {
    fn deserialize_owned<F: Format>(
        alloc: Global,
        from: &mut Deserializer<'_, '_, F>,
    ) -> Result<Singletons<T>, F::Error> {
        Ok(Singletons(read_owned(alloc, from, Reach::Everywhere)?))
    }
}

impl<T: Described> Described for Singletons<T> {}

impl<T: Serialize> Serialize for Singletons<T> {
    fn serialize<S: Serializer>(&self, out: &mut S) -> Result<(), S::Error> {
        write(&self.0, out, Reach::Everywhere)
    }
}
