//! The rest of a map, for a field that is flattened.

use crate::mapping::Mapping;
use crate::read::fetch_mapping;
use serde::{Deserialize, DeserializeOwned, Deserializer, Format};
use std::alloc::Global;

/// No type of its own to be read as: the pairs are of any kind.
#[derive(Clone, Copy, Drop)]
pub struct Anything;

/// Pairs of a map that fields share.
#[derive(Drop, Deserialize)]
pub struct Shared<K> {
    /// The pairs.
    pub mapping: Mapping,
    kind: K,
}

/// What is left of a map that others share: a field of this type under `#[serde(flatten)]` takes each pair that no
/// other field takes.
pub type Rest = Shared<Anything>;

impl Shared<Anything> {
    /// These pairs.
    pub fn new(mapping: Mapping) -> Shared<Anything> {
        Shared {
            mapping,
            kind: Anything,
        }
    }
}

impl<'de> Deserialize<'de> for Shared<Anything> {
    fn deserialize<F: Format>(
        alloc: Global,
        from: &mut Deserializer<'de, '_, F>,
    ) -> Result<Shared<Anything>, F::Error> {
        Ok(Shared::new(fetch_mapping(alloc, from)?))
    }
}

impl DeserializeOwned for Shared<Anything> {
    fn deserialize_owned<F: Format>(
        alloc: Global,
        from: &mut Deserializer<'_, '_, F>,
    ) -> Result<Shared<Anything>, F::Error> {
        Ok(Shared::new(fetch_mapping(alloc, from)?))
    }
}
