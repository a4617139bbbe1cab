//! Values with their places.

use serde::{
    Described, Deserialize, DeserializeOwned, Deserializer, Format, Serialize, Serializer,
};
use std::alloc::Global;

/// A value, and where its node begins in the YAML text: that of an alias is the node for which it stands. It is written
/// as its value alone. Of a text in another format it can't be read.
#[derive(Drop)]
pub struct Spanned<T> {
    /// The value.
    pub value: T,
    /// The line, counted from 1.
    pub line: u64,
    /// The column, in characters, counted from 1.
    pub column: u64,
    /// The index in bytes, counted from 0.
    pub index: u64,
}

// Where a node begins.
#[derive(Clone, Copy)]
struct Place {
    line: u64,
    column: u64,
    index: u64,
}

impl Place {
    fn with<T>(self, value: T) -> Spanned<T> {
        Spanned {
            value,
            line: self.line,
            column: self.column,
            index: self.index,
        }
    }
}

// The number that eight bytes are, from a place on, the lowest first.
fn number_at(bytes: &[u8], at: usize) -> Option<u64> {
    let eight = bytes.get(at..)?.first_chunk::<8>()?;
    Some(u64::from_le_bytes(*eight))
}

// The place that bytes tell.
fn place_in(bytes: &[u8]) -> Option<Place> {
    Some(Place {
        line: number_at(bytes, 0)?,
        column: number_at(bytes, 8)?,
        index: number_at(bytes, 16)?,
    })
}

// The place of the next node. Bytes that are asked for where a map is begun tell it: no derive asks so.
fn place_of_next<F: Format>(
    alloc: Global,
    from: &mut Deserializer<'_, '_, F>,
) -> Result<Place, F::Error> {
    from.begin_map()?;
    let bytes = from.byte_buf(alloc)?;
    match place_in(bytes.as_slice()) {
        Some(place) => Ok(place),
        None => Err(from.custom("no place is told here")),
    }
}

impl<'de, T: Deserialize<'de>> Deserialize<'de> for Spanned<T> {
    fn deserialize<F: Format>(
        alloc: Global,
        from: &mut Deserializer<'de, '_, F>,
    ) -> Result<Spanned<T>, F::Error> {
        let place = place_of_next(alloc, from)?;
        Ok(place.with(T::deserialize(alloc, from)?))
    }
}

impl<T: DeserializeOwned> DeserializeOwned for Spanned<T> {
    fn deserialize_owned<F: Format>(
        alloc: Global,
        from: &mut Deserializer<'_, '_, F>,
    ) -> Result<Spanned<T>, F::Error> {
        let place = place_of_next(alloc, from)?;
        Ok(place.with(T::deserialize_owned(alloc, from)?))
    }
}

impl<T: Described> Described for Spanned<T> {
    ghost writes = { λ s. T.writes s.value };
}

impl<T: Serialize> Serialize for Spanned<T> {
    fn serialize<S: Serializer>(&self, out: &mut S) -> Result<(), S::Error> {
        self.value.serialize(out)
    }
}
