//! Structs with names for their fields.

use serde::{Deserialize, Deserializer, Format, Serialize, Serializer};
use std::alloc::Global;
use std::borrow::CowStr;

/// A text that is borrowed where it can be.
#[derive(Drop, Serialize, Deserialize)]
pub struct Note<'a> {
    text: CowStr<'a>,
}

fn eighty() -> u16 {
    80
}

/// Fields with names, defaults and a form of their own.
#[derive(Drop, Serialize, Deserialize)]
#[serde(rename_all = "kebab-case")]
pub struct Setting {
    #[serde(rename = "on", alias = "enabled")]
    is_on: bool,
    #[serde(default = "eighty")]
    port: u16,
    #[serde(with = "hexadecimal")]
    back_colour: u32,
    #[serde(skip)]
    seen: bool,
}

mod hexadecimal {
    use super::*;

    pub fn serialize<S: Serializer>(number: &u32, out: &mut S) -> Result<(), S::Error> {
        out.collect_str(&format_args!("{number:06x}"))
    }

    pub fn deserialize<F: Format>(
        alloc: Global,
        from: &mut Deserializer<'_, '_, F>,
    ) -> Result<u32, F::Error> {
        let text = CowStr::deserialize(alloc, from)?;
        match u32::from_str_radix(text.as_str(), 16) {
            Ok(number) => Ok(number),
            Err(_) => Err(from.custom("no hexadecimal number")),
        }
    }
}

/// Fields that may all be left out.
#[derive(Drop, Default, Serialize, Deserialize)]
#[serde(default, rename_all = "SCREAMING_SNAKE_CASE")]
pub struct Window {
    full_width: u16,
    height: u16,
}

/// A part of a mapping.
#[derive(Drop, Serialize, Deserialize)]
pub struct Place {
    row: u16,
    column: u16,
}

/// A struct with the fields of another among its own.
#[derive(Drop, Serialize, Deserialize)]
pub struct Mark {
    name: String,
    #[serde(flatten)]
    place: Place,
}
