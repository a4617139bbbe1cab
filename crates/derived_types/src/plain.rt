//! Structs without names for their fields.

use serde::{Deserialize, Serialize};

/// A struct around one value.
#[derive(Drop, Serialize, Deserialize)]
pub struct Metres(u32);

/// A struct of nothing.
#[derive(Drop, Serialize, Deserialize)]
pub struct Nothing;

/// A struct of two values.
#[derive(Drop, Serialize, Deserialize)]
pub struct Pair(i8, u16);

/// The ends of a range, of any type.
#[derive(Drop, Serialize, Deserialize)]
pub struct Ends<T> {
    from: T,
    to: T,
}

/// A number that is refused where it is too large.
#[derive(Clone, Copy, Serialize, Deserialize)]
#[serde(try_from = "u8", into = "u8")]
pub struct Percent(u8);

impl TryFrom<u8> for Percent {
    type Error = &'static str;

    fn try_from(number: u8) -> Result<Percent, &'static str> {
        if number > 100 {
            return Err("more than all");
        }
        Ok(Percent(number))
    }
}

impl From<Percent> for u8 {
    fn from(percent: Percent) -> u8 {
        percent.0
    }
}
