//! Variants that are mappings of one entry.

use crate::enums::Figure;
use serde::{Deserialize, Serialize};
use yaml_with::{singleton_map, singleton_map_optional, singleton_map_recursive};

/// Variants with others in them.
#[derive(Drop, Serialize, Deserialize)]
pub enum Deed {
    Rest,
    Draw(Figure),
    Move { what: Figure, by: Option<u8> },
    Each(Vec<Figure>),
    Swap(Figure, Figure),
}

/// Variants that are mappings in one field, and have tags in another.
#[derive(Drop, Serialize, Deserialize)]
pub struct Drawing {
    #[serde(with = "singleton_map")]
    first: Deed,
    #[serde(default, with = "singleton_map_optional", skip_serializing_if = "Option::is_none")]
    next: Option<Figure>,
    #[serde(default, with = "singleton_map_recursive")]
    others: Vec<Deed>,
    #[serde(default)]
    tagged: Vec<Figure>,
}
