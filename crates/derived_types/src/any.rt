//! Types with parts of any kind.

use serde::{Deserialize, Serialize};
use yaml_value::{Mapping, Number, Rest, Value};

/// A part of any kind beside others, and one that may be left out.
#[derive(Drop, Serialize, Deserialize)]
#[serde(deny_unknown_fields)]
pub struct Parcel {
    name: String,
    given: Value,
    #[serde(default, skip_serializing_if = "Option::is_none")]
    more: Option<Value>,
}

/// A job of a workflow: what it knows, and the rest as it is.
#[derive(Drop, Serialize, Deserialize)]
#[serde(rename_all = "kebab-case")]
pub struct Task {
    runs_on: String,
    #[serde(default)]
    steps: Vec<Mapping>,
    #[serde(flatten)]
    rest: Rest,
}

/// A part of a mapping, the rest of which is also kept.
#[derive(Drop, Serialize, Deserialize)]
pub struct Spot {
    row: u8,
}

/// Two parts that share a mapping, one of any kind.
#[derive(Drop, Serialize, Deserialize)]
pub struct Sign {
    text: String,
    #[serde(flatten)]
    spot: Spot,
    #[serde(flatten)]
    rest: Rest,
}

/// A number of a known type, or anything.
#[derive(Drop, Serialize, Deserialize)]
#[serde(untagged)]
pub enum Either {
    Known(u8),
    Other(Value),
}

/// Variants with parts of any kind.
#[derive(Drop, Serialize, Deserialize)]
pub enum Choice {
    Any(Value),
    Pairs { pairs: Mapping, size: Number },
}
