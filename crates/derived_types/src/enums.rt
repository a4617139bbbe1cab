//! Enums.

use serde::{Deserialize, Serialize};

/// Variants that are named by local tags.
#[derive(Drop, Serialize, Deserialize)]
pub enum Figure {
    Dot,
    Circle { r: u8 },
    Line(i8, i8),
    Label(String),
    #[serde(rename = "none", alias = "nothing")]
    Nothing,
}

/// Variants that are named by a field beside their own.
#[derive(Drop, Serialize, Deserialize)]
#[serde(tag = "kind", rename_all = "snake_case")]
pub enum Command {
    Stop,
    GoTo { line: u8 },
    #[serde(other)]
    Unknown,
}

/// Variants that are named by a field beside their content.
#[derive(Drop, Serialize, Deserialize)]
#[serde(tag = "t", content = "c")]
pub enum Step {
    Stay,
    Go(i8),
    Jump { over: u8 },
}

/// Variants without names.
#[derive(Drop, Serialize, Deserialize)]
#[serde(untagged)]
pub enum Scalar {
    Flag(bool),
    Number(i64),
    Text(String),
    List(Vec<u8>),
    Pair { left: u8, right: u8 },
}
