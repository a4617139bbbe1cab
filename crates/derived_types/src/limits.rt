//! Types for the limits of a reading.

use serde::{Deserialize, Serialize};

/// A sequence of its kind.
#[derive(Drop, Serialize, Deserialize)]
#[serde(recursive, transparent)]
pub struct Nest {
    #[serde(recursive)]
    inner: Vec<Nest>,
}

/// A field that is read and not written.
#[derive(Drop, Serialize, Deserialize)]
pub struct Passed {
    #[serde(skip_serializing)]
    nest: Nest,
}
