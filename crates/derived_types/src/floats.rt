//! Floats in structs and enums.

use serde::{Deserialize, Serialize};

/// A size that is exact or a range, of floats.
#[derive(Drop, Serialize, Deserialize)]
#[serde(rename_all = "lowercase")]
pub enum Size {
    Exact(f64),
    Range { low: f64, high: f64 },
    Any,
}

/// A struct of floats, alone, in an optional, in a list and in an enum.
#[derive(Drop, Serialize, Deserialize)]
pub struct Weather {
    wind: f64,
    #[serde(default)]
    rain: Option<f32>,
    #[serde(default)]
    hours: Vec<f64>,
    #[serde(default)]
    size: Option<Size>,
}
