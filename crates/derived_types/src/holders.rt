//! Types around others: a form of one's own for a type of std, and a type that holds its kind.

use serde::{Deserialize, Deserializer, Format, Serialize, Serializer};
use std::alloc::Global;
use std::borrow::CowStr;
use std::time::Duration;

/// A time, as a text of milliseconds.
#[derive(Drop, Serialize, Deserialize)]
pub struct Timeout(#[serde(with = "milliseconds")] Duration);

mod milliseconds {
    use super::*;

    pub fn serialize<S: Serializer>(time: &Duration, out: &mut S) -> Result<(), S::Error> {
        let milliseconds = time.as_millis();
        out.collect_str(&format_args!("{milliseconds}ms"))
    }

    fn of_text(text: &str) -> Option<Duration> {
        match text.strip_suffix("ms")?.parse::<u64>() {
            Ok(milliseconds) => Some(Duration::from_millis(milliseconds)),
            Err(_) => None,
        }
    }

    pub fn deserialize<F: Format>(
        alloc: Global,
        from: &mut Deserializer<'_, '_, F>,
    ) -> Result<Duration, F::Error> {
        let text = CowStr::deserialize(alloc, from)?;
        match of_text(text.as_str()) {
            Some(time) => Ok(time),
            None => Err(from.custom("no milliseconds")),
        }
    }
}

/// Times to wait.
#[derive(Drop, Serialize, Deserialize)]
pub struct Backoff {
    first: Timeout,
    #[serde(default)]
    others: Vec<Timeout>,
    last: Option<Box<Timeout>>,
}

/// A link, and the one behind it.
#[derive(Drop, Serialize, Deserialize)]
#[serde(recursive)]
pub struct Chain {
    link: u8,
    #[serde(recursive)]
    next: Option<Box<Chain>>,
}
