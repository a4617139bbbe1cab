//! The example of the README, word for word.

use serde::{Deserialize, Serialize};
use std::alloc::Global;
use yaml::{Error, from_str, to_string};

#[derive(Drop, Serialize, Deserialize)]
pub struct Server {
    name: String,
    port: u16,
    tags: Vec<String>,
}

pub fn renamed(alloc: Global, text: &str) -> Result<String, Error> {
    let mut server: Server = from_str(alloc, text)?;
    server.name = String::from_str(alloc, "proxy")?;
    to_string(alloc, &server)
}
