//! From events to documents: the loader.
#![tactic(auto)]

pub mod check;
mod document;
mod loader;
pub mod stream_law;

pub use document::LoadedDocument;
pub use loader::{Loader, LoaderBuilder};
pub use yaml_base::{DocEvent, DocScalar, DocStart};
