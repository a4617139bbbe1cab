//! Events for an emitter to YAML text, as libyaml's emitter prints them.
#![tactic(auto)]

mod character;
mod emitter;
mod fit;
pub mod laws;
mod layout;
mod leaf;
mod noted;
mod open;
mod quoted;
mod sink;
mod stop;
mod stream;
mod style;
mod tag;
mod write_fault;

pub use emitter::Emitter;
pub use leaf::push_scalar;
pub use sink::EventSink;
pub use stream::emit;
pub use tag::push_tag;
pub use write_fault::WriteFault;
