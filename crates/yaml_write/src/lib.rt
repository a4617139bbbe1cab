//! Data to events for an emitter.
#![tactic(auto)]

mod all_or_none;
mod buffer;
mod data;
pub mod laws;
mod node_content;
mod open;
mod part_shapes;
mod ser;
mod shape_lookup;
mod tags;
mod value;
mod write_refusal;
mod writer;

pub use buffer::EventBuffer;
pub use open::OpenKind;
pub use ser::Serializer;
pub use shape_lookup::{
    element_shape, inner_shape, item_shapes, key_shape, named_fields, value_shape,
};
pub use tags::local_tag;
pub use write_refusal::Refusal;
pub use writer::NodeWriter;
