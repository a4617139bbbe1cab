//! Schemas of shapes, and the data that is read by them.
#![tactic(auto)]

mod data;
mod distinct_names;
mod expected;
mod fault;
mod has_shape;
mod held;
mod ids_within;
mod integer_type;
mod join;
mod moved_shapes;
mod rows;
mod schema;
mod shape;
mod text;
mod typed;
mod walks;

pub use data::{Data, Entry};
pub use expected::{
    sequence_of, struct_variant, tuple_struct_with, tuple_variant, tuple_variant_with,
};
pub use fault::SchemaFault;
pub use held::data_is_held;
pub use integer_type::{IntegerRange, IntegerType};
pub use join::{enum_of, map_of, newtype_of, option_of, seq_of};
pub use rows::{row_behind, strict_struct_of, struct_of, tuple_of, tuple_struct_of, with_names};
pub use schema::Schema;
pub use shape::{Shape, ShapeId, VariantShape};
pub use text::Text;
pub use typed::Typed;
