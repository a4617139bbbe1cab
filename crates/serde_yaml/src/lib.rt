//! YAML events to data by a schema of shapes, and to values of types that have one; and values to events.
#![tactic(auto)]

mod de;
mod documents;
mod input;
pub mod laws;
pub mod mapping;
mod merging;
mod printed;
mod ser;
mod text;
mod type_faults;
mod unambiguous;
pub mod value;

pub use de::{Deserializer, data_from_events, from_events, from_events_limited};
pub use documents::documents_to_string;
pub use input::from_reader;
pub use merging::{
    data_from_slice_merging, data_from_slice_merging_limited, from_reader_merging,
    from_slice_merging, from_slice_merging_limited, from_str_merging,
};
pub use printed::{data_to_string, to_string, to_writer};
pub use ser::to_events;
pub use text::{data_from_slice, data_from_str, from_slice, from_slice_limited, from_str};
pub use unambiguous::to_string_unambiguous;
pub use yaml_base::{
    Anchor, Cause, EntryKey, Error, Event, FaultKind, Found, Location, MappingStart, Mark,
    ParserFault, Path, Place, Result, Scalar, ScalarStyle, SequenceStart, Tag, WordList, Words,
    emitter,
};
pub use yaml_documents::ReaderFault;
pub use yaml_emit::WriteFault;
pub use yaml_merge::Merge;
pub use yaml_read::Limits;
pub use yaml_shape::{Data, Entry, Schema, SchemaFault, Shape, ShapeId, Text, Typed, VariantShape};
pub use yaml_tree::{Mapping, Number, Sequence, TaggedValue, TreeFault, Value};
pub use yaml_types::{
    BuildFault, Composed, Deserialize, Enum, Fields, FromParts, Last, NewtypeVariant, OneOf,
    RoundTrip, RoundTripParts, Serialize, StrictStruct, StrictStructVariant, Struct, StructVariant,
    ToParts, Tuple, TupleVariant, UnitVariant, Variants, enum_names, struct_names,
};
pub use yaml_write::{OpenKind, Serializer};
