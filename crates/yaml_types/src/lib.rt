//! Types that are read from data of their shape, and written as such data.
#![tactic(auto)]

mod choice;
mod composed;
mod contents;
mod enums;
mod fault;
mod impls;
mod items;
mod last;
mod leaf;
mod row;
mod strict;
mod strict_variant;
mod structs;
mod tape;
mod tape_leaf;
mod tape_names;
mod tape_value;
mod traits;
mod tuples;
mod variant;
mod variants;

pub use choice::{Choice, Last, OneOf, ReadChoice, RoundTripChoice, WriteChoice};
pub use composed::{Composed, FromParts, RoundTripParts, ToParts};
pub use enums::{Enum, Variants, enum_names};
pub use fault::BuildFault;
pub use row::{ReadRow, RoundTripRow, Row, WriteRow};
pub use strict::StrictStruct;
pub use strict_variant::StrictStructVariant;
pub use structs::{Fields, Struct, struct_names};
pub use traits::{Deserialize, RoundTrip, Serialize};
pub use tuples::Tuple;
pub use variant::{ReadVariant, RoundTripVariant, Variant, WriteVariant};
pub use variants::{NewtypeVariant, StructVariant, TupleVariant, UnitVariant};
