//! What every layer of the YAML data crates speaks of: marks, tags, events and faults, and the grammar of streams.
#![tactic(auto)]

mod borrowed;
mod core_tags;
mod doc_event;
pub mod emitter;
mod entry_key;
mod error;
mod event;
mod fault;
mod found;
mod history;
mod local_tag;
mod location;
mod mark;
mod open;
mod path;
mod resolver;
mod style;
mod tag;
mod words;

pub use borrowed::{borrowed_bytes, parse_borrowed_str, texts_are_borrowed_where_they_stand};
pub use core_tags::core_tags_have_their_texts;
pub use doc_event::{DocEvent, DocScalar, DocStart};
pub use entry_key::EntryKey;
pub use error::{Cause, Error, Place, Result};
pub use event::{Event, MappingStart, Scalar, ScalarStyle, SequenceStart};
pub use fault::{FaultKind, ParserFault};
pub use found::Found;
pub use history::History;
pub use local_tag::{local_tags_have_their_names, parse_tag};
pub use location::Location;
pub use mark::Mark;
pub use open::Open;
pub use path::Path;
pub use resolver::{
    Kind, digits_but_not_number, each_text_has_one_kind, floats_have_their_grammar,
    integers_have_their_grammar, is_float_text, parse_bool, parse_negative_int, parse_null,
    parse_signed_int, parse_unsigned_int, resolve,
};
pub use style::infer_style;
pub use tag::{Anchor, Tag};
pub use words::{WordList, Words};
pub use yaml_tree::{Quoted, QuotedBytes, Visible, hex_digit};
