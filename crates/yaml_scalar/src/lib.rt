//! What a scalar, and the node of an empty stream, give under a shape: data, or the first fault, without its place.
#![tactic(auto)]

mod any_value;
mod character;
mod decimal;
mod expected;
mod found_kind;
mod integer;
mod integer_text;
mod mismatch;
mod presence;
mod refusal;
mod scalar;
mod sort;
mod text;
mod variant_names;

pub use expected::{Expected, words};
pub use integer_text::{small_signed_of, small_unsigned_of};
pub use mismatch::{
    found_mapping, found_mapping_for, found_no_variant_elements, found_scalar_for, found_sequence,
    found_sequence_for, wrong_length,
};
pub use presence::{is_absent, is_empty_plain, is_present};
pub use refusal::{Refusal, Result, ended, refuse, refused_bytes};
pub use scalar::{read_scalar, read_void};
pub use sort::{is_plain_or_tagged_literal, text_of};
pub use variant_names::{nested_enum, unknown_variant, variant_named};
