//! What a plain text is: null, a boolean, an integer, a float or a string.

mod float;
mod integer;
mod kind;
mod sign;
mod word;

pub use float::{digits_but_not_number, floats_have_their_grammar, is_float_text};
pub use integer::{
    integers_have_their_grammar, parse_negative_int, parse_signed_int, parse_unsigned_int,
};
pub use kind::{Kind, each_text_has_one_kind, resolve};
pub use word::{parse_bool, parse_null};
