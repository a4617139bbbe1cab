//! The types that are read and written as themselves.
mod array;
mod boolean;
mod boxed;
mod boxed_text;
mod character;
mod integers;
mod lent_text;
mod list;
mod map;
mod optional;
mod set;
mod text;
mod tuples;
mod unit;
mod value;
