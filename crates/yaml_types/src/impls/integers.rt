//! Integers of each type.
mod signed_large;
mod signed_small;
mod unsigned_large;
mod unsigned_small;
