//! Tuples of two to eight elements, which are made of them in a row.
mod eight;
mod five;
mod four;
mod seven;
mod six;
mod three;
mod two;
