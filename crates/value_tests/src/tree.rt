//! Tests of values.
mod asked;
mod collections;
mod faults;
mod plain;
