//! Tests of what events and faults are made of.
mod causes;
mod marks;
mod names;
mod parser;
mod places;
