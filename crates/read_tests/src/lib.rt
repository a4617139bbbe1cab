//! Tests of the libraries that read, by what no line of rows can ask: what is lent and what outlives its reader, where
//! a fault stands, schemas that are joined, and calls by a type.
#![tactic(auto)]

#[cfg(test)]
mod behind;
#[cfg(test)]
mod by_type;
#[cfg(test)]
mod events;
#[cfg(test)]
mod faults;
#[cfg(test)]
mod integers;
#[cfg(test)]
mod joins;
#[cfg(test)]
mod lent;
#[cfg(test)]
mod merging;
#[cfg(test)]
mod reader;
