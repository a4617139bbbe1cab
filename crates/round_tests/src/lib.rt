//! Tests of types by the public calls that no program makes: what is written reads back, and what is not written.
#![tactic(auto)]

#[cfg(test)]
mod calls;
#[cfg(test)]
mod fitting;
#[cfg(test)]
mod kept;
#[cfg(test)]
mod laws;
#[cfg(test)]
mod ports;
#[cfg(test)]
mod printed;
#[cfg(test)]
mod refused;
