//! What a node of a document means under a shape. All of it is in `specs/`, and the crates above cite it.
#![tactic(auto)]
