//! Tests of `yaml_tree`, `yaml_base` and `yaml_query` by the public calls that no program makes.
#![tactic(auto)]

#[cfg(test)]
mod base;
#[cfg(test)]
mod query;
#[cfg(test)]
mod texts;
#[cfg(test)]
mod tree;
