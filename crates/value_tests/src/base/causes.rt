//! Faults that no row of `yaml_probe` copies: those of writing and of memory, and those that are never made yet.

use crate::texts::says;
use std::process::Abort;
use yaml_base::{Cause, Error};

// What the causes say that have no parts, by their numbers.
const TEXTS: &[&str] = &[
    "serializing nested enums in YAML is not supported yet",
    "expected a mapping or list of mappings for merging, but found scalar",
    "unexpected tagged value in merge",
    "expected a mapping for merging, but found scalar",
    "expected a mapping for merging, but found sequence",
    "empty YAML tag is not allowed",
    "failed to parse YAML number",
    "out of memory",
];

// The cause with this number.
fn cause(number: usize) -> Cause {
    match number {
        0 => Cause::SerializeNestedEnum,
        1 => Cause::ScalarInMerge,
        2 => Cause::TaggedInMerge,
        3 => Cause::ScalarInMergeElement,
        4 => Cause::SequenceInMergeElement,
        5 => Cause::EmptyTag,
        6 => Cause::FailedToParseNumber,
        _ => Cause::Memory,
    }
}

// Asserts what a fault says, its copy, and another fault of its cause.
fn say(rt: &(impl Abort + AllocGlobal), fault: Error, wanted: &str) {
    says(rt, &fault, wanted);
    says(rt, &fault.copy(rt.alloc()).expect(rt, "memory"), wanted);
    says(rt, &Error::new(fault.into_cause()), wanted);
}

#[test]
fn faults_and_their_copies_say_what_is_wrong(rt: HostRuntime) {
    for (number, wanted) in TEXTS.iter().enumerate() {
        say(&rt, Error::new(cause(number)), wanted);
    }
}
