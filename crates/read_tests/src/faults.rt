//! What faults print as any error does, where they stand, and their short names.

use serde_yaml::from_str;
use std::alloc::Global;
use std::error::Error;
use std::process::Abort;
use yaml_lines::{InputFault, LineFault};
use yaml_shape::SchemaFault;

// Asserts what a fault says, as any error is asked.
fn says<E: Error>(rt: &(impl Abort + AllocGlobal), fault: &E, wanted: &str) {
    let text = fault.to_string(rt.alloc()).expect(rt, "memory");
    assert_eq!(rt; text.as_str(), wanted);
}

// Where the fault stands by which a text is no number, as people count: its line and its column.
fn location(alloc: Global, text: &str) -> Option<(usize, usize)> {
    let found: serde_yaml::Result<u16> = from_str(alloc, text);
    let location = found.err()?.location()?;
    Some((location.line(), location.column()))
}

#[test]
fn faults_say_what_and_where(rt: HostRuntime) {
    says(&rt, &LineFault::Bad, "bad line");
    says(&rt, &LineFault::Memory, "out of memory");
    says(&rt, &InputFault::BadLine(12), "bad line 12");
    says(&rt, &InputFault::Memory, "out of memory");
    for (text, wanted) in [("-0", Some((1, 1))), ("1\n--- 2\n", None)] {
        assert_eq!(rt; location(rt.alloc(), text), wanted, "{text}");
    }
}

// Faults of schemas by their long names, and what they say.
const SCHEMA_FAULTS: &[(SchemaFault, &str)] = &[
    (
        SchemaFault::OutsideTable(7),
        "shape 7 names a shape outside the table",
    ),
    (SchemaFault::OptionCycle(0), "shape 0 is a cycle of options"),
    (SchemaFault::NameTwice(4095), "shape 4095 has a name twice"),
    (SchemaFault::TooManyShapes, "more than 4096 shapes"),
    (SchemaFault::Memory, "out of memory"),
];

// The same faults by their short names, and their places in the table.
fn short(place: usize) -> SchemaFault {
    match place {
        0 => SchemaFault::S1(7),
        1 => SchemaFault::S2(0),
        2 => SchemaFault::S3(4095),
        3 => SchemaFault::S4,
        _ => SchemaFault::S5,
    }
}

#[test]
fn short_names_stand_for_the_long_ones(rt: HostRuntime) {
    for (place, (long, wanted)) in SCHEMA_FAULTS.iter().enumerate() {
        let short = short(place);
        assert!(rt; short == *long, "{wanted}");
        says(&rt, &short, wanted);
        says(&rt, long, wanted);
        says(&rt, &short.into_error(rt.alloc()), wanted);
    }
}
