//! What is said of values that are not written, and of data that makes none.

use serde_yaml::{to_string, to_writer};
use std::error::Error;
use std::process::Abort;
use uses::Ports;
use yaml_types::BuildFault;

// Asserts what a fault says, as any error is asked.
fn says<E: Error>(rt: &(impl Abort + AllocGlobal), fault: &E, wanted: &str) {
    let text = fault.to_string(rt.alloc()).expect(rt, "memory");
    assert_eq!(rt; text.as_str(), wanted);
}

#[test]
fn a_value_that_is_withheld_has_no_text(rt: HostRuntime) {
    let ports = Ports {
        first: 90,
        last: 80,
    };
    let wanted = "the first port is above the last";
    says(
        &rt,
        &to_string(rt.alloc(), &ports).expect_err(&rt, "a text"),
        wanted,
    );
    let mut out = Vec::new(rt.alloc());
    let fault = to_writer(rt.alloc(), &mut out, &ports).expect_err(&rt, "a text");
    says(&rt, &fault, wanted);
    assert!(rt; out.is_empty());
}

#[test]
fn data_that_makes_no_value_is_refused_by_why(rt: HostRuntime) {
    let why = String::from_str(rt.alloc(), "no day").expect(&rt, "memory");
    let refused = BuildFault::Message(why);
    says(&rt, &refused, "no day");
    says(&rt, &yaml_base::Error::from(refused), "no day");
    says(&rt, &BuildFault::Memory, "out of memory");
}
