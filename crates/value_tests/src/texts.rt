//! Texts, and what is printed. Each assertion of a printed text stands here, over any type: a proof of it does not go
//! into the texts of one.

use std::error::Error;
use std::fmt::{Debug, Display};
use std::process::Abort;

/// The text, owned.
pub fn owned(rt: &(impl Abort + AllocGlobal), text: &str) -> String {
    String::from_str(rt.alloc(), text).expect(rt, "memory")
}

/// Asserts what a value prints.
pub fn prints<T: Display>(rt: &(impl Abort + AllocGlobal), value: &T, wanted: &str) {
    let text = format!(in rt.alloc(); "{value}").expect(rt, "memory");
    assert_eq!(rt; text.as_str(), wanted);
}

/// Asserts what a value shows in debug.
pub fn shows<T: Debug>(rt: &(impl Abort + AllocGlobal), value: &T, wanted: &str) {
    let text = format!(in rt.alloc(); "{value:?}").expect(rt, "memory");
    assert_eq!(rt; text.as_str(), wanted);
}

/// Asserts what a fault says, as any error is asked.
pub fn says<E: Error>(rt: &(impl Abort + AllocGlobal), fault: &E, wanted: &str) {
    prints(rt, fault, wanted);
}
