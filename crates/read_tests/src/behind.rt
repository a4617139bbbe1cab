//! What is read once the first document was given: a document behind it, and the stream itself.

use serde_yaml::{Cause, Deserializer};
use std::process::Abort;
use yaml_shape::Data;
use yaml_tree::Value;

// The stream of a text, of which the first document was given and let go.
fn behind_the_first<'de>(rt: &(impl Abort + AllocGlobal), text: &'de str) -> Deserializer<'de> {
    let mut stream = Deserializer::from_str(rt.alloc(), text).expect(rt, "a stream");
    let _first = stream.next();
    stream
}

// The second document of a text, whose stream is gone by then.
fn second<'de>(rt: &(impl Abort + AllocGlobal), text: &'de str) -> Deserializer<'de> {
    let mut stream = behind_the_first(rt, text);
    stream.next().expect(rt, "a second document")
}

// The number that was found.
fn number(found: Option<&Value>) -> Option<u64> {
    found?.as_u64()
}

// Whether data is a list of these two numbers.
fn lists(found: Data<'_>, first: u64, second: u64) -> bool {
    match found {
        Data::Any(list) => {
            number(list.get(0usize)) == Some(first)
                && number(list.get(1usize)) == Some(second)
                && list.get(2usize).is_none()
        }
        _ => false,
    }
}

#[test]
fn a_document_outlives_its_stream(rt: HostRuntime) {
    let mut document = second(&rt, "--- &a 1\n--- [&a 2, *a]\n--- *a\n");
    assert!(rt; document.next().is_none());
    let found = document.deserialize_any(rt.alloc()).expect(&rt, "a value");
    assert!(rt; lists(found, 2, 2));
}

// Whether a stream is refused whose first document was given, as one of more documents than one.
fn is_refused(rt: &(impl Abort + AllocGlobal), text: &str) -> bool {
    match behind_the_first(rt, text).deserialize_any(rt.alloc()) {
        Ok(_) => false,
        Err(fault) => matches!(fault.cause(), Cause::MoreThanOneDocument),
    }
}

#[test]
fn a_stream_is_not_read_once_gone_through(rt: HostRuntime) {
    for text in ["", "1", "--- 1\n--- 2\n"] {
        assert!(rt; is_refused(&rt, text), "{text}");
    }
}
