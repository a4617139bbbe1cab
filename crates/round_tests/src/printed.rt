//! Values that read back from their own text, and an emitter that takes events one by one.

use serde_yaml::{Limits, to_events};
use std::process::Abort;
use yaml_base::emitter::EmitEvent;
use yaml_emit::{Emitter, emit};
use yaml_round::again::{reads_back, text_of};

// Texts, and how they are printed.
const PRINTED: &[(&str, &str)] = &[
    ("web", "web\n"),
    ("", "''\n"),
    ("012", "'012'\n"),
    ("a: b", "'a: b'\n"),
    ("a\u{7}", "\"a\\a\"\n"),
    ("a\nb", "|-\n  a\n  b\n"),
];

#[test]
fn a_text_reads_back_from_its_own(rt: HostRuntime) {
    let (alloc, limits) = (rt.alloc(), Limits::DEFAULT);
    for &(said, wanted) in PRINTED {
        let value = String::from_str(alloc, said).expect(&rt, "memory");
        let text = text_of(alloc, &value).expect(&rt, "a text");
        assert_eq!(rt; text.as_str(), wanted);
        for (text, same) in [(text.as_str(), true), ("other", false)] {
            let reads = reads_back(alloc, &value, text, limits).expect(&rt, "memory");
            assert!(rt; reads == same, "{text}");
        }
    }
}

// What an emitter prints of the events, if they are a stream.
fn taken(rt: &(impl Abort + AllocGlobal), events: &[EmitEvent]) -> Option<String> {
    let mut emitter = Emitter::new(rt.alloc());
    for event in events {
        emitter.push(event).expect(rt, "memory");
    }
    emitter.finish().ok()
}

#[test]
fn an_emitter_prints_what_emit_does(rt: HostRuntime) {
    let lists = vec![in rt.alloc(); Some(1i64), None].expect(&rt, "memory");
    let written = to_events(rt.alloc(), &lists).expect(&rt, "events");
    let events = written.as_slice();
    for count in 0..events.len() {
        let begun = &events[..count];
        assert!(rt;
            taken(&rt, begun).is_none() && emit(rt.alloc(), begun).is_err(),
            "{count}"
        );
    }
    let text = taken(&rt, events).expect(&rt, "a text");
    assert_eq!(rt; text.as_str(), "- 1\n- null\n");
    let whole = emit(rt.alloc(), events).expect(&rt, "a text");
    assert_eq!(rt; text.as_str(), whole.as_str());
}
