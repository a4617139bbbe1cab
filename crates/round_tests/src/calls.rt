//! Values that are written as events, rendered in quotes, and read again; a text that a writer gets; and a text of
//! several documents.

use serde_yaml::{
    Cause, Event, Limits, Mark, documents_to_string, from_events, from_events_limited, to_events,
    to_writer,
};
use std::collections::BTreeMap;
use std::process::Abort;
use uses::Backup;
use yaml_round::again::comes_back;
use yaml_round::in_turn::reads_back;
use yaml_round::renderer::{Quoted, Renderer};

// What a parser may say of some optionals that were written.
fn rendered(
    rt: &(impl Abort + AllocGlobal),
    optionals: &Vec<Option<i64>>,
) -> Vec<(Event<'static>, Mark)> {
    let written = to_events(rt.alloc(), optionals).expect(rt, "events");
    Quoted
        .render(rt.alloc(), written.as_slice())
        .expect(rt, "memory")
}

// Whether optionals are refused within limits, since they are nested too deep.
fn is_too_deep(
    rt: &(impl Abort + AllocGlobal),
    optionals: &Vec<Option<i64>>,
    limits: Limits,
) -> bool {
    let events = rendered(rt, optionals);
    match from_events_limited::<Vec<Option<i64>>>(rt.alloc(), events, None, limits) {
        Ok(_) => false,
        Err(fault) => matches!(fault.cause(), Cause::RecursionLimitExceeded(_)),
    }
}

#[test]
fn written_events_are_read(rt: HostRuntime) {
    let optionals = vec![in rt.alloc(); Some(1i64), None, Some(-3)].expect(&rt, "memory");
    let events = rendered(&rt, &optionals);
    let again: Vec<Option<i64>> = from_events(rt.alloc(), events, None).expect(&rt, "optionals");
    assert!(rt; again == optionals);
    for (nesting, wanted) in [(0, true), (1, false)] {
        let limits = Limits::new(nesting, 100).expect(&rt, "limits");
        assert!(rt; is_too_deep(&rt, &optionals, limits) == wanted, "{nesting}");
    }
}

// A text, owned.
fn owned(rt: &(impl Abort + AllocGlobal), text: &str) -> String {
    String::from_str(rt.alloc(), text).expect(rt, "memory")
}

// Puts a value at a name.
fn put<V: Drop>(
    rt: &(impl Abort + AllocGlobal),
    map: &mut BTreeMap<String, V>,
    name: &str,
    value: V,
) {
    let put: Result<_, _> = map.insert(owned(rt, name), value);
    put.expect(rt, "memory");
}

// A present optional of nothing is written as null and read as absent: it does not fit.
#[test]
fn what_fits_comes_back_in_quotes(rt: HostRuntime) {
    let (alloc, limits) = (rt.alloc(), Limits::DEFAULT);
    let mut texts = BTreeMap::new(alloc);
    put(&rt, &mut texts, "no", owned(&rt, "012"));
    let every = Backup::Every { hours: 12, keep: 7 };
    assert!(rt; comes_back(alloc, &texts, &mut Quoted, limits).expect(&rt, "memory"));
    assert!(rt; comes_back(alloc, &every, &mut Quoted, limits).expect(&rt, "memory"));
    assert!(rt; !comes_back(alloc, &Some(()), &mut Quoted, limits).expect(&rt, "memory"));
}

#[test]
fn a_writer_gets_the_text(rt: HostRuntime) {
    let mut ports = BTreeMap::new(rt.alloc());
    put(&rt, &mut ports, "port", Some(8080u16));
    put(&rt, &mut ports, "other", None);
    let mut out = Vec::new(rt.alloc());
    to_writer(rt.alloc(), &mut out, &ports).expect(&rt, "a text");
    assert_eq!(rt; out.as_slice(), b"other: null\nport: 8080\n".as_slice());
}

// Mappings, the text of a document for each, and whether they read back: from the empty text one document is read.
const DOCUMENTS: &[(&[&[(&str, i64)]], &str, bool)] = &[
    (&[], "", false),
    (&[&[("a", 1)]], "a: 1\n", true),
    (
        &[&[("k", 107)], &[("J", 74), ("k", 107)]],
        "k: 107\n---\nJ: 74\nk: 107\n",
        true,
    ),
    (&[&[], &[("a", 1)], &[]], "{}\n---\na: 1\n--- {}\n", true),
];

// Mappings of these entries.
fn mappings(
    rt: &(impl Abort + AllocGlobal),
    rows: &[&[(&str, i64)]],
) -> Vec<BTreeMap<String, i64>> {
    let mut all = Vec::new(rt.alloc());
    for row in rows {
        let mut mapping = BTreeMap::new(rt.alloc());
        for (name, value) in *row {
            put(rt, &mut mapping, name, *value);
        }
        let pushed: Result<_, _> = all.push(mapping);
        pushed.expect(rt, "memory");
    }
    all
}

#[test]
fn documents_are_written_in_a_row_and_read_in_turn(rt: HostRuntime) {
    for (rows, wanted, returns) in DOCUMENTS {
        let values = mappings(&rt, rows);
        let text = documents_to_string(rt.alloc(), values.as_slice()).expect(&rt, "a text");
        assert_eq!(rt; text.as_str(), *wanted);
        let back = reads_back(rt.alloc(), values.as_slice(), wanted, Limits::DEFAULT);
        assert!(rt; back.expect(&rt, "memory") == *returns, "{wanted}");
    }
}
