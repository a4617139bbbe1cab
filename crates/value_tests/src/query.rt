//! Tests of JSON texts, of paths, and of what they lead to.

use crate::texts::{owned, prints};
use std::process::Abort;
use yaml_query::{
    JsonFault, Path, PathFault, Reason, Steps, find, get, parse_path, to_json, to_json_pretty,
};
use yaml_value::{Mapping, Number, Tag, TaggedValue, Value};

fn text(rt: &(impl Abort + AllocGlobal), text: &str) -> Value {
    Value::String(owned(rt, text))
}

fn sequence(rt: &(impl Abort + AllocGlobal), one: Value, two: Value) -> Value {
    Value::from(vec![in rt.alloc(); one, two].expect(rt, "memory"))
}

fn pair(rt: &(impl Abort + AllocGlobal), mapping: &mut Mapping, key: Value, value: Value) {
    let _before = mapping.insert(key, value).expect(rt, "memory");
}

// `{name: "a\"b\n\u{1}é", ports: [80, !t 8080], 5: {}, limits: {max: LIMIT}}`
fn service(rt: &(impl Abort + AllocGlobal), limit: Value) -> Value {
    let alloc = rt.alloc();
    let mut limits = Mapping::new(alloc);
    pair(rt, &mut limits, text(rt, "max.n"), limit);
    let tagged = TaggedValue {
        tag: Tag::new(alloc, "t").expect(rt, "a tag"),
        value: Value::from(8080u16),
    };
    let tagged = Value::Tagged(Box::new(alloc, tagged).expect(rt, "memory"));
    let mut service = Mapping::new(alloc);
    pair(
        rt,
        &mut service,
        text(rt, "name"),
        text(rt, "a\"b\\\n\u{1}é"),
    );
    pair(
        rt,
        &mut service,
        text(rt, "ports"),
        sequence(rt, Value::from(80u8), tagged),
    );
    pair(
        rt,
        &mut service,
        Value::from(5u8),
        Value::Mapping(Mapping::new(alloc)),
    );
    pair(rt, &mut service, text(rt, "limits"), Value::Mapping(limits));
    Value::Mapping(service)
}

fn json(rt: &(impl Abort + AllocGlobal), value: &Value) -> String {
    match to_json(rt.alloc(), value) {
        Ok(text) => text,
        Err(_) => owned(rt, "none"),
    }
}

#[test]
fn json_of_each_kind(rt: HostRuntime) {
    let rt = &rt;
    let wanted =
        "{\"name\":\"a\\\"b\\\\\\n\\u0001é\",\"ports\":[80,8080],\"5\":{},\"limits\":{\"max.n\":null}}";
    assert_eq!(rt; json(rt, &service(rt, Value::Null)).as_str(), wanted);
}

#[test]
fn json_of_numbers(rt: HostRuntime) {
    let rt = &rt;
    let rows: &[(f64, &str)] = &[
        (1.5, "1.5"),
        (-0.0, "-0.0"),
        (1e30, "1e+30"),
        (1.0e-7, "1e-7"),
        (1000.0, "1000.0"),
    ];
    for row in rows {
        assert_eq!(rt; json(rt, &Value::from(row.0)).as_str(), row.1);
    }
    let wide = "340282366920938463463374607431768211455";
    assert_eq!(rt; json(rt, &Value::from(u128::MAX)).as_str(), wide);
    let least = "-170141183460469231731687303715884105728";
    assert_eq!(rt; json(rt, &Value::from(i128::MIN)).as_str(), least);
}

#[test]
fn json_in_lines(rt: HostRuntime) {
    let rt = &rt;
    let wanted =
        "{\n  \"name\": \"a\\\"b\\\\\\n\\u0001é\",\n  \"ports\": [\n    80,\n    8080\n  ],\n  \"5\": {},\n  \
\"limits\": {\n    \"max.n\": true\n  }\n}";
    let value = service(rt, Value::Bool(true));
    match to_json_pretty(rt.alloc(), &value) {
        Ok(text) => assert_eq!(rt; text.as_str(), wanted),
        Err(_) => panic!(rt; "no JSON"),
    }
}

// Asserts where a value has no JSON, and why.
fn has_none(rt: &(impl Abort + AllocGlobal), value: &Value, reason: Reason, way: &str) {
    match to_json(rt.alloc(), value) {
        Err(JsonFault::At(why, path)) => {
            assert!(rt; why == reason);
            prints(rt, &Steps(path.steps.as_slice()), way);
        }
        _ => panic!(rt; "another answer"),
    }
}

#[test]
fn no_json(rt: HostRuntime) {
    let rt = &rt;
    has_none(rt, &Value::from(f64::NAN), Reason::NotFinite, ".");
    let endless = service(rt, Value::from(f64::INFINITY));
    has_none(rt, &endless, Reason::NotFinite, "limits.\"max.n\"");
    let mut mapping = Mapping::new(rt.alloc());
    pair(
        rt,
        &mut mapping,
        sequence(rt, Value::Null, Value::Null),
        Value::Null,
    );
    let nested = sequence(rt, Value::Null, Value::Mapping(mapping));
    has_none(rt, &nested, Reason::CollectionKey, ".[1]");
}

// The texts of paths, and the texts that are printed for them.
const PATHS: &[(&str, &str)] = &[
    ("", "."),
    (".", "."),
    ("a", "a"),
    (".a", "a"),
    ("servers[1].port", "servers[1].port"),
    ("[0][12]", ".[0][12]"),
    (".[0]", ".[0]"),
    ("\"a.b\"[0]", "\"a.b\"[0]"),
    ("'x y'.z", "\"x y\".z"),
    ("x y", "\"x y\""),
    ("'it''s'", "\"it's\""),
    ("\"a\"\"b\"", "\"a\"\"b\""),
    ("''", "\"\""),
    ("ключ.é", "ключ.é"),
    ("[18446744073709551615]", ".[18446744073709551615]"),
];

#[test]
fn paths(rt: HostRuntime) {
    let rt = &rt;
    for row in PATHS {
        match parse_path(rt.alloc(), row.0) {
            Ok(path) => prints(rt, &Steps(path.steps.as_slice()), row.1),
            Err(_) => panic!(rt; "no path"),
        }
    }
}

// Texts that are no paths, and the columns at which they are none.
const NO_PATHS: &[(&str, usize)] = &[
    ("..", 2),
    ("a.", 3),
    ("a..b", 3),
    ("a[", 3),
    ("a[]", 3),
    ("a[1", 4),
    ("a[x]", 3),
    ("a[-1]", 3),
    ("a]", 2),
    ("'a", 3),
    ("é[1]b", 5),
    ("'a'b", 4),
    ("[18446744073709551616]", 21),
];

#[test]
fn no_paths(rt: HostRuntime) {
    let rt = &rt;
    for row in NO_PATHS {
        match parse_path(rt.alloc(), row.0) {
            Err(fault) => assert_eq!(rt; fault, PathFault::At(row.1)),
            Ok(_) => panic!(rt; "a path"),
        }
    }
}

fn path(rt: &(impl Abort + AllocGlobal), text: &str) -> Path {
    match parse_path(rt.alloc(), text) {
        Ok(path) => path,
        Err(_) => Path {
            steps: Vec::new(rt.alloc()),
        },
    }
}

// Paths, and the JSON of what they lead to.
const FOUND: &[(&str, &str)] = &[
    ("limits", "{\"max.n\":false}"),
    ("limits.'max.n'", "false"),
    ("ports[1]", "8080"),
    ("[5]", "{}"),
];

#[test]
fn what_paths_lead_to(rt: HostRuntime) {
    let rt = &rt;
    let value = service(rt, Value::Bool(false));
    for row in FOUND {
        match get(&value, &path(rt, row.0)) {
            Some(found) => assert_eq!(rt; json(rt, found).as_str(), row.1),
            None => panic!(rt; "nothing"),
        }
    }
    assert!(rt; find(&value, &path(rt, ".")).is_ok());
}

// Paths that lead nowhere, and how many of their steps lead somewhere.
const MISSING: &[(&str, usize)] = &[
    ("x", 0),
    ("ports[2].a", 1),
    ("limits.'max.n'.b", 2),
    ("[6]", 0),
    ("'5'", 0),
];

#[test]
fn steps_that_are_missing(rt: HostRuntime) {
    let rt = &rt;
    let value = service(rt, Value::Bool(false));
    for row in MISSING {
        match find(&value, &path(rt, row.0)) {
            Err(count) => assert_eq!(rt; count, row.1),
            Ok(_) => panic!(rt; "something"),
        }
    }
}
