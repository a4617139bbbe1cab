//! What values answer that are asked for what they are, and for a part.
use super::plain::Plain::{self, Bool, Null, Signed, Tagged, Text, Unsigned};
use super::plain::{mapping, sequence, tagged, value};
use crate::texts::{owned, prints, shows};
use std::process::Abort;
use yaml_tree::Value;

// A value, what it shows in debug, whether it is null, and what it is as a boolean, a `u64`, an `i64` and a text.
type Row = (
    Plain,
    &'static str,
    bool,
    Option<bool>,
    Option<u64>,
    Option<i64>,
    Option<&'static str>,
);

const ROWS: &[Row] = &[
    (Null, "null", true, None, None, None, None),
    (Bool(true), "true", false, Some(true), None, None, None),
    (Unsigned(7), "7", false, None, Some(7), Some(7), None),
    (
        Unsigned(18446744073709551615),
        "18446744073709551615",
        false,
        None,
        Some(18446744073709551615),
        None,
        None,
    ),
    (Signed(-7), "-7", false, None, None, Some(-7), None),
    (
        Text("say \"a\\b\"\n\u{e9}"),
        "\"say \\\"a\\\\b\\\"\\x0a\\xc3\\xa9\"",
        false,
        None,
        None,
        None,
        Some("say \"a\\b\"\n\u{e9}"),
    ),
    (
        Tagged("its"),
        "!its \"a\"",
        false,
        None,
        None,
        None,
        Some("a"),
    ),
];

// Whether a value is what a row says.
fn is(value: &Value, row: &Row) -> bool {
    value.is_null() == row.2
        && value.as_bool() == row.3
        && value.as_u64() == row.4
        && value.as_i64() == row.5
        && value.as_str() == row.6
}

// How many items or pairs a value has.
fn length(value: &Value) -> Option<usize> {
    if let Some(items) = value.as_sequence() {
        return Some(items.len());
    }
    Some(value.as_mapping()?.len())
}

// Whether a value, its copy, and the same under a tag are what a row says, without items or pairs.
fn says_so(rt: &(impl Abort + AllocGlobal), value: Value, row: &Row) -> bool {
    let copy = value.copy(rt.alloc()).expect(rt, "memory");
    let equal = copy == value;
    let tagged = tagged(rt, "mine", value);
    equal
        && is(&copy, row)
        && is(&tagged, row)
        && length(&copy).is_none()
        && length(&tagged).is_none()
}

#[test]
fn values_say_what_they_are(rt: HostRuntime) {
    for row in ROWS {
        let value = value(&rt, &row.0);
        shows(&rt, &value, row.1);
        assert!(rt; says_so(&rt, value, row), "{}", row.1);
    }
    prints(
        &rt,
        &tagged(&rt, "mine", value(&rt, &Tagged("its"))),
        "!mine !its \"a\"",
    );
}

const LETTERS: &[Plain] = &[Unsigned(4), Unsigned(5)];

const TABLE: &[(Plain, u64)] = &[(Text("a"), 1), (Unsigned(0), 2), (Tagged("!t"), 3)];

// A value with parts, by its number.
fn whole(rt: &(impl Abort + AllocGlobal), number: usize) -> Value {
    match number {
        0 => Value::Mapping(mapping(rt, TABLE)),
        1 => tagged(rt, "!t", Value::Mapping(mapping(rt, TABLE))),
        2 => Value::Sequence(sequence(rt, LETTERS)),
        _ => Value::Null,
    }
}

// A value's number, how many parts it has, a text and a place, and the numbers that it has at them.
type PartRow = (
    usize,
    Option<usize>,
    &'static str,
    usize,
    Option<u64>,
    Option<u64>,
);

const PARTS: &[PartRow] = &[
    (0, Some(3), "a", 0, Some(1), Some(2)),
    (0, Some(3), "", 1, None, None),
    (1, Some(3), "a", 0, Some(1), Some(2)),
    (2, Some(2), "a", 1, None, Some(5)),
    (2, Some(2), "b", 2, None, None),
    (3, None, "a", 0, None, None),
];

// The number that was found.
fn number(found: Option<&Value>) -> Option<u64> {
    found?.as_u64()
}

// Whether a value has this number at a text: by the text as it stands, owned, and as a value.
fn has(
    rt: &(impl Abort + AllocGlobal),
    asked: &Value,
    text: &'static str,
    wanted: Option<u64>,
) -> bool {
    let (text_owned, key) = (owned(rt, text), value(rt, &Text(text)));
    number(asked.get(text)) == wanted
        && number(asked.get(&text_owned)) == wanted
        && number(asked.get(&key)) == wanted
}

#[test]
fn parts_are_found(rt: HostRuntime) {
    for &(which, count, text, place, at_text, at_place) in PARTS {
        let asked = whole(&rt, which);
        assert!(rt; has(&rt, &asked, text, at_text), "{which} {text}");
        assert!(rt;
            number(asked.get(place)) == at_place && length(&asked) == count,
            "{which} {place}"
        );
        let copy = asked.copy(rt.alloc()).expect(&rt, "memory");
        assert!(rt; copy == asked, "{which}");
    }
}
