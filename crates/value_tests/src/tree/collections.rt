//! Mappings and sequences.
use super::plain::Plain::{self, Null, Tagged, Text, Unsigned};
use super::plain::{put, sequence};
use crate::texts::{prints, shows};
use yaml_tree::{Mapping, Sequence, Value};

// A key, a number to put there, and whether the key was there.
const PUT: &[(Plain, u64, bool)] = &[
    (Text("a"), 1, false),
    (Tagged("!b"), 2, false),
    (Null, 3, false),
    (Text("a"), 4, true),
    (Tagged("b"), 5, true),
    (Null, 6, true),
    (Tagged("!c"), 7, false),
];

const KEPT: &str = "{\"a\": 4, !!b \"a\": 5, null: 6, !!c \"a\": 7}";

// A number with one more digit, which is a value.
fn with_digit(number: u64, digit: &Value) -> u64 {
    number
        .wrapping_mul(10)
        .wrapping_add(digit.as_u64().unwrap_or(0))
}

// The digits of the items or the pairs that a value lends.
fn lent(value: &Value) -> u64 {
    let mut digits = 0;
    if let Some(items) = value.as_sequence() {
        for item in items {
            digits = with_digit(digits, item);
        }
    }
    if let Some(pairs) = value.as_mapping() {
        for (_, content) in pairs {
            digits = with_digit(digits, content);
        }
    }
    digits
}

// The digits of the items that a sequence hands out.
fn items_out(items: Sequence) -> u64 {
    let mut digits = 0;
    for item in items {
        digits = with_digit(digits, &item);
    }
    digits
}

// The digits of the contents that a mapping hands out.
fn contents_out(pairs: Mapping) -> u64 {
    let mut digits = 0;
    for (_key, content) in pairs {
        digits = with_digit(digits, &content);
    }
    digits
}

// The digits of the items or the pairs that a value hands out.
fn handed_out(value: Value) -> u64 {
    match value {
        Value::Sequence(items) => items_out(items),
        Value::Mapping(pairs) => contents_out(pairs),
        other => {
            drop(other);
            0
        }
    }
}

#[test]
fn mappings_keep_their_keys_in_order(rt: HostRuntime) {
    let mut mapping = Mapping::new(rt.alloc());
    assert!(rt; mapping.is_empty());
    for (key, number, there) in PUT {
        assert!(rt; put(&rt, &mut mapping, key, *number) == *there, "{number}");
    }
    assert!(rt; !mapping.is_empty() && mapping.len() == 4 && mapping.get("a").is_some());
    let whole = Value::Mapping(mapping);
    prints(&rt, &whole, KEPT);
    shows(&rt, &whole, KEPT);
    assert!(rt; lent(&whole) == 4567 && handed_out(whole) == 4567);
}

#[test]
fn sequences_keep_their_items_in_order(rt: HostRuntime) {
    assert!(rt; sequence(&rt, &[]).is_empty());
    let pushed = sequence(&rt, &[Unsigned(4), Unsigned(5)]);
    assert!(rt; !pushed.is_empty() && pushed.len() == 2 && pushed.iter().count() == 2);
    assert!(rt; pushed.get(1).is_some() && pushed.get(2).is_none());
    let whole = Value::Sequence(Sequence::from(pushed.into_vec()));
    assert!(rt; lent(&whole) == 45 && handed_out(whole) == 45);
}
