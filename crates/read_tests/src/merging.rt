//! Texts whose merge keys are kept, applied or refused.

use serde_yaml::{
    Data, Limits, Merge, ReaderFault, Result, Schema, SchemaFault, Shape, ShapeId,
    data_from_slice_merging, data_from_slice_merging_limited, from_reader_merging,
    from_slice_merging, from_slice_merging_limited, from_str_merging,
};
use std::alloc::Global;
use std::collections::BTreeMap;

// Numbers by names, by names.
type Numbers = BTreeMap<String, BTreeMap<String, u16>>;

// How many numbers a text has at the name `b`.
fn count(alloc: Global, text: &str, merge: Merge) -> Result<usize> {
    let found: Numbers = from_str_merging(alloc, text, merge)?;
    let name = String::from_str(alloc, "b")?;
    match found.get(&name) {
        Some(numbers) => Ok(numbers.len()),
        None => Ok(0),
    }
}

// The line and the column of a text's fault; noughts where there is none, or none with a place.
fn place(alloc: Global, text: &str, merge: Merge) -> (usize, usize) {
    let found: Result<Numbers> = from_slice_merging(alloc, text.as_bytes(), merge);
    match found {
        Ok(_) => (0, 0),
        Err(fault) => match fault.location() {
            Some(location) => (location.line(), location.column()),
            None => (0, 0),
        },
    }
}

#[test]
fn merge_keys_are_applied(rt: HostRuntime) {
    for &(text, numbers) in &[
        ("a: &a {x: 1, y: 2}\nb: {<<: *a, y: 3}\n", 2usize),
        ("a: &a {x: 1, y: 2}\nb: {<<: [*a, {z: 3}]}\n", 3),
        ("a: &a {x: 1}\nc: &c {<<: *a, y: 2}\nb: {<<: *c}\n", 2),
        ("b: {x: 1}\n", 1),
    ] {
        let found = count(rt.alloc(), text, Merge::Apply).expect(&rt, "numbers");
        assert_eq!(rt; found, numbers, "{text}");
    }
}

#[test]
fn merge_keys_are_refused_or_kept(rt: HostRuntime) {
    for &(text, merge, line, column) in &[
        ("a: &a {x: 1}\nb: {<<: *a}\n", Merge::Refuse, 2usize, 5usize),
        ("a: &a {x: 1}\nb: {<<: *a}\n", Merge::Keep, 1, 4),
        ("a: {<<: 1}\n", Merge::Apply, 1, 9),
        ("a: {'<<': 1}\n", Merge::Refuse, 0, 0),
    ] {
        let found = place(rt.alloc(), text, merge);
        assert_eq!(rt; found, (line, column), "{text}");
    }
}

// Whether numbers are read of a text within limits.
fn is_within(alloc: Global, text: &str, merge: Merge, limits: Limits) -> bool {
    let found: Result<Numbers> = from_slice_merging_limited(alloc, text.as_bytes(), merge, limits);
    found.is_ok()
}

// An entry that is merged is followed, and nests as where it stands.
#[test]
fn merging_is_within_limits(rt: HostRuntime) {
    for &(text, merge, nesting, follows, enough) in &[
        ("a: &a {x: 1}\nb: {<<: *a}\n", Merge::Apply, 2u8, 1u16, true),
        ("a: &a {x: 1}\nb: {<<: *a}\n", Merge::Apply, 1, 1, false),
        ("a: &a {x: 1}\nb: {<<: *a}\n", Merge::Apply, 2, 0, false),
        ("a: {x: 1}\nb: {y: 2}\n", Merge::Apply, 2, 0, true),
        ("a: {x: 1}\nb: {y: 2}\n", Merge::Refuse, 1, 0, false),
    ] {
        let limits = Limits::new(nesting, follows).expect(&rt, "limits");
        let found = is_within(rt.alloc(), text, merge, limits);
        assert_eq!(rt; found, enough, "{text}");
    }
}

// How many numbers what a reader gives has at the name `b`.
fn count_of_reader(
    alloc: Global,
    text: &str,
    merge: Merge,
) -> std::result::Result<usize, ReaderFault> {
    let mut reader = text.as_bytes();
    let found: Numbers = from_reader_merging(alloc, &mut reader, merge)?;
    match found.get("b") {
        Some(numbers) => Ok(numbers.len()),
        None => Ok(0),
    }
}

#[test]
fn what_a_reader_gives_is_merged(rt: HostRuntime) {
    let text = "a: &a {x: 1, y: 2}\nb: {<<: *a, 'y': 3, z: 4}\n";
    let count = count_of_reader(rt.alloc(), text, Merge::Apply).expect(&rt, "numbers");
    assert_eq!(rt; count, 3);
    for &(text, merge, wanted) in &[
        (
            text,
            Merge::Refuse,
            "merge keys are not allowed at line 2 column 5",
        ),
        (
            "b: {<<: 1}\n",
            Merge::Apply,
            "expected a mapping or list of mappings for merging, but found scalar at line 1 column 9",
        ),
    ] {
        let fault = count_of_reader(rt.alloc(), text, merge).expect_err(&rt, "no numbers");
        assert!(rt; matches!(&fault, ReaderFault::Text(_)), "{text}");
        let told = fault.to_string(rt.alloc()).expect(&rt, "memory");
        assert_eq!(rt; told.as_str(), wanted);
    }
}

// The data of any kind that a text stands for, within limits or within the usual ones.
fn of_any_kind<'de>(alloc: Global, text: &'de str, limits: Option<Limits>) -> Result<Data<'de>> {
    let mut shapes = Vec::new(alloc);
    shapes.push(Shape::Any)?;
    let schema = match Schema::new(alloc, shapes) {
        Ok(schema) => schema,
        Err(fault) => return Err(fault.into_error(alloc)),
    };
    let id = ShapeId(0);
    if !schema.has(id) {
        return Err(SchemaFault::OutsideTable(0).into_error(alloc));
    }
    let bytes = text.as_bytes();
    match limits {
        Some(limits) => {
            data_from_slice_merging_limited(alloc, bytes, &schema, id, Merge::Apply, limits)
        }
        None => data_from_slice_merging(alloc, bytes, &schema, id, Merge::Apply),
    }
}

// The number at the key `x` of a list's second mapping.
fn second(found: Data<'_>) -> Option<u64> {
    match found {
        Data::Any(list) => list.get(1usize)?.get("x")?.as_u64(),
        _ => None,
    }
}

#[test]
fn merged_data_is_within_limits(rt: HostRuntime) {
    for &(text, nesting, follows, wanted) in &[
        ("[&a {x: 7}, {<<: *a, y: 8}]", 2u8, 1u16, Some(7u64)),
        ("[&a {x: 7}, {<<: *a, x: 8}]", 2, 0, Some(8)),
        ("[&a {x: 7}, {<<: *a}]", 2, 0, None),
        ("[&a {x: 7}, {<<: *a}]", 1, 1, None),
    ] {
        let limits = Limits::new(nesting, follows).expect(&rt, "limits");
        let found = match of_any_kind(rt.alloc(), text, Some(limits)) {
            Ok(found) => second(found),
            Err(_) => None,
        };
        assert_eq!(rt; found, wanted, "{text}");
        let usual = of_any_kind(rt.alloc(), text, None).expect(&rt, "data");
        assert!(rt; second(usual).is_some(), "{text}");
    }
}
