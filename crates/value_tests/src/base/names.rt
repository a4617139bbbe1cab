//! Tags, anchors and scalars: bytes that need not be text.

use crate::texts::shows;
use std::cmp::Ordering;
use std::process::Abort;
use yaml_base::{Anchor, Scalar, ScalarStyle, Tag, parse_tag};

// A name, a text, how they are ordered, whether the name begins with the text, and the local name of the name as a tag.
type Row = (
    &'static [u8],
    &'static str,
    Ordering,
    bool,
    Option<&'static str>,
);

const NAMES: &[Row] = &[
    (
        b"tag:yaml.org,2002:int",
        Tag::INT,
        Ordering::Equal,
        true,
        None,
    ),
    (
        b"tag:yaml.org,2002:int",
        Tag::NULL,
        Ordering::Less,
        false,
        None,
    ),
    (
        b"tag:yaml.org,2002:int",
        "tag:yaml.org,2002:i",
        Ordering::Greater,
        true,
        None,
    ),
    (
        b"tag:yaml.org,2002:float",
        Tag::FLOAT,
        Ordering::Equal,
        true,
        None,
    ),
    (
        b"tag:yaml.org,2002:bool",
        Tag::BOOL,
        Ordering::Equal,
        true,
        None,
    ),
    (
        b"tag:yaml.org,2002:null",
        Tag::NULL,
        Ordering::Equal,
        true,
        None,
    ),
    (b"!Variant", "!", Ordering::Greater, true, Some("Variant")),
    (b"!", "!", Ordering::Equal, true, Some("!")),
    (b"!\xff", "!", Ordering::Greater, true, None),
    (b"b", "a\0", Ordering::Greater, false, None),
    (b"a", "a\0", Ordering::Less, false, None),
    (b"a\x00\xff", "b", Ordering::Less, false, None),
];

// The bytes, owned.
fn owned(rt: &(impl Abort + AllocGlobal), bytes: &[u8]) -> Vec<u8> {
    Vec::from_slice(rt.alloc(), bytes).expect(rt, "memory")
}

// Whether a row is right of tags.
fn is_of_tags(rt: &(impl Abort + AllocGlobal), row: &Row) -> bool {
    let tag = Tag::new(owned(rt, row.0));
    let other = Tag::new(owned(rt, row.1.as_bytes()));
    let equal = row.2 == Ordering::Equal;
    tag.as_slice() == row.0
        && tag.cmp(&other) == row.2
        && (tag == other) == equal
        && tag.is(row.1) == equal
        && tag.starts_with(row.1) == row.3
        && parse_tag(Some(&tag)) == row.4
}

// Whether a row is right of anchors.
fn is_of_anchors(rt: &(impl Abort + AllocGlobal), row: &Row) -> bool {
    let anchor = Anchor::new(owned(rt, row.0));
    let other = Anchor::new(owned(rt, row.1.as_bytes()));
    anchor.as_slice() == row.0
        && anchor.cmp(&other) == row.2
        && (anchor == other) == (row.2 == Ordering::Equal)
}

#[test]
fn names_are_compared_by_their_bytes(rt: HostRuntime) {
    for row in NAMES {
        assert!(rt;
            is_of_tags(&rt, row) && is_of_anchors(&rt, row),
            "{}",
            row.1
        );
    }
}

// The bytes of a scalar's anchor and of its tag, if it has them, its style, and what it shows in debug.
const SCALARS: &[(Option<&[u8]>, ScalarStyle, &str)] = &[
    (
        Some(b"!\x00\x1f \xff"),
        ScalarStyle::SingleQuoted,
        "Scalar { anchor: Some(\"!\\x00\\x1f \\xff\"), tag: Some(\"!\\x00\\x1f \\xff\"), value: \"x\\\"\", \
            style: SingleQuoted }",
    ),
    (
        None,
        ScalarStyle::Plain,
        "Scalar { anchor: None, tag: None, value: \"x\\\"\", style: Plain }",
    ),
    (
        None,
        ScalarStyle::DoubleQuoted,
        "Scalar { anchor: None, tag: None, value: \"x\\\"\", style: DoubleQuoted }",
    ),
    (
        None,
        ScalarStyle::Literal,
        "Scalar { anchor: None, tag: None, value: \"x\\\"\", style: Literal }",
    ),
    (
        None,
        ScalarStyle::Folded,
        "Scalar { anchor: None, tag: None, value: \"x\\\"\", style: Folded }",
    ),
];

// A scalar with these bytes as its anchor and its tag, if there are any.
fn scalar(
    rt: &(impl Abort + AllocGlobal),
    names: Option<&[u8]>,
    style: ScalarStyle,
) -> Scalar<'static> {
    let (anchor, tag) = match names {
        Some(bytes) => (
            Some(Anchor::new(owned(rt, bytes))),
            Some(Tag::new(owned(rt, bytes))),
        ),
        None => (None, None),
    };
    Scalar {
        anchor,
        tag,
        value: owned(rt, b"x\""),
        style,
        repr: None,
    }
}

#[test]
fn bytes_are_shown_between_quotes(rt: HostRuntime) {
    for &(names, style, wanted) in SCALARS {
        shows(&rt, &scalar(&rt, names, style), wanted);
    }
}
