//! Texts that are lent from the source.

use serde_yaml::{Limits, data_from_str};
use std::process::Abort;
use yaml_shape::{Data, Schema, Shape, ShapeId, Text};

// The text of data, if that is one.
fn text_in<'de>(content: Data<'de>) -> Option<Text<'de>> {
    match content {
        Data::Str(text) => Some(text),
        _ => None,
    }
}

// The text that a source is; the reader and the schema are gone when it is answered.
fn text_of<'de>(rt: &(impl Abort + AllocGlobal), source: &'de str) -> Option<Text<'de>> {
    let shapes = vec![in rt.alloc(); Shape::Str].expect(rt, "memory");
    let schema = Schema::new(rt.alloc(), shapes).expect(rt, "a schema");
    let id = ShapeId(0);
    if !schema.has(id) {
        return None;
    }
    let found = data_from_str(rt.alloc(), source, &schema, id, Limits::DEFAULT);
    text_in(found.expect(rt, "data"))
}

// Whether a text is lent, and is this one and no other.
fn is(found: &Option<Text<'_>>, lent: bool, text: &str) -> bool {
    match found {
        Some(found) => {
            matches!(found, Text::Borrowed(_)) == lent
                && *found == Text::Borrowed(text)
                && *found != Text::Borrowed("other")
        }
        None => false,
    }
}

#[test]
fn lends_a_text_where_the_source_shows_it(rt: HostRuntime) {
    for &(source, lent, text) in &[
        ("'it'", true, "it"),
        ("'it''s'", false, "it's"),
        ("a", true, "a"),
        ("|-\n  a", false, "a"),
    ] {
        assert!(rt; is(&text_of(&rt, source), lent, text), "{source}");
    }
}
