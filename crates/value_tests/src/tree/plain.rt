//! Values written down in place, for tables.
use crate::texts::owned;
use std::process::Abort;
use yaml_tree::{Mapping, Number, Sequence, Tag, TaggedValue, Value};

/// A value without parts, as a literal.
#[derive(Drop)]
pub enum Plain {
    Null,
    Bool(bool),
    Unsigned(u64),
    Signed(i64),
    Text(&'static str),
    /// The text `a` under this tag.
    Tagged(&'static str),
}

/// A value under a tag.
pub fn tagged(rt: &(impl Abort + AllocGlobal), tag: &str, value: Value) -> Value {
    let tag = Tag::new(rt.alloc(), tag).expect(rt, "a tag");
    let tagged = TaggedValue { tag, value };
    Value::Tagged(Box::new(rt.alloc(), tagged).expect(rt, "memory"))
}

/// The value of a literal.
pub fn value(rt: &(impl Abort + AllocGlobal), plain: &Plain) -> Value {
    match plain {
        Plain::Null => Value::Null,
        Plain::Bool(truth) => Value::Bool(*truth),
        Plain::Unsigned(number) => Value::Number(Number::from_u64(*number)),
        Plain::Signed(number) => Value::Number(Number::from_i64(*number)),
        Plain::Text(text) => Value::String(owned(rt, text)),
        Plain::Tagged(tag) => tagged(rt, tag, Value::String(owned(rt, "a"))),
    }
}

/// The sequence of these values.
pub fn sequence(rt: &(impl Abort + AllocGlobal), items: &[Plain]) -> Sequence {
    let mut sequence = Sequence::from(Vec::new(rt.alloc()));
    for item in items {
        sequence.push(value(rt, item)).expect(rt, "memory");
    }
    sequence
}

/// Puts a number at a key of a mapping, and says whether the key was there.
pub fn put(
    rt: &(impl Abort + AllocGlobal),
    mapping: &mut Mapping,
    key: &Plain,
    number: u64,
) -> bool {
    let number = Value::Number(Number::from_u64(number));
    mapping
        .insert(value(rt, key), number)
        .expect(rt, "memory")
        .is_some()
}

/// The mapping of these keys to these numbers.
pub fn mapping(rt: &(impl Abort + AllocGlobal), pairs: &[(Plain, u64)]) -> Mapping {
    let mut mapping = Mapping::new(rt.alloc());
    for (key, number) in pairs {
        put(rt, &mut mapping, key, *number);
    }
    mapping
}
