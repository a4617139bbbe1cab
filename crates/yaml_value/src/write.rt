//! Values as they are written by the crate `serde`.

use crate::mapping::{Entry, Mapping};
use crate::number::{Form, Number};
use crate::rest::Shared;
use crate::sequence::Sequence;
use crate::value::{TaggedValue, Value};
use serde::{Case, Described, Serialize, Serializer};

impl Described for Number {}

impl Described for Mapping {}

impl Described for Value {}

impl Serialize for Number {
    fn serialize<S: Serializer>(&self, out: &mut S) -> Result<(), S::Error> {
        match self.form {
            Form::Unsigned(n) => send_unsigned(n, out),
            Form::Negative(n) => send_negative(n, out),
            Form::Float(x) => out.f64(x),
        }
    }
}

// A format may take wide integers for another kind, or none at all.
fn send_unsigned<S: Serializer>(n: u128, out: &mut S) -> Result<(), S::Error> {
    match u64::try_from(n) {
        Ok(n) => out.u64(n),
        Err(_) => out.u128(n),
    }
}

fn send_negative<S: Serializer>(n: i128, out: &mut S) -> Result<(), S::Error> {
    match i64::try_from(n) {
        Ok(n) => out.i64(n),
        Err(_) => out.i128(n),
    }
}

impl Serialize for Mapping {
    fn serialize<S: Serializer>(&self, out: &mut S) -> Result<(), S::Error> {
        send_mapping(self, out)
    }
}

impl<K> Described for Shared<K> {}

impl<K> Serialize for Shared<K> {
    fn serialize<S: Serializer>(&self, out: &mut S) -> Result<(), S::Error> {
        send_mapping(&self.mapping, out)
    }
}

/// In YAML a tag is written as one. Other formats get a map of one pair, whose key is the tag with its `!`.
impl Serialize for Value {
    fn serialize<S: Serializer>(&self, out: &mut S) -> Result<(), S::Error> {
        send(self, out)
    }
}

#[cycle(send)]
fn send<S: Serializer>(value: &Value, out: &mut S) -> Result<(), S::Error> {
    match value {
        Value::Null => out.unit(),
        Value::Bool(truth) => out.bool(*truth),
        Value::Number(number) => number.serialize(out),
        Value::String(text) => out.str(text.as_str()),
        Value::Sequence(sequence) => send_sequence(sequence, out),
        Value::Mapping(mapping) => send_mapping(mapping, out),
        Value::Tagged(tagged) => send_tagged(tagged, out),
    }
}

#[cycle(send)]
fn send_tagged<S: Serializer>(tagged: &TaggedValue, out: &mut S) -> Result<(), S::Error> {
    out.begin_map(Some(1))?;
    out.variant_key(tagged.tag.as_str(), Case::AsIs)?;
    send(&tagged.value, out)?;
    out.end_map()
}

#[cycle(send)]
fn send_sequence<S: Serializer>(sequence: &Sequence, out: &mut S) -> Result<(), S::Error> {
    out.begin_seq(Some(sequence.items.len()))?;
    for item in &sequence.items {
        send(item, out)?;
    }
    out.end_seq()
}

#[cycle(send)]
fn send_mapping<S: Serializer>(mapping: &Mapping, out: &mut S) -> Result<(), S::Error> {
    out.begin_map(Some(mapping.entries.len()))?;
    for entry in &mapping.entries {
        send_entry(entry, out)?;
    }
    out.end_map()
}

#[cycle(send)]
fn send_entry<S: Serializer>(entry: &Entry, out: &mut S) -> Result<(), S::Error> {
    out.begin_key()?;
    send(&entry.key, out)?;
    out.end_key()?;
    send(&entry.value, out)
}
