//! Changing a value in place.

ghost use Rattle.std.specs.Prelude.{◌≡◌, IfOk, IfSome, IsSomeAnd, OnErr, option_and_then, option_map};
ghost use Rattle.yaml_value.specs.Change.{Inserts, Removes};
ghost use Rattle.yaml_value.specs.Find.{IsValueAt, get, item_in_place, items_in, pairs_in};
ghost use Rattle.yaml_value.specs.PlainValue.{null, tagged, text as plain_text};
ghost use Rattle.yaml_value.specs.View.{plain, plain_items, plain_pairs, plain_tagged, tag_text};

use crate::mapping::Mapping;
use crate::tag::Tag;
use crate::value::{TaggedValue, Value};
use std::alloc::{AllocError, Global};
use std::mem;

// Puts a value at a key of the mapping that a value is, or becomes of null. What is neither gives it back.
#[cycle(put)]
fn put_at(
    value: &mut Value,
    alloc: Global,
    key: Value,
    part: Value,
) -> Result<Option<Value>, AllocError>
    ensures put { IfOk result (λ told. Inserts (plain key) (plain part) (plain value.old) (plain value.new)
        (option_map plain told)) }
    ensures err { OnErr result (plain value.new ≡ plain value.old) }
{
    match value.take() {
        Value::Null => {
            let mut mapping = Mapping::new(alloc);
            mapping.append(key, part)?;
            *value = Value::Mapping(mapping);
            Ok(None)
        }
        Value::Mapping(mut mapping) => {
            let told = mapping.insert(key, part);
            *value = Value::Mapping(mapping);
            told
        }
        Value::Tagged(mut tagged) => {
            let told = put_under(&mut *tagged, alloc, key, part);
            *value = Value::Tagged(tagged);
            told
        }
        whole => {
            *value = whole;
            Ok(Some(part))
        }
    }
}

// The same of what a tag is around.
#[cycle(put)]
fn put_under(
    tagged: &mut TaggedValue,
    alloc: Global,
    key: Value,
    part: Value,
) -> Result<Option<Value>, AllocError>
    ensures tag { (plain_tagged tagged.new).0 ≡ (plain_tagged tagged.old).0 }
    ensures put { IfOk result (λ told. Inserts (plain key) (plain part) (plain_tagged tagged.old).1
        (plain_tagged tagged.new).1 (option_map plain told)) }
    ensures err { OnErr result ((plain_tagged tagged.new).1 ≡ (plain_tagged tagged.old).1) }
{
    put_at(&mut tagged.value, alloc, key, part)
}

// Takes the value at a key that is a text out of the mapping that a value is.
#[cycle(remove)]
fn remove_at(value: &mut Value, key: &str) -> Option<Value>
    ensures taken { Removes (plain_text key.now) (plain value.old) (plain value.new) (option_map plain result) }
    ensures answer { option_map plain result ≡ get key.now (plain value.old) }
{
    match value.take() {
        Value::Mapping(mut mapping) => {
            let told = mapping.remove(key);
            *value = Value::Mapping(mapping);
            told
        }
        Value::Tagged(mut tagged) => {
            let told = remove_under(&mut *tagged, key);
            *value = Value::Tagged(tagged);
            told
        }
        whole => {
            *value = whole;
            None
        }
    }
}

// The same of what a tag is around.
#[cycle(remove)]
fn remove_under(tagged: &mut TaggedValue, key: &str) -> Option<Value>
    ensures tag { (plain_tagged tagged.new).0 ≡ (plain_tagged tagged.old).0 }
    ensures taken { Removes (plain_text key.now) (plain_tagged tagged.old).1 (plain_tagged tagged.new).1
        (option_map plain result) }
    ensures answer { option_map plain result ≡ get key.now (plain_tagged tagged.old).1 }
{
    remove_at(&mut tagged.value, key)
}

impl Value {
    /// A text, which is copied.
    pub fn text(alloc: Global, text: &str) -> Result<Value, AllocError>
        ensures { IfOk result (λ value. plain value ≡ plain_text text.now) }
    {
        Ok(Value::String(String::from_str(alloc, text)?))
    }

    /// A value under a tag.
    pub fn under_tag(alloc: Global, tag: Tag, value: Value) -> Result<Value, AllocError>
        ensures { IfOk result (λ under. plain under ≡ tagged (tag_text tag) (plain value)) }
    {
        Ok(Value::Tagged(Box::new(alloc, TaggedValue { tag, value })?))
    }

    /// The sequence that it is, to be changed.
    pub fn as_sequence_mut(&mut self) -> Option<&mut Vec<Value>>
        ensures value { option_map (λ items. plain_items items.now.items) result ≡ items_in (plain self.old) }
    {
        match self {
            Value::Sequence(sequence) => Some(&mut sequence.items),
            Value::Tagged(tagged) => tagged.value.as_sequence_mut(),
            _ => None,
        }
    }

    /// The mapping that it is, to be changed.
    pub fn as_mapping_mut(&mut self) -> Option<&mut Mapping>
        ensures value { option_map (λ mapping. plain_pairs mapping.now) result ≡ pairs_in (plain self.old) }
    {
        match self {
            Value::Mapping(mapping) => Some(mapping),
            Value::Tagged(tagged) => tagged.value.as_mapping_mut(),
            _ => None,
        }
    }

    /// The value at a key that is a text, to be changed, as `get` finds it.
    pub fn get_mut(&mut self, key: &str) -> Option<&mut Value>
        ensures found { IfSome result (λ value. IsSomeAnd (pairs_in (plain self.old))
            (λ pairs. IsValueAt (plain_text key.now) pairs (plain value.now))) }
        ensures value { option_map (λ value. plain value.now) result ≡ get key.now (plain self.old) }
    {
        self.as_mapping_mut()?.get_mut(key)
    }

    /// The element in a place of a sequence, to be changed.
    pub fn at_mut(&mut self, place: usize) -> Option<&mut Value>
        ensures { option_map (λ value. plain value.now) result
            ≡ option_and_then (item_in_place place) (items_in (plain self.old)) }
    {
        let items = self.as_sequence_mut()?;
        if place < items.len() {
            Some(&mut items[place])
        } else {
            None
        }
    }

    /// Puts a value at a key that is a text, and answers the one that was there. Null becomes a mapping first. What is
    /// neither stays as it is, and the value is given back. Where memory is wanting, it stays as it was.
    pub fn insert(
        &mut self,
        alloc: Global,
        key: &str,
        value: Value,
    ) -> Result<Option<Value>, AllocError>
        ensures put { IfOk result (λ told. Inserts (plain_text key.now) (plain value) (plain self.old)
            (plain self.new) (option_map plain told)) }
        ensures err { OnErr result (plain self.new ≡ plain self.old) }
    {
        let key = Value::text(alloc, key)?;
        put_at(self, alloc, key, value)
    }

    /// Takes the value at a key that is a text out of the mapping that it is. The others stay in their order.
    pub fn remove(&mut self, key: &str) -> Option<Value>
        ensures taken { Removes (plain_text key.now) (plain self.old) (plain self.new) (option_map plain result) }
        ensures answer { option_map plain result ≡ get key.now (plain self.old) }
    {
        remove_at(self, key)
    }

    /// Takes the value out, and leaves null.
    pub fn take(&mut self) -> Value
        ensures value { plain result ≡ plain self.old }
        ensures left { plain self.new ≡ null }
    {
        mem::replace(self, Value::Null)
    }
}
