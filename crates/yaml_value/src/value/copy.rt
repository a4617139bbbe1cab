//! Copies of values.

ghost use Rattle.std.specs.Prelude.{◌≡◌, IfOk};
ghost use Rattle.yaml_value.specs.View.{plain, plain_pairs, plain_sequence, plain_tagged};
ghost use Rattle.yaml_value.specs.Entries.{SameEntry};

use crate::mapping::{Entry, Mapping};
use crate::sequence::Sequence;
use crate::value::{TaggedValue, Value};
use std::alloc::{AllocError, Global};

impl Value {
    /// A copy: an equal value, with the pairs of mappings in the same order.
    pub fn copy(&self, alloc: Global) -> Result<Value, AllocError>
        ensures { IfOk result (λ copied. plain copied ≡ plain self.now) }
    {
        copy_value(alloc, self)
    }
}

impl Mapping {
    /// A copy: the same pairs in the same order.
    pub fn copy(&self, alloc: Global) -> Result<Mapping, AllocError>
        ensures { IfOk result (λ copied. plain_pairs copied ≡ plain_pairs self.now) }
    {
        copy_mapping(alloc, self)
    }
}

#[cycle(copy)]
fn copy_value(alloc: Global, value: &Value) -> Result<Value, AllocError>
    ensures { IfOk result (λ copied. plain copied ≡ plain value.now) }
{
    match value {
        Value::Null => Ok(Value::Null),
        Value::Bool(truth) => Ok(Value::Bool(*truth)),
        Value::Number(number) => Ok(Value::Number(*number)),
        Value::String(text) => Ok(Value::String(text.clone()?)),
        Value::Sequence(sequence) => Ok(Value::Sequence(copy_sequence(alloc, sequence)?)),
        Value::Mapping(mapping) => Ok(Value::Mapping(copy_mapping(alloc, mapping)?)),
        Value::Tagged(tagged) => {
            let copied = copy_tagged(alloc, tagged)?;
            Ok(Value::Tagged(Box::new(alloc, copied)?))
        }
    }
}

#[cycle(copy)]
fn copy_tagged(alloc: Global, tagged: &TaggedValue) -> Result<TaggedValue, AllocError>
    ensures { IfOk result (λ copied. plain_tagged copied ≡ plain_tagged tagged.now) }
{
    let tag = tagged.tag.copy()?;
    let value = copy_value(alloc, &tagged.value)?;
    Ok(TaggedValue { tag, value })
}

#[cycle(copy)]
fn copy_sequence(alloc: Global, sequence: &Sequence) -> Result<Sequence, AllocError>
    ensures { IfOk result (λ copied. plain_sequence copied ≡ plain_sequence sequence.now) }
{
    let mut items = Vec::with_capacity(alloc, sequence.items.len())?;
    for item in &sequence.items {
        items.push(copy_value(alloc, item)?)?;
    }
    Ok(Sequence { items })
}

#[cycle(copy)]
fn copy_mapping(alloc: Global, mapping: &Mapping) -> Result<Mapping, AllocError>
    ensures { IfOk result (λ copied. plain_pairs copied ≡ plain_pairs mapping.now) }
{
    let mut entries = Vec::with_capacity(alloc, mapping.entries.len())?;
    for entry in &mapping.entries {
        let copied = copy_entry(alloc, entry)?;
        entries.push(copied)?;
    }
    Ok(Mapping { entries })
}

#[cycle(copy)]
fn copy_entry(alloc: Global, entry: &Entry) -> Result<Entry, AllocError>
    ensures { IfOk result (λ copied. SameEntry copied entry.now) }
{
    let key = copy_value(alloc, &entry.key)?;
    let value = copy_value(alloc, &entry.value)?;
    Ok(Entry {
        key,
        value,
        last: entry.last,
        earlier: entry.earlier,
    })
}
