//! Copies of values.
ghost use Rattle.std.specs.Prelude.{◌≡◌, IfOk};
ghost use Rattle.yaml_tree.specs.Entries.{SameEntry, SameTagged};
ghost use Rattle.yaml_tree.specs.Valid.{pairs_of, values_of};
ghost use Rattle.yaml_tree.specs.View.{tree_of};

use crate::fault::TreeFault;
use crate::mapping::{Entry, Mapping};
use crate::sequence::Sequence;
use crate::tag::Tag;
use crate::value::{TaggedValue, Value};
use std::alloc::{AllocError, Global};

impl Value {
    ghost use Rattle.std.specs.Prelude.{◌≡◌, IfErr, IfOk};
    ghost use Rattle.yaml_tree.specs.View.{tree_of};

    /// A copy: an equal value, with the pairs of mappings in the same order and the same texts of tags. The only fault
    /// is `Memory`.
    pub fn copy(&self, alloc: Global) -> Result<Value, TreeFault>
        ensures ok { IfOk result (λ copied. tree_of copied ≡ tree_of self.now) }
        ensures memory { IfErr result (λ e. e ≡ TreeFault.Memory) }
    {
        match copy_value(alloc, self) {
            Ok(copied) => Ok(copied),
            Err(_) => Err(TreeFault::Memory),
        }
    }
}

#[cycle(copy)]
fn copy_value(alloc: Global, value: &Value) -> Result<Value, AllocError>
    ensures { IfOk result (λ copied. tree_of copied ≡ tree_of value.now) }
{
    match value {
        Value::Null => Ok(Value::Null),
        Value::Bool(truth) => Ok(Value::Bool(*truth)),
        Value::Number(number) => Ok(Value::Number(*number)),
        Value::String(text) => Ok(Value::String(text.clone()?)),
        Value::Sequence(items) => Ok(Value::Sequence(copy_items(alloc, items)?)),
        Value::Mapping(mapping) => Ok(Value::Mapping(copy_mapping(alloc, mapping)?)),
        Value::Tagged(tagged) => {
            let copied = copy_tagged(alloc, tagged)?;
            Ok(Value::Tagged(Box::new(alloc, copied)?))
        }
    }
}

#[cycle(copy)]
fn copy_tagged(alloc: Global, tagged: &TaggedValue) -> Result<TaggedValue, AllocError>
    ensures { IfOk result (λ copied. SameTagged copied tagged.now) }
{
    let tag = tagged.tag.copy()?;
    let value = copy_value(alloc, &tagged.value)?;
    Ok(TaggedValue { tag, value })
}

#[cycle(copy)]
fn copy_items(alloc: Global, sequence: &Sequence) -> Result<Sequence, AllocError>
    ensures { IfOk result (λ copied. values_of copied ≡ values_of sequence.now) }
{
    let mut items = Vec::with_capacity(alloc, sequence.items.len())?;
    for item in &sequence.items {
        items.push(copy_value(alloc, item)?)?;
    }
    Ok(Sequence { items })
}

#[cycle(copy)]
fn copy_mapping(alloc: Global, mapping: &Mapping) -> Result<Mapping, AllocError>
    ensures { IfOk result (λ copied. pairs_of copied ≡ pairs_of mapping.now) }
{
    let mut entries = Vec::with_capacity(alloc, mapping.entries.len())?;
    for entry in &mapping.entries {
        let copied = copy_entry(alloc, entry)?;
        entries.push(copied)?;
    }
    Ok(Mapping { entries })
}

#[cycle(copy)]
fn copy_entry(alloc: Global, entry: &Entry) -> Result<Entry, AllocError>
    ensures { IfOk result (λ copied. SameEntry copied entry.now) }
{
    let key = copy_value(alloc, &entry.key)?;
    let value = copy_value(alloc, &entry.value)?;
    Ok(Entry {
        key,
        value,
        last: entry.last,
        earlier: entry.earlier,
    })
}
