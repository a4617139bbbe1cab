//! Sequences of values.
ghost use Rattle.std.specs.Prelude.{◌≡◌, ◌++◌, ◌∷◌, [], IfErr, OnErr, OnOk};

use crate::fault::TreeFault;
use crate::value::Value;
use std::marker::Model;
use std::{slice, vec};

/// Values in order.
#[cycle(value)]
#[derive(Drop)]
pub struct Sequence {
    pub(crate) items: Vec<Value>,
}

impl Model for Sequence {
    ghost use Rattle.yaml_tree.specs.Tree.{trees_size};
    ghost use Rattle.yaml_tree.specs.Valid.{ValueTrees, value_trees_code, values_of};

    ghost Value = { ValueTrees };

    ghost coded = { value_trees_code };

    ghost use Rattle.yaml_tree.specs.View.{trees_of, are_values-trees_of};

    ghost view = { λ s. (trees_of s.items.items, are_values-trees_of s.items.items) };

    ghost size = { λ s. trees_size (values_of s) };

    ghost use Rattle.std.proofs.Common.{arith};
    ghost use Rattle.yaml_tree.specs.Falls.{most-Value_le};

    ghost size_decreases = { λ s h. omega (arith, most-Value_le s.items.items) };
}

impl From<Vec<Value>> for Sequence {
    ghost use Rattle.std.specs.Prelude.{◌≡◌};
    ghost use Rattle.yaml_tree.specs.Valid.{values_of};
    ghost use Rattle.yaml_tree.specs.View.{trees_of};

    ghost from_gives = { λ items s. values_of s ≡ trees_of items.items };

    /// The sequence of these values. It takes no memory.
    fn from(items: Vec<Value>) -> Sequence {
        Sequence { items }
    }
}

impl Sequence {
    ghost use Rattle.std.specs.Prelude.{◌≡◌, ◌↔◌, option_map, IfErr, IsTrue, OnErr, OnOk};
    ghost use Rattle.std.specs.Slice.Iter.{iter_rest};
    ghost use Rattle.yaml_tree.specs.Tree.{no_trees, tree_at, tree_count, with_tree};
    ghost use Rattle.yaml_tree.specs.Valid.{values_of};
    ghost use Rattle.yaml_tree.specs.View.{tree_of, trees_of};

    /// The values, given back as they were handed in. It takes no memory.
    pub fn into_vec(self) -> Vec<Value>
        ensures { trees_of result.items ≡ values_of self }
    {
        self.items
    }

    /// The values in order.
    pub fn as_slice(&self) -> &[Value]
        ensures { trees_of result.now ≡ values_of self.now }
    {
        self.items.as_slice()
    }

    /// How many values there are.
    pub fn len(&self) -> usize
        ensures { result ≡ tree_count (values_of self.now) }
    {
        self.items.len()
    }

    /// Whether there is no value.
    pub fn is_empty(&self) -> bool
        ensures { IsTrue result ↔ (values_of self.now ≡ no_trees) }
    {
        self.len() == 0
    }

    /// The value at a place, counted from 0.
    pub fn get(&self, index: usize) -> Option<&Value>
        ensures { option_map (λ v. tree_of v.now) result ≡ tree_at (values_of self.now) index }
    {
        let items = self.items.as_slice();
        if index < items.len() {
            Some(&items[index])
        } else {
            None
        }
    }

    /// Goes over the values in order.
    pub fn iter(&self) -> slice::Iter<'_, Value>
        ensures { trees_of (iter_rest result) ≡ values_of self.now }
    {
        self.items.iter()
    }

    /// Adds a value at the end. The only fault is `Memory`: the sequence is as it was, and the value is dropped.
    pub fn push(&mut self, value: Value) -> Result<(), TreeFault>
        ensures ok { let old = values_of self.old in
            OnOk result (values_of self.new ≡ with_tree old (tree_of value)) }
        ensures memory { IfErr result (λ e. e ≡ TreeFault.Memory) }
        ensures err { OnErr result (self.new ≡ self.old) }
    {
        add(&mut self.items, value)
    }
}

fn add(items: &mut Vec<Value>, value: Value) -> Result<(), TreeFault>
    ensures ok { OnOk result (items.new.items ≡ items.old.items ++ value ∷ []) }
    ensures memory { IfErr result (λ e. e ≡ TreeFault.Memory) }
    ensures err { OnErr result (items.new.items ≡ items.old.items) }
{
    match items.push(value) {
        Ok(()) => Ok(()),
        Err(_) => Err(TreeFault::Memory),
    }
}

impl IntoIterator for Sequence {
    type Item = Value;

    type IntoIter = vec::IntoIter<Value>;

    ghost use Rattle.std.specs.Prelude.{◌≡◌};
    ghost use Rattle.std.specs.Vec.Iter.{into_iter_items};
    ghost use Rattle.yaml_tree.specs.Valid.{values_of};
    ghost use Rattle.yaml_tree.specs.View.{trees_of};

    ghost into_iter_gives = { λ sequence items.
        trees_of (into_iter_items items) ≡ values_of sequence };

    /// The values in order, handed out. Takes no memory.
    fn into_iter(self) -> vec::IntoIter<Value> {
        self.items.into_iter()
    }
}

impl<'a> IntoIterator for &'a Sequence {
    type Item = &'a Value;

    type IntoIter = slice::Iter<'a, Value>;

    ghost use Rattle.std.specs.Prelude.{◌≡◌};
    ghost use Rattle.std.specs.Slice.Iter.{iter_rest};
    ghost use Rattle.yaml_tree.specs.Valid.{values_of};
    ghost use Rattle.yaml_tree.specs.View.{trees_of};

    ghost into_iter_gives = { λ sequence items.
        trees_of (iter_rest items) ≡ values_of sequence.now };

    /// The values in order, as `iter` gives them.
    fn into_iter(self) -> slice::Iter<'a, Value> {
        self.iter()
    }
}
