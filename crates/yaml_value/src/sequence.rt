//! Sequences of values.

use crate::value::Value;
use std::marker::Model;
use std::{slice, vec};

/// Values in order.
#[cycle(value)]
#[derive(Drop)]
pub struct Sequence {
    /// The values.
    pub items: Vec<Value>,
}

impl Model for Sequence {
    ghost use Rattle.yaml_value.specs.Distinct.{DistinctItems, distinct_items_code, plain_sequence};
    ghost use Rattle.yaml_value.specs.Sizes.{items_size};

    ghost Value = { DistinctItems };

    ghost coded = { distinct_items_code };

    ghost use Rattle.yaml_value.specs.View.{plain_items, are_distinct-plain_items};

    ghost view = { λ s. (plain_items s.items.items, are_distinct-plain_items s.items.items) };

    ghost size = { λ s. items_size (plain_sequence s) };

    ghost use Rattle.std.proofs.Common.{arith};
    ghost use Rattle.yaml_value.specs.Falls.{most-Value_le};

    ghost size_decreases = { λ s h. omega (arith, most-Value_le s.items.items) };
}

impl From<Vec<Value>> for Sequence {
    ghost use Rattle.std.specs.Prelude.{◌≡◌};
    ghost use Rattle.yaml_value.specs.View.{plain_items, plain_sequence};

    ghost from_gives = { λ items sequence. plain_sequence sequence ≡ plain_items items.items };

    /// The sequence of these values. It takes no memory.
    fn from(items: Vec<Value>) -> Sequence {
        Sequence { items }
    }
}

impl Sequence {
    ghost use Rattle.std.specs.Prelude.{◌≡◌};
    ghost use Rattle.yaml_value.specs.View.{plain_items, plain_sequence};

    /// The values in order.
    pub fn as_slice(&self) -> &[Value]
        ensures { plain_items result.now ≡ plain_sequence self.now }
    {
        self.items.as_slice()
    }
}

impl IntoIterator for Sequence {
    type Item = Value;

    type IntoIter = vec::IntoIter<Value>;

    /// The values in order, handed out. Takes no memory.
    fn into_iter(self) -> vec::IntoIter<Value> {
        self.items.into_iter()
    }
}

impl<'a> IntoIterator for &'a Sequence {
    type Item = &'a Value;

    type IntoIter = slice::Iter<'a, Value>;

    /// The values in order.
    fn into_iter(self) -> slice::Iter<'a, Value> {
        self.items.iter()
    }
}
