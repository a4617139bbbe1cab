//! What a mapping, and what a value, is asked for a part by.

ghost use Rattle.std.specs.Prelude.{◌≡◌, Option, option_map, pos, string_bytes};
ghost use Rattle.yaml_tree.specs.Access.{at_key, at_place};
ghost use Rattle.yaml_tree.specs.Mapping.{value_at};
ghost use Rattle.yaml_tree.specs.Tree.{Tree, number, string};
ghost use Rattle.yaml_tree.specs.Valid.{pairs_of};
ghost use Rattle.yaml_tree.specs.View.{tree_of};

use crate::mapping::Mapping;
use crate::number::Number;
use crate::value::Value;

/// What a mapping is asked for a value by: a key, or the text of a key that is a string. No key is made of the text.
pub trait MappingIndex {
    /// The key.
    ghost key: { Self → Tree };

    /// The value at this key.
    fn index_into<'m>(&self, mapping: &'m Mapping) -> Option<&'m Value>
        ensures { option_map (λ v. tree_of v.now) result
            ≡ value_at (key self.now) (pairs_of mapping.now) };
}

impl MappingIndex for &Value {
    ghost key = { λ value. tree_of value.now };

    fn index_into<'m>(&self, mapping: &'m Mapping) -> Option<&'m Value> {
        mapping.value_of(*self)
    }
}

impl MappingIndex for &str {
    ghost key = { λ text. string text.now };

    fn index_into<'m>(&self, mapping: &'m Mapping) -> Option<&'m Value> {
        mapping.value_of_text(*self)
    }
}

impl MappingIndex for &String {
    ghost key = { λ text. string (string_bytes text.now) };

    fn index_into<'m>(&self, mapping: &'m Mapping) -> Option<&'m Value> {
        mapping.value_of_text(self.as_str())
    }
}

/// What a value is asked for a part by: what a mapping is asked by, or a place of a sequence.
pub trait Index {
    /// The part of a value.
    ghost finds: { Self → Tree → Option Tree };

    /// The part of this value.
    fn index_into<'v>(&self, value: &'v Value) -> Option<&'v Value>
        ensures { option_map (λ v. tree_of v.now) result ≡ finds self.now (tree_of value.now) };
}

// The value of a mapping at a key, if the value is a mapping.
fn at<'v, I: MappingIndex>(index: &I, value: &'v Value) -> Option<&'v Value>
    ensures { option_map (λ v. tree_of v.now) result
        ≡ at_key (I.MappingIndex.key index.now) (tree_of value.now) }
{
    match value {
        Value::Mapping(mapping) => index.index_into(mapping),
        _ => None,
    }
}

impl Index for &Value {
    ghost finds = { λ value. at_key (tree_of value.now) };

    fn index_into<'v>(&self, value: &'v Value) -> Option<&'v Value> {
        at(self, value)
    }
}

impl Index for &str {
    ghost finds = { λ text. at_key (string text.now) };

    fn index_into<'v>(&self, value: &'v Value) -> Option<&'v Value> {
        at(self, value)
    }
}

impl Index for &String {
    ghost finds = { λ text. at_key (string (string_bytes text.now)) };

    fn index_into<'v>(&self, value: &'v Value) -> Option<&'v Value> {
        at(self, value)
    }
}

impl Index for usize {
    ghost finds = { at_place };

    fn index_into<'v>(&self, value: &'v Value) -> Option<&'v Value> {
        match value {
            Value::Sequence(items) => items.get(*self),
            Value::Mapping(mapping) => at_number(mapping, *self),
            _ => None,
        }
    }
}

// The value of a mapping at the key of a number.
fn at_number(mapping: &Mapping, n: usize) -> Option<&Value>
    ensures { option_map (λ v. tree_of v.now) result
        ≡ value_at (number (pos n)) (pairs_of mapping.now) }
{
    let key = Value::Number(Number::from_u64(n as u64));
    let found = mapping.value_of(&key);
    discard(key);
    found
}

fn discard(_key: Value) {}
