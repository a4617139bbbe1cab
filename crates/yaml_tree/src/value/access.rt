//! What a value is, asked for by its kind. Tags around it are looked through.

use crate::look_up::Index;
use crate::mapping::Mapping;
use crate::number::Number;
use crate::sequence::Sequence;
use crate::value::Value;

impl Value {
    ghost use Rattle.std.specs.Prelude.{◌≡◌, is_some, option_and_then, option_map, string_bytes};
    ghost use Rattle.yaml_tree.specs.Access.{boolean_in, is_null, items_in, number_in};
    ghost use Rattle.yaml_tree.specs.Access.{pairs_in, text_in, untagged};
    ghost use Rattle.yaml_tree.specs.Integer.{as_i64, as_u64};
    ghost use Rattle.yaml_tree.specs.Number.{number_of};
    ghost use Rattle.yaml_tree.specs.Valid.{pairs_of, values_of};
    ghost use Rattle.yaml_tree.specs.View.{tree_of};

    // The value under all its tags.
    fn untagged(&self) -> &Value
        ensures { tree_of result.now ≡ untagged (tree_of self.now) }
    {
        match self {
            Value::Tagged(tagged) => tagged.value.untagged(),
            _ => self,
        }
    }

    /// The value at a key of a mapping, which is a `&Value`, or a `&str` or `&String` for the string of that text; or
    /// at a place of a sequence, counted from 0, which in a mapping is the key of that number. `None` where there is
    /// none, and where the value is of another kind. Takes no memory.
    pub fn get<I: Index>(&self, index: I) -> Option<&Value>
    where
        I: Drop,
        ensures { option_map (λ v. tree_of v.now) result
            ≡ I.Index.finds index (untagged (tree_of self.now)) }
    {
        index.index_into(self.untagged())
    }

    /// Whether it is null.
    pub fn is_null(&self) -> bool
        ensures { result ≡ is_null (untagged (tree_of self.now)) }
    {
        match self.untagged() {
            Value::Null => true,
            _ => false,
        }
    }

    /// The boolean that it is.
    pub fn as_bool(&self) -> Option<bool>
        ensures { result ≡ boolean_in (untagged (tree_of self.now)) }
    {
        match self.untagged() {
            Value::Bool(truth) => Some(*truth),
            _ => None,
        }
    }

    // The number that it is.
    fn as_number(&self) -> Option<Number>
        ensures { option_map number_of result ≡ number_in (untagged (tree_of self.now)) }
    {
        match self.untagged() {
            Value::Number(number) => Some(*number),
            _ => None,
        }
    }

    /// The integer that it is, as a `u64`; `None` where it is below 0.
    pub fn as_u64(&self) -> Option<u64>
        ensures { result ≡ option_and_then as_u64 (number_in (untagged (tree_of self.now))) }
    {
        self.as_number()?.as_u64()
    }

    /// The integer that it is, as an `i64`; `None` where it is above the greatest of them.
    pub fn as_i64(&self) -> Option<i64>
        ensures { result ≡ option_and_then as_i64 (number_in (untagged (tree_of self.now))) }
    {
        self.as_number()?.as_i64()
    }

    /// The text that it is.
    pub fn as_str(&self) -> Option<&str>
        ensures { option_map (λ text. text.now) result ≡ text_in (untagged (tree_of self.now)) }
    {
        match self.untagged() {
            Value::String(text) => Some(text.as_str()),
            _ => None,
        }
    }

    /// The sequence that it is.
    pub fn as_sequence(&self) -> Option<&Sequence>
        ensures { option_map (λ items. values_of items.now) result
            ≡ items_in (untagged (tree_of self.now)) }
    {
        match self.untagged() {
            Value::Sequence(items) => Some(items),
            _ => None,
        }
    }

    /// The mapping that it is.
    pub fn as_mapping(&self) -> Option<&Mapping>
        ensures { option_map (λ mapping. pairs_of mapping.now) result
            ≡ pairs_in (untagged (tree_of self.now)) }
    {
        match self.untagged() {
            Value::Mapping(mapping) => Some(mapping),
            _ => None,
        }
    }
}
