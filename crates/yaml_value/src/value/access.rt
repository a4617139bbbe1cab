//! What a value is, asked for by its kind. Tags around it are looked through.

ghost use Rattle.std.specs.Prelude.{◌≡◌, ◌^◌, is_some, option_and_then, option_map, IfSome, IsSomeAnd};
ghost use Rattle.yaml_value.specs.Kinds.{boolean_in, is_null, number_in, text_in};
ghost use Rattle.yaml_value.specs.Kinds.{float_near_number, float_of_number, integer_of_number};
ghost use Rattle.yaml_value.specs.Find.{at, get, IsValueAt, item_in_place, items_in};
ghost use Rattle.yaml_value.specs.Find.{pairs_in, tagged_in, untagged};
ghost use Rattle.yaml_value.specs.Numbers.{signed_below, unsigned_below};
ghost use Rattle.yaml_value.specs.PlainValue.{text};
ghost use Rattle.yaml_value.specs.View.{plain, plain_items, plain_number, plain_pairs, plain_tagged};

use crate::mapping::Mapping;
use crate::number::Number;
use crate::value::{TaggedValue, Value};

// The value in a place.
fn item_in(items: &[Value], place: usize) -> Option<&Value>
    ensures { option_map (λ value. plain value.now) result ≡ item_in_place place (plain_items items.now) }
{
    if place < items.len() {
        Some(&items[place])
    } else {
        None
    }
}

impl Value {
    /// The value under all its tags.
    pub fn untagged(&self) -> &Value
        ensures { plain result.now ≡ untagged (plain self.now) }
    {
        match self {
            Value::Tagged(tagged) => tagged.value.untagged(),
            _ => self,
        }
    }

    /// Whether it is null.
    pub fn is_null(&self) -> bool
        ensures { result ≡ is_null (plain self.now) }
    {
        match self {
            Value::Null => true,
            Value::Tagged(tagged) => tagged.value.is_null(),
            _ => false,
        }
    }

    /// The unit, where it is null.
    pub fn as_null(&self) -> Option<()>
        ensures { is_some result ≡ is_null (plain self.now) }
    {
        if self.is_null() { Some(()) } else { None }
    }

    /// The boolean that it is.
    pub fn as_bool(&self) -> Option<bool>
        ensures { result ≡ boolean_in (plain self.now) }
    {
        match self {
            Value::Bool(truth) => Some(*truth),
            Value::Tagged(tagged) => tagged.value.as_bool(),
            _ => None,
        }
    }

    /// Whether it is a boolean.
    pub fn is_bool(&self) -> bool
        ensures { result ≡ is_some (boolean_in (plain self.now)) }
    {
        self.as_bool().is_some()
    }

    /// The number that it is.
    pub fn as_number(&self) -> Option<Number>
        ensures { option_map plain_number result ≡ number_in (plain self.now) }
    {
        match self {
            Value::Number(number) => Some(*number),
            Value::Tagged(tagged) => tagged.value.as_number(),
            _ => None,
        }
    }

    /// Whether it is a number.
    pub fn is_number(&self) -> bool
        ensures { result ≡ is_some (number_in (plain self.now)) }
    {
        self.as_number().is_some()
    }

    /// The integer that it is, as an `i64`; `None` where it does not fit.
    pub fn as_i64(&self) -> Option<i64>
        ensures { result ≡ option_and_then (signed_below (2 ^ 63))
            (option_and_then integer_of_number (number_in (plain self.now))) }
    {
        self.as_number()?.as_i64()
    }

    /// The integer that it is, as a `u64`; `None` where it does not fit.
    pub fn as_u64(&self) -> Option<u64>
        ensures { result ≡ option_and_then (unsigned_below (2 ^ 64))
            (option_and_then integer_of_number (number_in (plain self.now))) }
    {
        self.as_number()?.as_u64()
    }

    /// The integer that it is, as an `i128`; `None` where it does not fit.
    pub fn as_i128(&self) -> Option<i128>
        ensures { result ≡ option_and_then (signed_below (2 ^ 127))
            (option_and_then integer_of_number (number_in (plain self.now))) }
    {
        self.as_number()?.as_i128()
    }

    /// The integer that it is, as a `u128`; `None` where it is below 0.
    pub fn as_u128(&self) -> Option<u128>
        ensures { result ≡ option_and_then (unsigned_below (2 ^ 128))
            (option_and_then integer_of_number (number_in (plain self.now))) }
    {
        self.as_number()?.as_u128()
    }

    /// The float that it is, or the one nearest to the integer that it is; `None` of an integer beyond 64 bits.
    pub fn as_f64(&self) -> Option<f64>
        ensures { result ≡ option_and_then float_near_number (number_in (plain self.now)) }
    {
        self.as_number()?.as_f64()
    }

    /// Whether it is an integer that fits an `i64`.
    pub fn is_i64(&self) -> bool
        ensures { result ≡ is_some (option_and_then (signed_below (2 ^ 63))
            (option_and_then integer_of_number (number_in (plain self.now)))) }
    {
        self.as_i64().is_some()
    }

    /// Whether it is an integer that fits a `u64`.
    pub fn is_u64(&self) -> bool
        ensures { result ≡ is_some (option_and_then (unsigned_below (2 ^ 64))
            (option_and_then integer_of_number (number_in (plain self.now)))) }
    {
        self.as_u64().is_some()
    }

    /// Whether it is a float.
    pub fn is_f64(&self) -> bool
        ensures { result ≡ is_some (option_and_then float_of_number (number_in (plain self.now))) }
    {
        match self.as_number() {
            Some(number) => number.is_float(),
            None => false,
        }
    }

    /// The text that it is.
    pub fn as_str(&self) -> Option<&str>
        ensures { option_map (λ text. text.now) result ≡ text_in (plain self.now) }
    {
        match self {
            Value::String(text) => Some(text.as_str()),
            Value::Tagged(tagged) => tagged.value.as_str(),
            _ => None,
        }
    }

    /// Whether it is a text.
    pub fn is_string(&self) -> bool
        ensures { result ≡ is_some (text_in (plain self.now)) }
    {
        self.as_str().is_some()
    }

    /// The elements of the sequence that it is.
    pub fn as_sequence(&self) -> Option<&Vec<Value>>
        ensures { option_map (λ items. plain_items items.now.items) result ≡ items_in (plain self.now) }
    {
        match self {
            Value::Sequence(sequence) => Some(&sequence.items),
            Value::Tagged(tagged) => tagged.value.as_sequence(),
            _ => None,
        }
    }

    /// Whether it is a sequence.
    pub fn is_sequence(&self) -> bool
        ensures { result ≡ is_some (items_in (plain self.now)) }
    {
        self.as_sequence().is_some()
    }

    /// The mapping that it is.
    pub fn as_mapping(&self) -> Option<&Mapping>
        ensures { option_map (λ mapping. plain_pairs mapping.now) result ≡ pairs_in (plain self.now) }
    {
        match self {
            Value::Mapping(mapping) => Some(mapping),
            Value::Tagged(tagged) => tagged.value.as_mapping(),
            _ => None,
        }
    }

    /// Whether it is a mapping.
    pub fn is_mapping(&self) -> bool
        ensures { result ≡ is_some (pairs_in (plain self.now)) }
    {
        self.as_mapping().is_some()
    }

    /// The tag that it has, with what is under it. No tag is looked through here.
    pub fn as_tagged(&self) -> Option<&TaggedValue>
        ensures { option_map (λ tagged. plain_tagged tagged.now) result ≡ tagged_in (plain self.now) }
    {
        match self {
            Value::Tagged(tagged) => Some(&**tagged),
            _ => None,
        }
    }

    /// The value at a key that is a text, where it is a mapping that has one. Takes no memory.
    pub fn get(&self, key: &str) -> Option<&Value>
        ensures found { IfSome result (λ value. IsSomeAnd (pairs_in (plain self.now))
            (λ pairs. IsValueAt (text key.now) pairs (plain value.now))) }
        ensures value { option_map (λ value. plain value.now) result ≡ get key.now (plain self.now) }
    {
        self.as_mapping()?.get(key)
    }

    /// The element in a place of a sequence, counted from 0, or the value at a key that is this number. Takes no
    /// memory.
    pub fn at(&self, place: usize) -> Option<&Value>
        ensures { option_map (λ value. plain value.now) result ≡ at place (plain self.now) }
    {
        match self {
            Value::Sequence(sequence) => item_in(sequence.as_slice(), place),
            Value::Mapping(mapping) => mapping.at_number(place),
            Value::Tagged(tagged) => tagged.value.at(place),
            _ => None,
        }
    }
}
