//! Values of any kind.

mod access;
mod change;
mod copy;
pub(crate) mod equal;
mod from;
pub(crate) mod hash;
mod merge;
mod path;
mod print;

use crate::mapping::Mapping;
use crate::number::Number;
use crate::sequence::Sequence;
use crate::tag::Tag;
use std::marker::Model;

/// A value of any kind.
#[cycle(value)]
#[derive(Drop)]
pub enum Value {
    /// Nothing, as `null`.
    Null,
    /// A truth value.
    Bool(bool),
    /// An integer or a float.
    Number(Number),
    /// A text.
    String(String),
    /// Values in order.
    Sequence(Sequence),
    /// Values at keys, no two of which are equal, in order.
    Mapping(Mapping),
    /// A value under a local tag.
    Tagged(Box<TaggedValue>),
}

/// A value under a local tag.
#[cycle(value)]
#[derive(Drop)]
pub struct TaggedValue {
    /// The tag.
    pub tag: Tag,
    /// The value under it.
    pub value: Value,
}

impl Model for TaggedValue {
    ghost use Rattle.yaml_value.specs.Distinct.{DistinctTagged, distinct_tagged_code};
    ghost use Rattle.yaml_value.specs.Sizes.{value_size};

    ghost Value = { DistinctTagged };

    ghost coded = { distinct_tagged_code };

    ghost use Rattle.yaml_value.specs.View.{plain, is_distinct-plain, tag_text};

    ghost view = { λ t. (tag_text t.tag, (plain t.value, is_distinct-plain t.value)) };

    ghost size = { λ t. value_size t.1.0 };

    ghost use Rattle.std.proofs.Common.{arith};
    ghost use Rattle.yaml_value.specs.Falls.{deep-Value_le};

    ghost size_decreases = { λ t h. omega (arith, deep-Value_le t.value) };
}
