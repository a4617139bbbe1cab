//! Values of a document.
mod access;
mod copy;
pub(crate) mod equal;
pub(crate) mod hash;
mod print;
pub(crate) mod text;

use crate::mapping::Mapping;
use crate::number::Number;
use crate::sequence::Sequence;
use crate::tag::Tag;
use std::marker::Model;

/// A value of a document.
#[cycle(value)]
#[derive(Drop)]
pub enum Value {
    /// Nothing, as `null`.
    Null,
    /// A truth value.
    Bool(bool),
    /// An integer.
    Number(Number),
    /// A text.
    String(String),
    /// Values in order.
    Sequence(Sequence),
    /// Values at distinct keys.
    Mapping(Mapping),
    /// A value under a tag.
    Tagged(Box<TaggedValue>),
}

/// A value under a tag.
#[cycle(value)]
#[derive(Drop)]
pub struct TaggedValue {
    /// The tag.
    pub tag: Tag,
    /// The value under it, which may have a tag of its own.
    pub value: Value,
}

impl Model for TaggedValue {
    ghost use Rattle.yaml_tree.specs.Tree.{tree_size};
    ghost use Rattle.yaml_tree.specs.Valid.{TaggedTree, content_under_tag, tagged_tree_code};

    ghost Value = { TaggedTree };

    ghost coded = { tagged_tree_code };

    ghost use Rattle.yaml_tree.specs.TagView.{text_of_tag};
    ghost use Rattle.yaml_tree.specs.View.{tree_of, is_value-tree_of};

    ghost view = { λ t. (text_of_tag t.tag, (tree_of t.value, is_value-tree_of t.value)) };

    ghost size = { λ t. tree_size (content_under_tag t) };

    ghost use Rattle.std.proofs.Common.{arith};
    ghost use Rattle.yaml_tree.specs.Falls.{deep-Value_le};

    ghost size_decreases = { λ t h. omega (arith, deep-Value_le t.value) };
}
