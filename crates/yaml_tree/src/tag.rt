//! Tags of values.
ghost use Rattle.std.specs.Prelude.{◌≡◌, true, string_bytes};
ghost use Rattle.yaml_tree.specs.Tag.{is_filled, tag_name};

use crate::fault::TreeFault;
use std::alloc::{AllocError, Global};

/// A tag: a text that isn't empty.
#[derive(Drop)]
pub struct Tag {
    pub(crate) text: String,
    ghost filled: { is_filled (string_bytes text) ≡ true },
}

impl Tag {
    ghost use Rattle.std.specs.Prelude.{◌≡◌, ◌↔◌, [], Err, IfOk, IsErrOf};
    ghost use Rattle.yaml_tree.specs.Tag.{tag_name};
    ghost use Rattle.yaml_tree.specs.TagView.{tag_text};

    /// The tag with this text, which is copied. Refused by `EmptyTag` where the text is empty, and by `Memory`.
    pub fn new(alloc: Global, text: &str) -> Result<Tag, TreeFault>
        ensures ok { IfOk result (λ tag. tag_text tag ≡ text.now) }
        ensures empty { IsErrOf result TreeFault.EmptyTag ↔ (text.now ≡ []) }
    {
        if text.is_empty() {
            return Err(TreeFault::EmptyTag);
        }
        match String::from_str(alloc, text) {
            Ok(text) => Ok(Tag { text }),
            Err(_) => Err(TreeFault::Memory),
        }
    }

    // A tag with the same text.
    pub(crate) fn copy(&self) -> Result<Tag, AllocError>
        ensures { IfOk result (λ tag. tag_text tag ≡ tag_text self.now) }
    {
        Ok(Tag {
            text: self.text.clone()?,
        })
    }

    // The part of the text that tells the tag from others.
    pub(crate) fn name(&self) -> &[u8]
        ensures { result.now ≡ tag_name (tag_text self.now) }
    {
        name_in(self.text.as_bytes())
    }

    /// The text that the tag was made of.
    pub fn as_str(&self) -> &str
        ensures { result.now ≡ tag_text self.now }
    {
        self.text.as_str()
    }
}

impl PartialEq for Tag {
    ghost use Rattle.std.specs.Cmp.{on_per, partial_equiv_from_equiv};
    ghost use Rattle.yaml_tree.specs.EqualLaws.{tag_equiv};
    ghost use Rattle.yaml_tree.specs.Tag.{tag_eq};
    ghost use Rattle.yaml_tree.specs.TagView.{tag_text};

    ghost eq = { λ a b. tag_eq (tag_text a) (tag_text b) };

    ghost laws = { on_per tag_text (partial_equiv_from_equiv tag_equiv) };

    fn eq(&self, other: &Tag) -> bool {
        self.name() == other.name()
    }
}

impl Eq for Tag {
    ghost use Rattle.std.specs.Cmp.{on_equiv};
    ghost use Rattle.yaml_tree.specs.EqualLaws.{tag_equiv};
    ghost use Rattle.yaml_tree.specs.TagView.{tag_text};

    ghost laws = { on_equiv tag_text tag_equiv };
}

// The text without one leading `!` that has something behind it.
fn name_in(text: &[u8]) -> &[u8]
    ensures { result.now ≡ tag_name text.now }
{
    match text {
        [b'!', _, ..] => &text[1..],
        _ => text,
    }
}
