//! The tags of variants and of tagged values.

ghost use Rattle.std.specs.Prelude.{◌≡◌, ◌≢◌, ◌++◌, List, ℕ, string_bytes, IfOk, MatchOption};
ghost use Rattle.yaml_tree.specs.Tag.{tag_name};
ghost use Rattle.yaml_tree.specs.TagView.{tag_text};
ghost use Rattle.yaml_write.specs.LocalTags.{local_tag, value_tag};

use std::alloc::{AllocError, Global};
use yaml_tree::Tag;

/// A name as a local tag: with `!` in front, unless it begins with one. The only error is want of memory.
pub fn local_tag(alloc: Global, name: &str) -> Result<String, AllocError>
    ensures { IfOk result (λ text. string_bytes text ≡ local_tag name.now) }
{
    if name.as_bytes().first() == Some(&b'!') {
        return String::from_str(alloc, name);
    }
    let mut text = String::with_capacity(alloc, name.len() + 1)?;
    text.push('!')?;
    text.push_str(name)?;
    Ok(text)
}

// What follows the prefix, if the text begins with it.
fn after<'a>(prefix: &str, text: &'a str) -> Option<&'a str>
    ensures { MatchOption result ((rest : List ℕ) → text.now ≢ prefix.now ++ rest)
        (λ rest. text.now ≡ prefix.now ++ rest.now) }
{
    text.strip_prefix(prefix)
}

// A tag's text without one leading `!` that has something behind it.
fn tag_name(text: &str) -> &str
    ensures { result.now ≡ tag_name text.now }
{
    match after("!", text) {
        None => text,
        Some("") => text,
        Some(name) => name,
    }
}

/// The tag of a value, with one `!`: one in front that has something behind it makes no difference.
pub(crate) fn value_tag(alloc: Global, tag: &Tag) -> Result<String, AllocError>
    ensures { IfOk result (λ text. string_bytes text ≡ value_tag (tag_text tag.now)) }
{
    local_tag(alloc, tag_name(tag.as_str()))
}
