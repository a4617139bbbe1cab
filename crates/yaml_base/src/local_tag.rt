//! The name of a local tag.

ghost use Rattle.std.specs.Prelude.{◌≡◌, List, ℕ, IfSome, Some, ◌↔◌};
ghost use Rattle.std.specs.Option.{option_copied, option_and_then};
ghost use Rattle.yaml_base.specs.LocalName.{local_name, HasLocalName};

use crate::tag::Tag;

// The name of the tag with these bytes.
fn local_name(tag: &[u8]) -> Option<&str>
    ensures { option_copied result ≡ local_name tag.now }
{
    let rest = tag.strip_prefix(b"!".as_slice())?;
    if rest.is_empty() {
        return Some("!");
    }
    std::str::from_utf8(rest).ok()
}

/// The name of the tag, if it is a local one: what follows its `!`, where that is UTF-8, or `!` where nothing follows.
pub fn parse_tag(tag: Option<&Tag>) -> Option<&str>
    ensures value { option_copied result ≡ option_and_then local_name (option_copied tag.entry) }
    ensures exact { (bytes name : List ℕ) → option_copied tag.entry ≡ Some bytes
        → ((option_copied result ≡ Some name) ↔ HasLocalName bytes name) }
{
    local_name(tag?.as_slice())
}

/// A law, and nothing to be run: the name that is computed of a tag is the one that a local tag has.
pub fn local_tags_have_their_names()
    ensures { (tag name : List ℕ) → ((local_name tag ≡ Some name) ↔ HasLocalName tag name) }
{}
