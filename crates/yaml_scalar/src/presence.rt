//! Whether a scalar stands for nothing: for an absent optional, for a unit, for an empty collection.

ghost use Rattle.std.specs.Prelude.{◌≡◌};
ghost use Rattle.yaml_base.specs.DocEventView.{doc_scalar_of};
ghost use Rattle.yaml_meaning.specs.Presence.{is_untagged_null, is_tagged_null, is_false_null, is_absent, is_present};
ghost use Rattle.yaml_meaning.specs.Presence.{is_empty_plain};

use crate::sort::{has_untaken, is_plain};
use yaml_base::{DocScalar, Tag, parse_null};

// Whether the scalar is plain, and without a tag, or with a taken one, has no text or a word for null.
fn is_untagged_null(scalar: &DocScalar<'_>, taken: bool) -> bool
    ensures { result ≡ is_untagged_null taken (doc_scalar_of scalar.now) }
{
    is_plain(scalar.style)
        && (taken || scalar.tag.is_none())
        && (scalar.value.is_empty() || parse_null(&scalar.value).is_some())
}

// Whether the scalar is plain, and with the untaken tag of null has a word for null.
#[tactic(auto, unfolding(yaml_meaning::specs::CoreTags::null_tag))]
fn is_tagged_null(scalar: &DocScalar<'_>, taken: bool) -> bool
    ensures { result ≡ is_tagged_null taken (doc_scalar_of scalar.now) }
{
    is_plain(scalar.style)
        && has_untaken(Tag::NULL, taken, scalar)
        && parse_null(&scalar.value).is_some()
}

// Whether the scalar is plain, and with the untaken tag of null has another text.
#[tactic(auto, unfolding(yaml_meaning::specs::CoreTags::null_tag))]
fn is_false_null(scalar: &DocScalar<'_>, taken: bool) -> bool
    ensures { result ≡ is_false_null taken (doc_scalar_of scalar.now) }
{
    is_plain(scalar.style)
        && has_untaken(Tag::NULL, taken, scalar)
        && parse_null(&scalar.value).is_none()
}

/// Whether the scalar stands for nothing.
pub fn is_absent(scalar: &DocScalar<'_>, taken: bool) -> bool
    ensures { result ≡ is_absent taken (doc_scalar_of scalar.now) }
{
    is_untagged_null(scalar, taken) || is_tagged_null(scalar, taken)
}

/// Whether under an optional the scalar stands for its content.
pub fn is_present(scalar: &DocScalar<'_>, taken: bool) -> bool
    ensures { result ≡ is_present taken (doc_scalar_of scalar.now) }
{
    !(is_absent(scalar, taken) || is_false_null(scalar, taken))
}

/// Whether the scalar is plain and has no text.
pub fn is_empty_plain(scalar: &DocScalar<'_>) -> bool
    ensures { result ≡ is_empty_plain (doc_scalar_of scalar.now) }
{
    is_plain(scalar.style) && scalar.value.is_empty()
}
