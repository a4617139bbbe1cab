//! Which row of the tables a scalar is in: what its bytes, its tag and its style make of it.

ghost use Rattle.std.specs.Prelude.{◌≡◌};
ghost use Rattle.std.specs.Option.{option_copied};
ghost use Rattle.yaml_base.specs.DocEventView.{doc_scalar_of};
ghost use Rattle.yaml_meaning.specs.CoreTags.{bool_tag, int_tag, float_tag, null_tag};
ghost use Rattle.yaml_meaning.specs.ScalarShapes.{is_plain_or_tagged_literal, text_of, utf8_text};
ghost use Rattle.yaml_meaning.specs.ScalarSorts.{is_plain, is_literal, is_tag_named, is_local, has_untaken};
ghost use Rattle.yaml_meaning.specs.ScalarSorts.{is_resolved};
ghost use Rattle.yaml_meaning.specs.ScalarSorts.{sort_of};
ghost use Rattle.yaml_scalar.specs.Expectations.{plain_sort};

use simdutf8::basic::from_utf8;
use yaml_base::{DocScalar, ScalarStyle, Tag};

/// The rows, in their order. A scalar is in the first that applies.
#[derive(Clone, Copy, PartialEq, Eq)]
pub(crate) enum ScalarSort {
    /// The bytes are not UTF-8.
    NoText,
    /// The tag is that of booleans, and not taken.
    TaggedBool,
    /// The tag is that of integers, and not taken.
    TaggedInt,
    /// The tag is that of floats, and not taken.
    TaggedFloat,
    /// The tag is that of null, and not taken.
    TaggedNull,
    /// The scalar is plain, and it has no tag, a taken one, or one that begins with `!`: its text says what it is.
    Resolved,
    /// All else is a string.
    String,
}

/// Whether the scalar stands without quotes.
pub(crate) fn is_plain(style: ScalarStyle) -> bool
    ensures { result ≡ is_plain style }
{
    match style {
        ScalarStyle::Plain => true,
        _ => false,
    }
}

// Whether the scalar stands as a literal block.
fn is_literal(style: ScalarStyle) -> bool
    ensures { result ≡ is_literal style }
{
    match style {
        ScalarStyle::Literal => true,
        _ => false,
    }
}

// Whether the tag is this one.
fn is_tag(name: &str, tag: &Option<Tag>) -> bool
    ensures { result ≡ is_tag_named name.now tag.now }
{
    match tag {
        Some(tag) => tag.is(name),
        None => false,
    }
}

// Whether the tag begins with `!`.
fn is_local(tag: &Option<Tag>) -> bool
    ensures { result ≡ is_local tag.now }
{
    match tag {
        Some(tag) => match tag.as_slice().split_first() {
            Some((first, _)) => *first == b'!',
            None => false,
        },
        None => false,
    }
}

/// Whether the scalar has this tag, and it is not taken.
pub(crate) fn has_untaken(name: &str, taken: bool, scalar: &DocScalar<'_>) -> bool
    ensures { result ≡ has_untaken name.now taken (doc_scalar_of scalar.now) }
{
    !taken && is_tag(name, &scalar.tag)
}

// Whether the scalar is plain, and has no tag, a taken one, or one that begins with `!`.
fn is_resolved(taken: bool, scalar: &DocScalar<'_>) -> bool
    ensures { result ≡ is_resolved taken (doc_scalar_of scalar.now) }
{
    is_plain(scalar.style) && (taken || scalar.tag.is_none() || is_local(&scalar.tag))
}

/// The text that bytes are, where they are UTF-8.
pub(crate) fn utf8_text(bytes: &[u8]) -> Option<&str>
    ensures { option_copied result ≡ utf8_text bytes.now }
{
    match from_utf8(bytes) {
        Ok(text) => Some(text),
        Err(_) => None,
    }
}

/// The text of a scalar, where it is UTF-8.
pub fn text_of<'a>(scalar: &'a DocScalar<'_>) -> Option<&'a str>
    ensures { option_copied result ≡ text_of (doc_scalar_of scalar.now) }
{
    utf8_text(&scalar.value)
}

/// Whether the scalar is plain, whatever its tag, or literal with just this tag, which is not taken.
pub fn is_plain_or_tagged_literal(name: &str, taken: bool, scalar: &DocScalar<'_>) -> bool
    ensures { result ≡ is_plain_or_tagged_literal name.now taken (doc_scalar_of scalar.now) }
{
    is_plain(scalar.style) || (is_literal(scalar.style) && has_untaken(name, taken, scalar))
}

// Whether the scalar has the tag of booleans, and it is not taken.
#[tactic(auto, unfolding(yaml_meaning::specs::CoreTags::bool_tag))]
fn has_bool_tag(taken: bool, scalar: &DocScalar<'_>) -> bool
    ensures { result ≡ has_untaken bool_tag taken (doc_scalar_of scalar.now) }
{
    has_untaken(Tag::BOOL, taken, scalar)
}

// Whether the scalar has the tag of integers, and it is not taken.
#[tactic(auto, unfolding(yaml_meaning::specs::CoreTags::int_tag))]
fn has_int_tag(taken: bool, scalar: &DocScalar<'_>) -> bool
    ensures { result ≡ has_untaken int_tag taken (doc_scalar_of scalar.now) }
{
    has_untaken(Tag::INT, taken, scalar)
}

// Whether the scalar has the tag of floats, and it is not taken.
#[tactic(auto, unfolding(yaml_meaning::specs::CoreTags::float_tag))]
fn has_float_tag(taken: bool, scalar: &DocScalar<'_>) -> bool
    ensures { result ≡ has_untaken float_tag taken (doc_scalar_of scalar.now) }
{
    has_untaken(Tag::FLOAT, taken, scalar)
}

// Whether the scalar has the tag of null, and it is not taken.
#[tactic(auto, unfolding(yaml_meaning::specs::CoreTags::null_tag))]
fn has_null_tag(taken: bool, scalar: &DocScalar<'_>) -> bool
    ensures { result ≡ has_untaken null_tag taken (doc_scalar_of scalar.now) }
{
    has_untaken(Tag::NULL, taken, scalar)
}

/// The row of a scalar. The flag says whether its tag is taken.
pub(crate) fn sort_of(taken: bool, scalar: &DocScalar<'_>) -> ScalarSort
    ensures { plain_sort result ≡ sort_of taken (doc_scalar_of scalar.now) }
{
    if text_of(scalar).is_none() {
        ScalarSort::NoText
    } else if has_bool_tag(taken, scalar) {
        ScalarSort::TaggedBool
    } else if has_int_tag(taken, scalar) {
        ScalarSort::TaggedInt
    } else if has_float_tag(taken, scalar) {
        ScalarSort::TaggedFloat
    } else if has_null_tag(taken, scalar) {
        ScalarSort::TaggedNull
    } else if is_resolved(taken, scalar) {
        ScalarSort::Resolved
    } else {
        ScalarSort::String
    }
}
