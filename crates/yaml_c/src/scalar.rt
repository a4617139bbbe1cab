//! What a scalar is: by its text, its tag and its style.

ghost use Rattle.std.specs.Prelude.{◌≡◌, ◌<◌, ◌*◌, ◌+◌, ◌^◌, Some, bytes_eq};
ghost use Rattle.yaml_base.specs.DocEventView.{doc_scalar_of};
ghost use Rattle.yaml_c.specs.Numbers.{core_numbers, fits_tag, is_core, kind_number, kind_value, looked_at};
ghost use Rattle.yaml_c.specs.Numbers.{numbers_under, plain_number, plain_numbers, tag_number, tagged_number, unlooked};
ghost use Rattle.yaml_c.specs.Rows.{style_of};
ghost use Rattle.yaml_c.specs.inner.Sorts.{numbers_of, text_numbers_of};
ghost use Rattle.yaml_meaning.specs.ScalarSorts.{is_local, is_plain};

use crate::rows::{kind, style, tag};
use std::num::f64_to_bits_with_nan;
use yaml_base::{DocScalar, Kind, ScalarStyle, Tag, resolve};
use yaml_scalar::text_of;

/// What a text is without quotes and without a tag: its kind, its value in two halves, and its float.
#[derive(Clone, Copy)]
pub(crate) struct TextSort {
    pub(crate) word: u8,
    pub(crate) has_float: u8,
    pub(crate) low: u64,
    pub(crate) high: u64,
    pub(crate) float_bits: u64,
}

/// What a scalar is, as any value, and what its text is.
#[derive(Clone, Copy)]
pub(crate) struct Sort {
    pub(crate) kind: u8,
    pub(crate) text: TextSort,
}

/// The number of a style.
pub(crate) fn style_number(style: ScalarStyle) -> u8
    ensures { style_of result ≡ style }
{
    match style {
        ScalarStyle::Plain => style::PLAIN,
        ScalarStyle::SingleQuoted => style::SINGLE_QUOTED,
        ScalarStyle::DoubleQuoted => style::DOUBLE_QUOTED,
        ScalarStyle::Literal => style::LITERAL,
        ScalarStyle::Folded => style::FOLDED,
    }
}

// Whether the tag begins with `!`.
fn is_local(tag: &Tag) -> bool
    ensures { result ≡ is_local (Some tag.now) }
{
    match tag.as_slice().split_first() {
        Some((first, _)) => *first == b'!',
        None => false,
    }
}

// Whether the tag is this one.
fn is_named(tag: &Tag, name: &str) -> bool
    ensures { result ≡ bytes_eq tag.now name.now }
{
    tag.is(name)
}

/// What a tag is.
#[tactic(auto, unfolding(yaml_meaning::specs::CoreTags::null_tag, yaml_meaning::specs::CoreTags::bool_tag, yaml_meaning::specs::CoreTags::int_tag, yaml_meaning::specs::CoreTags::float_tag))]
pub(crate) fn tag_kind(tag: &Tag) -> u8
    ensures { result ≡ tag_number (Some tag.now) }
{
    if is_local(tag) {
        tag::LOCAL
    } else if is_named(tag, Tag::NULL) {
        tag::NULL
    } else if is_named(tag, Tag::BOOL) {
        tag::BOOL
    } else if is_named(tag, Tag::INT) {
        tag::INT
    } else if is_named(tag, Tag::FLOAT) {
        tag::FLOAT
    } else {
        tag::OTHER
    }
}

// Whether a tag says what its scalar is.
fn is_core(tag_kind: u8) -> bool
    ensures { result ≡ is_core tag_kind }
{
    tag::NULL <= tag_kind && tag_kind <= tag::FLOAT
}

// Whether the scalar stands without quotes.
fn is_plain(style: ScalarStyle) -> bool
    ensures { result ≡ is_plain style }
{
    matches!(style, ScalarStyle::Plain)
}

// The number of a kind of text.
fn word_of(kind: Kind) -> u8
    ensures value { result ≡ kind_number kind }
    ensures short { result < 8 }
{
    match kind {
        Kind::Null => kind::NULL,
        Kind::Bool(_) => kind::BOOL,
        Kind::Unsigned(_) => kind::UNSIGNED,
        Kind::Signed(_) => kind::SIGNED,
        Kind::Float => kind::FLOAT,
        Kind::Str => kind::STRING,
    }
}

// The boolean or the integer of such a text.
fn value_of(kind: Kind) -> u128
    ensures { result ≡ kind_value kind }
{
    match kind {
        Kind::Bool(truth) => truth as u128,
        Kind::Unsigned(number) => number,
        Kind::Signed(number) => number.cast_unsigned(),
        _ => 0,
    }
}

impl TextSort {
    // A text that is not looked at, and said to be this.
    fn unlooked(word: u8) -> TextSort
        ensures { text_numbers_of result ≡ unlooked word }
    {
        TextSort {
            word,
            has_float: 0,
            low: 0,
            high: 0,
            float_bits: 0,
        }
    }

    // A text of this kind with this value, of which no float is known.
    fn of_kind(word: u8, value: u128) -> TextSort
        ensures word { result.word ≡ word }
        ensures value { result.high * 2 ^ 64 + result.low ≡ value }
        ensures float { result.has_float ≡ 0 }
    {
        TextSort {
            word,
            has_float: 0,
            low: (value % (1 << 64)) as u64,
            high: (value >> 64) as u64,
            float_bits: 0,
        }
    }

    // What a text is that is looked at.
    fn of_text(text: &str) -> TextSort
        ensures value { text_numbers_of result ≡ looked_at text.now }
        ensures short { result.word < 8 }
    {
        let kind = resolve(text);
        let mut sort = TextSort::of_kind(word_of(kind), value_of(kind));
        if let Some(number) = yaml_float::parse_f64(text.as_bytes()) {
            sort.has_float = 1;
            sort.float_bits = f64_to_bits_with_nan(number);
        }
        sort
    }

    // Whether the text is what the tag says.
    fn fits(&self, tag_kind: u8, text: &str) -> bool
        ensures { result ≡ fits_tag (text_numbers_of self.now) tag_kind text.now }
    {
        match tag_kind {
            tag::NULL => self.word == kind::NULL && !text.is_empty(),
            tag::BOOL => self.word == kind::BOOL,
            tag::INT => self.word == kind::UNSIGNED || self.word == kind::SIGNED,
            _ => self.has_float == 1,
        }
    }

    // What the scalar is whose tag says what it is.
    fn tagged_kind(&self, tag_kind: u8, text: &str) -> u8
        ensures value { result ≡ tagged_number (text_numbers_of self.now) tag_kind text.now }
        ensures short { self.now.word < 8 → result < 8 }
    {
        if !self.fits(tag_kind, text) {
            kind::MISFIT
        } else if tag_kind == tag::FLOAT {
            kind::FLOAT
        } else {
            self.word
        }
    }

    // What the plain scalar is whose tag does not say what it is.
    fn plain_kind(&self, tag_kind: u8) -> u8
        ensures value { result ≡ plain_number (text_numbers_of self.now) tag_kind }
        ensures short { self.now.word < 8 → result < 8 }
    {
        if tag_kind == tag::OTHER || (self.word == kind::FLOAT && self.has_float != 1) {
            kind::STRING
        } else {
            self.word
        }
    }
}

// What a scalar is that is not looked at.
fn unlooked(kind: u8) -> Sort
    ensures kind { result.kind ≡ kind }
    ensures text { text_numbers_of result.text ≡ unlooked kind }
{
    Sort {
        kind,
        text: TextSort::unlooked(kind),
    }
}

// What a scalar with this text is whose tag, with this number, says what it is.
fn core_sort(text: &str, tag_kind: u8) -> Sort
    ensures value { numbers_of result tag_kind ≡ core_numbers tag_kind text.now }
    ensures short { result.kind < 8 }
{
    let sort = TextSort::of_text(text);
    Sort {
        kind: sort.tagged_kind(tag_kind, text),
        text: sort,
    }
}

// What a plain scalar with this text is whose tag, with this number, does not say what it is.
fn plain_sort(text: &str, tag_kind: u8) -> Sort
    ensures value { numbers_of result tag_kind ≡ plain_numbers tag_kind text.now }
    ensures short { result.kind < 8 }
{
    let sort = TextSort::of_text(text);
    Sort {
        kind: sort.plain_kind(tag_kind),
        text: sort,
    }
}

/// What a scalar is whose tag has this number.
pub(crate) fn sort_of(scalar: &DocScalar<'_>, tag_kind: u8) -> Sort
    ensures value { numbers_of result tag_kind ≡ numbers_under tag_kind (doc_scalar_of scalar.now) }
    ensures short { result.kind < 8 }
{
    let Some(text) = text_of(scalar) else {
        return unlooked(kind::BYTES);
    };
    if is_core(tag_kind) {
        return core_sort(text, tag_kind);
    }
    if is_plain(scalar.style) {
        return plain_sort(text, tag_kind);
    }
    unlooked(kind::STRING)
}
