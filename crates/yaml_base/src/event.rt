//! The events of a parser.

ghost use Rattle.std.specs.Prelude.{Some};
ghost use Rattle.yaml_base.specs.PlainEvent.{scalar_of};
ghost use Rattle.yaml_base.specs.ScalarText.{name_text, scalar_text, style_text};

use crate::tag::{Anchor, Tag};
use std::fmt;
use yaml_tree::QuotedBytes;

/// How a scalar stands in the source.
#[derive(Clone, Copy, PartialEq, Eq)]
pub enum ScalarStyle {
    /// Without quotes.
    Plain,
    /// Between single quotes.
    SingleQuoted,
    /// Between double quotes.
    DoubleQuoted,
    /// A block that keeps its line breaks.
    Literal,
    /// A block whose lines are folded.
    Folded,
}

impl fmt::Debug for ScalarStyle {
    ghost debug_output = { λ style. Some (style_text style) };

    fn fmt<W: fmt::Write>(&self, f: &mut fmt::Formatter<W>) -> fmt::Result {
        match self {
            ScalarStyle::Plain => f.write_str("Plain"),
            ScalarStyle::SingleQuoted => f.write_str("SingleQuoted"),
            ScalarStyle::DoubleQuoted => f.write_str("DoubleQuoted"),
            ScalarStyle::Literal => f.write_str("Literal"),
            ScalarStyle::Folded => f.write_str("Folded"),
        }
    }
}

/// A scalar, with its text and, where the parser has it, the slice of the source that it was read from.
///
/// Debug shows all but that slice.
#[derive(Drop)]
pub struct Scalar<'de> {
    /// The anchor, if the scalar has one.
    pub anchor: Option<Anchor>,
    /// The tag, if the scalar has one.
    pub tag: Option<Tag>,
    /// The text, as bytes, with escapes and line breaks resolved.
    pub value: Vec<u8>,
    /// How the scalar stands in the source.
    pub style: ScalarStyle,
    /// The scalar's slice of the source, quotes included.
    pub repr: Option<&'de [u8]>,
}

// The anchor of a scalar in debug.
#[derive(Drop)]
struct AnchorName<'a>(&'a Option<Anchor>);

impl fmt::Display for AnchorName<'_> {
    ghost output = { λ name. Some (name_text name.0.now) };

    fn fmt<W: fmt::Write>(&self, f: &mut fmt::Formatter<W>) -> fmt::Result {
        match self.0 {
            Some(anchor) => write!(f, "Some({anchor:?})"),
            None => f.write_str("None"),
        }
    }
}

// The tag of a scalar in debug.
#[derive(Drop)]
struct TagName<'a>(&'a Option<Tag>);

impl fmt::Display for TagName<'_> {
    ghost output = { λ name. Some (name_text name.0.now) };

    fn fmt<W: fmt::Write>(&self, f: &mut fmt::Formatter<W>) -> fmt::Result {
        match self.0 {
            Some(tag) => write!(f, "Some({tag:?})"),
            None => f.write_str("None"),
        }
    }
}

impl fmt::Debug for Scalar<'_> {
    ghost debug_output = { λ scalar. Some (scalar_text (scalar_of scalar)) };

    fn fmt<W: fmt::Write>(&self, f: &mut fmt::Formatter<W>) -> fmt::Result {
        let anchor = AnchorName(&self.anchor);
        let tag = TagName(&self.tag);
        let value = QuotedBytes(self.value.as_slice());
        let style = self.style;
        write!(
            f,
            "Scalar {{ anchor: {anchor}, tag: {tag}, value: {value}, style: {style:?} }}"
        )
    }
}

/// The start of a sequence.
#[derive(Debug, Drop)]
pub struct SequenceStart {
    /// The anchor, if the sequence has one.
    pub anchor: Option<Anchor>,
    /// The tag, if the sequence has one.
    pub tag: Option<Tag>,
}

/// The start of a mapping.
#[derive(Debug, Drop)]
pub struct MappingStart {
    /// The anchor, if the mapping has one.
    pub anchor: Option<Anchor>,
    /// The tag, if the mapping has one.
    pub tag: Option<Tag>,
}

/// An event of a parser.
#[derive(Debug, Drop)]
pub enum Event<'de> {
    /// The first event of each stream.
    StreamStart,
    /// The last event of each stream.
    StreamEnd,
    /// A document begins.
    DocumentStart,
    /// The document ends.
    DocumentEnd,
    /// A node that stands for the last node before it with this anchor.
    Alias(Anchor),
    /// A scalar.
    Scalar(Scalar<'de>),
    /// A sequence begins.
    SequenceStart(SequenceStart),
    /// The sequence begun last that is still open ends.
    SequenceEnd,
    /// A mapping begins.
    MappingStart(MappingStart),
    /// The mapping begun last that is still open ends.
    MappingEnd,
}
