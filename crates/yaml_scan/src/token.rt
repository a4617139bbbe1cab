//! The tokens of a text.

ghost use Rattle.std.specs.Prelude.{◌≢◌};
ghost use Rattle.yaml_base.specs.declared.event.ScalarStyle.TheVariants as style;

use yaml_base::{Mark, ScalarStyle};

/// How a scalar is written that is not plain.
#[derive(Clone, Copy, PartialEq, Eq)]
pub enum MarkedStyle {
    /// Between single quotes.
    SingleQuoted,
    /// Between double quotes.
    DoubleQuoted,
    /// A block that keeps its line breaks.
    Literal,
    /// A block whose lines are folded.
    Folded,
}

impl MarkedStyle {
    /// The same style, among all.
    pub fn scalar_style(self) -> ScalarStyle
        ensures { result ≢ style.Plain }
    {
        match self {
            MarkedStyle::SingleQuoted => ScalarStyle::SingleQuoted,
            MarkedStyle::DoubleQuoted => ScalarStyle::DoubleQuoted,
            MarkedStyle::Literal => ScalarStyle::Literal,
            MarkedStyle::Folded => ScalarStyle::Folded,
        }
    }
}

/// A token of a text. Names, handles and scalars are bytes of UTF-8.
#[derive(Drop)]
pub enum Token {
    /// The text ends.
    StreamEnd,
    /// `%YAML`, with both numbers of the version.
    VersionDirective {
        /// The number before the dot.
        major: u32,
        /// The number behind the dot.
        minor: u32,
    },
    /// `%TAG`, with a handle and what it stands for.
    TagDirective {
        /// The handle, with its exclamation marks.
        handle: Vec<u8>,
        /// What the handle stands for.
        prefix: Vec<u8>,
    },
    /// `---`
    DocumentStart,
    /// `...`
    DocumentEnd,
    /// A sequence by indentation begins.
    BlockSequenceStart,
    /// A mapping by indentation begins.
    BlockMappingStart,
    /// A collection by indentation ends.
    BlockEnd,
    /// `[`
    FlowSequenceStart,
    /// `]`
    FlowSequenceEnd,
    /// `{`
    FlowMappingStart,
    /// `}`
    FlowMappingEnd,
    /// `-`
    BlockEntry,
    /// `,`
    FlowEntry,
    /// `?`, or the place before a key that has none.
    Key,
    /// `:`
    Value,
    /// `*` with a name.
    Alias(Vec<u8>),
    /// `&` with a name.
    Anchor(Vec<u8>),
    /// A tag.
    Tag {
        /// The handle, with its exclamation marks; empty where the tag is complete without one.
        handle: Vec<u8>,
        /// The rest.
        suffix: Vec<u8>,
    },
    /// A scalar with neither quotes nor an indicator. It says what stands between its marks, with its lines folded.
    Plain,
    /// A scalar between quotes, or a block of lines.
    Scalar {
        /// What it says, with its escapes and line breaks read.
        value: Vec<u8>,
        /// How it is written.
        style: MarkedStyle,
    },
}

/// What stands before a token, with no text of its own, where a `:` behind the token shows it to be a key.
#[derive(Clone, Copy, PartialEq, Eq)]
pub enum Lead {
    /// Nothing.
    Nothing,
    /// A key.
    Key,
    /// A mapping by indentation begins, with a key.
    MappingKey,
}

/// Where a token stands.
#[derive(Clone, Copy)]
pub struct Span {
    /// Where it begins.
    pub start: Mark,
    /// Where it ends: the index of the first byte behind it.
    pub end: u64,
}

/// A token with its place.
#[derive(Drop)]
pub struct Placed {
    /// What stands before the token.
    pub lead: Lead,
    /// The token.
    pub token: Token,
    /// Where it stands.
    pub span: Span,
}
