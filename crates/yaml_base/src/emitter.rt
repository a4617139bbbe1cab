//! The events of an emitter.

/// How a scalar is to be written.
#[derive(Clone, Copy, PartialEq, Eq, Debug)]
pub enum AskedStyle {
    /// In any style.
    Any,
    /// Without quotes.
    Plain,
    /// Between single quotes, or in any other style but plain.
    SingleQuoted,
    /// As a block that keeps its line breaks, or in any other style but plain.
    Literal,
}

/// A scalar to be written.
#[derive(Debug, Drop)]
pub struct EmitScalar {
    /// The tag, if the scalar has one.
    pub tag: Option<String>,
    /// The text.
    pub value: String,
    /// The style that is asked for.
    pub style: AskedStyle,
}

/// The start of a sequence to be written.
#[derive(Debug, Drop)]
pub struct Sequence {
    /// The tag, if the sequence has one.
    pub tag: Option<String>,
}

/// The start of a mapping to be written.
#[derive(Debug, Drop)]
pub struct Mapping {
    /// The tag, if the mapping has one.
    pub tag: Option<String>,
}

/// An event for an emitter.
#[derive(Debug, Drop)]
pub enum EmitEvent {
    /// The first event of each stream.
    StreamStart,
    /// The last event of each stream.
    StreamEnd,
    /// A document begins.
    DocumentStart,
    /// The document ends.
    DocumentEnd,
    /// A scalar.
    Scalar(EmitScalar),
    /// A sequence begins.
    SequenceStart(Sequence),
    /// The sequence begun last that is still open ends.
    SequenceEnd,
    /// A mapping begins.
    MappingStart(Mapping),
    /// The mapping begun last that is still open ends.
    MappingEnd,
}
