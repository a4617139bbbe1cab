//! Which tokens a space stands between.

use yaml_scan::Token;

/// What a token is to the one beside it.
#[derive(Clone, Copy, PartialEq, Eq)]
pub(crate) enum Kind {
    /// A line by itself: a directive, or the end of a document. So is what stands before the first token.
    Line,
    /// `---`, `-` or `?`
    Indicator,
    /// `:`
    Value,
    /// `,`
    Comma,
    /// `[` or `{`
    Open,
    /// `]` or `}`
    Close,
    /// An anchor, a tag or an alias.
    Name,
    /// A scalar.
    Scalar,
    /// It has no text.
    Empty,
}

/// What a token is to the one beside it.
pub(crate) fn kind_of(token: &Token) -> Kind {
    match token {
        Token::VersionDirective { .. } | Token::TagDirective { .. } | Token::DocumentEnd => {
            Kind::Line
        }
        Token::DocumentStart | Token::BlockEntry | Token::Key => Kind::Indicator,
        Token::Value => Kind::Value,
        Token::FlowEntry => Kind::Comma,
        Token::FlowSequenceStart | Token::FlowMappingStart => Kind::Open,
        Token::FlowSequenceEnd | Token::FlowMappingEnd => Kind::Close,
        Token::Alias(_) | Token::Anchor(_) | Token::Tag { .. } => Kind::Name,
        Token::Plain | Token::Scalar { .. } => Kind::Scalar,
        _ => Kind::Empty,
    }
}

/// Whether a space stands between two tokens of a line, between which one stood or not.
pub(crate) fn is_spaced(before: Kind, next: Kind, stood: bool) -> bool {
    match (before, next) {
        (Kind::Open, _) => false,
        (Kind::Scalar | Kind::Close, Kind::Value | Kind::Comma | Kind::Close) => false,
        (Kind::Comma, Kind::Close) => false,
        (_, Kind::Value | Kind::Comma | Kind::Close) => stood,
        (Kind::Scalar | Kind::Close, _) => stood,
        _ => true,
    }
}
