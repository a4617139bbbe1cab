//! What may be wrong with a text, in the words of libyaml.

/// What may be wrong with a text.
///
/// The three that no text has, since the parser never meets them, are the last ones.
#[derive(Clone, Copy, PartialEq, Eq)]
pub enum Problem {
    /// block sequence entries are not allowed in this context
    BlockSequenceEntriesAreNotAllowedInThisContext,
    /// control characters are not allowed
    ControlCharactersAreNotAllowed,
    /// could not find expected ':'
    CouldNotFindExpectedColon,
    /// could not find expected directive name
    CouldNotFindExpectedDirectiveName,
    /// did not find expected alphabetic or numeric character
    DidNotFindExpectedAlphabeticOrNumericCharacter,
    /// did not find expected '!'
    DidNotFindExpectedBang,
    /// did not find expected ',' or '}'
    DidNotFindExpectedCommaOrBrace,
    /// did not find expected ',' or ']'
    DidNotFindExpectedCommaOrBracket,
    /// did not find expected comment or line break
    DidNotFindExpectedCommentOrLineBreak,
    /// did not find expected '-' indicator
    DidNotFindExpectedDashIndicator,
    /// did not find expected digit or '.' character
    DidNotFindExpectedDigitOrDotCharacter,
    /// did not find expected <document start>
    DidNotFindExpectedDocumentStart,
    /// did not find expected hexadecimal number
    DidNotFindExpectedHexadecimalNumber,
    /// did not find expected key
    DidNotFindExpectedKey,
    /// did not find expected node content
    DidNotFindExpectedNodeContent,
    /// did not find expected tag URI
    DidNotFindExpectedTagUri,
    /// did not find expected version number
    DidNotFindExpectedVersionNumber,
    /// did not find expected whitespace
    DidNotFindExpectedWhitespace,
    /// did not find expected whitespace or line break
    DidNotFindExpectedWhitespaceOrLineBreak,
    /// did not find the expected '>'
    DidNotFindTheExpectedAngle,
    /// did not find URI escaped octet
    DidNotFindUriEscapedOctet,
    /// found a tab character that violates indentation
    FoundATabCharacterThatViolatesIndentation,
    /// found a tab character where an indentation space is expected
    FoundATabCharacterWhereAnIndentationSpaceIsExpected,
    /// found an incorrect leading UTF-8 octet
    FoundAnIncorrectLeadingUtf8Octet,
    /// found an incorrect trailing UTF-8 octet
    FoundAnIncorrectTrailingUtf8Octet,
    /// found an indentation indicator equal to 0
    FoundAnIndentationIndicatorZero,
    /// found character that cannot start any token
    FoundCharacterThatCannotStartAnyToken,
    /// found duplicate %TAG directive
    FoundDuplicateHandleDirective,
    /// found duplicate %YAML directive
    FoundDuplicateVersionDirective,
    /// found extremely long version number
    FoundExtremelyLongVersionNumber,
    /// found incompatible YAML document
    FoundIncompatibleYamlDocument,
    /// found invalid Unicode character escape code
    FoundInvalidUnicodeCharacterEscapeCode,
    /// found undefined tag handle
    FoundUndefinedTagHandle,
    /// found unexpected ':'
    FoundUnexpectedColon,
    /// found unexpected document indicator
    FoundUnexpectedDocumentIndicator,
    /// found unexpected end of stream
    FoundUnexpectedEndOfStream,
    /// found unexpected non-alphabetical character
    FoundUnexpectedNonAlphabeticalCharacter,
    /// found unknown directive name
    FoundUnknownDirectiveName,
    /// found unknown escape character
    FoundUnknownEscapeCharacter,
    /// incomplete UTF-8 octet sequence
    IncompleteUtf8OctetSequence,
    /// invalid leading UTF-8 octet
    InvalidLeadingUtf8Octet,
    /// invalid length of a UTF-8 sequence
    InvalidLengthOfAUtf8Sequence,
    /// invalid trailing UTF-8 octet
    InvalidTrailingUtf8Octet,
    /// invalid Unicode character
    InvalidUnicodeCharacter,
    /// mapping keys are not allowed in this context
    MappingKeysAreNotAllowedInThisContext,
    /// mapping values are not allowed in this context
    MappingValuesAreNotAllowedInThisContext,
    /// a token took too many steps
    ATokenTookTooManySteps,
    /// the event may not stand here
    TheEventMayNotStandHere,
    /// the tokens have no end
    TheTokensHaveNoEnd,
}

impl Problem {
    /// The problem in words, as they stand in a message.
    pub fn text(self) -> &'static str {
        match self {
            Problem::BlockSequenceEntriesAreNotAllowedInThisContext =>
                "block sequence entries are not allowed in this context",
            Problem::ControlCharactersAreNotAllowed => "control characters are not allowed",
            Problem::CouldNotFindExpectedColon => "could not find expected ':'",
            Problem::CouldNotFindExpectedDirectiveName => "could not find expected directive name",
            Problem::DidNotFindExpectedAlphabeticOrNumericCharacter =>
                "did not find expected alphabetic or numeric character",
            Problem::DidNotFindExpectedBang => "did not find expected '!'",
            Problem::DidNotFindExpectedCommaOrBrace => "did not find expected ',' or '}'",
            Problem::DidNotFindExpectedCommaOrBracket => "did not find expected ',' or ']'",
            Problem::DidNotFindExpectedCommentOrLineBreak =>
                "did not find expected comment or line break",
            Problem::DidNotFindExpectedDashIndicator => "did not find expected '-' indicator",
            Problem::DidNotFindExpectedDigitOrDotCharacter =>
                "did not find expected digit or '.' character",
            Problem::DidNotFindExpectedDocumentStart => "did not find expected <document start>",
            Problem::DidNotFindExpectedHexadecimalNumber =>
                "did not find expected hexadecimal number",
            Problem::DidNotFindExpectedKey => "did not find expected key",
            Problem::DidNotFindExpectedNodeContent => "did not find expected node content",
            Problem::DidNotFindExpectedTagUri => "did not find expected tag URI",
            Problem::DidNotFindExpectedVersionNumber => "did not find expected version number",
            Problem::DidNotFindExpectedWhitespace => "did not find expected whitespace",
            Problem::DidNotFindExpectedWhitespaceOrLineBreak =>
                "did not find expected whitespace or line break",
            Problem::DidNotFindTheExpectedAngle => "did not find the expected '>'",
            Problem::DidNotFindUriEscapedOctet => "did not find URI escaped octet",
            Problem::FoundATabCharacterThatViolatesIndentation =>
                "found a tab character that violates indentation",
            Problem::FoundATabCharacterWhereAnIndentationSpaceIsExpected =>
                "found a tab character where an indentation space is expected",
            Problem::FoundAnIncorrectLeadingUtf8Octet => "found an incorrect leading UTF-8 octet",
            Problem::FoundAnIncorrectTrailingUtf8Octet => "found an incorrect trailing UTF-8 octet",
            Problem::FoundAnIndentationIndicatorZero => "found an indentation indicator equal to 0",
            Problem::FoundCharacterThatCannotStartAnyToken =>
                "found character that cannot start any token",
            Problem::FoundDuplicateHandleDirective => "found duplicate %TAG directive",
            Problem::FoundDuplicateVersionDirective => "found duplicate %YAML directive",
            Problem::FoundExtremelyLongVersionNumber => "found extremely long version number",
            Problem::FoundIncompatibleYamlDocument => "found incompatible YAML document",
            Problem::FoundInvalidUnicodeCharacterEscapeCode =>
                "found invalid Unicode character escape code",
            Problem::FoundUndefinedTagHandle => "found undefined tag handle",
            Problem::FoundUnexpectedColon => "found unexpected ':'",
            Problem::FoundUnexpectedDocumentIndicator => "found unexpected document indicator",
            Problem::FoundUnexpectedEndOfStream => "found unexpected end of stream",
            Problem::FoundUnexpectedNonAlphabeticalCharacter =>
                "found unexpected non-alphabetical character",
            Problem::FoundUnknownDirectiveName => "found unknown directive name",
            Problem::FoundUnknownEscapeCharacter => "found unknown escape character",
            Problem::IncompleteUtf8OctetSequence => "incomplete UTF-8 octet sequence",
            Problem::InvalidLeadingUtf8Octet => "invalid leading UTF-8 octet",
            Problem::InvalidLengthOfAUtf8Sequence => "invalid length of a UTF-8 sequence",
            Problem::InvalidTrailingUtf8Octet => "invalid trailing UTF-8 octet",
            Problem::InvalidUnicodeCharacter => "invalid Unicode character",
            Problem::MappingKeysAreNotAllowedInThisContext =>
                "mapping keys are not allowed in this context",
            Problem::MappingValuesAreNotAllowedInThisContext =>
                "mapping values are not allowed in this context",
            Problem::ATokenTookTooManySteps => "a token took too many steps",
            Problem::TheEventMayNotStandHere => "the event may not stand here",
            Problem::TheTokensHaveNoEnd => "the tokens have no end",
        }
    }
}
