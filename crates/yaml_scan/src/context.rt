//! What was being read where a text is wrong, in the words of libyaml.

/// What was being read where a fault is found.
#[derive(Clone, Copy, PartialEq, Eq)]
pub enum Context {
    /// while parsing a block collection
    ParsingABlockCollection,
    /// while parsing a block mapping
    ParsingABlockMapping,
    /// while parsing a block node
    ParsingABlockNode,
    /// while parsing a flow mapping
    ParsingAFlowMapping,
    /// while parsing a flow node
    ParsingAFlowNode,
    /// while parsing a flow sequence
    ParsingAFlowSequence,
    /// while parsing a %TAG directive
    ParsingAHandleDirective,
    /// while parsing a node
    ParsingANode,
    /// while parsing a quoted scalar
    ParsingAQuotedScalar,
    /// while parsing a tag
    ParsingATag,
    /// while parsing a tag directive
    ParsingATagDirective,
    /// while scanning a block scalar
    ScanningABlockScalar,
    /// while scanning a directive
    ScanningADirective,
    /// while scanning a %TAG directive
    ScanningAHandleDirective,
    /// while scanning a plain scalar
    ScanningAPlainScalar,
    /// while scanning a quoted scalar
    ScanningAQuotedScalar,
    /// while scanning a simple key
    ScanningASimpleKey,
    /// while scanning a tag
    ScanningATag,
    /// while scanning a tag directive
    ScanningATagDirective,
    /// while scanning a %YAML directive
    ScanningAVersionDirective,
    /// while scanning an alias
    ScanningAnAlias,
    /// while scanning an anchor
    ScanningAnAnchor,
    /// while scanning for the next token
    ScanningForTheNextToken,
}

impl Context {
    /// The context in words, as they stand in a message.
    pub fn text(self) -> &'static str {
        match self {
            Context::ParsingABlockCollection => "while parsing a block collection",
            Context::ParsingABlockMapping => "while parsing a block mapping",
            Context::ParsingABlockNode => "while parsing a block node",
            Context::ParsingAFlowMapping => "while parsing a flow mapping",
            Context::ParsingAFlowNode => "while parsing a flow node",
            Context::ParsingAFlowSequence => "while parsing a flow sequence",
            Context::ParsingAHandleDirective => "while parsing a %TAG directive",
            Context::ParsingANode => "while parsing a node",
            Context::ParsingAQuotedScalar => "while parsing a quoted scalar",
            Context::ParsingATag => "while parsing a tag",
            Context::ParsingATagDirective => "while parsing a tag directive",
            Context::ScanningABlockScalar => "while scanning a block scalar",
            Context::ScanningADirective => "while scanning a directive",
            Context::ScanningAHandleDirective => "while scanning a %TAG directive",
            Context::ScanningAPlainScalar => "while scanning a plain scalar",
            Context::ScanningAQuotedScalar => "while scanning a quoted scalar",
            Context::ScanningASimpleKey => "while scanning a simple key",
            Context::ScanningATag => "while scanning a tag",
            Context::ScanningATagDirective => "while scanning a tag directive",
            Context::ScanningAVersionDirective => "while scanning a %YAML directive",
            Context::ScanningAnAlias => "while scanning an alias",
            Context::ScanningAnAnchor => "while scanning an anchor",
            Context::ScanningForTheNextToken => "while scanning for the next token",
        }
    }
}
