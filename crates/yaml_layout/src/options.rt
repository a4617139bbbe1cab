//! How a text is laid out.

/// How a text is laid out.
#[derive(Clone, Copy, PartialEq, Eq, Debug)]
pub struct Options {
    /// How many columns what stands in a collection stands further to the right: 1 to 9. Less counts as 1, and more
    /// as 9.
    pub indent: u8,
    /// Whether the entries of a sequence that is a value of a mapping stand further to the right than its key.
    pub indent_sequences: bool,
}

impl Options {
    /// Two columns, and the entries of a sequence below the key whose value it is.
    pub const DEFAULT: Options = Options {
        indent: 2,
        indent_sequences: false,
    };
}
