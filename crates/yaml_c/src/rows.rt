//! Rows: what crosses.

ghost use Rattle.std.specs.Prelude.{◌≡◌};
ghost use Rattle.yaml_c.specs.Rows.{bare_row};

/// What rows are, as `YamlRow::kind` says, and what the text of a scalar is, as `YamlRow::word` says.
pub mod kind {
    /// Null.
    pub const NULL: u8 = 0;
    /// A boolean.
    pub const BOOL: u8 = 1;
    /// An integer without a minus, of at most 128 bits.
    pub const UNSIGNED: u8 = 2;
    /// An integer with a minus, of at most 128 bits.
    pub const SIGNED: u8 = 3;
    /// A float.
    pub const FLOAT: u8 = 4;
    /// A string.
    pub const STRING: u8 = 5;
    /// A scalar whose bytes are not UTF-8.
    pub const BYTES: u8 = 6;
    /// A scalar that is not what its tag says.
    pub const MISFIT: u8 = 7;
    /// The node of an empty stream.
    pub const VOID: u8 = 8;
    /// A node that stands for another.
    pub const ALIAS: u8 = 9;
    /// A sequence begins.
    pub const SEQUENCE: u8 = 10;
    /// It ends.
    pub const SEQUENCE_END: u8 = 11;
    /// A mapping begins.
    pub const MAPPING: u8 = 12;
    /// It ends.
    pub const MAPPING_END: u8 = 13;
    /// A document begins.
    pub const DOCUMENT: u8 = 14;
    /// It ends.
    pub const DOCUMENT_END: u8 = 15;
    /// It is cut off.
    pub const FAULT: u8 = 16;
    /// A float of 32 bits, which is only written.
    pub const FLOAT32: u8 = 17;
}

/// How scalars stand in the source, as `YamlRow::style` says.
pub mod style {
    /// Without quotes.
    pub const PLAIN: u8 = 0;
    /// Between single quotes.
    pub const SINGLE_QUOTED: u8 = 1;
    /// Between double quotes.
    pub const DOUBLE_QUOTED: u8 = 2;
    /// A block that keeps its line breaks.
    pub const LITERAL: u8 = 3;
    /// A block whose lines are folded.
    pub const FOLDED: u8 = 4;
}

/// What tags are, as `YamlRow::tag_kind` says.
pub mod tag {
    /// There is none.
    pub const NONE: u8 = 0;
    /// It begins with `!`.
    pub const LOCAL: u8 = 1;
    /// The tag of null.
    pub const NULL: u8 = 2;
    /// The tag of booleans.
    pub const BOOL: u8 = 3;
    /// The tag of integers.
    pub const INT: u8 = 4;
    /// The tag of floats.
    pub const FLOAT: u8 = 5;
    /// Any other.
    pub const OTHER: u8 = 6;
}

/// A node, the end of a collection, the begin or the end of a document, or a fault. A field that is not told of a kind
/// is 0 in rows of it.
#[repr(C)]
#[derive(Clone, Copy)]
pub struct YamlRow {
    /// What the row is. Of a scalar: what it is as a value of any kind, by its tag, its style and its text.
    pub kind: u8,
    /// Of a scalar that is plain or has the tag of null, booleans, integers or floats: what its text would be without
    /// quotes and without a tag. Of any other scalar: a string.
    pub word: u8,
    /// How a scalar stands in the source.
    pub style: u8,
    /// What the tag is.
    pub tag_kind: u8,
    /// 1 where the text stands in the source, 0 where it stands in the texts.
    pub text_in_source: u8,
    /// 1 where the text is that of a finite float or a word for another one.
    pub has_float: u8,
    /// 1 where a string is to be written between quotes always.
    pub ask_quotes: u8,
    /// Nothing.
    pub unused: u8,
    /// Where the text of a scalar or of a fault begins.
    pub text_at: u64,
    /// How many bytes it has.
    pub text_len: u64,
    /// Where the tag begins, in the texts.
    pub tag_at: u64,
    /// How many bytes it has.
    pub tag_len: u64,
    /// The line where the node begins, or of the fault, counted from 0.
    pub line: u64,
    /// The column, counted from 0.
    pub column: u64,
    /// The same place in bytes of the source.
    pub index: u64,
    /// The low half of the integer; the boolean; of an alias the place of what it stands for among the document's
    /// events; of a document how many nestings a reading may go into.
    pub low: u64,
    /// The high half of the integer; of a document how many aliases a reading may follow.
    pub high: u64,
    /// The bits of the float.
    pub float_bits: u64,
    /// The row of the end of a collection or of a document, or of the node that an alias stands for.
    pub link: u64,
}

/// How many rows, and how many bytes of texts.
#[repr(C)]
#[derive(Clone, Copy)]
pub struct YamlSizes {
    /// The rows.
    pub rows: u64,
    /// The bytes.
    pub texts: u64,
}

impl YamlRow {
    // A row of a kind, and else nothing.
    pub(crate) fn of_kind(kind: u8) -> YamlRow
        ensures { result ≡ bare_row kind }
    {
        YamlRow {
            kind,
            word: 0,
            style: 0,
            tag_kind: 0,
            text_in_source: 0,
            has_float: 0,
            ask_quotes: 0,
            unused: 0,
            text_at: 0,
            text_len: 0,
            tag_at: 0,
            tag_len: 0,
            line: 0,
            column: 0,
            index: 0,
            low: 0,
            high: 0,
            float_bits: 0,
            link: 0,
        }
    }
}
