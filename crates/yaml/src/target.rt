//! What takes the parts of a value.

use std::alloc::Global;
use yaml_base::Result;

/// A value without parts.
#[derive(Clone, Copy)]
pub(crate) enum Scalar<'a> {
    Null,
    Bool(bool),
    Signed(i64),
    Unsigned(u64),
    LongSigned(i128),
    LongUnsigned(u128),
    Char(char),
    Str(&'a str),
    // The text of a number.
    Number(&'a str),
}

/// Takes the nodes of a value one behind another, as events or as text. Where nothing is open, a node is a document of
/// its own; else it is the next part of the collection that was opened last. The name of a variant is written as a tag.
pub(crate) trait Target: Drop {
    /// The allocator of what is made for it.
    fn alloc(&self) -> Global;

    /// Takes a scalar. The only fault is `Memory`, as in each of the following.
    fn scalar(&mut self, scalar: Scalar<'_>) -> Result<()>;

    /// Takes a scalar that is the content of a variant.
    fn variant_scalar(&mut self, variant: &str, scalar: Scalar<'_>) -> Result<()>;

    /// Opens a sequence, which may be the content of a variant.
    fn open_sequence(&mut self, variant: Option<String>) -> Result<()>;

    /// Opens a mapping, of keys with values, which may be the content of a variant.
    fn open_mapping(&mut self, variant: Option<String>) -> Result<()>;

    /// Closes the innermost collection, if there is one that awaits no value, and tells whether there is.
    fn close(&mut self) -> Result<bool>;
}
