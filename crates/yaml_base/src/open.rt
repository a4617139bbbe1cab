//! What an open collection waits for.

/// What an open collection waits for, where events are read from the first to the last.
#[derive(Clone, Copy)]
pub enum Open {
    /// A node, or the end of the sequence.
    Sequence,
    /// A key, or the end of the mapping.
    Key,
    /// A value.
    Value,
}
