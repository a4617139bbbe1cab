//! For whom a reading is told.

/// For whom a reading is told.
#[derive(Clone, Copy, PartialEq, Eq, Debug)]
pub enum Audience {
    /// Programs, and tests that compare: texts stand as the layers below print them, and want of memory is a fault.
    Programs,
    /// People: control characters stand by their codes, and a fault at the start of a text has its line and column too.
    /// Want of memory is no fault, since it says nothing of the text.
    People,
}
