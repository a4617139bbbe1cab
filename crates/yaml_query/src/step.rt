//! The steps of paths.

/// A step of a path.
#[derive(Drop)]
pub enum Step {
    /// To the value at the key that is this text.
    Key(String),
    /// To the element in this place of a sequence, counted from 0, or to the value at the key that is this number.
    Index(usize),
}

/// A path: steps, one behind the other.
#[derive(Drop)]
pub struct Path {
    /// The steps; none lead to the whole.
    pub steps: Vec<Step>,
}
