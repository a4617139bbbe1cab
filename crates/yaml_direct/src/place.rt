//! Places: what each function that reads answers.

/// No place: the text is not of the language, or it is wrong, and its tokens are to be read; or memory ran out. A place
/// is no `Option`, which would be handed over in memory, not in a register: that costs an event a tenth more.
pub(crate) const NO_PLACE: usize = usize::MAX;

// A place, or the end of the function where there is none.
macro_rules! reach {
    ($place:expr) => {{
        let place = $place;
        if place == NO_PLACE {
            return NO_PLACE;
        }
        place
    }};
}

pub(crate) use reach;
