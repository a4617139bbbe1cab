//! Which members of a map others use up that share it, as the derives of `serde` count them.

use serde::{Deserializer, Format};

// The bit of all members from the 64th on.
const LAST: u64 = 1 << 63;

/// The members of a map, in order, and which of them are used up.
#[derive(Clone, Copy)]
pub(crate) struct Members {
    taken: u64,
    // The bit of the next member.
    next: u64,
}

impl Members {
    /// None of which is used up.
    pub(crate) fn all() -> Members {
        Members::but(0)
    }

    /// Of which these are used up, each by its bit.
    pub(crate) fn but(taken: u64) -> Members {
        Members { taken, next: 1 }
    }

    /// Goes to the next member, and tells whether it is used up. Of the members from the 64th on that is not known, so
    /// they are refused, at the first of them, where one is used up.
    pub(crate) fn passes_next<F: Format>(
        &mut self,
        from: &mut Deserializer<'_, '_, F>,
    ) -> Result<bool, F::Error> {
        let bit = self.next;
        let is_taken = self.taken & bit != 0;
        if bit != LAST {
            self.next = bit.wrapping_add(bit);
            return Ok(is_taken);
        }
        if is_taken {
            from.skip()?;
            return Err(from.custom("two values that share a map have keys after its 63rd member"));
        }
        Ok(false)
    }
}
