//! Parts of hints.

use std::alloc::{AllocError, Global};
use strsim::levenshtein;

/// The name among these that is most like one, where fewer than half of its characters differ. The only error is that
/// memory runs out.
pub fn nearest(alloc: Global, name: &str, known: &[String]) -> Result<Option<String>, AllocError> {
    let mut best: Option<&str> = None;
    let mut least = name.chars().count() / 2 + 1;
    for one in known {
        let distance = levenshtein(alloc, name, one.as_str())?;
        if distance < least {
            least = distance;
            best = Some(one.as_str());
        }
    }
    match best {
        Some(best) => Ok(Some(String::from_str(alloc, best)?)),
        None => Ok(None),
    }
}

// Whether the two bytes around a colon show that a blank is missing behind it.
fn lacks_blank(before: u8, behind: u8) -> bool {
    !before.is_ascii_whitespace()
        && !behind.is_ascii_whitespace()
        && behind != b'/'
        && behind != b':'
}

/// Whether a line has a colon with no blank behind it, as in `key:value`.
pub fn has_tight_colon(line: &[u8]) -> bool {
    line.windows(3).any(|three| three[1] == b':' && lacks_blank(three[0], three[2]))
}

/// Whether a line has a colon that ends a key.
pub fn has_key(line: &[u8]) -> bool {
    line.windows(2)
        .any(|two| two[0] == b':' && two[1].is_ascii_whitespace())
}
