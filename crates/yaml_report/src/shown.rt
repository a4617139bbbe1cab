//! Parts of a line as they are shown: without control characters, and no longer than a terminal is wide.

use std::alloc::{AllocError, Global};

// So many characters are shown before a place and behind it.
const WINDOW: usize = 60;

// Appends a character as it is shown: a tab as blanks, and another control character by its code.
fn push_shown(out: &mut String, c: char) -> Result<(), AllocError> {
    if c == '\t' {
        return out.push_str("    ");
    }
    if c.is_control() {
        let code = c as u32;
        return write!(out, "\\u{{{code:x}}}");
    }
    out.push(c)
}

/// The end of what stands before a place, as it is shown. The only error is that memory runs out.
pub fn shown_before(alloc: Global, bytes: &[u8]) -> Result<String, AllocError> {
    let text = String::from_utf8_lossy(alloc, bytes)?;
    let count = text.as_str().chars().count();
    let mut out = String::new(alloc);
    if count > WINDOW {
        out.push_str("...")?;
    }
    for c in text.as_str().chars().skip(count.saturating_sub(WINDOW)) {
        push_shown(&mut out, c)?;
    }
    Ok(out)
}

/// The start of what stands behind a place, as it is shown. The only error is that memory runs out.
pub fn shown_behind(alloc: Global, bytes: &[u8]) -> Result<String, AllocError> {
    let text = String::from_utf8_lossy(alloc, bytes)?;
    let mut out = String::new(alloc);
    for (i, c) in text.as_str().chars().enumerate() {
        if i >= WINDOW {
            out.push_str("...")?;
            break;
        }
        push_shown(&mut out, c)?;
    }
    Ok(out)
}
