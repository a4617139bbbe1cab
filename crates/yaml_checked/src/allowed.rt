//! The tape of a text whose bytes are allowed.

ghost use Rattle.std.specs.Prelude.{◌≡◌, IfNone, IfOk, IfSome, false, true};
ghost use Rattle.yaml_checked.specs.OfText.{MayBeLeft, SaysText};
ghost use Rattle.yaml_scan.specs.AllowedText.{IsAllowed};

use std::alloc::{AllocError, Global};
use yaml_direct::parse;
use yaml_scan::{Scanned, scan};
use yaml_tape::Tape;

// Whether the bytes of a text are allowed.
pub(crate) fn is_allowed(alloc: Global, text: &[u8]) -> Result<bool, AllocError>
    ensures allowed { IfOk result (λ all. all ≡ true → IsAllowed text.now) }
    ensures left { IfOk result (λ all. all ≡ false → IsAllowed text.now → ⊥) }
{
    if let Scanned::Unread(_) = scan(alloc, text)? {
        return Ok(false);
    }
    Ok(true)
}

/// The tape of a text, if its bytes are allowed and the direct parser takes all of it: then it says the documents that
/// stand in the text, and where it does not, none stand in one of fewer than 2^32 bytes. The only error is want of memory.
pub fn parse_allowed<'a>(alloc: Global, text: &'a [u8]) -> Result<Option<Tape<'a>>, AllocError>
    ensures text { IfOk result (λ found. IfSome found (λ tape. tape.text.now ≡ text.now)) }
    ensures allowed { IfOk result (λ found. IfSome found (λ tape. IsAllowed tape.text.now)) }
    ensures stands { IfOk result (λ found. IfSome found SaysText) }
    ensures left { IfOk result (λ found. IfNone found (MayBeLeft text.now)) }
{
    if !is_allowed(alloc, text)? {
        return Ok(None);
    }
    parse(alloc, text)
}
