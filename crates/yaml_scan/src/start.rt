//! Where the scanner begins: a text that is allowed has tokens.

ghost use Rattle.std.specs.Prelude.{◌+◌, ◌≤◌, IfOk, length};
ghost use Rattle.yaml_scan.specs.Scanning.{IsScanned};

use crate::Fault;
use crate::reader::first_fault;
use crate::scanner::Scanner;
use crate::tokens::Tokens;
use std::alloc::{AllocError, Global};
use yaml_base::Mark;

/// What a text's tokens are.
#[derive(Drop)]
pub enum Scanned<'a> {
    /// The tokens in the order of the text.
    Tokens(Tokens<'a>),
    /// The text could not be read at all.
    Unread(Fault),
}

/// The tokens of a text, of which none is scanned yet.
///
/// A text whose bytes are not all allowed, by the rules of UTF-8 or of YAML's characters, has no tokens, and the fault
/// tells the first byte that is not. The only error is want of memory.
pub fn scan<'a>(alloc: Global, text: &'a [u8]) -> Result<Scanned<'a>, AllocError>
    ensures { IfOk result (IsScanned text.now) }
{
    if let Some(fault) = first_fault(text) {
        return Ok(Scanned::Unread(fault));
    }
    Ok(Scanned::Tokens(Tokens::new(Scanner::new(alloc, text)?)))
}

/// The tokens of a text from a mark on, where a document may begin, of which none is scanned yet. They are those that
/// [`scan`] gives there of the whole text, behind the end of a document before.
///
/// The text's bytes have to be allowed, and are not looked at for that again. The only error is want of memory.
pub fn scan_behind<'a>(alloc: Global, text: &'a [u8], mark: Mark) -> Result<Tokens<'a>, AllocError>
    requires within { mark.index ≤ length text.now }
    requires counted { mark.line + mark.column ≤ mark.index }
{
    Ok(Tokens::new(Scanner::behind(alloc, text, mark)?))
}
