//! The fault of the parser, as a line writes it.

ghost use Rattle.std.specs.Prelude.{◌≡◌, ◌≢◌, string_bytes, IfOk, MatchOption};
ghost use Rattle.std.specs.Str.{IsUtf8};
ghost use Rattle.yaml_base.specs.declared.fault.FaultKind.{FaultKind as Kind};
ghost use Rattle.yaml_lines.specs.Escape.{Spells};
ghost use Rattle.yaml_lines.specs.SpelledFault.{kind_name, IsSpelledFault};
ghost use Rattle.yaml_lines.specs.Parses.{Parses};

use crate::escape::unescape;
use crate::fault::LineFault;
use crate::line::parts::{cut, number_before};
use std::alloc::Global;
use yaml_base::{FaultKind, Mark, ParserFault};

// The kind with this name.
fn kind_named(name: &[u8]) -> Option<FaultKind>
    ensures { MatchOption result
        ((kind : Kind) → kind_name kind ≢ name.now) (λ kind. kind_name kind ≡ name.now) }
{
    match name {
        b"MEMORY" => Some(FaultKind::Memory),
        b"READER" => Some(FaultKind::Reader),
        b"SCANNER" => Some(FaultKind::Scanner),
        b"PARSER" => Some(FaultKind::Parser),
        b"COMPOSER" => Some(FaultKind::Composer),
        b"WRITER" => Some(FaultKind::Writer),
        b"EMITTER" => Some(FaultKind::Emitter),
        b"OTHER" => Some(FaultKind::Other),
        _ => None,
    }
}

// The text that a text with escapes stands for, if that is UTF-8.
fn problem(alloc: Global, text: &[u8]) -> Result<String, LineFault>
    ensures { Parses string_bytes (λ bytes. Spells text.now bytes × IsUtf8 bytes) result }
{
    let bytes = unescape(alloc, text)?;
    match String::from_utf8(bytes) {
        Ok(problem) => Ok(problem),
        Err(_) => Err(LineFault::Bad),
    }
}

/// The fault that stands behind the word for one, at this mark.
pub fn parse(alloc: Global, text: &[u8], mark: Mark) -> Result<ParserFault, LineFault>
    ensures says { Parses (λ fault. fault) (IsSpelledFault text.now) result }
    ensures at { IfOk result (λ fault. fault.mark ≡ mark) }
{
    let (name, text) = cut(text, b' ').ok_or(LineFault::Bad)?;
    let kind = kind_named(name).ok_or(LineFault::Bad)?;
    let (offset, text) = number_before(text, b' ').ok_or(LineFault::Bad)?;
    let problem = problem(alloc, text)?;
    Ok(ParserFault::new(kind, problem, offset, mark, None, mark))
}
