//! The texts of faults.

ghost use Rattle.std.specs.Prelude.{◌≡◌, IfNone, IfOk, IfSome, IsUtf8, None, Some, string_bytes};
ghost use Rattle.yaml_base.specs.ErrorText.{error_text};
ghost use Rattle.yaml_base.specs.declared.error.Cause.TheVariants as cause;
ghost use Rattle.yaml_c.specs.FaultTexts.{asked_cause};
ghost use Rattle.yaml_c.specs.Refused.{HasFault, IsTellable};
ghost use Rattle.yaml_c.specs.Rows.{row_place};

use crate::rows::YamlRow;
use std::alloc::Global;
use yaml_base::{Cause, Error, Mark, Place, Result, Words};

// The words that bytes are, if they are UTF-8.
fn words_of(alloc: Global, bytes: &[u8]) -> Result<Option<Words>>
    ensures words { IfOk result (λ found. IfSome found (λ words. words ≡ bytes.now)) }
    ensures none { IfOk result (λ found. IfNone found (IsUtf8 bytes.now → ⊥)) }
{
    match std::str::from_utf8(bytes) {
        Ok(text) => Ok(Some(Words::new(String::from_str(alloc, text)?))),
        Err(_) => Ok(None),
    }
}

// The place of a row.
fn mark_of(row: &YamlRow) -> Option<Mark>
    ensures mark { IfSome result (λ mark. mark ≡ row_place row.now) }
    ensures none { IfNone result (IsTellable row.now → ⊥) }
{
    Mark::new(row.index, row.line, row.column)
}

// A message, behind the path, at a mark.
fn message_at(alloc: Global, row: &YamlRow, words: &[u8], path: &[u8]) -> Result<Option<Cause>>
    ensures cause { IfOk result (λ found. IfSome found (λ c.
        c ≡ cause.Custom words.now (Some (record { mark = row_place row.now; path = path.now })))) }
    ensures none { IfOk result (λ found. IfNone found
        (IsTellable row.now → IsUtf8 words.now → IsUtf8 path.now → ⊥)) }
{
    let Some(mark) = mark_of(row) else {
        return Ok(None);
    };
    let Some(path) = words_of(alloc, path)? else {
        return Ok(None);
    };
    let Some(text) = words_of(alloc, words)? else {
        return Ok(None);
    };
    let place = Some(Place { mark, path });
    Ok(Some(Cause::Custom { text, place }))
}

// A message alone.
fn message(alloc: Global, words: &[u8]) -> Result<Option<Cause>>
    ensures cause { IfOk result (λ found. IfSome found (λ c. c ≡ cause.Custom words.now None)) }
    ensures none { IfOk result (λ found. IfNone found (IsUtf8 words.now → ⊥)) }
{
    match words_of(alloc, words)? {
        Some(text) => Ok(Some(Cause::Custom { text, place: None })),
        None => Ok(None),
    }
}

// Nestings beyond the limit.
fn too_nested(row: &YamlRow) -> Option<Cause>
    ensures cause { IfSome result (λ c. c ≡ cause.RecursionLimitExceeded (row_place row.now)) }
    ensures none { IfNone result (IsTellable row.now → ⊥) }
{
    match mark_of(row) {
        Some(mark) => Some(Cause::RecursionLimitExceeded(mark)),
        None => None,
    }
}

// The cause with this number, if there is one.
fn cause_of(
    alloc: Global,
    number: u32,
    row: &YamlRow,
    words: &[u8],
    path: &[u8],
) -> Result<Option<Cause>>
    ensures cause { IfOk result (λ found. IfSome found (λ c. c ≡ asked_cause number row.now words.now path.now)) }
    ensures none { IfOk result (λ found. IfNone found (HasFault number row.now words.now path.now → ⊥)) }
{
    match number {
        0 => message_at(alloc, row, words, path),
        1 => message(alloc, words),
        2 => Ok(too_nested(row)),
        3 => Ok(Some(Cause::RepetitionLimitExceeded)),
        4 => Ok(Some(Cause::EndOfStream)),
        5 => Ok(Some(Cause::MoreThanOneDocument)),
        6 => Ok(Some(Cause::BytesUnsupported)),
        7 => Ok(Some(Cause::SerializeNestedEnum)),
        _ => Ok(None),
    }
}

/// The text of the fault with this cause, if there is such.
pub(crate) fn fault_text(
    alloc: Global,
    number: u32,
    row: &YamlRow,
    words: &[u8],
    path: &[u8],
) -> Result<Option<String>>
    ensures text { IfOk result (λ found. IfSome found (λ text.
        string_bytes text ≡ error_text (asked_cause number row.now words.now path.now))) }
    ensures none { IfOk result (λ found. IfNone found (HasFault number row.now words.now path.now → ⊥)) }
{
    match cause_of(alloc, number, row, words, path)? {
        Some(cause) => {
            let fault = Error::new(cause);
            Ok(Some(format!(in alloc; "{fault}")?))
        }
        None => Ok(None),
    }
}
