//! Faults with the places where they are found.

ghost use Rattle.std.specs.Prelude.{◌≡◌, IfErr, IfOk, false, true};
ghost use Rattle.yaml_base.specs.Answer.{is_memory};
ghost use Rattle.yaml_merge.specs.Treated.{refusal};

use std::alloc::Global;
use yaml_base::{Cause, EntryKey, Error, Mark, Path, Result, Words};

// The fault with what this cause says as its text, and the mark as its place.
pub(crate) fn placed(alloc: Global, cause: Cause, mark: Option<Mark>) -> Error {
    match try_placed(alloc, cause, mark) {
        Ok(fault) => fault,
        Err(refused) => refused,
    }
}

// The same, unless memory is wanting.
fn try_placed(alloc: Global, cause: Cause, mark: Option<Mark>) -> Result<Error> {
    let Some(mark) = mark else {
        return Ok(Error::new(cause));
    };
    let text = format!(in alloc; "{cause}")?;
    Error::custom(text).fix_mark(alloc, mark, &Path::Root)
}

// Merge keys are refused, and this is the mark of the first.
pub(crate) fn refused(alloc: Global, mark: Mark) -> Error
    ensures { is_memory result ≡ false → result ≡ refusal mark }
{
    match try_refused(alloc, mark) {
        Ok(fault) => fault,
        Err(refused) => refused,
    }
}

// The same, unless memory is wanting.
fn try_refused(alloc: Global, mark: Mark) -> Result<Error>
    ensures refused { IfOk result (λ fault. fault ≡ refusal mark) }
    ensures memory { IfErr result (λ cause. is_memory cause ≡ true) }
{
    let text = String::from_str(alloc, "merge keys are not allowed")?;
    Error::custom(text).fix_mark(alloc, mark, &Path::Root)
}

// A mapping has a second merge key, with this mark.
pub(crate) fn second(alloc: Global, mark: Option<Mark>) -> Error {
    match try_second(alloc, mark) {
        Ok(fault) => fault,
        Err(refused) => refused,
    }
}

// The same, unless memory is wanting.
fn try_second(alloc: Global, mark: Option<Mark>) -> Result<Error> {
    let key = EntryKey::String(Words::new(String::from_str(alloc, "<<")?));
    let fault = Error::new(Cause::DuplicateEntry { key, place: None });
    match mark {
        Some(mark) => fault.fix_mark(alloc, mark, &Path::Root),
        None => Ok(fault),
    }
}
