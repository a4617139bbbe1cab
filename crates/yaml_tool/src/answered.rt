//! An answer to a text: what is printed of it, and the faults, which are told beside that.

ghost use Rattle.std.specs.Prelude.{◌≡◌, string_bytes, IfOk};
ghost use Rattle.yaml_base.specs.Answer.{is_memory};
ghost use Rattle.yaml_run.specs.Shown.{ended_by};
ghost use Rattle.yaml_tool.specs.Asked.{Replies};

use std::alloc::{AllocError, Global};
use yaml_base::{Cause, Error};
use yaml_run::{Shown, Status};

/// An answer to a text.
#[derive(Drop)]
pub struct Answered {
    /// How the run ends where the answer is printed.
    pub ended: Status,
    /// What is printed.
    pub text: String,
    /// The faults, which are told beside it.
    pub faults: Vec<Error>,
}

/// The answer of this text and these faults.
pub fn of_parts(text: String, faults: Vec<Error>) -> Answered
    ensures ended { result.ended ≡ ended_by result.faults.items }
    ensures text { result.text ≡ text }
    ensures faults { result.faults ≡ faults }
{
    of_shown(Shown { text, faults })
}

/// The answer of what is shown.
pub fn of_shown(shown: Shown) -> Answered
    ensures ended { result.ended ≡ ended_by result.faults.items }
    ensures text { result.text ≡ shown.text }
    ensures faults { result.faults ≡ shown.faults }
{
    let ended = shown.ended();
    Answered {
        ended,
        text: shown.text,
        faults: shown.faults,
    }
}

/// Whether a fault tells of want of memory.
pub fn is_memory(fault: &Error) -> bool
    ensures { result ≡ is_memory fault.now }
{
    matches!(fault.cause(), Cause::Memory)
}

/// The answer of a text, or of the fault that stands for it. The only error is that memory runs out, as it has where
/// the fault says so.
pub fn of_text(alloc: Global, text: yaml_base::Result<String>) -> Result<Answered, AllocError>
    ensures ended { IfOk result (λ answer. answer.ended ≡ ended_by answer.faults.items) }
    ensures replies { IfOk result (λ answer. Replies text (string_bytes answer.text) answer.faults.items) }
{
    match text {
        Ok(text) => Ok(of_parts(text, Vec::new(alloc))),
        Err(fault) => {
            if is_memory(&fault) {
                return Err(AllocError);
            }
            Ok(of_parts(String::new(alloc), vec![in alloc; fault]?))
        }
    }
}
