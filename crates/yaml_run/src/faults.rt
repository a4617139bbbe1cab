//! The text that tells a fault.

ghost use Rattle.std.specs.Prelude.{◌≡◌, Some, string_bytes, IfOk};
ghost use Rattle.yaml_run.specs.Audiences.{fault_told, is_at_start, offset_of, placed_error};
ghost use Rattle.yaml_run.specs.declared.audience.Audience.TheVariants.{People};

use crate::audience::Audience;
use std::alloc::{AllocError, Global};
use std::fmt;
use yaml_base::{Cause, Error, Visible};

// The byte where the problem of a parser's fault is, where it has no mark.
fn offset_of(fault: &Error) -> u64
    ensures { result ≡ offset_of fault.now }
{
    match fault.cause() {
        Cause::Parser(fault) => fault.offset(),
        _ => 0,
    }
}

// Whether a fault stands at the start of its text, of which its own text tells no place.
fn is_at_start(fault: &Error) -> bool
    ensures { result ≡ is_at_start fault.now }
{
    match fault.location() {
        Some(place) => place.line() == 1 && place.column() == 1 && offset_of(fault) == 0,
        None => false,
    }
}

// A fault, with its line and its column also where these are the first.
#[derive(Drop)]
struct Placed<'a>(&'a Error);

impl fmt::Display for Placed<'_> {
    ghost output = { λ placed. Some (placed_error placed.0.now) };

    fn fmt<W: fmt::Write>(&self, f: &mut fmt::Formatter<W>) -> fmt::Result {
        let fault = self.0;
        write!(f, "{fault}")?;
        if is_at_start(fault) {
            f.write_str(" at line 1 column 1")?;
        }
        Ok(())
    }
}

// The text that tells people a fault.
fn told_to_people(alloc: Global, fault: &Error) -> Result<String, AllocError>
    ensures { IfOk result (λ text. string_bytes text ≡ fault_told People fault.now) }
{
    let placed = Placed(fault);
    let text = format!(in alloc; "fault: {placed}")?;
    let visible = Visible(text.as_str());
    format!(in alloc; "{visible}")
}

/// The text that tells an audience a fault. The only error is that memory runs out.
pub fn fault_told(alloc: Global, audience: Audience, fault: &Error) -> Result<String, AllocError>
    ensures { IfOk result (λ text. string_bytes text ≡ fault_told audience fault.now) }
{
    match audience {
        Audience::Programs => format!(in alloc; "fault: {fault}"),
        Audience::People => told_to_people(alloc, fault),
    }
}
