//! The faults of the parser.

ghost use Rattle.std.specs.Prelude.{◌≡◌, ◌≢◌, IfOk};
ghost use Rattle.yaml_base.specs.declared.fault.FaultKind.TheVariants as kind;
ghost use Rattle.yaml_parse.specs.Faults.{IsToldBy};

use std::alloc::{AllocError, Global};
use yaml_base::{FaultKind, Mark, ParserFault};
use yaml_scan::{Context, Fault, Finding, Problem};

// A fault at a mark.
pub(crate) fn fault(problem: Problem, mark: Mark) -> Finding {
    Finding {
        problem,
        mark,
        context: None,
        context_mark: mark,
    }
}

// A fault at a mark, found while doing what the context says, which began at `start`.
pub(crate) fn fault_in(context: Context, start: Mark, problem: Problem, mark: Mark) -> Finding {
    Finding {
        problem,
        mark,
        context: Some(context),
        context_mark: start,
    }
}

// The fault of an event that may not stand here.
pub(crate) fn misplaced(mark: Mark) -> Finding {
    fault(Problem::TheEventMayNotStandHere, mark)
}

// The fault of a token at which the parser did not come to an end.
pub(crate) fn endless(mark: Mark) -> Finding {
    fault(Problem::ATokenTookTooManySteps, mark)
}

// The kind of a fault that the parser found: one that no text has is of kind `Other`.
pub(crate) fn kind_of(problem: Problem) -> FaultKind
    ensures { result ≢ kind.Reader }
{
    match problem {
        Problem::TheEventMayNotStandHere
        | Problem::ATokenTookTooManySteps
        | Problem::TheTokensHaveNoEnd => FaultKind::Other,
        _ => FaultKind::Parser,
    }
}

// The fault of a list of tokens that does not end.
pub(crate) fn no_end(mark: Mark) -> Fault
    ensures { result.kind ≡ kind.Other }
{
    Fault {
        kind: FaultKind::Other,
        problem: Problem::TheTokensHaveNoEnd,
        offset: 0,
        mark,
        context: None,
        context_mark: mark,
    }
}

// The fault with its texts in memory of their own.
pub(crate) fn owned(alloc: Global, fault: &Fault) -> Result<ParserFault, AllocError>
    ensures { IfOk result (IsToldBy fault.now) }
{
    let problem = String::from_str(alloc, fault.problem.text())?;
    let context = match fault.context {
        Some(context) => Some(String::from_str(alloc, context.text())?),
        None => None,
    };
    Ok(ParserFault::new(
        fault.kind,
        problem,
        fault.offset,
        fault.mark,
        context,
        fault.context_mark,
    ))
}
