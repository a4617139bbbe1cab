//! What is answered to an input: a line, and the status that goes with it.

ghost use Rattle.std.specs.Prelude.{◌≡◌, ◌∷◌, [], ◌++◌, List, ℕ, IfOk};
ghost use Rattle.yaml_run.specs.Printed.{line_of, status_of};
ghost use Rattle.yaml_case.specs.Replies.{IsReply};

use serde_yaml::Limits;
use std::alloc::{AllocError, Global};
use yaml_run::{Answer, Named, read_events};
use yaml_shape::ShapeId;

// What an input is answered that is read as a shape within limits.
fn made_of(alloc: Global, named: Named, limits: Limits, input: &[u8]) -> Result<Answer, AllocError>
    ensures { IfOk result (λ answer. (text : List ℕ) × (line_of answer ≡ text ++ 10 ∷ [])
        × IsReply named limits input.now (status_of answer) text) }
{
    let Ok(schema) = named.schema(alloc) else {
        return Err(AllocError);
    };
    let told = read_events(alloc, &schema, ShapeId(0), limits, input)?;
    let line = told.with_line_feed()?;
    Ok(Answer::Made(line.ended, line.text))
}

/// What an input is answered that is read as a shape within limits.
pub fn answer_to(alloc: Global, named: Named, limits: Limits, input: &[u8]) -> Answer
    ensures { (text : List ℕ) × (line_of result ≡ text ++ 10 ∷ [])
        × IsReply named limits input.now (status_of result) text }
{
    made_of(alloc, named, limits, input).unwrap_or(Answer::OutOfMemory)
}
