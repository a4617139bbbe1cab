//! All events of a text.

ghost use Rattle.std.specs.Prelude.{◌≡◌, [], IfOk, IsSomeAnd, is_some};
ghost use Rattle.yaml_base.specs.MarkedEvents.{plain_events};
ghost use Rattle.yaml_base.specs.Stream.{IsWellFormed};
ghost use Rattle.yaml_parse.specs.Faults.{IsNotReaders};
ghost use Rattle.yaml_parse.specs.Marks.{MarksAscend};
ghost use Rattle.yaml_parse.specs.Places.{AreInPlace};
ghost use Rattle.yaml_parse.specs.PlainText.{SaySources};
ghost use Rattle.yaml_parse.specs.Shown.{AreShown};
ghost use Rattle.yaml_scan.specs.AllowedText.{IsAllowed, IsOfReader};

use crate::Ending;
use crate::events::Events;
use std::alloc::{AllocError, Global};
use yaml_base::{Event, Mark, ParserFault};
use yaml_scan::Fault;

/// The events of a text, up to its end or its first fault.
#[derive(Drop)]
pub struct Parsed<'a> {
    /// The events, each with the mark where it begins.
    pub events: Vec<(Event<'a>, Mark)>,
    /// What is wrong behind them; none where the stream has come to its end.
    pub fault: Option<ParserFault>,
    /// The same fault in parts.
    pub found: Option<Fault>,
}

/// The events of a text, each with its mark, and the parser's fault if it met one. The events borrow from the text: a
/// scalar's slice is the part of the text that it was read from.
///
/// The text is read to its end or to its first fault. A text whose bytes are not all allowed, by the rules of UTF-8 or
/// of YAML's characters, has no events, and the fault tells where. The only error is want of memory.
pub fn parse<'a>(alloc: Global, text: &'a [u8]) -> Result<Parsed<'a>, AllocError>
    ensures taken { IfOk result (λ parsed.
        IsWellFormed (is_some parsed.fault) (plain_events parsed.events.items)) }
    ensures sources { IfOk result (λ parsed. AreShown text.now parsed.events.items) }
    ensures plain { IfOk result (λ parsed. SaySources parsed.events.items) }
    ensures marks { IfOk result (λ parsed. MarksAscend text.now parsed.events.items) }
    ensures places { IfOk result (λ parsed. AreInPlace text.now parsed.events.items) }
    ensures allowed { IfOk result (λ parsed. IsAllowed text.now → IsNotReaders parsed.fault) }
    ensures refused { IfOk result (λ parsed. (IsAllowed text.now → ⊥) →
        (parsed.events.items ≡ []) × IsSomeAnd parsed.fault (λ f. IsOfReader text.now f.kind f.offset)) }
{
    let (events, Ending { fault, found }) = Events::new(alloc, text)?.into_list(alloc)?;
    Ok(Parsed {
        events,
        fault,
        found,
    })
}
