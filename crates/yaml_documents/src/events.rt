//! All events of a text.

ghost use Rattle.std.specs.Prelude.{◌≡◌, [], IfErr, IfOk, true};
ghost use Rattle.yaml_base.specs.Answer.{is_memory};
ghost use Rattle.yaml_checked.specs.OfText.{MayBeLeft};
ghost use Rattle.yaml_documents.specs.TextEvents.{AreParsed};

use crate::source::TextEvents;
use std::alloc::Global;
use yaml_base::{Event, Mark, ParserFault, Result};
use yaml_parse::parse;

// All events of a text by its tokens, where the direct parser may leave it.
fn events_by_tokens<'de>(
    alloc: Global,
    text: &'de [u8],
) -> Result<(Vec<(Event<'de>, Mark)>, Option<ParserFault>)>
    requires { MayBeLeft text.now }
    ensures parsed { IfOk result (λ all. AreParsed text.now all.0.items all.1) }
    ensures memory { IfErr result (λ cause. is_memory cause ≡ true) }
{
    let parsed = parse(alloc, text)?;
    Ok((parsed.events, parsed.fault))
}

// The events of a text, of which none was handed out, up to where no more come from there.
fn all_events<'de>(alloc: Global, events: &mut TextEvents<'de>) -> Result<Vec<(Event<'de>, Mark)>>
    requires { events.old.given ≡ [] }
    ensures text { events.new.text ≡ events.old.text }
    ensures given { IfOk result (λ all. all.items ≡ events.new.given) }
    ensures over { IfOk result (λ _. events.new.over ≡ true) }
    ensures memory { IfErr result (λ cause. is_memory cause ≡ true) }
{
    let mut all = Vec::new(alloc);
    'events: while let Some(event) = events.next_event(alloc)? {
        all.push(event)?;
    }
    Ok(all)
}

/// The events of a YAML text, each with its mark, and the parser's fault if it met one. The events borrow from the text.
/// A text whose bytes are not all allowed, by the rules of UTF-8 or of YAML's characters, has no events, and the fault
/// tells where. Where documents stand in the text by the grammar it has no fault, and its events are theirs. The only
/// error is want of memory.
///
/// A text of which some part is left by the direct parser is read anew by its tokens, so each fault is the one that
/// these tell.
pub fn events_of_text<'de>(
    alloc: Global,
    text: &'de [u8],
) -> Result<(Vec<(Event<'de>, Mark)>, Option<ParserFault>)>
    ensures parsed { IfOk result (λ all. AreParsed text.now all.0.items all.1) }
    ensures memory { IfErr result (λ cause. is_memory cause ≡ true) }
{
    let mut events = TextEvents::new(alloc, text)?;
    let all = all_events(alloc, &mut events)?;
    if events.is_left() {
        return events_by_tokens(alloc, text);
    }
    events.has_events();
    let fault = events.finish(alloc)?;
    Ok((all, fault))
}
