//! The events of a text, a line each.

ghost use Rattle.std.specs.Prelude.{◌≡◌, ◌⊎◌, ◌++◌, string_bytes, IfOk, OnOk};
ghost use Rattle.yaml_tool.specs.ToldEvents.{AreEventsTold, ended_by, event_lines, fault_lines};

use std::alloc::{AllocError, Global};
use yaml_base::{Event, Mark, ParserFault};
use yaml_documents::events_of_text;
use yaml_lines::{write_event, write_fault};
use yaml_parse::parse;
use yaml_run::{Status, Told};

// The status that goes with a fault, or with none.
fn ending_of(fault: &Option<ParserFault>) -> Status
    ensures { result ≡ ended_by fault.now }
{
    match fault {
        Some(_) => Status::Fault,
        None => Status::Read,
    }
}

// Appends a line for a fault, if there is one.
fn push_fault(out: &mut String, fault: &Option<ParserFault>) -> Result<(), AllocError>
    ensures { OnOk result (string_bytes out.new ≡ string_bytes out.old ++ fault_lines fault.now) }
{
    match fault {
        Some(fault) => write_fault(out, fault),
        None => Ok(()),
    }
}

// Appends events, a line each.
fn push_events(out: &mut String, events: &[(Event<'_>, Mark)]) -> Result<(), AllocError>
    ensures { OnOk result (string_bytes out.new ≡ string_bytes out.old ++ event_lines events.now) }
{
    for marked in events {
        write_event(out, &marked.0, marked.1)?;
    }
    Ok(())
}

/// The events of a text, a line each, and a line for the parser's fault, if there is one: where documents stand in the
/// text by the grammar, exactly their events. The only error is that memory runs out.
pub fn told_events(alloc: Global, text: &[u8]) -> Result<Told, AllocError>
    ensures { IfOk result (λ told. AreEventsTold text.now told.ended (string_bytes told.text)) }
{
    let Ok((events, fault)) = events_of_text(alloc, text) else {
        return Err(AllocError);
    };
    let mut out = String::new(alloc);
    push_events(&mut out, events.as_slice())?;
    push_fault(&mut out, &fault)?;
    Ok(Told {
        ended: ending_of(&fault),
        text: out,
    })
}

// Appends what stands before the index of a mark: of a scalar the index where it begins, as the mark is given where it
// ends.
fn push_full_event(out: &mut String, event: &Event<'_>, mark: Mark) -> Result<(), AllocError> {
    if let Event::Scalar(scalar) = event {
        if let Some(source) = scalar.repr {
            let (start, length) = (mark.index(), source.len() as u64);
            write!(out, "{start}..")?;
            let end = start.saturating_add(length);
            let end = Mark::new(end, mark.line(), mark.column()).unwrap_or(mark);
            return write_event(out, event, end);
        }
    }
    write_event(out, event, mark)
}

// Appends a line for the context of a fault, if it has one.
fn push_context(out: &mut String, fault: &ParserFault) -> Result<(), AllocError> {
    let Some(context) = fault.context() else {
        return Ok(());
    };
    let mark = fault.context_mark();
    let (index, line, column) = (mark.index(), mark.line(), mark.column());
    writeln!(out, "{index}:{line}:{column} !CONTEXT {context}")
}

/// The same lines, of the events that the parser makes of the text by its tokens. A scalar's has the two ends of its
/// slice of the text, with `..` between, in place of its index. Behind the fault stands a line for its context, if it
/// has one.
pub fn told_full_events(alloc: Global, text: &[u8]) -> Result<Told, AllocError>
    ensures { IfOk result (λ told. (told.ended ≡ Status.Read) ⊎ (told.ended ≡ Status.Fault)) }
{
    let parsed = parse(alloc, text)?;
    let mut text = String::new(alloc);
    for (event, mark) in parsed.events.iter() {
        push_full_event(&mut text, event, *mark)?;
    }
    let Some(fault) = &parsed.fault else {
        let ended = Status::Read;
        return Ok(Told { ended, text });
    };
    write_fault(&mut text, fault)?;
    push_context(&mut text, fault)?;
    let ended = Status::Fault;
    Ok(Told { ended, text })
}
