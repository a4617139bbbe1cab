//! The first merge key of a document.

ghost use Rattle.std.specs.Prelude.{◌≡◌, IfOk, IfErr, None, false, reverse, true};
ghost use Rattle.yaml_base.specs.Answer.{is_memory};
ghost use Rattle.yaml_base.specs.DocEventView.{doc_event_of, marked_events_of};
ghost use Rattle.std.specs.List.{list_any};
ghost use Rattle.yaml_merge.specs.MergeKeys.{awaits_key, first_merge_key, is_merge_word, open_behind, turned};

use crate::nodes::{Nodes, is_merge_word};
use std::alloc::{AllocError, Global};
use yaml_base::{DocEvent, Mark, Open, Result};

// Whether some event is the word of a merge key.
pub(crate) fn has_merge_word(events: &[(DocEvent<'_>, Mark)]) -> bool
    ensures any { result ≡ list_any (λ e. is_merge_word (doc_event_of e.0)) events.now }
    ensures none { result ≡ false → first_merge_key (marked_events_of events.now) ≡ None }
{
    for (event, _) in events {
        if is_merge_word(event) {
            return true;
        }
    }
    false
}

// A node stands in the innermost open collection.
fn turn(opened: &mut Vec<Open>) -> std::result::Result<(), AllocError>
    ensures { IfOk result (λ _. reverse opened.new.items ≡ turned (reverse opened.old.items)) }
{
    match opened.pop() {
        Some(Open::Key) => opened.push(Open::Value)?,
        Some(Open::Value) => opened.push(Open::Key)?,
        Some(Open::Sequence) => opened.push(Open::Sequence)?,
        None => {}
    }
    Ok(())
}

// Goes over an event.
fn go_over(opened: &mut Vec<Open>, event: &DocEvent<'_>) -> std::result::Result<(), AllocError>
    ensures { IfOk result (λ _.
        reverse opened.new.items ≡ open_behind (doc_event_of event.now) (reverse opened.old.items)) }
{
    match event {
        DocEvent::SequenceEnd | DocEvent::MappingEnd => drop(opened.pop()),
        DocEvent::SequenceStart(_) => {
            turn(opened)?;
            opened.push(Open::Sequence)?;
        }
        DocEvent::MappingStart(_) => {
            turn(opened)?;
            opened.push(Open::Key)?;
        }
        DocEvent::Alias(_) | DocEvent::Scalar(_) | DocEvent::Void => turn(opened)?,
    }
    Ok(())
}

// Whether the innermost open collection waits for a key.
fn awaits_key(opened: &[Open]) -> bool
    ensures { result ≡ awaits_key (reverse opened.now) }
{
    match opened.last() {
        Some(Open::Key) => true,
        _ => false,
    }
}

// The place of the first merge key, if there is one.
pub(crate) fn first_merge_key(alloc: Global, nodes: Nodes<'_, '_>) -> Result<Option<usize>>
    ensures found { IfOk result (λ found. found ≡ first_merge_key (marked_events_of nodes.entry.events.now)) }
    ensures memory { IfErr result (λ cause. is_memory cause ≡ true) }
{
    let mut open: Vec<Open> = Vec::new(alloc);
    let mut place = 0;
    for (event, _) in nodes.events {
        if awaits_key(open.as_slice()) && nodes.is_merge_node(event) {
            return Ok(Some(place));
        }
        go_over(&mut open, event)?;
        place += 1;
    }
    Ok(None)
}
