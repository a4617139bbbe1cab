//! A text, laid out and read again.

ghost use Rattle.std.specs.Prelude.{◌≡◌, IfErr, IfOk, IsTrue, None, OnOk, string_bytes};
ghost use Rattle.yaml_documents.specs.TextEvents.{AreParsed};
ghost use Rattle.yaml_layout.specs.LaidOut.{HasWholeLines, IsLaidOut, IsRefused};

use crate::comments::comments;
use crate::compare::difference;
use crate::fault::{LayoutFault, Reason};
use crate::layout::{Laid, lay_out};
use crate::options::Options;
use std::alloc::Global;
use yaml_base::{Event, Mark};
use yaml_documents::events_of_text;

// The events of a text that is YAML.
fn parsed<'a>(alloc: Global, text: &'a [u8]) -> Result<Vec<(Event<'a>, Mark)>, LayoutFault>
    ensures events { IfOk result (λ events. AreParsed text.now events.items None) }
    ensures refused { IfErr result (IsRefused text.now) }
{
    let (events, fault) = match events_of_text(alloc, text) {
        Ok(all) => all,
        Err(_) => return Err(LayoutFault::Memory),
    };
    match fault {
        Some(fault) => Err(LayoutFault::NoYaml(fault)),
        None => Ok(events),
    }
}

// The mark of an event of a text, or of the last.
fn mark_of(events: &[(Event<'_>, Mark)], at: usize) -> Option<Mark> {
    match events.get(at) {
        Some(event) => Some(event.1),
        None => match events.last() {
            Some(event) => Some(event.1),
            None => None,
        },
    }
}

// Whether each line of a text ends with a line feed alone, the last one too.
fn has_whole_lines(text: &[u8]) -> bool
    ensures { IsTrue result → HasWholeLines text.now }
{
    for byte in text {
        if *byte == b'\r' {
            return false;
        }
    }
    text.is_empty() || text[text.len() - 1] == b'\n'
}

// Whether a text has whole lines, and the events and the comments of another.
fn check(
    alloc: Global,
    text: &[u8],
    events: &[(Event<'_>, Mark)],
    laid: &Laid,
) -> Result<(), LayoutFault>
    requires { AreParsed text.now events.now None }
    ensures kept { OnOk result (IsLaidOut text.now laid.now.text.items) }
    ensures refused { IfErr result (IsRefused text.now) }
{
    let out = laid.text.as_slice();
    let (again, fault) = match events_of_text(alloc, out) {
        Ok(all) => all,
        Err(_) => return Err(LayoutFault::Memory),
    };
    if let Some(at) = difference(events, again.as_slice()) {
        return Err(LayoutFault::NotKept(Reason::Events, mark_of(events, at)));
    }
    if fault.is_some() {
        return Err(LayoutFault::NotKept(Reason::Events, mark_of(events, events.len())));
    }
    if !has_whole_lines(out) {
        return Err(LayoutFault::NotKept(Reason::Layout, None));
    }
    let told = comments(alloc, text, events)?;
    let kept = comments(alloc, out, again.as_slice())?;
    if told.as_slice() != kept.as_slice() {
        return Err(LayoutFault::NotKept(Reason::Comments, laid.touched));
    }
    Ok(())
}

/// The bytes of a YAML text laid out anew: as `format` does, where a text that is no UTF-8 is no YAML.
pub fn format_slice(alloc: Global, text: &[u8], options: Options) -> Result<String, LayoutFault>
    ensures kept { IfOk result (λ out. IsLaidOut text.now (string_bytes out)) }
    ensures refused { IfErr result (IsRefused text.now) }
{
    let events = parsed(alloc, text)?;
    let laid = lay_out(alloc, text, options)?;
    check(alloc, text, events.as_slice(), &laid)?;
    let again = lay_out(alloc, laid.text.as_slice(), options)?;
    if again.text.as_slice() != laid.text.as_slice() {
        return Err(LayoutFault::NotKept(Reason::Layout, None));
    }
    match String::from_utf8(laid.text) {
        Ok(out) => Ok(out),
        Err(_) => Err(LayoutFault::NotKept(Reason::Events, None)),
    }
}

/// A YAML text laid out anew. Each line stays a line, but for empty ones: of these one is left between two others, and
/// none at the beginning and at the end. Lines stand at columns that tell what they are part of, a single space stands
/// where one is wanted, and before a comment at the end of a line as many as there were; lines end without blanks, with
/// line feeds, the last one too. The lines of a block of text are moved together.
///
/// All that the text says is kept: its events, with their styles, anchors, aliases and tags, and its comments. The
/// answer is read again and compared, and laid out again it is the same; a text for which that is not so is refused.
pub fn format(alloc: Global, text: &str, options: Options) -> Result<String, LayoutFault>
    ensures kept { IfOk result (λ out. IsLaidOut text.now (string_bytes out)) }
    ensures refused { IfErr result (IsRefused text.now) }
{
    format_slice(alloc, text.as_bytes(), options)
}
