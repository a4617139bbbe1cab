//! Events for an emitter as lines of text, and what is printed of them.

use crate::outcome::{Outcome, refused};
use crate::text::first_word;
use std::alloc::{AllocError, Global};
use std::str;
use yaml_base::emitter::{AskedStyle, EmitEvent, EmitScalar, Mapping, Sequence};
use yaml_lines::{LineFault, first_line, unescape};

// The text that a text with escapes stands for.
fn spelled(alloc: Global, text: &str) -> Result<String, LineFault> {
    let bytes = unescape(alloc, text.as_bytes())?;
    match String::from_utf8(bytes) {
        Ok(text) => Ok(text),
        Err(_) => Err(LineFault::Bad),
    }
}

// The tag at the start of a text, where there is one, and what stands behind it and the space that follows it.
fn tag_part(alloc: Global, text: &str) -> Result<(Option<String>, &str), LineFault> {
    let Some(tagged) = text.strip_prefix('<') else {
        return Ok((None, text));
    };
    let (tag, rest) = tagged.split_once('>').ok_or(LineFault::Bad)?;
    let tag = spelled(alloc, tag)?;
    Ok((Some(tag), rest.strip_prefix(' ').unwrap_or(rest)))
}

// The style with this name.
fn style_named(name: &str) -> Option<AskedStyle> {
    match name {
        "Any" => Some(AskedStyle::Any),
        "Plain" => Some(AskedStyle::Plain),
        "SingleQuoted" => Some(AskedStyle::SingleQuoted),
        "Literal" => Some(AskedStyle::Literal),
        _ => None,
    }
}

// The scalar with this tag whose style and text follow.
fn scalar(alloc: Global, tag: Option<String>, text: &str) -> Result<EmitEvent, LineFault> {
    let (name, text) = first_word(text);
    let style = style_named(name).ok_or(LineFault::Bad)?;
    let value = spelled(alloc, text)?;
    Ok(EmitEvent::Scalar(EmitScalar { tag, value, style }))
}

// The node of a line that begins with this word.
fn node(alloc: Global, word: &str, rest: &str) -> Result<EmitEvent, LineFault> {
    let (tag, rest) = tag_part(alloc, rest)?;
    match word {
        "=VAL" => scalar(alloc, tag, rest),
        "+SEQ" if rest.is_empty() => Ok(EmitEvent::SequenceStart(Sequence { tag })),
        "+MAP" if rest.is_empty() => Ok(EmitEvent::MappingStart(Mapping { tag })),
        _ => Err(LineFault::Bad),
    }
}

// The event that a line says.
fn event_of(alloc: Global, line: &[u8]) -> Result<EmitEvent, LineFault> {
    let Ok(line) = str::from_utf8(line) else {
        return Err(LineFault::Bad);
    };
    match line {
        "+STR" => Ok(EmitEvent::StreamStart),
        "-STR" => Ok(EmitEvent::StreamEnd),
        "+DOC" => Ok(EmitEvent::DocumentStart),
        "-DOC" => Ok(EmitEvent::DocumentEnd),
        "-SEQ" => Ok(EmitEvent::SequenceEnd),
        "-MAP" => Ok(EmitEvent::MappingEnd),
        _ => {
            let (word, rest) = first_word(line);
            node(alloc, word, rest)
        }
    }
}

// The event of each line.
fn all_events(alloc: Global, lines: &[u8]) -> Result<Vec<EmitEvent>, LineFault> {
    let mut events = Vec::new(alloc);
    let mut rest = lines;
    while !rest.is_empty() {
        let (line, after) = first_line(rest);
        events.push(event_of(alloc, line)?)?;
        rest = after;
    }
    Ok(events)
}

/// What an emitter prints of the events that lines say, as `write` writes them.
pub fn emit(alloc: Global, lines: &[u8]) -> Result<Outcome, AllocError> {
    let events = match all_events(alloc, lines) {
        Ok(events) => events,
        Err(LineFault::Bad) => return refused(alloc, "bad event"),
        Err(LineFault::Memory) => return Err(AllocError),
    };
    match yaml_emit::emit(alloc, events.as_slice()) {
        Ok(text) => Ok(Outcome::Done(text)),
        Err(fault) => Ok(Outcome::Fault(format!(in alloc; "fault: {fault}")?)),
    }
}
