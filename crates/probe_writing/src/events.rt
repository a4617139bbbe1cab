//! Events for an emitter as lines.

use std::alloc::AllocError;
use yaml_base::emitter::{AskedStyle, EmitEvent};

// The name of a style.
fn style_name(style: AskedStyle) -> &'static str {
    match style {
        AskedStyle::Any => "Any",
        AskedStyle::Plain => "Plain",
        AskedStyle::SingleQuoted => "SingleQuoted",
        AskedStyle::Literal => "Literal",
    }
}

/// Appends a text with escapes for all that is not printable ASCII.
pub fn escape(out: &mut String, text: &str) -> Result<(), AllocError> {
    for byte in text.bytes() {
        match byte {
            b'\\' => out.push_str("\\\\")?,
            b'\n' => out.push_str("\\n")?,
            b'\t' => out.push_str("\\t")?,
            b' '..=b'~' => out.push(byte as char)?,
            _ => write!(out, "\\x{byte:02x}")?,
        }
    }
    Ok(())
}

// Appends a word, and a tag, if there is one.
fn tagged(out: &mut String, word: &str, tag: &Option<String>) -> Result<(), AllocError> {
    out.push_str(word)?;
    if let Some(tag) = tag {
        out.push_str(" <")?;
        escape(out, tag.as_str())?;
        out.push('>')?;
    }
    Ok(())
}

// Appends an event.
fn show_event(out: &mut String, event: &EmitEvent) -> Result<(), AllocError> {
    match event {
        EmitEvent::StreamStart => out.push_str("+STR"),
        EmitEvent::StreamEnd => out.push_str("-STR"),
        EmitEvent::DocumentStart => out.push_str("+DOC"),
        EmitEvent::DocumentEnd => out.push_str("-DOC"),
        EmitEvent::Scalar(scalar) => {
            tagged(out, "=VAL", &scalar.tag)?;
            out.push(' ')?;
            out.push_str(style_name(scalar.style))?;
            out.push(' ')?;
            escape(out, scalar.value.as_str())
        }
        EmitEvent::SequenceStart(start) => tagged(out, "+SEQ", &start.tag),
        EmitEvent::SequenceEnd => out.push_str("-SEQ"),
        EmitEvent::MappingStart(start) => tagged(out, "+MAP", &start.tag),
        EmitEvent::MappingEnd => out.push_str("-MAP"),
    }
}

/// Appends events, a line each, the last one without its line feed.
pub fn show_events(out: &mut String, events: &[EmitEvent]) -> Result<(), AllocError> {
    for (place, event) in events.iter().enumerate() {
        if place > 0 {
            out.push('\n')?;
        }
        show_event(out, event)?;
    }
    Ok(())
}
