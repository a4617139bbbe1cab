//! What a parser may say of written events.

ghost use Rattle.std.specs.Prelude.{◌≡◌, map, string_bytes, IfOk, IfErr, IsTrue};
ghost use Rattle.yaml_base.specs.Answer.{is_memory};
ghost use Rattle.yaml_base.specs.EmitEvents.{emit_of, tag_bytes};
ghost use Rattle.yaml_base.specs.MarkedEvents.{events_in, plain_marked};
ghost use Rattle.yaml_base.specs.PlainEvent.{event_of, scalar_of};
ghost use Rattle.yaml_base.specs.Renders.{permits, Renders, RendersEvent, RendersScalar};

use std::alloc::Global;
use yaml_base::emitter::{AskedStyle, EmitEvent, EmitScalar};
use yaml_base::{Event, MappingStart, Mark, Result, Scalar, ScalarStyle, SequenceStart, Tag};

/// What stands between a writer and a reader: an emitter, and a parser of the text that it makes.
pub trait Renderer<'de> {
    /// What the parser says of the written events: the same structure, tags and texts, each scalar in a style that is
    /// permitted, with any marks and any slices of the source. Refused only where memory runs out.
    fn render(&mut self, alloc: Global, events: &[EmitEvent]) -> Result<Vec<(Event<'de>, Mark)>>
        ensures rendered { IfOk result (λ found.
            Renders (map emit_of events.now) (events_in (plain_marked found.items))) }
        ensures refused { IfErr result (λ fault. IsTrue (is_memory fault)) };
}

/// Renders each scalar in double quotes, unless plain is asked, without marks and sources.
#[derive(Drop)]
pub struct Quoted;

impl<'de> Renderer<'de> for Quoted {
    fn render(&mut self, alloc: Global, events: &[EmitEvent]) -> Result<Vec<(Event<'de>, Mark)>> {
        in_quotes(alloc, events)
    }
}

// The style of a scalar: plain where that is asked, else double quotes.
fn style(asked: AskedStyle) -> ScalarStyle
    ensures { IsTrue (permits asked result) }
{
    match asked {
        AskedStyle::Plain => ScalarStyle::Plain,
        AskedStyle::Any => ScalarStyle::DoubleQuoted,
        AskedStyle::SingleQuoted => ScalarStyle::DoubleQuoted,
        AskedStyle::Literal => ScalarStyle::DoubleQuoted,
    }
}

// The tag with this text, if there is one.
fn tag(alloc: Global, text: &Option<String>) -> Result<Option<Tag>>
    ensures ok { IfOk result (λ tag. tag ≡ tag_bytes text.now) }
    ensures refused { IfErr result (λ fault. IsTrue (is_memory fault)) }
{
    match text {
        Some(text) => Ok(Some(Tag::new(text.as_bytes().to_vec(alloc)?))),
        None => Ok(None),
    }
}

// A scalar.
fn scalar<'de>(alloc: Global, asked: &EmitScalar) -> Result<Scalar<'de>>
    ensures ok { IfOk result (λ found.
        RendersScalar (tag_bytes asked.now.tag) (string_bytes asked.now.value) asked.now.style (scalar_of found)) }
    ensures refused { IfErr result (λ fault. IsTrue (is_memory fault)) }
{
    Ok(Scalar {
        anchor: None,
        tag: tag(alloc, &asked.tag)?,
        value: asked.value.as_bytes().to_vec(alloc)?,
        style: style(asked.style),
        repr: None,
    })
}

// One event.
fn event<'de>(alloc: Global, asked: &EmitEvent) -> Result<Event<'de>>
    ensures ok { IfOk result (λ found. RendersEvent (emit_of asked.now) (event_of found)) }
    ensures refused { IfErr result (λ fault. IsTrue (is_memory fault)) }
{
    match asked {
        EmitEvent::StreamStart => Ok(Event::StreamStart),
        EmitEvent::StreamEnd => Ok(Event::StreamEnd),
        EmitEvent::DocumentStart => Ok(Event::DocumentStart),
        EmitEvent::DocumentEnd => Ok(Event::DocumentEnd),
        EmitEvent::Scalar(asked) => Ok(Event::Scalar(scalar(alloc, asked)?)),
        EmitEvent::SequenceStart(start) => Ok(Event::SequenceStart(SequenceStart {
            anchor: None,
            tag: tag(alloc, &start.tag)?,
        })),
        EmitEvent::SequenceEnd => Ok(Event::SequenceEnd),
        EmitEvent::MappingStart(start) => Ok(Event::MappingStart(MappingStart {
            anchor: None,
            tag: tag(alloc, &start.tag)?,
        })),
        EmitEvent::MappingEnd => Ok(Event::MappingEnd),
    }
}

// The mark of an event.
fn mark() -> Mark {
    match Mark::new(0, 0, 0) {
        Some(mark) => mark,
        None => unreachable!(),
    }
}

// The events as a parser may say them.
fn in_quotes<'de>(alloc: Global, events: &[EmitEvent]) -> Result<Vec<(Event<'de>, Mark)>>
    ensures rendered { IfOk result (λ found.
        Renders (map emit_of events.now) (events_in (plain_marked found.items))) }
    ensures refused { IfErr result (λ fault. IsTrue (is_memory fault)) }
{
    let mut found = Vec::with_capacity(alloc, events.len())?;
    for asked in events {
        found.push((event(alloc, asked)?, mark()))?;
    }
    Ok(found)
}
