//! An event as a line writes it.

ghost use Rattle.std.specs.Prelude.{◌≡◌, ◌≢◌, ℕ, List, [], ◌++◌, Option, MatchOption};
ghost use Rattle.yaml_base.specs.PlainEvent.{event_of, scalar_of};
ghost use Rattle.yaml_base.specs.declared.event.ScalarStyle.{ScalarStyle as Style};
ghost use Rattle.yaml_lines.specs.Escape.{Lacks};
ghost use Rattle.yaml_lines.specs.EventText.{IsAnchorName, IsBreak, HasAnchor, HasTag};
ghost use Rattle.yaml_lines.specs.EventText.{HasProperties, style_byte, IsScalarText, IsStyledText};
ghost use Rattle.yaml_lines.specs.EventText.{IsEventText, IsNoWord};
ghost use Rattle.yaml_lines.specs.Parses.{Parses};

use crate::escape::unescape;
use crate::fault::LineFault;
use crate::line::parts::{cut, strip};
use std::alloc::Global;
use yaml_base::{Anchor, Event, MappingStart, Scalar, ScalarStyle, SequenceStart, Tag};

// The event of a line that is one word and nothing more.
fn bare_event(text: &[u8]) -> Option<Event<'static>>
    ensures { MatchOption result (IsNoWord text.now)
        (λ event. IsEventText text.now (event_of event)) }
{
    match text {
        b"+STR" => Some(Event::StreamStart),
        b"-STR" => Some(Event::StreamEnd),
        b"+DOC" => Some(Event::DocumentStart),
        b"-DOC" => Some(Event::DocumentEnd),
        b"-SEQ" => Some(Event::SequenceEnd),
        b"-MAP" => Some(Event::MappingEnd),
        _ => None,
    }
}

// The anchor that a text names.
fn anchor_named(alloc: Global, name: &[u8]) -> Result<Anchor, LineFault>
    ensures { Parses (λ anchor. anchor) (IsAnchorName name.now) result }
{
    if name.is_empty() || name.contains(&b' ') {
        return Err(LineFault::Bad);
    }
    Ok(Anchor::new(unescape(alloc, name)?))
}

// What stands in a text up to its first space, and the rest of it from there on.
fn word_of(text: &[u8]) -> (&[u8], &[u8])
    ensures split { text.now ≡ result.0.now ++ result.1.now }
    ensures unspaced { Lacks result.0.now 32 }
    ensures ended { IsBreak result.1.now }
{
    match text.iter().position(|b| *b == b' ') {
        Some(end) => (&text[..end], &text[end..]),
        None => (text, &[]),
    }
}

// The anchor at the start of a text, where there is one, and the rest.
fn anchor_part(alloc: Global, text: &[u8]) -> Result<(Option<Anchor>, &[u8]), LineFault>
    ensures { Parses {Y = Option (List ℕ) × List ℕ} (λ parts. (parts.0, parts.1.now))
        (λ p. HasAnchor text.now p.0 p.1) result }
{
    let Some(text) = strip(text, b" &") else {
        return Ok((None, text));
    };
    let (name, rest) = word_of(text);
    Ok((Some(anchor_named(alloc, name)?), rest))
}

// The tag at the start of a text, where there is one, and the rest.
fn tag_part(alloc: Global, text: &[u8]) -> Result<(Option<Tag>, &[u8]), LineFault>
    ensures { Parses {Y = Option (List ℕ) × List ℕ} (λ parts. (parts.0, parts.1.now))
        (λ p. HasTag text.now p.0 p.1) result }
{
    let Some(text) = strip(text, b" <") else {
        return Ok((None, text));
    };
    let (name, rest) = cut(text, b'>').ok_or(LineFault::Bad)?;
    Ok((Some(Tag::new(unescape(alloc, name)?)), rest))
}

// The style that a byte stands for.
fn style_of(byte: u8) -> Option<ScalarStyle>
    ensures { MatchOption result
        ((style : Style) → style_byte style ≢ byte) (λ style. style_byte style ≡ byte) }
{
    match byte {
        b':' => Some(ScalarStyle::Plain),
        b'\'' => Some(ScalarStyle::SingleQuoted),
        b'"' => Some(ScalarStyle::DoubleQuoted),
        b'|' => Some(ScalarStyle::Literal),
        b'>' => Some(ScalarStyle::Folded),
        _ => None,
    }
}

// The style and the text of a scalar, behind its anchor and tag.
fn content(alloc: Global, text: &[u8]) -> Result<(ScalarStyle, Vec<u8>), LineFault>
    ensures { Parses {Y = Style × List ℕ} (λ parts. (parts.0, parts.1.items))
        (λ p. IsStyledText text.now p.0 p.1) result }
{
    let text = strip(text, b" ").ok_or(LineFault::Bad)?;
    let (sign, text) = text.split_first().ok_or(LineFault::Bad)?;
    let style = style_of(*sign).ok_or(LineFault::Bad)?;
    Ok((style, unescape(alloc, text)?))
}

// The anchor and the tag at the start of a text, where they are there, and the rest.
fn properties(alloc: Global, text: &[u8]) -> Result<(Option<Anchor>, Option<Tag>, &[u8]), LineFault>
    ensures { Parses {Y = Option (List ℕ) × Option (List ℕ) × List ℕ}
        (λ parts. (parts.0, parts.1, parts.2.now)) (λ p. HasProperties text.now p.0 p.1 p.2) result }
{
    let (anchor, text) = anchor_part(alloc, text)?;
    let (tag, text) = tag_part(alloc, text)?;
    Ok((anchor, tag, text))
}

// The anchor and the tag that a text consists of.
fn only_properties(alloc: Global, text: &[u8]) -> Result<(Option<Anchor>, Option<Tag>), LineFault>
    ensures { Parses {Y = Option (List ℕ) × Option (List ℕ)} (λ parts. parts)
        (λ p. HasProperties text.now p.0 p.1 []) result }
{
    let (anchor, tag, rest) = properties(alloc, text)?;
    if rest.is_empty() {
        Ok((anchor, tag))
    } else {
        Err(LineFault::Bad)
    }
}

// The scalar that stands behind the word for one.
fn scalar(alloc: Global, text: &[u8]) -> Result<Scalar<'static>, LineFault>
    ensures { Parses scalar_of (IsScalarText text.now) result }
{
    let (anchor, tag, text) = properties(alloc, text)?;
    let (style, value) = content(alloc, text)?;
    Ok(Scalar {
        anchor,
        tag,
        value,
        style,
        repr: None,
    })
}

/// The event that stands behind the mark of a line.
pub fn parse(alloc: Global, text: &[u8]) -> Result<Event<'static>, LineFault>
    ensures { Parses event_of (IsEventText text.now) result }
{
    if let Some(rest) = strip(text, b"=VAL") {
        return Ok(Event::Scalar(scalar(alloc, rest)?));
    }
    if let Some(rest) = strip(text, b"+SEQ") {
        let (anchor, tag) = only_properties(alloc, rest)?;
        return Ok(Event::SequenceStart(SequenceStart { anchor, tag }));
    }
    if let Some(rest) = strip(text, b"+MAP") {
        let (anchor, tag) = only_properties(alloc, rest)?;
        return Ok(Event::MappingStart(MappingStart { anchor, tag }));
    }
    if let Some(rest) = strip(text, b"=ALI *") {
        return Ok(Event::Alias(anchor_named(alloc, rest)?));
    }
    bare_event(text).ok_or(LineFault::Bad)
}
