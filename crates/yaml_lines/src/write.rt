//! Events and the parser's fault as lines, which `Input::parse` reads.

ghost use Rattle.std.specs.Prelude.{◌≡◌, ◌∷◌, [], ◌++◌, codes, decimal, string_bytes, OnOk};
ghost use Rattle.yaml_base.specs.PlainEvent.{event_of, scalar_of};
ghost use Rattle.yaml_lines.specs.EventText.{style_byte};
ghost use Rattle.yaml_lines.specs.SpelledFault.{kind_name};
ghost use Rattle.yaml_lines.specs.WrittenLines.{anchor_words, event_line, event_words, fault_line, mark_words};
ghost use Rattle.yaml_lines.specs.WrittenLines.{no_byte, scalar_words, spelled, tag_words};

mod spell;

use spell::{NO_BYTE, spell};
use std::alloc::AllocError;
use yaml_base::{Anchor, Event, FaultKind, Mark, ParserFault, Scalar, ScalarStyle, Tag};

// Appends a mark.
fn write_mark(out: &mut String, mark: Mark) -> Result<(), AllocError>
    ensures { OnOk result (string_bytes out.new ≡ string_bytes out.old ++ mark_words mark) }
{
    let (index, line, column) = (mark.index(), mark.line(), mark.column());
    write!(out, "{index}:{line}:{column}")
}

// Appends an anchor, where there is one.
fn write_anchor(out: &mut String, anchor: &Option<Anchor>) -> Result<(), AllocError>
    ensures { OnOk result (string_bytes out.new ≡ string_bytes out.old ++ anchor_words anchor.now) }
{
    match anchor {
        Some(anchor) => {
            out.push_str(" &")?;
            spell(out, anchor.as_slice(), b' ')
        }
        None => Ok(()),
    }
}

// Appends a tag, where there is one.
fn write_tag(out: &mut String, tag: &Option<Tag>) -> Result<(), AllocError>
    ensures { OnOk result (string_bytes out.new ≡ string_bytes out.old ++ tag_words tag.now) }
{
    match tag {
        Some(tag) => {
            out.push_str(" <")?;
            spell(out, tag.as_slice(), b'>')?;
            out.push_str(">")
        }
        None => Ok(()),
    }
}

// The sign of a style.
fn style_sign(style: ScalarStyle) -> char
    ensures { result ≡ style_byte style }
{
    match style {
        ScalarStyle::Plain => ':',
        ScalarStyle::SingleQuoted => '\'',
        ScalarStyle::DoubleQuoted => '"',
        ScalarStyle::Literal => '|',
        ScalarStyle::Folded => '>',
    }
}

// Appends a word, and an anchor and a tag, where they are there.
fn write_start(
    out: &mut String,
    word: &str,
    anchor: &Option<Anchor>,
    tag: &Option<Tag>,
) -> Result<(), AllocError>
    ensures { OnOk result (string_bytes out.new ≡ string_bytes out.old
        ++ (word.now ++ (anchor_words anchor.now ++ tag_words tag.now))) }
{
    out.push_str(word)?;
    write_anchor(out, anchor)?;
    write_tag(out, tag)
}

// Appends a scalar.
fn write_scalar(out: &mut String, scalar: &Scalar<'_>) -> Result<(), AllocError>
    ensures { OnOk result (string_bytes out.new ≡ string_bytes out.old ++ scalar_words (scalar_of scalar.now)) }
{
    write_start(out, "=VAL", &scalar.anchor, &scalar.tag)?;
    out.push(' ')?;
    out.push(style_sign(scalar.style))?;
    spell(out, scalar.value.as_slice(), NO_BYTE)
}

// Appends an event.
fn write_words(out: &mut String, event: &Event<'_>) -> Result<(), AllocError>
    ensures { OnOk result (string_bytes out.new ≡ string_bytes out.old ++ event_words (event_of event.now)) }
{
    match event {
        Event::StreamStart => out.push_str("+STR"),
        Event::StreamEnd => out.push_str("-STR"),
        Event::DocumentStart => out.push_str("+DOC"),
        Event::DocumentEnd => out.push_str("-DOC"),
        Event::Alias(anchor) => {
            out.push_str("=ALI *")?;
            spell(out, anchor.as_slice(), b' ')
        }
        Event::Scalar(scalar) => write_scalar(out, scalar),
        Event::SequenceStart(start) => write_start(out, "+SEQ", &start.anchor, &start.tag),
        Event::SequenceEnd => out.push_str("-SEQ"),
        Event::MappingStart(start) => write_start(out, "+MAP", &start.anchor, &start.tag),
        Event::MappingEnd => out.push_str("-MAP"),
    }
}

/// Appends the line of an event with its mark, and its line feed. The slice of a scalar's source is not told. The only
/// error is that memory runs out.
pub fn write_event(out: &mut String, event: &Event<'_>, mark: Mark) -> Result<(), AllocError>
    ensures { OnOk result (string_bytes out.new
        ≡ string_bytes out.old ++ (event_line (event_of event.now) mark ++ 10 ∷ [])) }
{
    write_mark(out, mark)?;
    out.push(' ')?;
    write_words(out, event)?;
    out.push('\n')
}

// The name of a kind.
fn name_of(kind: FaultKind) -> &'static str
    ensures { result.now ≡ kind_name kind }
{
    match kind {
        FaultKind::Memory => "MEMORY",
        FaultKind::Reader => "READER",
        FaultKind::Scanner => "SCANNER",
        FaultKind::Parser => "PARSER",
        FaultKind::Composer => "COMPOSER",
        FaultKind::Writer => "WRITER",
        FaultKind::Emitter => "EMITTER",
        FaultKind::Other => "OTHER",
    }
}

/// Appends the line of the parser's fault, and its line feed. The context of the fault is not told. The only error is
/// that memory runs out.
pub fn write_fault(out: &mut String, fault: &ParserFault) -> Result<(), AllocError>
    ensures { OnOk result (string_bytes out.new
        ≡ string_bytes out.old ++ (fault_line fault.now ++ 10 ∷ [])) }
{
    let (name, offset) = (name_of(fault.kind()), fault.offset());
    write_mark(out, fault.mark())?;
    write!(out, " !ERR {name} {offset} ")?;
    spell(out, fault.problem().as_bytes(), NO_BYTE)?;
    out.push('\n')
}
