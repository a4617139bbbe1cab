//! Events that went by, as contracts read them: no text of them is stored.

ghost use Rattle.std.specs.Prelude.{◌≡◌, Some, None};
ghost use Rattle.std.specs.Option.{option_map};
ghost use Rattle.yaml_base.specs.EmitEvents.{emit_of, emit_scalar, tag_bytes};
ghost use Rattle.yaml_emit.specs.Noted.{noted_of, noted_tag};

use yaml_base::History;
use yaml_base::emitter::{AskedStyle, EmitEvent};

// An event, of whose texts no byte is stored.
#[derive(Drop)]
pub(crate) enum Noted {
    StreamStart,
    StreamEnd,
    DocumentStart,
    DocumentEnd,
    Scalar(Option<History<u8>>, History<u8>, AskedStyle),
    SequenceStart(Option<History<u8>>),
    SequenceEnd,
    MappingStart(Option<History<u8>>),
    MappingEnd,
}

// The bytes of a text. Does nothing when it runs.
fn note_text(text: &str) -> History<u8>
    ensures { result.items ≡ text.now }
{
    let mut noted = History::new();
    for byte in text.as_bytes() {
        noted = History::with(&noted, byte);
    }
    noted
}

// Those of a tag, if there is one.
fn note_tag(tag: Option<&str>) -> Option<History<u8>>
    ensures { noted_tag result ≡ option_map (λ t. t.now) tag.entry }
{
    match tag {
        Some(tag) => Some(note_text(tag)),
        None => None,
    }
}

// Those of a tag that is owned, if there is one.
fn note_owned_tag(tag: &Option<String>) -> Option<History<u8>>
    ensures { noted_tag result ≡ tag_bytes tag.now }
{
    match tag {
        Some(tag) => Some(note_text(tag.as_str())),
        None => None,
    }
}

// A scalar.
pub(crate) fn note_scalar(tag: Option<&str>, text: &str, style: AskedStyle) -> Noted
    ensures { noted_of result ≡ emit_scalar (option_map (λ t. t.now) tag.entry) text.now style }
{
    Noted::Scalar(note_tag(tag), note_text(text), style)
}

// An event.
pub(crate) fn note(event: &EmitEvent) -> Noted
    ensures { noted_of result ≡ emit_of event.now }
{
    match event {
        EmitEvent::StreamStart => Noted::StreamStart,
        EmitEvent::StreamEnd => Noted::StreamEnd,
        EmitEvent::DocumentStart => Noted::DocumentStart,
        EmitEvent::DocumentEnd => Noted::DocumentEnd,
        EmitEvent::Scalar(scalar) => Noted::Scalar(
            note_owned_tag(&scalar.tag),
            note_text(scalar.value.as_str()),
            scalar.style,
        ),
        EmitEvent::SequenceStart(start) => Noted::SequenceStart(note_owned_tag(&start.tag)),
        EmitEvent::SequenceEnd => Noted::SequenceEnd,
        EmitEvent::MappingStart(start) => Noted::MappingStart(note_owned_tag(&start.tag)),
        EmitEvent::MappingEnd => Noted::MappingEnd,
    }
}
