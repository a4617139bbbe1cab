//! Reading what a reader gives.

ghost use Rattle.std.specs.Prelude.{◌≡◌, false, true, Err, IfErr, IfOk, IfSome, Ok, OnOk};
ghost use Rattle.std.specs.Io.KnownBytes.{IsAtEnd};
ghost use Rattle.yaml_base.specs.Answer.{Answers, is_memory};
ghost use Rattle.yaml_base.specs.PlainEvent.{event_of};
ghost use Rattle.yaml_documents.specs.ReaderFaults.{IfOfText};
ghost use Rattle.yaml_read.specs.MarkedEvents.{plain_marked};
ghost use Rattle.yaml_read.specs.TreeReader.{default_limits};
ghost use Rattle.serde_yaml.specs.OwnEvents.{event_alone, events_alone};
ghost use Rattle.serde_yaml.specs.TextReads.{IsParsed};
ghost use Rattle.serde_yaml.specs.TypedHeadline.{GivesValue};
ghost use Rattle.serde_yaml.specs.TypedReads.{TypeGives};

use crate::de::from_events;
use std::alloc::Global;
use std::io::Read;
use yaml_base::{Event, Mark, Result, Scalar};
use yaml_documents::{ReaderFault, events_of_text, read_bytes};
use yaml_types::Deserialize;

// The event, without the slice of the source that it shows.
fn event_alone<'de>(event: Event<'_>) -> Event<'de>
    ensures { event_of result ≡ event_alone (event_of event.entry) }
{
    match event {
        Event::StreamStart => Event::StreamStart,
        Event::StreamEnd => Event::StreamEnd,
        Event::DocumentStart => Event::DocumentStart,
        Event::DocumentEnd => Event::DocumentEnd,
        Event::Alias(anchor) => Event::Alias(anchor),
        Event::Scalar(scalar) => Event::Scalar(Scalar {
            anchor: scalar.anchor,
            tag: scalar.tag,
            value: scalar.value,
            style: scalar.style,
            repr: None,
        }),
        Event::SequenceStart(start) => Event::SequenceStart(start),
        Event::SequenceEnd => Event::SequenceEnd,
        Event::MappingStart(start) => Event::MappingStart(start),
        Event::MappingEnd => Event::MappingEnd,
    }
}

/// The events without the slices of the source that they show, each with its mark.
pub(crate) fn events_alone<'de>(
    alloc: Global,
    events: Vec<(Event<'_>, Mark)>,
) -> Result<Vec<(Event<'de>, Mark)>>
    ensures alone { IfOk result
        (λ alone. plain_marked alone.items ≡ events_alone (plain_marked events.entry.items)) }
    ensures memory { IfErr result (λ cause. is_memory cause ≡ true) }
{
    let mut alone = Vec::with_capacity(alloc, events.len())?;
    for (event, mark) in events {
        alone.push((event_alone(event), mark))?;
    }
    Ok(alone)
}

// The one document of a YAML text as a value of the type, which borrows nothing from it.
fn from_slice_owned<'de, T: Deserialize<'de>>(alloc: Global, text: &[u8]) -> Result<T>
    ensures given { Answers (λ value. value) result (λ given. IsParsed text.now (λ events fault.
        GivesValue default_limits T.start T.built T.refused (events_alone events) fault given
        × TypeGives default_limits T.start T.built T.refused (events_alone events) fault given)) }
{
    let (shown, fault) = events_of_text(alloc, text)?;
    let events = events_alone(alloc, shown)?;
    from_events(alloc, events, fault)
}

/// The one document of the YAML text that a reader gives, as a value of the type, within 128 nestings and 100 follows
/// for each event. The value borrows nothing: a type that wants a borrowed text refuses each. The reader is read to its
/// end before the text is looked at.
///
/// It is the text's events, as libyaml's parser makes them, without what they show of the source, and then
/// `from_events`.
pub fn from_reader<'de, R: Read, T: Deserialize<'de>>(
    alloc: Global,
    reader: &mut R,
) -> std::result::Result<T, ReaderFault>
    ensures found { IfOk result (λ value. IfSome (R.remaining reader.old) (λ text.
        IsParsed text (λ events fault. GivesValue default_limits T.start T.built T.refused
        (events_alone events) fault (Ok value)))) }
    ensures refused { IfErr result (IfOfText (λ cause. is_memory cause ≡ false
        → IfSome (R.remaining reader.old) (λ text. IsParsed text (λ events fault.
        TypeGives default_limits T.start T.built T.refused (events_alone events) fault (Err cause))))) }
    ensures end { OnOk result (IsAtEnd (R.remaining reader.new)) }
    ensures read { IfErr result (IfOfText (λ _. IsAtEnd (R.remaining reader.new))) }
{
    let text = match read_bytes(alloc, reader) {
        Ok(text) => text,
        Err(fault) => return Err(fault),
    };
    match from_slice_owned(alloc, text.as_slice()) {
        Ok(value) => Ok(value),
        Err(fault) => Err(ReaderFault::Text(fault)),
    }
}
