//! Reading YAML text.

ghost use Rattle.std.specs.Prelude.{◌≡◌, ◌<◌, length, Some, IfOk, IfErr, true};
ghost use Rattle.yaml_base.specs.Answer.{Answers, is_memory};
ghost use Rattle.yaml_checked.specs.OfText.{MayBeLeft, SaysText};
ghost use Rattle.yaml_scan.specs.AllowedText.{IsAllowed};
ghost use Rattle.yaml_shape.specs.DataView.{data_of};
ghost use Rattle.yaml_shape.specs.HasShape.{HasShape};
ghost use Rattle.yaml_shape.specs.PlainShape.{PlainShape, shape_at};
ghost use Rattle.yaml_read.specs.TreeReader.{default_limits};
ghost use Rattle.serde_yaml.specs.StreamReads.{stream_of};
ghost use Rattle.serde_yaml.specs.TextReads.{IsOfAStream, IsParsed, TextGives};
ghost use Rattle.serde_yaml.specs.TypedHeadline.{GivesValue};
ghost use Rattle.serde_yaml.specs.TypedReads.{TypeGives};

use crate::de::{Deserializer, data_from_stream, from_stream, from_stream_under, value_of_tape};
use std::alloc::Global;
use yaml_base::Result;
use yaml_checked::parse_allowed;
use yaml_documents::{load, load_by_tokens, load_tape};
use yaml_read::Limits;
use yaml_shape::{Data, Schema, ShapeId};
use yaml_tape::Tape;
use yaml_types::Deserialize;

/// The one document of a YAML text as a value of the type, within 128 nestings and 100 follows for each event. The
/// value may borrow from the text.
///
/// It is the text's events, as libyaml's parser makes them, and then `from_events`, but that no list of them is made.
/// Where the type's values read themselves from a tape of the text, and the text has no fault, no more than the tape is
/// made; else the documents are. A text that can't be parsed is refused by the parser's fault, unless what stands
/// before it is refused earlier.
pub fn from_str<'de, T: Deserialize<'de>>(alloc: Global, text: &'de str) -> Result<T>
    ensures given { Answers (λ value. value) result (λ given. IsParsed text.now (λ events fault.
        GivesValue default_limits T.start T.built T.refused events fault given
        × TypeGives default_limits T.start T.built T.refused events fault given)) }
    ensures stream { IsOfAStream result }
{
    from_slice(alloc, text.as_bytes())
}

/// The same of bytes, which are refused with the place of the first one that UTF-8 or YAML does not allow.
pub fn from_slice<'de, T: Deserialize<'de>>(alloc: Global, text: &'de [u8]) -> Result<T>
    ensures given { Answers (λ value. value) result (λ given. IsParsed text.now (λ events fault.
        GivesValue default_limits T.start T.built T.refused events fault given
        × TypeGives default_limits T.start T.built T.refused events fault given)) }
    ensures stream { IsOfAStream result }
{
    from_slice_limited(alloc, text, Limits::DEFAULT)
}

/// The same within other limits.
pub fn from_slice_limited<'de, T: Deserialize<'de>>(
    alloc: Global,
    text: &'de [u8],
    limits: Limits,
) -> Result<T>
    ensures given { Answers (λ value. value) result (λ given. IsParsed text.now (λ events fault.
        GivesValue limits T.start T.built T.refused events fault given
        × TypeGives limits T.start T.built T.refused events fault given)) }
    ensures stream { IsOfAStream result }
{
    match parse_allowed(alloc, text)? {
        Some(tape) => from_tape(alloc, tape, limits),
        None => {
            let stream = stream_by_tokens(alloc, text)?;
            from_stream(alloc, stream, limits)
        }
    }
}

// The documents of a text that the direct parser leaves, by its tokens.
fn stream_by_tokens<'de>(alloc: Global, text: &'de [u8]) -> Result<Deserializer<'de>>
    requires { MayBeLeft text.now }
    ensures documents { IfOk result
        (λ stream. IsParsed text.now (λ events fault. stream ≡ stream_of events fault)) }
    ensures memory { IfErr result (λ cause. is_memory cause ≡ true) }
{
    Ok(Deserializer::of_documents(load_by_tokens(alloc, text)?))
}

// The documents of the text of a tape, which says those that stand in it.
fn stream_of_tape<'de>(alloc: Global, tape: Tape<'de>) -> Result<Deserializer<'de>>
    requires allowed { IsAllowed tape.text.now }
    requires says { SaysText tape }
    ensures documents { IfOk result
        (λ stream. IsParsed tape.entry.text.now (λ events fault. stream ≡ stream_of events fault)) }
    ensures memory { IfErr result (λ cause. is_memory cause ≡ true) }
{
    Ok(Deserializer::of_documents(load_tape(alloc, tape)?))
}

// The value of the text of a tape: as the type reads it from the tape, or else of the text's documents.
fn from_tape<'de, T: Deserialize<'de>>(alloc: Global, tape: Tape<'de>, limits: Limits) -> Result<T>
    requires allowed { IsAllowed tape.text.now }
    requires says { SaysText tape }
    ensures given { Answers (λ value. value) result (λ given. IsParsed tape.entry.text.now (λ events fault.
        GivesValue limits T.start T.built T.refused events fault given
        × TypeGives limits T.start T.built T.refused events fault given)) }
    ensures stream { IsOfAStream result }
{
    let (table, id) = match T::schema(alloc) {
        Ok(start) => start,
        Err(_) => {
            let stream = stream_of_tape(alloc, tape)?;
            return from_stream(alloc, stream, limits);
        }
    };
    if let Some(value) = value_of_tape(alloc, &tape, &table, limits) {
        return Ok(value);
    }
    let stream = stream_of_tape(alloc, tape)?;
    from_stream_under(alloc, stream, &table, id, limits)
}

/// The data of the one document of a YAML text under the shape with this number, within limits. Texts are borrowed from
/// the text where it shows them. `Schema::has` is the test of what is asked.
///
/// It is the text's events, as libyaml's parser makes them, and then `data_from_events`, with the faults of both.
pub fn data_from_str<'de>(
    alloc: Global,
    text: &'de str,
    schema: &Schema,
    id: ShapeId,
    limits: Limits,
) -> Result<Data<'de>>
    requires { id.0 < length schema.now }
    ensures given { (s : PlainShape) → shape_at schema.now id.0 ≡ Some s
        → Answers data_of result (TextGives limits schema.now s text.now) }
    ensures typed { IfOk result (λ found. HasShape schema.now id.0 (data_of found)) }
    ensures stream { IsOfAStream result }
{
    data_from_slice(alloc, text.as_bytes(), schema, id, limits)
}

/// The same of bytes.
pub fn data_from_slice<'de>(
    alloc: Global,
    text: &'de [u8],
    schema: &Schema,
    id: ShapeId,
    limits: Limits,
) -> Result<Data<'de>>
    requires { id.0 < length schema.now }
    ensures given { (s : PlainShape) → shape_at schema.now id.0 ≡ Some s
        → Answers data_of result (TextGives limits schema.now s text.now) }
    ensures typed { IfOk result (λ found. HasShape schema.now id.0 (data_of found)) }
    ensures stream { IsOfAStream result }
{
    let stream = Deserializer::from_slice(alloc, text)?;
    data_from_stream(alloc, stream, schema, id, limits)
}

impl<'de> Deserializer<'de> {
    /// Takes a YAML text, whose documents may borrow from it. What can't be parsed is the fault of the document that it
    /// stands in, and comes when that document is read. The only error is want of memory.
    pub fn from_str(alloc: Global, text: &'de str) -> Result<Deserializer<'de>>
        ensures documents { IfOk result
            (λ stream. IsParsed text.now (λ events fault. stream ≡ stream_of events fault)) }
        ensures memory { IfErr result (λ cause. is_memory cause ≡ true) }
    {
        Deserializer::from_slice(alloc, text.as_bytes())
    }

    /// The same of bytes.
    pub fn from_slice(alloc: Global, text: &'de [u8]) -> Result<Deserializer<'de>>
        ensures documents { IfOk result
            (λ stream. IsParsed text.now (λ events fault. stream ≡ stream_of events fault)) }
        ensures memory { IfErr result (λ cause. is_memory cause ≡ true) }
    {
        Ok(Deserializer::of_documents(load(alloc, text)?))
    }
}
