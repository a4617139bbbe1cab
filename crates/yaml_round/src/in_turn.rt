//! Several values that are written as one text, a document each, and read in turn.

ghost use Rattle.std.specs.Prelude.{◌≡◌, ◌≢◌, ◌<◌, ◌^◌, [], false, length, string_bytes, true, Err, IfErr, IfOk, Ok};
ghost use Rattle.std.specs.List.{All};
ghost use Rattle.yaml_base.specs.Answer.{Answers, is_memory};
ghost use Rattle.yaml_read.specs.TreeReader.{PlainLimits};
ghost use Rattle.serde_yaml.specs.WrittenDocuments.{TypeWritesAll};
ghost use Rattle.yaml_round.specs.Compared.{ComparesDocument, ComparesEach, ComparesText};
ghost use Rattle.yaml_round.specs.InTexts.{FitsTextWithin};
ghost use Rattle.yaml_round.specs.InTurn.{GivesEqualInTurn, IsTextOfAll, MakeEqual, MakesEqual};

use crate::fit::refusal;
use crate::laws::a_text_of_documents_reads_back;
use serde_yaml::documents_to_string;
use std::alloc::Global;
use yaml_base::Result;
use yaml_documents::load;
use yaml_read::laws::a_meaning_has_its_shape;
use yaml_read::{Document, Limits, Loader};
use yaml_shape::{Schema, ShapeId};
use yaml_types::{Deserialize, RoundTrip};

/// The values as YAML text, a document each, as `documents_to_string` prints them. Of values that fit the text each
/// document is read as an equal value, by whichever call hands it out, within limits in which the values fit.
pub fn text_of<'de, T: RoundTrip<'de>>(alloc: Global, values: &[T]) -> Result<String>
    ensures returns { IfOk result (λ text. length (string_bytes text) < 2 ^ 32 → values.now ≢ []
        → (limits : PlainLimits)
        → All (λ x. FitsTextWithin limits T.Serialize.start.0 T.Serialize.start.1 (T.written x)) values.now
        → GivesEqualInTurn limits T.Deserialize.start T.built T.refused T.eq values.now (string_bytes text)) }
    ensures own { IfOk result (λ text.
        IsTextOfAll T.Serialize.start T.written T.kept T.unwritten values.now (string_bytes text)) }
    ensures refused { IfErr result (λ cause. is_memory cause ≡ false
        → TypeWritesAll T.Serialize.start T.written T.unwritten values.now (Err cause)) }
{
    a_text_of_documents_reads_back::<T>();
    match documents_to_string(alloc, values) {
        Ok(text) => Ok(text),
        Err(unwritten) => Err(unwritten),
    }
}

// Whether what the type makes of a document is equal to the value.
fn makes_equal<'de, T: RoundTrip<'de> + Drop>(
    alloc: Global,
    value: &T,
    document: &Document<'de>,
    schema: &Schema,
    id: ShapeId,
    limits: Limits,
) -> Result<bool>
    requires table { schema.now ≡ T.Deserialize.start.0 }
    requires number { id.0 ≡ T.Deserialize.start.1 }
    ensures equal { MakesEqual limits T.Deserialize.start T.built T.refused T.eq value.now document.now
        → Answers (λ same. same) result (λ given. given ≡ Ok true) }
    ensures compared { Answers (λ same. same) result
        (ComparesDocument limits T.Deserialize.start T.built T.refused T.eq value.now document.now) }
{
    a_meaning_has_its_shape();
    document.has_tree();
    match document.deserialize_limited(alloc, schema, id, limits) {
        Ok(found) => match T::build(alloc, found) {
            Ok(again) => Ok(*value == again),
            Err(refused) => Err(refused.into()),
        },
        Err(fault) => Err(fault),
    }
}

// Whether the documents that are left are as many as the values, and each makes an equal one.
fn make_equal<'de, T: RoundTrip<'de> + Drop>(
    alloc: Global,
    values: &[T],
    documents: Loader<'de>,
    schema: &Schema,
    id: ShapeId,
    limits: Limits,
) -> Result<bool>
    requires table { schema.now ≡ T.Deserialize.start.0 }
    requires number { id.0 ≡ T.Deserialize.start.1 }
    ensures equal { MakeEqual limits T.Deserialize.start T.built T.refused T.eq values.now documents.entry
        → Answers (λ same. same) result (λ given. given ≡ Ok true) }
    ensures compared { Answers (λ same. same) result
        (ComparesEach limits T.Deserialize.start T.built T.refused T.eq values.now documents.entry) }
{
    let mut left = documents;
    for value in values {
        let Some(document) = left.next_document() else {
            return Ok(false);
        };
        if !makes_equal(alloc, value, &document, schema, id, limits)? {
            return Ok(false);
        }
    }
    Ok(left.next_document().is_none())
}

/// Whether the documents of the values' own text are as many as the values, and what is read of each within limits is
/// equal to its value. Memory aside it is so, if there is a value, for values that fit, and a text of fewer than 2^32
/// bytes: what was written of several values is what is read, document by document. Of any values and text it is
/// whether the text's documents make equal values, as many, or the first fault (`compared`).
pub fn reads_back<'de, T: RoundTrip<'de> + Drop>(
    alloc: Global,
    values: &[T],
    text: &'de str,
    limits: Limits,
) -> Result<bool>
    ensures equal { IsTextOfAll T.Serialize.start T.written T.kept T.unwritten values.now text.now
        → length text.now < 2 ^ 32 → values.now ≢ []
        → All (λ x. FitsTextWithin limits T.Serialize.start.0 T.Serialize.start.1 (T.written x)) values.now
        → Answers (λ same. same) result (λ given. given ≡ Ok true) }
    ensures compared { Answers (λ same. same) result
        (ComparesText limits T.Deserialize.start T.built T.refused T.eq values.now text.now) }
{
    a_text_of_documents_reads_back::<T>();
    let (schema, id) = match <T as Deserialize<'de>>::schema(alloc) {
        Ok(start) => start,
        Err(fault) => return Err(refusal(alloc, fault)),
    };
    let documents = load(alloc, text.as_bytes())?;
    make_equal(alloc, values, documents, &schema, id, limits)
}
