//! Reading YAML text with a choice of what is done with merge keys.

ghost use Rattle.std.specs.Prelude.{◌≡◌, ◌<◌, IfErr, IfOk, IfSome, Ok, OnOk, Some, false, length};
ghost use Rattle.std.specs.Io.KnownBytes.{IsAtEnd};
ghost use Rattle.yaml_base.specs.Answer.{Answers, is_memory};
ghost use Rattle.yaml_documents.specs.ReaderFaults.{IfOfText};
ghost use Rattle.yaml_shape.specs.DataView.{data_of};
ghost use Rattle.yaml_shape.specs.HasShape.{HasShape};
ghost use Rattle.yaml_shape.specs.PlainShape.{PlainShape, shape_at};
ghost use Rattle.yaml_read.specs.TreeReader.{default_limits};
ghost use Rattle.serde_yaml.specs.MergedReads.{GivesMerged, GivesMergedOwn, GivesMergedValue, TreatedGives};
ghost use Rattle.serde_yaml.specs.MergedReads.{RefusesMergedOwn, TreatedMakes};

use crate::de::{is_there, read_first};
use crate::input::events_alone;
use crate::type_faults::{build_refusal, schema_refusal};
use std::alloc::Global;
use std::io::Read;
use yaml_base::{Cause, Error, Result};
use yaml_documents::{ReaderFault, events_of_text, load, read_bytes};
use yaml_merge::{Merge, merged};
use yaml_read::laws::a_meaning_has_its_shape;
use yaml_read::{Limits, Loader};
use yaml_shape::{Data, Schema, ShapeId};
use yaml_types::Deserialize;

// The data of the one document of these under the shape with this number, with its merge keys treated so.
fn data_of_alone<'de>(
    alloc: Global,
    documents: Loader<'de>,
    schema: &Schema,
    id: ShapeId,
    merge: Merge,
    limits: Limits,
) -> Result<Data<'de>>
    requires { id.0 < length schema.now }
    ensures given { (s : PlainShape) → shape_at schema.now id.0 ≡ Some s
        → Answers data_of result (TreatedGives limits schema.now s merge documents.entry) }
    ensures typed { IfOk result (λ found. HasShape schema.now id.0 (data_of found)) }
{
    a_meaning_has_its_shape();
    let mut left = documents;
    let Some(document) = left.next_document() else {
        return Err(Error::new(Cause::EndOfStream));
    };
    let others = is_there(left.next_document());
    match merged(alloc, document, merge) {
        Ok(treated) => {
            treated.has_tree();
            read_first(alloc, &treated, schema, id, limits, others)
        }
        Err(refused) => Err(refused),
    }
}

// The value of the type that the one document of these is, with its merge keys treated so.
fn value_of_alone<'de, T: Deserialize<'de>>(
    alloc: Global,
    documents: Loader<'de>,
    merge: Merge,
    limits: Limits,
) -> Result<T>
    ensures { Answers (λ value. value) result
        (TreatedMakes limits T.start T.built T.refused merge documents.entry) }
{
    let (table, id) = match T::schema(alloc) {
        Ok(start) => start,
        Err(reason) => return Err(schema_refusal(alloc, reason)),
    };
    table.is_valid();
    match data_of_alone(alloc, documents, &table, id, merge, limits) {
        Ok(found) => match T::build(alloc, found) {
            Ok(value) => Ok(value),
            Err(reason) => Err(build_refusal(reason)),
        },
        Err(fault) => Err(fault),
    }
}

/// The data of the one document of a YAML text under the shape with this number, with its merge keys treated so, within
/// 128 nestings and 100 follows for each event. `Schema::has` is the test of what is asked.
pub fn data_from_slice_merging<'de>(
    alloc: Global,
    text: &'de [u8],
    schema: &Schema,
    id: ShapeId,
    merge: Merge,
) -> Result<Data<'de>>
    requires { id.0 < length schema.now }
    ensures given { (s : PlainShape) → shape_at schema.now id.0 ≡ Some s
        → Answers data_of result (GivesMerged default_limits schema.now s merge text.now) }
    ensures typed { IfOk result (λ found. HasShape schema.now id.0 (data_of found)) }
{
    data_from_slice_merging_limited(alloc, text, schema, id, merge, Limits::DEFAULT)
}

/// The same within other limits. What merging goes over is counted apart from them.
pub fn data_from_slice_merging_limited<'de>(
    alloc: Global,
    text: &'de [u8],
    schema: &Schema,
    id: ShapeId,
    merge: Merge,
    limits: Limits,
) -> Result<Data<'de>>
    requires { id.0 < length schema.now }
    ensures given { (s : PlainShape) → shape_at schema.now id.0 ≡ Some s
        → Answers data_of result (GivesMerged limits schema.now s merge text.now) }
    ensures typed { IfOk result (λ found. HasShape schema.now id.0 (data_of found)) }
{
    let documents = load(alloc, text)?;
    data_of_alone(alloc, documents, schema, id, merge, limits)
}

/// The one document of a YAML text as a value of the type, as `from_str` reads it, with its merge keys treated so.
pub fn from_str_merging<'de, T: Deserialize<'de>>(
    alloc: Global,
    text: &'de str,
    merge: Merge,
) -> Result<T>
    ensures { Answers (λ value. value) result
        (GivesMergedValue default_limits T.start T.built T.refused merge text.now) }
{
    from_slice_merging(alloc, text.as_bytes(), merge)
}

/// The same of bytes.
pub fn from_slice_merging<'de, T: Deserialize<'de>>(
    alloc: Global,
    text: &'de [u8],
    merge: Merge,
) -> Result<T>
    ensures { Answers (λ value. value) result
        (GivesMergedValue default_limits T.start T.built T.refused merge text.now) }
{
    from_slice_merging_limited(alloc, text, merge, Limits::DEFAULT)
}

/// The same within other limits. What merging goes over is counted apart from them.
pub fn from_slice_merging_limited<'de, T: Deserialize<'de>>(
    alloc: Global,
    text: &'de [u8],
    merge: Merge,
    limits: Limits,
) -> Result<T>
    ensures { Answers (λ value. value) result
        (GivesMergedValue limits T.start T.built T.refused merge text.now) }
{
    let documents = load(alloc, text)?;
    value_of_alone(alloc, documents, merge, limits)
}

// The one document of a YAML text as a value of the type, which borrows nothing from it.
fn from_slice_owned_merging<'de, T: Deserialize<'de>>(
    alloc: Global,
    text: &[u8],
    merge: Merge,
) -> Result<T>
    ensures given { IfOk result (λ value.
        GivesMergedOwn default_limits T.start T.built T.refused merge text.now (Ok value)) }
    ensures refused { IfErr result (λ cause. is_memory cause ≡ false
        → RefusesMergedOwn default_limits T.start T.built T.refused merge text.now cause) }
{
    let (shown, fault) = events_of_text(alloc, text)?;
    let events = events_alone(alloc, shown)?;
    let documents = Loader::new(alloc, events, fault)?;
    value_of_alone(alloc, documents, merge, Limits::DEFAULT)
}

/// The one document of the YAML text that a reader gives, as a value of the type, as `from_reader` reads it, with its
/// merge keys treated so. The value borrows nothing: a type that wants a borrowed text refuses each. The reader is read
/// to its end before the text is looked at.
pub fn from_reader_merging<'de, R: Read, T: Deserialize<'de>>(
    alloc: Global,
    reader: &mut R,
    merge: Merge,
) -> std::result::Result<T, ReaderFault>
    ensures found { IfOk result (λ value. IfSome (R.remaining reader.old) (λ text.
        GivesMergedOwn default_limits T.start T.built T.refused merge text (Ok value))) }
    ensures refused { IfErr result (IfOfText (λ cause. is_memory cause ≡ false
        → IfSome (R.remaining reader.old) (λ text.
        RefusesMergedOwn default_limits T.start T.built T.refused merge text cause))) }
    ensures end { OnOk result (IsAtEnd (R.remaining reader.new)) }
    ensures read { IfErr result (IfOfText (λ _. IsAtEnd (R.remaining reader.new))) }
{
    let text = match read_bytes(alloc, reader) {
        Ok(text) => text,
        Err(fault) => return Err(fault),
    };
    match from_slice_owned_merging(alloc, text.as_slice(), merge) {
        Ok(value) => Ok(value),
        Err(fault) => Err(ReaderFault::Text(fault)),
    }
}
