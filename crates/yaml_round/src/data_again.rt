//! Data that is written, and read of its own text.

ghost use Rattle.std.specs.Prelude.{◌≡◌, ◌<◌, ◌^◌, ℕ, false, length, string_bytes, true, Err, IfErr, IfOk, Some};
ghost use Rattle.yaml_base.specs.Answer.{Answers, is_memory};
ghost use Rattle.yaml_read.specs.TreeReader.{PlainLimits};
ghost use Rattle.yaml_shape.specs.DataView.{data_of};
ghost use Rattle.yaml_shape.specs.PlainShape.{PlainShape, shape_at};
ghost use Rattle.yaml_shape.specs.TypedView.{content_in, id_in, schema_in};
ghost use Rattle.serde_yaml.specs.Printed.{HasText, IsDataWritten};
ghost use Rattle.serde_yaml.specs.TextReads.{TextGives};
ghost use Rattle.yaml_round.specs.Fits.{Fits};
ghost use Rattle.yaml_round.specs.InTexts.{FitsTextWithin, GivesSameData, IsSameData};

use crate::held::typed_is_held;
use crate::laws::a_written_text_of_data_reads_back;
use serde_yaml::{data_from_slice, data_to_string};
use std::alloc::Global;
use yaml_base::Result;
use yaml_read::Limits;
use yaml_shape::{Data, Typed};

/// Data of a shape as YAML text, as `data_to_string` prints it. Let the data fit its text, and the limits of a reading,
/// and the text have fewer than 2^32 bytes. Then each call that reads the text under the same shape reads equal data,
/// with the pairs of its mappings in the same order (`returns`). Of data that fits, only want of memory is an error
/// (`memory`).
pub fn data_text_of(alloc: Global, value: &Typed<'_, '_>) -> Result<String>
    ensures own { IfOk result (λ text. HasText (IsDataWritten (schema_in value.now) (id_in value.now).0
        (data_of (content_in value.now))) (string_bytes text)) }
    ensures returns { IfOk result (λ text. length (string_bytes text) < 2 ^ 32 → (limits : PlainLimits)
        → FitsTextWithin limits (schema_in value.now) (id_in value.now).0 (data_of (content_in value.now))
        → (s : PlainShape) × (shape_at (schema_in value.now) (id_in value.now).0 ≡ Some s)
        × GivesSameData limits (schema_in value.now) s (data_of (content_in value.now)) (string_bytes text)) }
    ensures memory { IfErr result (λ cause. (nesting : ℕ)
        → Fits nesting (schema_in value.now) (id_in value.now).0 (data_of (content_in value.now))
        → is_memory cause ≡ true) }
    ensures refused { IfErr result (λ cause. is_memory cause ≡ false
        → IsDataWritten (schema_in value.now) (id_in value.now).0 (data_of (content_in value.now)) (Err cause)) }
{
    a_written_text_of_data_reads_back();
    value.schema().is_valid();
    match data_to_string(alloc, value) {
        Ok(text) => Ok(text),
        Err(refused) => Err(refused),
    }
}

/// What is read of data's own text under the same shape, within limits. Memory aside it is data, equal to what was
/// written and with its pairs in the same order, where that fits the text and the limits, and the text has fewer than
/// 2^32 bytes (`same`). Of any data and text it is what `data_from_slice` answers of the text (`given`).
pub fn data_read_back<'de>(
    alloc: Global,
    value: &Typed<'_, '_>,
    text: &'de str,
    limits: Limits,
) -> Result<Data<'de>>
    ensures same { HasText (IsDataWritten (schema_in value.now) (id_in value.now).0 (data_of (content_in value.now)))
        text.now → length text.now < 2 ^ 32
        → FitsTextWithin limits (schema_in value.now) (id_in value.now).0 (data_of (content_in value.now))
        → Answers data_of result (IsSameData (data_of (content_in value.now))) }
    ensures given { (s : PlainShape) → shape_at (schema_in value.now) (id_in value.now).0 ≡ Some s
        → Answers data_of result (TextGives limits (schema_in value.now) s text.now) }
{
    a_written_text_of_data_reads_back();
    typed_is_held(value);
    match data_from_slice(alloc, text.as_bytes(), value.schema(), value.id(), limits) {
        Ok(found) => Ok(found),
        Err(fault) => Err(fault),
    }
}
