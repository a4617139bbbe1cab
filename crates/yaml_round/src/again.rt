//! A value that is written, comes back from a parser, and is read.

ghost use Rattle.std.specs.Prelude.{◌≡◌, ◌<◌, ◌≤◌, ◌^◌, ◌↔◌, false, length, string_bytes, true, Err, IfErr, IfOk};
ghost use Rattle.std.specs.Prelude.{IsTrue, Ok};
ghost use Rattle.yaml_base.specs.Answer.{Answers, is_memory};
ghost use Rattle.yaml_printed.specs.WrittenRoots.{FitsText};
ghost use Rattle.yaml_read.specs.TreeReader.{PlainLimits};
ghost use Rattle.serde_yaml.specs.TextReads.{IsParsed};
ghost use Rattle.serde_yaml.specs.TypedWrites.{TypeWrites};
ghost use Rattle.yaml_round.specs.Compared.{Compares, ComparesInput, HasNoData};
ghost use Rattle.yaml_round.specs.Fits.{Fits};
ghost use Rattle.yaml_round.specs.InTexts.{FitsTextWithin, GivesEqual, IsReadAsEqual, IsTextOf, StandsAsWritten};
ghost use Rattle.yaml_round.specs.ReadsBack.{IsSameUnless};

use crate::fit::value_fits;
use crate::laws::{
    a_printed_value_reads_back, a_written_text_of_data_reads_back, a_written_text_reads_back,
    a_written_value_reads_back,
};
use crate::renderer::Renderer;
use serde_yaml::{from_events_limited, from_slice_limited, to_events, to_string};
use std::alloc::Global;
use yaml_base::Result;
use yaml_read::Limits;
use yaml_types::RoundTrip;

/// Whether what is read within the limits is equal to the value that was written. Memory aside it is, for each value
/// that fits, of a type whose table has at most 4,096 shapes, whatever stands between; unless `to_data` refuses the
/// value by a message. Of any value it is what a reading answers of what was written, or the fault (`compared`).
pub fn comes_back<'de, T: RoundTrip<'de> + Drop, R: Renderer<'de>>(
    alloc: Global,
    value: &T,
    renderer: &mut R,
    limits: Limits,
) -> Result<bool>
    ensures equal { length T.Serialize.start.0 ≤ 4096
        → Fits limits.nesting T.Serialize.start.0 T.Serialize.start.1 (T.written value.now)
        → Answers (λ same. same) result (IsSameUnless (T.unwritten value.now)) }
    ensures compared { Answers (λ same. same) result
        (Compares limits (TypeWrites T.Serialize.start (T.written value.now) (T.unwritten value.now))
        T.Deserialize.start T.built T.refused T.eq value.now) }
{
    a_written_value_reads_back::<T>();
    let written = match to_events(alloc, value) {
        Ok(written) => written,
        Err(fault) => return Err(fault),
    };
    let input = match renderer.render(alloc, &written) {
        Ok(input) => input,
        Err(fault) => return Err(fault),
    };
    match from_events_limited::<T>(alloc, input, None, limits) {
        Ok(found) => Ok(*value == found),
        Err(fault) => Err(fault),
    }
}

/// Whether the value fits within the limits, and what is read of it within these, once it was rendered, is equal to it.
/// That is so exactly of the values that fit, of a type whose table has at most 4,096 shapes, whatever stands between.
/// Refused where memory runs out, where the type has no schema, or by a message of `to_data`.
pub fn fits_and_comes_back<'de, T: RoundTrip<'de> + Drop, R: Renderer<'de>>(
    alloc: Global,
    value: &T,
    renderer: &mut R,
    limits: Limits,
) -> Result<bool>
    ensures fits { length T.Serialize.start.0 ≤ 4096 → IfOk result (λ does. IsTrue does
        ↔ Fits limits.nesting T.Serialize.start.0 T.Serialize.start.1 (T.written value.now)) }
    ensures refused { length T.Serialize.start.0 ≤ 4096 → IfErr result (λ cause. is_memory cause ≡ false
        → HasNoData T.Serialize.start (T.unwritten value.now) cause) }
{
    if !value_fits(alloc, value, limits)? {
        return Ok(false);
    }
    comes_back(alloc, value, renderer, limits)
}

/// The value as YAML text, as `to_string` prints it. The text of a value that fits it stands in the grammar, and each
/// reader that takes what stands there as it stands reads an equal value, within limits in which the value fits. So
/// `from_str` does, if the text has fewer than 2^32 bytes (`returns`).
pub fn text_of<'de, T: RoundTrip<'de>>(alloc: Global, value: &T) -> Result<String>
    ensures stands { IfOk result (λ text. FitsText T.Serialize.start.0 T.Serialize.start.1 (T.written value.now)
        → StandsAsWritten (TypeWrites T.Serialize.start (T.written value.now) (T.unwritten value.now))
        (string_bytes text)) }
    ensures reads { IfOk result (λ text. FitsText T.Serialize.start.0 T.Serialize.start.1 (T.written value.now)
        → (limits : PlainLimits)
        → Fits limits.nesting T.Serialize.start.0 T.Serialize.start.1 (T.written value.now)
        → IsReadAsEqual limits T.Deserialize.start T.built T.refused T.eq value.now (string_bytes text)) }
    ensures returns { IfOk result (λ text. length (string_bytes text) < 2 ^ 32 → (limits : PlainLimits)
        → FitsTextWithin limits T.Serialize.start.0 T.Serialize.start.1 (T.written value.now)
        → GivesEqual limits T.Deserialize.start T.built T.refused T.eq value.now (string_bytes text)) }
    ensures own { IfOk result (λ text. IsTextOf T.Serialize.start (T.written value.now) (T.kept value.now)
        (T.unwritten value.now) (string_bytes text)) }
    ensures refused { IfErr result (λ cause. is_memory cause ≡ false
        → TypeWrites T.Serialize.start (T.written value.now) (T.unwritten value.now) (Err cause)) }
{
    a_printed_value_reads_back::<T>();
    a_written_text_reads_back::<T>();
    match to_string(alloc, value) {
        Ok(text) => Ok(text),
        Err(unwritten) => Err(unwritten),
    }
}

/// Whether what is read of a value's own text within limits is equal to the value. Memory aside it is, for each value that
/// fits, and a text of fewer than 2^32 bytes: what was written is what is read, from text to text. Of any value and
/// text it is what `from_slice_limited` answers of the text, compared with the value, or the fault (`compared`).
pub fn reads_back<'de, T: RoundTrip<'de> + Drop>(
    alloc: Global,
    value: &T,
    text: &'de str,
    limits: Limits,
) -> Result<bool>
    ensures equal { IsTextOf T.Serialize.start (T.written value.now) (T.kept value.now) (T.unwritten value.now)
        text.now → length text.now < 2 ^ 32
        → FitsTextWithin limits T.Serialize.start.0 T.Serialize.start.1 (T.written value.now)
        → Answers (λ same. same) result (λ given. given ≡ Ok true) }
    ensures compared { Answers (λ same. same) result (λ given. IsParsed text.now (λ events fault.
        ComparesInput limits T.Deserialize.start T.built T.refused T.eq value.now events fault given)) }
{
    a_written_text_reads_back::<T>();
    match from_slice_limited::<T>(alloc, text.as_bytes(), limits) {
        Ok(again) => Ok(*value == again),
        Err(unread) => Err(unread),
    }
}
