//! What definitions come to, each the contract of a function that does nothing.

ghost use Rattle.std.specs.Prelude.{◌≡◌, ◌≤◌, ◌+◌, ◌*◌, ℕ, List, Option, Result, Bool, false, length, IsTrue};
ghost use Rattle.yaml_base.specs.Borrowable.{is_borrowable};
ghost use Rattle.yaml_base.specs.PlainDocument.{PlainDocument};
ghost use Rattle.yaml_base.specs.PlainEvent.{PlainScalar};
ghost use Rattle.yaml_base.specs.PlainFault.{PlainFault};
ghost use Rattle.yaml_base.specs.declared.error.Cause.{Cause};
ghost use Rattle.yaml_shape.specs.PlainData.{PlainData};
ghost use Rattle.yaml_shape.specs.PlainShape.{PlainShape, IntegerType, bool_shape, integer_shape};
ghost use Rattle.yaml_shape.specs.PlainShape.{option_shape, str_shape, unit_shape};
ghost use Rattle.yaml_meaning.specs.Presence.{is_absent};
ghost use Rattle.yaml_meaning.specs.ScalarShapes.{takes_no_memory};
ghost use Rattle.yaml_read.specs.CursorReads.{LeavesCursor};
ghost use Rattle.yaml_read.specs.Documents.{Input};
ghost use Rattle.yaml_read.specs.PlainCursor.{PlainCursor, fresh_cursor};
ghost use Rattle.yaml_read.specs.TreeReader.{PlainLimits, default_limits};
ghost use Rattle.serde_yaml.specs.Headline.{GivesMeaning};
ghost use Rattle.serde_yaml.specs.StreamReads.{InputGives};

use yaml_read::stream_law::{a_stream_is_cut_into_its_documents, the_parsers_fault_comes_last};

/// What an input gives, taken by `Deserializer::from_events` and then read by `Deserializer::deserialize_limited`, is
/// data exactly where it is one faultless document whose tree means that data within the limits.
pub fn reading_gives_the_meaning()
    ensures { (limits : PlainLimits) (table : List PlainShape) (s : PlainShape) (input : Input)
        (fault : Option PlainFault)
        (given : Result PlainData Cause) → InputGives limits table s input fault given
        → GivesMeaning limits table s input fault given }
{
    a_stream_is_cut_into_its_documents();
    the_parsers_fault_comes_last();
}

/// A reading of a document of n events by a fresh cursor, within F follows for each, goes over at most 2n(Fn + 1)
/// events, answered or refused. By the usual limits these are at most 20,020 where there are 10.
pub fn a_reading_goes_over_so_many_events()
    ensures most { (limits : PlainLimits) (document : PlainDocument) (new : PlainCursor) (answered : Bool)
        → LeavesCursor limits document fresh_cursor new answered
        → new.steps ≤ 2 * length document.events * (limits.follows * length document.events + 1) }
    ensures ten { (document : PlainDocument) (new : PlainCursor) (answered : Bool) → length document.events ≡ 10
        → LeavesCursor default_limits document fresh_cursor new answered → new.steps ≤ 20020 }
{}

/// Reading a scalar needs no memory under these shapes: those of booleans, of integers, of nothing, of optionals that
/// are absent, and, where the text can be lent from the source, that of texts.
pub fn these_scalars_need_no_memory()
    ensures booleans { (w : PlainScalar) → IsTrue (takes_no_memory bool_shape w) }
    ensures integers { (i : IntegerType) (w : PlainScalar) → IsTrue (takes_no_memory (integer_shape i) w) }
    ensures nothing { (w : PlainScalar) → IsTrue (takes_no_memory unit_shape w) }
    ensures absent { (content : ℕ) (w : PlainScalar) → IsTrue (is_absent false w)
        → IsTrue (takes_no_memory (option_shape content) w) }
    ensures texts { (w : PlainScalar) → IsTrue (is_borrowable w.text w.source w.style)
        → IsTrue (takes_no_memory str_shape w) }
{}
