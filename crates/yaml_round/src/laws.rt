//! Laws of writing and reading together, each the contract of a function that does nothing.

ghost use Rattle.std.specs.Prelude.{◌≡◌, ◌≢◌, ◌<◌, ◌≤◌, ◌^◌, ℕ, suc, length, List, Option, None, Some, Ok, Result, true, false, IsTrue};
ghost use Rattle.std.specs.Prelude.{[], slice_get};
ghost use Rattle.std.specs.List.{All};
ghost use Rattle.std.specs.Option.{is_some};
ghost use Rattle.std.specs.Str.{is_utf8};
ghost use Rattle.yaml_base.specs.AskedStyles.{asked_style};
ghost use Rattle.yaml_base.specs.DocTree.{DocNode, word};
ghost use Rattle.yaml_base.specs.EmitEvents.{PlainEmit};
ghost use Rattle.yaml_base.specs.PlainEvent.{PlainScalar};
ghost use Rattle.yaml_base.specs.PlainFault.{PlainFault};
ghost use Rattle.yaml_base.specs.Renders.{Renders, RendersScalar};
ghost use Rattle.yaml_base.specs.declared.emitter.AskedStyle.{AskedStyle};
ghost use Rattle.yaml_base.specs.declared.emitter.AskedStyle.TheVariants as asked;
ghost use Rattle.yaml_base.specs.declared.error.Cause.{Cause};
ghost use Rattle.yaml_base.specs.declared.event.ScalarStyle.{ScalarStyle};
ghost use Rattle.yaml_base.specs.declared.event.ScalarStyle.TheVariants as style;
ghost use Rattle.yaml_shape.specs.EqualData.{EqualData};
ghost use Rattle.yaml_shape.specs.HasShape.{HasShape};
ghost use Rattle.yaml_shape.specs.PlainData.{PlainData, PlainItems, any_data, seq_data, some_data};
ghost use Rattle.yaml_shape.specs.PlainData.{variant_data};
ghost use Rattle.yaml_shape.specs.PlainShape.{PlainShape, PlainVariant, any_shape, enum_shape, newtype_variant};
ghost use Rattle.yaml_shape.specs.PlainShape.{option_shape, seq_shape, str_shape, shape_at};
ghost use Rattle.yaml_shape.specs.Validity.{IsValidSchema};
ghost use Rattle.yaml_base.specs.EmitTree.{EmitNode};
ghost use Rattle.yaml_tree.specs.Tree.{Tree, string};
ghost use Rattle.yaml_write.specs.LocalTags.{local_tag};
ghost use Rattle.yaml_write.specs.Written.{written};
ghost use Rattle.yaml_write.specs.WrittenValue.{written_value};
ghost use Rattle.yaml_read.specs.Documents.{Input};
ghost use Rattle.yaml_read.specs.MarkedEvents.{events_in};
ghost use Rattle.yaml_meaning.specs.Meaning.{Means};
ghost use Rattle.yaml_meaning.specs.ScalarShapes.{lent_text};
ghost use Rattle.yaml_read.specs.TreeReader.{PlainLimits};
ghost use Rattle.serde_yaml.specs.Printed.{HasText, IsDataWritten};
ghost use Rattle.serde_yaml.specs.StreamReads.{InputGives};
ghost use Rattle.serde_yaml.specs.TypedReads.{TypeGives};
ghost use Rattle.serde_yaml.specs.TypedWrites.{TypeWrites};
ghost use Rattle.yaml_round.specs.Fits.{EachFits, Fits, data_fits, is_variant_name, is_written_null, tree_fits};
ghost use Rattle.yaml_grammar.specs.Documents.{most_nestings};
ghost use Rattle.yaml_printed.specs.Nestings.{nestings, tree_nestings};
ghost use Rattle.yaml_printed.specs.WrittenRoots.{FitsText};
ghost use Rattle.yaml_shape.specs.Held.{IsHeld, is_table};
ghost use Rattle.yaml_round.specs.InTexts.{AreEventsOf, FitsTextWithin, GivesEqual, GivesSameData, IsReadAsEqual};
ghost use Rattle.yaml_round.specs.InTexts.{IsTextOf, StandsAsWritten, TakesWhatStands};
ghost use Rattle.yaml_round.specs.InTurn.{GivesEqualInTurn, IsTextOfAll};
ghost use Rattle.yaml_round.specs.ReadsBack.{ComesBack, ReadsBack};
ghost use Rattle.yaml_round.specs.Rendered.{rendered};
ghost use Rattle.yaml_round.specs.SameOrder.{same_data};
ghost use Rattle.yaml_round.specs.SimpleData.{is_simple};

use serde_yaml::laws::reading_gives_the_meaning;
use yaml_read::stream_law::a_stream_is_cut_into_its_documents;
use yaml_types::RoundTrip;

/// A string as it is written, under a tag that is taken or under none, and rendered in any permitted style, means that
/// string: as a text, and as any value.
pub fn a_written_string_means_itself()
    ensures text { (table : List PlainShape) (root : DocNode) (tag : Option (List ℕ)) (text : List ℕ)
        (w : PlainScalar) → IsTrue (is_utf8 text) → RendersScalar tag text (asked_style text) w
        → Means table root str_shape (word w) (is_some tag) (lent_text w text) 0 0 }
    ensures any { (table : List PlainShape) (root : DocNode) (tag : Option (List ℕ)) (text : List ℕ)
        (w : PlainScalar) → IsTrue (is_utf8 text) → RendersScalar tag text (asked_style text) w
        → Means table root any_shape (word w) (is_some tag) (any_data (string text)) 0 0 }
{}

/// Data that fits, written as the only document of a stream and rendered in any permitted styles, reads back equal,
/// with the pairs of its mappings in the same order, however few follows are allowed. That texts are UTF-8 and that
/// characters are characters is asked of the plain data, as it holds of all data in memory.
pub fn written_data_reads_back()
    ensures reads { (limits : PlainLimits) (table : List PlainShape) (id : ℕ) (s : PlainShape) (d : PlainData)
        (input : Input)
        → IsValidSchema table → IsTrue (is_table table) → shape_at table id ≡ Some s → IsHeld d
        → Fits limits.nesting table id d → ComesBack table id d input → ReadsBack limits table s input d }

    // So what `Deserializer::from_events` takes, and `Deserializer::deserialize_limited` then gives, is that data.
    ensures given { (limits : PlainLimits) (table : List PlainShape) (id : ℕ) (s : PlainShape) (d : PlainData)
        (input : Input) (given : Result PlainData Cause)
        → IsValidSchema table → IsTrue (is_table table) → shape_at table id ≡ Some s → IsHeld d
        → Fits limits.nesting table id d → ComesBack table id d input → InputGives limits table s input None given
        → (found : PlainData) × (given ≡ Ok found) × IsTrue (same_data d found) }
{
    reading_gives_the_meaning();
}

/// What `to_events` writes of a value that fits, rendered in any permitted styles, `from_events_limited` reads as an
/// equal value, however few follows are allowed. What is asked of the plain data and of the type's table holds of all
/// data and schemas in memory.
pub fn a_written_value_reads_back<'de, T: RoundTrip<'de>>()
    ensures { (limits : PlainLimits) (x : T) (events : List PlainEmit) (input : Input) (given : Result T Cause)
        → IsTrue (is_table T.Serialize.start.0) → T.kept x → IsHeld (T.written x)
        → Fits limits.nesting T.Serialize.start.0 T.Serialize.start.1 (T.written x)
        → TypeWrites T.Serialize.start (T.written x) (T.unwritten x) (Ok events) → Renders events (events_in input)
        → TypeGives limits T.Deserialize.start T.built T.refused input None given
        → (y : T) × (given ≡ Ok y) × (T.eq x y ≡ true) }
{
    written_data_reads_back();
    equal_in_one_order_is_equal();
}

/// The text of a value that is written, as `to_string` promises it, stands in the grammar: it has documents, and their
/// events are what those that were written may come back as. And whatever documents stand in it, as whatever reader of
/// the grammar finds them, their events are read as an equal value. So nothing is assumed of an emitter, and of a
/// parser that it takes what stands as it stands. The value fits a text: it has at most 128 nestings, and is written
/// with no tag that has a character 0.
pub fn a_printed_value_reads_back<'de, T: RoundTrip<'de>>()
    ensures stands { (x : T) (text : List ℕ) → IsTrue (is_table T.Serialize.start.0) → IsHeld (T.written x)
        → FitsText T.Serialize.start.0 T.Serialize.start.1 (T.written x)
        → HasText (TypeWrites T.Serialize.start (T.written x) (T.unwritten x)) text
        → StandsAsWritten (TypeWrites T.Serialize.start (T.written x) (T.unwritten x)) text }
    ensures reads { (limits : PlainLimits) (x : T) (text : List ℕ)
        → IsTrue (is_table T.Serialize.start.0) → T.kept x → IsHeld (T.written x)
        → FitsText T.Serialize.start.0 T.Serialize.start.1 (T.written x)
        → Fits limits.nesting T.Serialize.start.0 T.Serialize.start.1 (T.written x)
        → HasText (TypeWrites T.Serialize.start (T.written x) (T.unwritten x)) text
        → IsReadAsEqual limits T.Deserialize.start T.built T.refused T.eq x text }

    // So a parser that takes what stands, met no fault, and of what it gives an equal value is read.
    ensures taken { (limits : PlainLimits) (x : T) (text : List ℕ) (input : Input) (fault : Option PlainFault)
        (given : Result T Cause) → IsTrue (is_table T.Serialize.start.0) → T.kept x → IsHeld (T.written x)
        → FitsText T.Serialize.start.0 T.Serialize.start.1 (T.written x)
        → Fits limits.nesting T.Serialize.start.0 T.Serialize.start.1 (T.written x)
        → HasText (TypeWrites T.Serialize.start (T.written x) (T.unwritten x)) text
        → TakesWhatStands text input fault
        → TypeGives limits T.Deserialize.start T.built T.refused input fault given
        → (y : T) × (given ≡ Ok y) × (T.eq x y ≡ true) }
{
    a_written_value_reads_back::<T>();
}

/// **What was written is what is read, from text to text.** The text of a value that fits it, as `to_string` promises
/// it, is read by `from_str` and the other calls that read texts as an equal value. Nothing is assumed of an emitter or
/// a parser: the text stands in the grammar, and what stands there is what these calls read. The text has fewer than
/// 2^32 bytes.
pub fn a_written_text_reads_back<'de, T: RoundTrip<'de>>()
    ensures { (limits : PlainLimits) (x : T) (text : List ℕ)
        → IsTextOf T.Serialize.start (T.written x) (T.kept x) (T.unwritten x) text → length text < 2 ^ 32
        → FitsTextWithin limits T.Serialize.start.0 T.Serialize.start.1 (T.written x)
        → GivesEqual limits T.Deserialize.start T.built T.refused T.eq x text }
{
    a_printed_value_reads_back::<T>();
}

/// The same of data under its schema: the text that `data_to_string` promises of it is read by `data_from_str` as equal
/// data, with the pairs of its mappings in the same order.
pub fn a_written_text_of_data_reads_back()
    ensures { (limits : PlainLimits) (table : List PlainShape) (id : ℕ) (s : PlainShape) (d : PlainData)
        (text : List ℕ) → IsValidSchema table → IsTrue (is_table table) → shape_at table id ≡ Some s → IsHeld d
        → HasText (IsDataWritten table id d) text → length text < 2 ^ 32 → FitsTextWithin limits table id d
        → GivesSameData limits table s d text }
{
    written_data_reads_back();
}

/// **What was written of several values is what is read, document by document.** The text of values that fit it, as
/// `documents_to_string` promises it, has a document for each, whichever call hands them out: `load`, a
/// `DocumentReader`, or a `Deserializer` that is gone through. And what a type makes of what is read of a document is
/// equal to the value. Nothing is assumed of an emitter or a parser. The text has fewer than 2^32 bytes, and there is a
/// value: the empty text is read as one document that stands for nothing.
pub fn a_text_of_documents_reads_back<'de, T: RoundTrip<'de>>()
    ensures { (limits : PlainLimits) (xs : List T) (text : List ℕ)
        → IsTextOfAll T.Serialize.start T.written T.kept T.unwritten xs text → length text < 2 ^ 32 → xs ≢ []
        → All (λ x. FitsTextWithin limits T.Serialize.start.0 T.Serialize.start.1 (T.written x)) xs
        → GivesEqualInTurn limits T.Deserialize.start T.built T.refused T.eq xs text }
{
    a_stream_is_cut_into_its_documents();
    equal_in_one_order_is_equal();
}

/// What stands of the text of data under its schema, as `data_to_string` promises it. It stands, and whatever documents
/// stand in it read back as equal data, with the pairs of mappings in the same order.
pub fn printed_data_reads_back()
    ensures stands { (table : List PlainShape) (id : ℕ) (d : PlainData) (text : List ℕ) → IsTrue (is_table table)
        → IsHeld d → FitsText table id d → HasText (IsDataWritten table id d) text
        → StandsAsWritten (IsDataWritten table id d) text }
    ensures reads { (limits : PlainLimits) (table : List PlainShape) (id : ℕ) (s : PlainShape) (d : PlainData)
        (text : List ℕ) (input : Input)
        → IsValidSchema table → IsTrue (is_table table) → shape_at table id ≡ Some s → IsHeld d
        → FitsText table id d → Fits limits.nesting table id d → HasText (IsDataWritten table id d) text
        → AreEventsOf text input → ReadsBack limits table s input d }
{
    written_data_reads_back();
}

/// Data that is equal with the pairs of its mappings in one order is equal.
pub fn equal_in_one_order_is_equal()
    ensures { (a b : PlainData) → IsTrue (same_data a b) → EqualData a b }
{}

/// Data of a shape, in which no present optional, no variant, no value of any kind and no bytes stand, fits within its
/// own nestings.
pub fn simple_data_fits()
    ensures { (nesting : ℕ) (table : List PlainShape) (id : ℕ) (d : PlainData) → HasShape table id d
        → IsTrue (is_simple d) → nestings d ≤ nesting → Fits nesting table id d }
{}

/// Such data, within 128 nestings, fits a text: it is written without tags.
pub fn simple_data_fits_a_text()
    ensures { (table : List PlainShape) (id : ℕ) (d : PlainData) → IsTrue (is_simple d) → nestings d ≤ most_nestings
        → FitsText table id d }
{}

/// A present optional fits where its content does, and is not written as null by itself.
pub fn an_optional_fits()
    ensures { (nesting : ℕ) (table : List PlainShape) (id inner : ℕ) (d : PlainData)
        → shape_at table id ≡ Some (option_shape inner) → Fits nesting table inner d
        → is_written_null (written table inner None d) ≡ false → Fits nesting table id (some_data d) }
{}

/// A value of any kind fits where it is written, and where no tag in it begins with two `!`.
pub fn a_value_fits()
    ensures { (nesting : ℕ) (table : List PlainShape) (id : ℕ) (v : Tree) (e : EmitNode)
        → shape_at table id ≡ Some any_shape → written_value None v ≡ Ok e → tree_nestings v ≤ nesting
        → IsTrue (tree_fits v) → Fits nesting table id (any_data v) }
{}

/// A variant around one content fits where its name is one, and where the content is written under the name as a tag
/// and fits otherwise.
pub fn a_variant_fits()
    ensures { (nesting : ℕ) (table : List PlainShape) (id inner place : ℕ) (name owner : List ℕ)
        (variants : List (List ℕ × PlainVariant)) (d : PlainData) (e : EmitNode)
        → shape_at table id ≡ Some (enum_shape owner variants)
        → slice_get variants place ≡ Some (name, newtype_variant inner) → IsTrue (is_variant_name name)
        → HasShape table inner d → written table inner (Some (local_tag name)) d ≡ Ok e
        → nestings d ≤ nesting → IsTrue (data_fits table inner d)
        → Fits nesting table id (variant_data place d) }
{}

/// A list fits where each of its elements does, within one nesting less.
pub fn a_list_fits()
    ensures { (nesting : ℕ) (table : List PlainShape) (id element : ℕ) (ds : PlainItems)
        → shape_at table id ≡ Some (seq_shape element) → EachFits nesting table element ds
        → Fits (suc nesting) table id (seq_data ds) }
{}

/// Written events come back in each choice of permitted styles for their scalars, and with any slices of a source.
pub fn written_events_come_back_in_any_style()
    ensures { (choose : ℕ → AskedStyle → ScalarStyle) (source : ℕ → Option (List ℕ)) (events : List PlainEmit)
        → ((place : ℕ) → choose place asked.Plain ≡ style.Plain)
        → ((place : ℕ) → choose place asked.SingleQuoted ≢ style.Plain)
        → ((place : ℕ) → choose place asked.Literal ≢ style.Plain)
        → Renders events (rendered choose source 0 events) }
{}
