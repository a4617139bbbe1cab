//! The law that a printed text stands in the grammar: what `yaml_emit` prints has the events that were written.
#![tactic(auto)]

ghost use Rattle.std.specs.Prelude.{◌≡◌, ℕ, true, List};
ghost use Rattle.std.specs.List.{All};
ghost use Rattle.yaml_base.specs.EmitEvents.{PlainEmit};
ghost use Rattle.yaml_base.specs.EmitTree.{EmitNode};
ghost use Rattle.yaml_base.specs.MarkedEvents.{events_in};
ghost use Rattle.yaml_base.specs.Renders.{Renders};
ghost use Rattle.yaml_emit.specs.StreamTexts.{IsStreamText, emit_stream_events};
ghost use Rattle.yaml_emit.specs.Styles.{fits_plain};
ghost use Rattle.yaml_grammar.specs.Documents.{Stands};
ghost use Rattle.yaml_grammar.specs.Nodes.{Document, events_of};
ghost use Rattle.yaml_printed.specs.Examples.{ThreeArePrinted};
ghost use Rattle.yaml_printed.specs.Printable.{MayBePrinted, StandsFor};
ghost use Rattle.yaml_printed.specs.Simple.{is_simple};
ghost use Rattle.yaml_printed.specs.WrittenRoots.{IsWrittenRoot};

/// A law, and nothing to be run: the text that is printed of events has documents by the grammar, and their events are
/// what those that were written may come back as: the same structure, tags and texts, in styles that are permitted.
/// The events may be any stream whose texts are UTF-8, with at most 128 open collections, where no tag is empty or has
/// a character 0, where plain is asked for only of texts that may stand so, and where of the first root more is printed
/// than the end of its line. And whatever documents stand in the text, their events are such.
pub fn a_printed_text_stands()
    ensures stands { (events : List PlainEmit) (text : List ℕ) → IsStreamText events text → MayBePrinted events
        → StandsFor events text }
    ensures only { (events : List PlainEmit) (text : List ℕ) → IsStreamText events text → MayBePrinted events
        → (documents : List Document) → Stands text documents
        → Renders events (events_in (events_of text documents)) }
{}

/// A law: three documents, with scalars in each style, collections in each other, tags, empty collections and
/// collections as keys, are printed as the text that is written beside them, and the law above is of them.
pub fn three_documents_are_printed()
    ensures { ThreeArePrinted }
{}

/// A law: a text of letters and digits of ASCII and of `+ - . _` may stand without quotes, but for `-` alone and what
/// begins with `---` or `...`. So the texts of numbers, of null and of booleans may be asked for plain.
pub fn a_simple_text_may_stand_plain()
    ensures { (text : List ℕ) → is_simple text ≡ true → fits_plain text ≡ true }
{}

/// A law: what data is written as may be printed, as any number of documents, so the first law is of it. The data has
/// at most 128 nestings, and is written with no tag that has a character 0. Nothing else is asked: data is written
/// plain only where it may stand so, with tags that are not empty, and never as an empty root.
pub fn what_is_written_may_be_printed()
    ensures { (roots : List EmitNode) → All IsWrittenRoot roots → MayBePrinted (emit_stream_events roots) }
{}
