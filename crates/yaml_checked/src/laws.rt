//! What holds of the events of documents that stand in a text, in the logic alone: all that is checked of events before
//! they are handed out. So the events of such documents are refused nowhere.

ghost use Rattle.std.specs.List.Sorted.{IsNonDecreasingBy};
ghost use Rattle.std.specs.Prelude.{◌≡◌, ◌≤◌, ℕ, All, List, Some, length};
ghost use Rattle.yaml_base.specs.MarkedEvents.{events_in};
ghost use Rattle.yaml_base.specs.StreamMachine.{after_stream, before_stream, run};
ghost use Rattle.yaml_grammar.specs.Documents.{Stands};
ghost use Rattle.yaml_grammar.specs.Nodes.{Document, events_of};
ghost use Rattle.yaml_parse.specs.Places.{IsInPlace};
ghost use Rattle.yaml_parse.specs.PlainText.{SaysSource};
ghost use Rattle.yaml_parse.specs.Shown.{IsShown};

/// A law: the events of documents are a whole stream.
pub fn events_of_documents_are_a_stream()
    ensures { (text : List ℕ) (documents : List Document)
        → run (Some before_stream) (events_in (events_of text documents)) ≡ Some after_stream }
{}

/// A law: the marks of documents that stand in a text lie within it and do not go back, and each has the line and the
/// column of its index.
pub fn marks_that_stand_ascend()
    ensures within { (text : List ℕ) (documents : List Document) → Stands text documents
        → All (λ e. e.1.index ≤ length text) (events_of text documents) }
    ensures ascend { (text : List ℕ) (documents : List Document) → Stands text documents
        → IsNonDecreasingBy (λ e. e.1.index) (events_of text documents) }
    ensures places { (text : List ℕ) (documents : List Document) → Stands text documents
        → All (λ e. IsInPlace text e.1) (events_of text documents) }
{}

/// A law: of each scalar of documents that stand in a text the source is known, and stands there where the event
/// begins. A plain scalar in one line says what stands there.
pub fn scalars_that_stand_say_their_source()
    ensures shown { (text : List ℕ) (documents : List Document) → Stands text documents
        → All (λ e. IsShown text e.0 e.1) (events_of text documents) }
    ensures plain { (text : List ℕ) (documents : List Document) → Stands text documents
        → All (λ e. SaysSource e.0) (events_of text documents) }
{}
