//! What the documents of a stream are: contracts of functions that do nothing.

ghost use Rattle.std.specs.Prelude.{◌≡◌, ◌≢◌};
ghost use Rattle.yaml_load.specs.Words.{[], All, List, None, Some, Option, is_some, false, PlainFault, IsWellFormed};
ghost use Rattle.yaml_load.specs.Words.{stream_events, Node, Input, after_starts, documents_of, last_mark, events_in};
ghost use Rattle.yaml_load.specs.Words.{AreStreamDocuments, HasTree, IsEnding, IsBeforeFault, EndAtFault, HoldFronts};

/// A whole stream is cut into the documents of its trees, in order: the tree of each is that of the stream with its
/// aliases resolved, or it ends at an unknown anchor. A stream without documents is cut into one that stands for
/// nothing, with the mark of the stream's end.
pub fn a_stream_is_cut_into_its_documents()
    ensures { (roots : List Node) (input : Input) → events_in input ≡ stream_events roots
        → AreStreamDocuments roots (last_mark input) (documents_of input None) }
{}

/// Of a stream, and of a beginning of one that a parser's fault cut off, each document that nothing cut off has a tree,
/// in which each alias names a node.
pub fn a_whole_document_has_a_tree()
    ensures { (input : Input) (fault : Option PlainFault) → IsWellFormed (is_some fault) (events_in input)
        → All HasTree (documents_of input fault) }
{}

/// A stream, or a beginning of one that a parser's fault cut off, has a document.
pub fn a_stream_has_a_document()
    ensures { (input : Input) (fault : Option PlainFault) → IsWellFormed (is_some fault) (events_in input)
        → documents_of input fault ≢ [] }
{}

/// A document is cut off by an unknown anchor or by the parser's fault, and by nothing else.
pub fn a_document_is_cut_by_an_alias_or_the_parser()
    ensures { (input : Input) (fault : Option PlainFault) → All (λ d. IsEnding d.ending) (documents_of input fault) }
{}

/// The parser's fault comes once and last: it cuts off the last document, unless an unknown anchor did so before, and
/// no other. Without such a fault no document is cut off by one.
pub fn the_parsers_fault_comes_last()
    ensures last { (input : Input) (fault : PlainFault)
        → EndAtFault fault (documents_of input (Some fault)) }
    ensures none { (input : Input) → All (λ d. IsBeforeFault d.ending) (documents_of input None) }
{}

/// A document, cut off or not, holds what the first events behind its start become, each with the mark of its event. An
/// unknown anchor has the mark of the event behind those.
pub fn a_document_holds_the_front_of_its_node()
    ensures { (input : Input) (fault : Option PlainFault)
        → HoldFronts (after_starts false input) (documents_of input fault) }
{}
