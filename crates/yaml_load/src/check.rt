//! Which events may follow one another in a stream: the phase behind each, by the one before it.

ghost use Rattle.std.specs.Prelude.{◌≡◌};
ghost use Rattle.yaml_load.specs.Words.{ℕ, List, [], IfOk, IfSome, None, Option, true, PlainScalar, alias};
ghost use Rattle.yaml_load.specs.Words.{document_end, document_start, mapping_end, mapping_start, scalar, sequence_end};
ghost use Rattle.yaml_load.specs.Words.{sequence_start, stream_end, stream_start, IsClean, Moves, is_done, is_open};
ghost use Rattle.yaml_load.specs.Words.{opened_in, phase_state, within, Sequence, Key, Value};

use std::alloc::AllocError;
use yaml_base::Open;

/// The part of a stream that comes next.
#[derive(Clone, Copy)]
pub enum Phase {
    /// The start of the stream.
    Before,
    /// A document, or the end of the stream.
    Between,
    /// The node of a document.
    Root,
    /// More of the innermost open collection.
    Within(Open),
    /// The end of the document.
    Ended,
    /// Nothing more.
    After,
}

// What an open collection waits for behind one of its nodes.
fn behind(around: Open) -> Open
    ensures sequence { around ≡ Sequence → result ≡ Sequence }
    ensures key { around ≡ Key → result ≡ Value }
    ensures value { around ≡ Value → result ≡ Key }
{
    match around {
        Open::Sequence => Open::Sequence,
        Open::Key => Open::Value,
        Open::Value => Open::Key,
    }
}

/// The phase behind a scalar or an alias, if one may stand there.
#[inline(always)]
pub fn after_leaf(phase: Phase) -> Option<Phase>
    ensures scalar { (outer : List Open) (s : PlainScalar) → IsClean phase outer
        → Moves phase outer (scalar s) outer result }
    ensures alias { (outer : List Open) (anchor : List ℕ) → IsClean phase outer
        → Moves phase outer (alias anchor) outer result }
    ensures inside { IfSome result (λ _. is_open phase ≡ true) }
{
    match phase {
        Phase::Within(open) => Some(Phase::Within(behind(open))),
        Phase::Root => Some(Phase::Ended),
        _ => None,
    }
}

/// The phase behind the start of a collection that waits for this first, if one may begin there. What the collection
/// around it waits for then goes behind the list. The only error is want of memory.
#[inline(always)]
pub fn after_start(
    phase: Phase,
    outer: &mut Vec<Open>,
    first: Open,
) -> Result<Option<Phase>, AllocError>
    requires { IsClean phase outer.old.items }
    ensures sequence { IfOk result (λ found. first ≡ Sequence → (anchor tag : Option (List ℕ))
        → Moves phase outer.old.items (sequence_start anchor tag) outer.new.items found) }
    ensures mapping { IfOk result (λ found. first ≡ Key → (anchor tag : Option (List ℕ))
        → Moves phase outer.old.items (mapping_start anchor tag) outer.new.items found) }
    ensures inside { IfOk result (λ found. IfSome found (λ _. is_open phase ≡ true)) }
{
    match phase {
        Phase::Within(open) => {
            outer.push(behind(open))?;
            Ok(Some(Phase::Within(first)))
        }
        Phase::Root => Ok(Some(Phase::Within(first))),
        _ => Ok(None),
    }
}

// The phase behind a whole collection, by what the one around it waits for then, if there is one.
fn resumed(around: Option<Open>) -> Phase
    ensures { (outer : List Open) → (around ≡ None → outer ≡ [])
        → (phase_state result outer ≡ within (opened_in around outer)) × IsClean result outer }
{
    match around {
        Some(open) => Phase::Within(open),
        None => Phase::Ended,
    }
}

/// The phase behind the end of a sequence, if it may stand there.
pub fn after_sequence(phase: Phase, outer: &mut Vec<Open>) -> Option<Phase>
    requires { IsClean phase outer.old.items }
    ensures moves { Moves phase outer.old.items sequence_end outer.new.items result }
    ensures inside { IfSome result (λ _. is_open phase ≡ true) }
{
    match phase {
        Phase::Within(Open::Sequence) => Some(resumed(outer.pop())),
        _ => None,
    }
}

/// The phase behind the end of a mapping, if it may stand there.
pub fn after_mapping(phase: Phase, outer: &mut Vec<Open>) -> Option<Phase>
    requires { IsClean phase outer.old.items }
    ensures moves { Moves phase outer.old.items mapping_end outer.new.items result }
    ensures inside { IfSome result (λ _. is_open phase ≡ true) }
{
    match phase {
        Phase::Within(Open::Key) => Some(resumed(outer.pop())),
        _ => None,
    }
}

/// The phase behind the start of the stream, if it may stand there.
pub fn after_stream_start(phase: Phase) -> Option<Phase>
    ensures { (outer : List Open) → IsClean phase outer → Moves phase outer stream_start outer result }
{
    match phase {
        Phase::Before => Some(Phase::Between),
        _ => None,
    }
}

/// The phase behind the end of the stream, if it may stand there.
pub fn after_stream_end(phase: Phase) -> Option<Phase>
    ensures { (outer : List Open) → IsClean phase outer → Moves phase outer stream_end outer result }
{
    match phase {
        Phase::Between => Some(Phase::After),
        _ => None,
    }
}

/// The phase behind the start of a document, if it may stand there.
pub fn after_document_start(phase: Phase) -> Option<Phase>
    ensures { (outer : List Open) → IsClean phase outer → Moves phase outer document_start outer result }
{
    match phase {
        Phase::Between => Some(Phase::Root),
        _ => None,
    }
}

/// The phase behind the end of a document, if it may stand there.
pub fn after_document_end(phase: Phase) -> Option<Phase>
    ensures moves { (outer : List Open) → IsClean phase outer → Moves phase outer document_end outer result }
    ensures inside { IfSome result (λ _. is_open phase ≡ true) }
{
    match phase {
        Phase::Ended => Some(Phase::Between),
        _ => None,
    }
}

/// Whether the stream has ended.
pub fn is_after(phase: Phase) -> bool
    ensures { result ≡ is_done phase }
{
    matches!(phase, Phase::After)
}

/// Whether a document is open.
pub fn is_inside(phase: Phase) -> bool
    ensures { result ≡ is_open phase }
{
    matches!(phase, Phase::Root | Phase::Within(_) | Phase::Ended)
}
