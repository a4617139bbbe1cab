//! The documents of a stream, one after another.

mod anchors;
mod builder;
mod draft;
mod ends;
mod resolve;
mod share;
mod steps;

ghost use Rattle.std.specs.Prelude.{◌≡◌, ◌++◌};
ghost use Rattle.yaml_load.specs.Words.{ℕ, [], IfNone, IfOk, IfErr, false, is_some, option_to_list, is_memory};
ghost use Rattle.yaml_load.specs.Words.{IsWellFormed, NotAStream, documents_of, plain_events, plain_marked, IsWrongAt};

use crate::document::LoadedDocument;
pub use builder::LoaderBuilder;
use std::alloc::Global;
use std::marker::Model;
use yaml_base::{Event, Mark, ParserFault};

/// The documents of a stream that are still to be handed out.
#[derive(Drop)]
pub struct Loader<'de> {
    left: std::vec::IntoIter<LoadedDocument<'de>, Global>,
}

impl<'de> Model for Loader<'de> {
    ghost use Rattle.std.specs.Prelude.{List};
    ghost use Rattle.std.specs.Vec.Iter.{into_iter_items};
    ghost use Rattle.yaml_base.specs.PlainDocument.{PlainDocument};

    ghost Value = { List PlainDocument };

    ghost view = { λ l. into_iter_items l.left };
}

impl<'de> Loader<'de> {
    /// The documents of a stream, or, with a parser's fault, of a beginning of a stream that lacks the end. Any other
    /// list is refused with the least place that is wrong. The events are dropped on refusal.
    pub fn new(
        alloc: Global,
        events: Vec<(Event<'de>, Mark)>,
        fault: Option<ParserFault>,
    ) -> yaml_base::Result<Loader<'de>>
        ensures accepted { IfOk result (λ _.
            IsWellFormed (is_some fault) (plain_events events.entry.items)) }
        ensures documents { IfOk result (λ documents.
            documents ≡ documents_of (plain_marked events.entry.items) fault) }

        ensures refused { IfErr result (λ cause. is_memory cause ≡ false
            → IsWellFormed (is_some fault) (plain_events events.entry.items) → ⊥) }
        ensures wrong { IfErr result (λ cause. is_memory cause ≡ false
            → (place : ℕ) × (cause ≡ NotAStream place)
            × IsWrongAt (is_some fault) (plain_events events.entry.items) place) }
    {
        let mut builder = LoaderBuilder::with_capacity(alloc, events.len())?;
        let mut rest = events.into_iter();
        'events: while let Some((event, mark)) = rest.next() {
            if let Err(fault) = builder.push(event, mark) {
                return Err(fault);
            }
        }
        builder.finish(fault)
    }

    /// The next document, or `None` once each was handed out, for good. Takes no memory.
    pub fn next_document(&mut self) -> Option<LoadedDocument<'de>>
        ensures items { self.old ≡ option_to_list result ++ self.new }
        ensures none { IfNone result (self.old ≡ []) }
    {
        self.left.next()
    }
}
