//! The document whose events go by, behind those that have ended.

ghost use Rattle.std.specs.Prelude.{◌≡◌, ◌∷◌, ◌++◌, ◌<◌, ◌≤◌, ◌+◌};
ghost use Rattle.yaml_base.specs.declared.doc_event.DocEvent.{DocEvent as Shown};
ghost use Rattle.yaml_load.specs.Words.{ℕ, [], All, List, IfOk, IfSome, Some, drop, false, length, slice_get, take};
ghost use Rattle.yaml_load.specs.Words.{true, option_map, Position, marked_events_of, Input, anchors_in, document_of};
ghost use Rattle.yaml_load.specs.Words.{ending_of, find_in, failed_document, void_document, AreCuts, documents_in};
ghost use Rattle.yaml_load.specs.Words.{ending_in, PlainDocument, IsDraftBetween, IsDraft, settled, bounded_from};

use crate::loader::anchors::Anchors;
use crate::loader::ends::Ends;
use crate::loader::resolve::resolve;
use std::alloc::{AllocError, Global};
use yaml_base::{Cause, DocEvent, Error, Mark, ParserFault};

// A document's range of the events, and the fault that cut it off, if one did.
#[derive(Drop)]
pub(crate) struct Cut {
    pub(crate) from: usize,
    pub(crate) to: usize,
    pub(crate) error: Option<Box<Error>>,
}

// The events of all documents so far with their numbers, where the open document begins, its anchors, and the ranges of
// the documents that have ended.
#[derive(Drop)]
pub(crate) struct Draft<'de> {
    pub(crate) events: Vec<(DocEvent<'de>, Mark)>,
    pub(crate) ends: Ends,
    pub(crate) from: usize,
    pub(crate) anchors: Anchors,
    pub(crate) cuts: Vec<Cut>,
}

// The fault behind a box. The only error is want of memory.
fn boxed(alloc: Global, fault: Option<Error>) -> Result<Option<Box<Error>>, AllocError>
    ensures { IfOk result (λ found. ending_in found ≡ fault) }
{
    match fault {
        Some(fault) => Ok(Some(Box::new(alloc, fault)?)),
        None => Ok(None),
    }
}

// Why a document is cut off, if it is: by an unknown alias, or by the parser's fault.
fn ending(unknown: Option<Mark>, fault: Option<ParserFault>) -> Option<Error>
    ensures { result ≡ ending_of unknown false fault }
{
    match unknown {
        Some(mark) => Some(Error::new(Cause::UnknownAnchor(mark))),
        None => match fault {
            Some(fault) => Some(Error::from(fault)),
            None => None,
        },
    }
}

impl<'de> Draft<'de> {
    // No document, with room for so many events. The only error is want of memory.
    pub(crate) fn with_capacity(alloc: Global, count: usize) -> Result<Draft<'de>, AllocError>
        ensures { IfOk result (λ draft. IsDraftBetween [] draft) }
    {
        Ok(Draft {
            events: Vec::with_capacity(alloc, count)?,
            ends: Ends::with_capacity(alloc, count)?,
            from: 0,
            anchors: Anchors::new(alloc),
            cuts: Vec::new(alloc),
        })
    }

    // Whatever is put in from now on is of a document that begins here.
    pub(crate) fn begin(&mut self)
        ensures draft { (documents : List PlainDocument) → IsDraftBetween documents self.old
            → IsDraft self.old.events.items self.old.ends.numbers [] self.new }
        ensures cuts { self.new.cuts ≡ self.old.cuts }
    {
        self.from = self.events.len();
    }

    // Gives the aliases of the open document that wait their targets, up to the first unknown one, and answers the
    // place of that one. Where none waits the anchors are not looked at.
    fn settle(&mut self) -> Option<usize>
        requires from { self.old.from ≤ length self.old.events.items }
        requires within { All (λ x. self.old.from + x.1 < length self.old.events.items)
            self.old.anchors.aliases.items }
        ensures settled { settled (find_in self.old.anchors.named.items) self.old.anchors.aliases.items
            (marked_events_of (drop self.old.from self.old.events.items))
            ≡ (marked_events_of (drop self.old.from self.new.events.items), result) }
        ensures front { take self.old.from self.new.events.items
            ≡ take self.old.from self.old.events.items }
        ensures place { IfSome result (λ place.
            self.old.from + place < length self.new.events.items) }
        ensures count { length self.new.events.items ≡ length self.old.events.items }
        ensures ends { self.new.ends ≡ self.old.ends }
        ensures from { self.new.from ≡ self.old.from }
        ensures cuts { self.new.cuts ≡ self.old.cuts }
    {
        if self.anchors.aliases.is_empty() {
            return None;
        }
        self.anchors.named.sort_unstable();
        resolve(
            &mut self.events,
            self.from,
            &self.anchors.named,
            &self.anchors.aliases,
        )
    }

    // Cuts the open document off in front of the event at this place of it, and answers the mark of that event.
    fn cut_off(&mut self, place: usize) -> Mark
        requires place { self.old.from + place < length self.old.events.items }
        requires numbers { length self.old.ends.numbers ≡ length self.old.events.items }
        requires unended { self.old.ends.unended ≡ [] }
        ensures mark { Some result ≡ option_map (λ e. e.1)
            (slice_get (marked_events_of (drop self.old.from self.old.events.items)) place) }
        ensures events { self.new.events.items
            ≡ take (self.old.from + place) self.old.events.items }
        ensures numbers { self.new.ends.numbers
            ≡ bounded_from place self.old.from (take (self.old.from + place) self.old.ends.numbers) }
        ensures unended { self.new.ends.unended ≡ [] }
        ensures from { self.new.from ≡ self.old.from }
        ensures cuts { self.new.cuts ≡ self.old.cuts }
    {
        let at = self.from + place;
        let mark = self.events[at].1;
        self.events.truncate(at);
        self.ends.cut(self.from, place);
        mark
    }

    // The open document ends here: where it has no end, by the parser's fault.
    pub(crate) fn finish(
        &mut self,
        alloc: Global,
        fault: Option<ParserFault>,
    ) -> Result<(), AllocError>
        requires from { self.old.from ≤ length self.old.events.items }
        requires numbers { length self.old.ends.numbers ≡ length self.old.events.items }
        requires within { All (λ x. self.old.from + x.1 < length self.old.events.items)
            self.old.anchors.aliases.items }
        ensures { IfOk result (λ _. (events : List (Shown × Position)) (numbers : List ℕ) (seen : Input)
            → IsDraft events numbers seen self.old → AreCuts events numbers self.old.cuts.items
            → IsDraftBetween (documents_in events self.old.cuts.items
            ++ document_of (anchors_in 0 seen) seen false fault ∷ []) self.new) }
    {
        self.ends.finish(self.events.len() - self.from);
        let unknown = match self.settle() {
            Some(place) => Some(self.cut_off(place)),
            None => None,
        };
        self.anchors.clear();
        let error = boxed(alloc, ending(unknown, fault))?;
        self.cuts.push(Cut {
            from: self.from,
            to: self.events.len(),
            error,
        })?;
        Ok(())
    }

    // The document of an empty stream.
    pub(crate) fn add_void(&mut self, mark: Mark) -> Result<(), AllocError>
        ensures { IfOk result (λ _. (documents : List PlainDocument) → IsDraftBetween documents self.old
            → IsDraftBetween (documents ++ void_document mark ∷ []) self.new) }
    {
        let from = self.events.len();
        self.ends.pass(0)?;
        self.events.push((DocEvent::Void, mark))?;
        self.cuts.push(Cut {
            from,
            to: self.events.len(),
            error: None,
        })?;
        Ok(())
    }

    // The document without events that the parser's fault leaves where no document is open.
    pub(crate) fn add_failed(&mut self, alloc: Global, fault: ParserFault) -> Result<(), AllocError>
        ensures { IfOk result (λ _. (documents : List PlainDocument) → IsDraftBetween documents self.old
            → IsDraftBetween (documents ++ failed_document fault ∷ []) self.new) }
    {
        let from = self.events.len();
        let error = boxed(alloc, Some(Error::from(fault)))?;
        self.cuts.push(Cut {
            from,
            to: from,
            error,
        })?;
        Ok(())
    }
}
