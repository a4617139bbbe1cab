//! The documents share their events.

ghost use Rattle.std.specs.Prelude.{◌≡◌};
ghost use Rattle.yaml_load.specs.Words.{All, IfOk, AreCuts, documents_in, IsDocument};

use crate::document::LoadedDocument;
use crate::loader::draft::{Cut, Draft};
use std::alloc::{AllocError, Global};
use std::rc::Rc;

// The documents, each with a share of the events and of their numbers. The only error is want of memory.
pub(crate) fn share<'de>(
    alloc: Global,
    draft: Draft<'de>,
) -> Result<Vec<LoadedDocument<'de>>, AllocError>
    requires cuts { AreCuts draft.events.items draft.ends.numbers draft.cuts.items }
    requires documents { All IsDocument (documents_in draft.events.items draft.cuts.items) }
    ensures { IfOk result (λ documents.
        documents.items ≡ documents_in draft.entry.events.items draft.entry.cuts.items) }
{
    let Draft {
        events,
        ends,
        from: _,
        anchors: _,
        cuts,
    } = draft;
    let events = Rc::new(alloc, events)?;
    let ends = Rc::new(alloc, ends.into_numbers())?;
    let mut documents = Vec::with_capacity(alloc, cuts.len())?;
    let mut rest = cuts.into_iter();
    'cuts: while let Some(cut) = rest.next() {
        let Cut { from, to, error } = cut;
        documents.push(LoadedDocument::new(events.clone()?, ends.clone()?, from, to, error))?;
    }
    Ok(documents)
}
