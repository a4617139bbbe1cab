//! What a reader has ahead of it: documents that are loaded, and what comes behind them.

ghost use Rattle.std.specs.Prelude.{◌≡◌, ◌++◌, [], IfErr, IfNone, IfOk, IsErr, IsOkAnd, List, None, Ok, ℕ};
ghost use Rattle.std.specs.Prelude.{false, option_to_list, true};
ghost use Rattle.yaml_base.specs.Answer.{is_memory};
ghost use Rattle.yaml_base.specs.PlainDocument.{PlainDocument};
ghost use Rattle.yaml_documents.specs.inner.Pending.{is_over};
ghost use Rattle.yaml_documents.specs.inner.Stages.{IsAt, has_ended, has_failed};

use crate::batch::{Stage, load_batch};
use crate::pending::Pending;
use std::alloc::Global;
use std::mem;
use yaml_base::{Cause, Error, Result};
use yaml_read::Document;

// The documents that are loaded and were not handed out, and what comes behind them.
#[derive(Drop)]
pub(crate) struct Ahead<'de> {
    pub(crate) pending: Pending<'de>,
    pub(crate) stage: Stage<'de>,
}

// The documents of the next batch, and what comes behind them; none behind the last.
fn load<'de>(alloc: Global, stage: Stage<'de>) -> Result<Ahead<'de>>
    requires at { (text : List ℕ) × (handed : List PlainDocument) × IsAt text stage [] handed }
    ensures at { IfOk result (λ ahead. (text : List ℕ) (handed : List PlainDocument)
        → IsAt text stage.entry [] handed → IsAt text ahead.stage ahead.pending handed) }
    ensures none { IfOk result (λ ahead. ahead.pending ≡ [] → has_ended ahead.stage ≡ true) }
    ensures goes_on { IfOk result (λ ahead. has_failed ahead.stage ≡ false) }
    ensures memory { IfErr result (λ cause. is_memory cause ≡ true) }
    ensures over { has_ended stage.entry ≡ true → IsOkAnd result (λ ahead.
        (ahead.stage ≡ stage.entry) × (ahead.pending ≡ [])) }
    ensures failed { has_failed stage.entry ≡ true → IsErr result }
{
    match stage {
        Stage::Reading(events, last) => {
            let (pending, stage) = load_batch(alloc, events, last)?;
            Ok(Ahead { pending, stage })
        }
        Stage::Ended => Ok(Ahead {
            pending: Pending::none(),
            stage: Stage::Ended,
        }),
        Stage::Failed => Err(Error::new(Cause::Memory)),
    }
}

impl<'de> Ahead<'de> {
    // The next document that is pending, else the first of the next batch.
    pub(crate) fn next_document(&mut self, alloc: Global) -> Result<Option<Document<'de>>>
        requires at { (text : List ℕ) × (handed : List PlainDocument)
            × IsAt text self.old.stage self.old.pending handed }
        ensures at { IfOk result (λ found. (text : List ℕ) (handed : List PlainDocument)
            → IsAt text self.old.stage self.old.pending handed
            → IsAt text self.new.stage (option_to_list found ++ self.new.pending) handed) }
        ensures none { IfOk result (λ found.
            IfNone found (is_over (has_ended self.new.stage) self.new.pending ≡ true)) }
        ensures goes_on { IfOk result (λ _. has_failed self.new.stage ≡ false) }
        ensures err { IfErr result (λ cause. (is_memory cause ≡ true)
            × (has_failed self.new.stage ≡ true) × (self.new.pending ≡ [])) }
        ensures over { is_over (has_ended self.old.stage) self.old.pending ≡ true → (result ≡ Ok None)
            × (self.new.stage ≡ self.old.stage) × (self.new.pending ≡ []) }
        ensures failed { has_failed self.old.stage ≡ true → IsErr result }
    {
        if let Some(document) = self.pending.next_document() {
            return Ok(Some(document));
        }
        *self = load(alloc, mem::replace(&mut self.stage, Stage::Failed))?;
        Ok(self.pending.next_document())
    }
}
