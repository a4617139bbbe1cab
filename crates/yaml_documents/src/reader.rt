//! The documents of a text, one after another.

ghost use Rattle.std.specs.Prelude.{◌≡◌, ◌++◌, IfErr, IfOk, IsErr, None, Ok, option_to_list, true};
ghost use Rattle.yaml_base.specs.Answer.{is_memory};
ghost use Rattle.yaml_documents.specs.HandingOut.{HandsOut, RunsOutOfMemory};
ghost use Rattle.yaml_documents.specs.PlainReader.{fresh};

use crate::ahead::Ahead;
use crate::batch::Stage;
use crate::pending::Pending;
use crate::source::TextEvents;
use std::alloc::Global;
use std::marker::Model;
use yaml_base::{History, Result};
use yaml_read::Document;

/// The documents of a YAML text, of which the first were handed out. They are parsed and loaded ahead, some at a time:
/// up to the end of the document by which they have at least 256 events. An event takes some 130 bytes, and 40 kB are
/// taken for those that are loaded at a time, or more where one document needs more. So a text of many documents takes
/// no more memory than that, or than its largest document, and what the parser keeps.
///
/// A document that is held keeps the events of all that were loaded with it.
#[derive(Drop)]
pub struct DocumentReader<'de> {
    alloc: Global,
    text: &'de [u8],
    ahead: Ahead<'de>,
    handed: History<Document<'de>>,
}

impl<'de> Model for DocumentReader<'de> {
    ghost use Rattle.yaml_documents.specs.PlainReader.{PlainReader};

    ghost Value = { PlainReader };

    ghost use Rattle.yaml_documents.specs.inner.Pending.{is_over};
    ghost use Rattle.yaml_documents.specs.inner.Stages.{IsAt, has_ended, has_failed};

    ghost view = { λ r. record {
      text = r.text.now;
      handed = r.handed.items;
      over = is_over (has_ended r.ahead.stage) r.ahead.pending;
      failed = has_failed r.ahead.stage;
    } };

    ghost invariant = { λ r. IsAt r.text.now r.ahead.stage r.ahead.pending r.handed.items };
}

// Writes down that a document is handed out, if there is one.
fn hand_out<'de>(handed: &mut History<Document<'de>>, found: &Option<Document<'de>>)
    ensures { handed.new.items ≡ handed.old.items ++ option_to_list found.now }
{
    if let Some(document) = found {
        *handed = History::with(handed, document);
    }
}

impl<'de> DocumentReader<'de> {
    /// The documents of a text, of which none was handed out. The only error is want of memory.
    pub fn new(alloc: Global, text: &'de [u8]) -> Result<DocumentReader<'de>>
        ensures ok { IfOk result (λ reader. reader ≡ fresh text.now) }
        ensures memory { IfErr result (λ cause. is_memory cause ≡ true) }
    {
        let events = TextEvents::new(alloc, text)?;
        Ok(DocumentReader {
            alloc,
            text,
            ahead: Ahead {
                pending: Pending::none(),
                stage: Stage::Reading(events, None),
            },
            handed: History::new(),
        })
    }

    /// The next document, or `None` once each was handed out, for good. What can't be parsed is the fault of the
    /// document that it stands in, which is the last. A text whose bytes are not all allowed, by the rules of UTF-8 or
    /// of YAML's characters, has one document, cut off before its first event.
    ///
    /// Where no document is loaded ahead, the next ones are, at least 256 events of them if the text has so many. The
    /// only error is want of memory. Behind it no document is handed out any more: each call answers want of memory.
    pub fn next_document(&mut self) -> Result<Option<Document<'de>>>
        ensures text { self.new.text ≡ self.old.text }
        ensures ok { IfOk result (λ found. HandsOut self.old found self.new) }
        ensures err { IfErr result (λ cause. (is_memory cause ≡ true) × RunsOutOfMemory self.old self.new) }

        ensures over { self.old.over ≡ true → (result ≡ Ok None) × (self.new ≡ self.old) }
        ensures failed { self.old.failed ≡ true → IsErr result }
    {
        let found = self.ahead.next_document(self.alloc)?;
        hand_out(&mut self.handed, &found);
        Ok(found)
    }
}
