//! The documents of a text, one after another.

ghost use Rattle.std.specs.Prelude.{◌≡◌, [], true, IfErr, IfNone, IfOk, IfSome};
ghost use Rattle.yaml.specs.NextDocument.{ReadsNext};
ghost use Rattle.yaml_base.specs.Answer.{is_memory};
ghost use Rattle.yaml_documents.specs.TextDocuments.{AreDocumentsOf};

use crate::leaf::Leaves;
use crate::merging::read_merging;
use crate::typed::read;
use crate::values::Values;
use serde::Deserialize;
use std::alloc::Global;
use std::marker::Model;
use yaml_base::Result;
use yaml_documents::load;
use yaml_merge::Merge;
use yaml_read::{Document, Loader};

/// The documents of a YAML text that are still to be read.
#[derive(Drop)]
pub struct Documents<'de> {
    alloc: Global,
    text: &'de [u8],
    leaves: Leaves,
    left: Loader<'de>,
}

impl<'de> Model for Documents<'de> {
    ghost use Rattle.std.specs.Prelude.{List};
    ghost use Rattle.yaml_base.specs.PlainDocument.{PlainDocument};

    ghost Value = { List PlainDocument };

    ghost view = { λ documents. documents.left };
}

impl<'de> Documents<'de> {
    /// The documents of a YAML text. What can't be parsed is the fault of the document that it stands in. The only
    /// error is want of memory.
    pub fn from_str(alloc: Global, text: &'de str) -> Result<Documents<'de>>
        ensures documents { IfOk result (AreDocumentsOf text.now) }
        ensures memory { IfErr result (λ cause. is_memory cause ≡ true) }
    {
        Documents::from_slice(alloc, text.as_bytes())
    }

    /// The same of bytes.
    pub fn from_slice(alloc: Global, text: &'de [u8]) -> Result<Documents<'de>>
        ensures documents { IfOk result (AreDocumentsOf text.now) }
        ensures memory { IfErr result (λ cause. is_memory cause ≡ true) }
    {
        let leaves = Leaves::new(alloc)?;
        let left = load(alloc, text)?;
        Ok(Documents {
            alloc,
            text,
            leaves,
            left,
        })
    }

    /// The next document as a value of the type, or `None` once each was read, for good. What can't be read is passed
    /// over by the next call.
    pub fn read_next<T: Deserialize<'de>>(&mut self) -> Option<Result<T>>
        ensures next { IfSome result (λ read. ReadsNext self.old read self.new) }
        ensures none { IfNone result ((self.old ≡ []) × (self.new ≡ [])) }
    {
        let document: Document<'de> = self.left.next_document()?;
        Some(read(self.alloc, self.text, &document, &self.leaves))
    }

    /// The same, with the document's merge keys treated so.
    pub fn read_next_merging<T: Deserialize<'de>>(&mut self, merge: Merge) -> Option<Result<T>>
        ensures next { IfSome result (λ read. ReadsNext self.old read self.new) }
        ensures none { IfNone result ((self.old ≡ []) × (self.new ≡ [])) }
    {
        let document = self.left.next_document()?;
        Some(read_merging(self.alloc, self.text, document, &self.leaves, merge))
    }

    /// The documents that are left as values of one type, for a `for` loop: each is what `read_next` gives.
    pub fn into_iter<T: Deserialize<'de>>(self) -> Values<'de, T>
        ensures { result ≡ self.entry }
    {
        Values::new(self)
    }
}
