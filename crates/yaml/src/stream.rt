//! The documents of a text, one at a time.

ghost use Rattle.std.specs.Prelude.{◌≡◌, None, IfErr, IfNone, IfOk, IfSome, true};
ghost use Rattle.yaml.specs.NextDocument.{ReadsFurther};
ghost use Rattle.yaml_base.specs.Answer.{is_memory};
ghost use Rattle.yaml_documents.specs.HandingOut.{HandsOut};
ghost use Rattle.yaml_documents.specs.PlainReader.{fresh};

use crate::leaf::Leaves;
use crate::merging::read_merging;
use crate::typed::read;
use serde::Deserialize;
use std::alloc::Global;
use std::marker::Model;
use yaml_base::Result;
use yaml_documents::DocumentReader;
use yaml_merge::Merge;

/// The documents of a YAML text, of which the first were read. They are parsed and loaded ahead, some at a time, as a
/// `DocumentReader` does it, and let go before the next ones are loaded. So a text of many documents takes no more
/// memory than some 40 kB, or than its largest document. Contracts see the documents that were read.
#[derive(Drop)]
pub struct DocumentStream<'de> {
    alloc: Global,
    text: &'de [u8],
    leaves: Leaves,
    documents: DocumentReader<'de>,
}

impl<'de> Model for DocumentStream<'de> {
    ghost use Rattle.yaml_documents.specs.PlainReader.{PlainReader};

    ghost Value = { PlainReader };

    ghost view = { λ stream. stream.documents };
}

impl<'de> DocumentStream<'de> {
    /// The documents of a YAML text, of which none was read. What can't be parsed is the fault of the document that it
    /// stands in. The only error is want of memory.
    pub fn from_str(alloc: Global, text: &'de str) -> Result<DocumentStream<'de>>
        ensures ok { IfOk result (λ stream. stream ≡ fresh text.now) }
        ensures memory { IfErr result (λ cause. is_memory cause ≡ true) }
    {
        DocumentStream::from_slice(alloc, text.as_bytes())
    }

    /// The same of bytes.
    pub fn from_slice(alloc: Global, text: &'de [u8]) -> Result<DocumentStream<'de>>
        ensures ok { IfOk result (λ stream. stream ≡ fresh text.now) }
        ensures memory { IfErr result (λ cause. is_memory cause ≡ true) }
    {
        let leaves = Leaves::new(alloc)?;
        let documents = DocumentReader::new(alloc, text)?;
        Ok(DocumentStream {
            alloc,
            text,
            leaves,
            documents,
        })
    }

    /// The next document as a value of the type, or `None` once each was read, for good. What can't be read is passed
    /// over by the next call. Where memory is wanting before a document is there, each later call answers that too.
    pub fn read_next<T: Deserialize<'de>>(&mut self) -> Option<Result<T>>
        ensures text { self.new.text ≡ self.old.text }
        ensures next { IfSome result (λ read. ReadsFurther self.old self.new read) }
        ensures none { IfNone result (HandsOut self.old None self.new) }
    {
        let found = match self.documents.next_document() {
            Ok(found) => found,
            Err(fault) => return Some(Err(fault)),
        };
        let document = found?;
        Some(read(self.alloc, self.text, &document, &self.leaves))
    }

    /// The same, with the document's merge keys treated so.
    pub fn read_next_merging<T: Deserialize<'de>>(&mut self, merge: Merge) -> Option<Result<T>>
        ensures text { self.new.text ≡ self.old.text }
        ensures next { IfSome result (λ read. ReadsFurther self.old self.new read) }
        ensures none { IfNone result (HandsOut self.old None self.new) }
    {
        let further = match self.documents.next_document() {
            Ok(found) => found,
            Err(refused) => return Some(Err(refused)),
        };
        let document = further?;
        Some(read_merging(self.alloc, self.text, document, &self.leaves, merge))
    }
}
