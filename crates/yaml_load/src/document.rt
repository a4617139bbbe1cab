//! One document of a stream.

ghost use Rattle.std.specs.Prelude.{◌≡◌};
ghost use Rattle.yaml_load.specs.Words.{map, option_copied, marked_events_of, ends_of, HasEnds, document_of_range};
ghost use Rattle.yaml_load.specs.Words.{HasTree, IsDocument, IsEnding};

use std::marker::Model;
use std::rc::Rc;
use yaml_base::{DocEvent, Error, Mark};

/// One document: its events, which lie beside those of the stream's other documents, and the fault that cut it off, if
/// one did.
#[derive(Drop)]
pub struct LoadedDocument<'de> {
    shared: Rc<Vec<(DocEvent<'de>, Mark)>>,
    ends: Rc<Vec<usize>>,
    from: usize,
    to: usize,
    error: Option<Box<Error>>,
}

impl<'de> Model for LoadedDocument<'de> {
    ghost use Rattle.yaml_base.specs.PlainDocument.{PlainDocument};

    ghost Value = { PlainDocument };

    ghost use Rattle.yaml_load.specs.Gathering.{HasEnds, document_of_range};
    ghost use Rattle.yaml_load.specs.StreamLaw.{IsDocument};

    ghost view = { λ d. document_of_range d.shared.value.items d.from d.to d.error };

    ghost invariant = { λ d. IsDocument (document_of_range d.shared.value.items d.from d.to d.error)
        × HasEnds d.shared.value.items d.ends.value.items d.from d.to };
}

impl<'de> LoadedDocument<'de> {
    // The document of a range of the shared events, beside which stand their numbers.
    pub(crate) fn new(
        shared: Rc<Vec<(DocEvent<'de>, Mark)>>,
        ends: Rc<Vec<usize>>,
        from: usize,
        to: usize,
        error: Option<Box<Error>>,
    ) -> LoadedDocument<'de>
        requires ends { HasEnds shared.value.items ends.value.items from to }
        requires document { IsDocument (document_of_range shared.value.items from to error) }
        ensures { result ≡ document_of_range shared.entry.value.items from to error }
    {
        LoadedDocument {
            shared,
            ends,
            from,
            to,
            error,
        }
    }

    /// A document that nothing cut off has a tree, in which each alias names a node. This is a law: the call does
    /// nothing.
    pub fn has_tree(&self)
        ensures { HasTree self.now }
    {
        let _ = &self.error;
    }

    /// The document's events with their marks, in order.
    pub fn events(&self) -> &[(DocEvent<'de>, Mark)]
        ensures shown { marked_events_of result.now ≡ self.now.events }
    {
        &self.shared[self.from..self.to]
    }

    /// A number for each event: where the collection that begins there ends, or the length where it is cut off, and for
    /// any other event its own place.
    pub fn ends(&self) -> &[usize]
        ensures { result.now ≡ ends_of (map (λ e. e.0) self.now.events) }
    {
        &self.ends[self.from..self.to]
    }

    /// The fault that cut the document off, if one did: an unknown anchor, or the parser's.
    pub fn error(&self) -> Option<&Error>
        ensures shown { option_copied result ≡ self.now.ending }
        ensures kind { IsEnding self.now.ending }
    {
        self.error.as_deref()
    }
}
