//! Documents that are loaded and still to be handed out.

ghost use Rattle.std.specs.Prelude.{◌≡◌, ◌++◌, [], IfNone, option_to_list};

use std::marker::Model;
use yaml_load::Loader as Loaded;
use yaml_read::{Document, Loader};

// The documents of a batch that were not handed out.
#[derive(Drop)]
pub(crate) struct Pending<'de> {
    left: Option<Loader<'de>>,
}

impl<'de> Model for Pending<'de> {
    ghost use Rattle.std.specs.Prelude.{List};
    ghost use Rattle.yaml_base.specs.PlainDocument.{PlainDocument};

    ghost Value = { List PlainDocument };

    ghost use Rattle.yaml_documents.specs.inner.Pending.{left_in};

    ghost view = { λ p. left_in p.left };
}

impl<'de> Pending<'de> {
    // No document.
    pub(crate) fn none() -> Pending<'de>
        ensures { result ≡ [] }
    {
        Pending { left: None }
    }

    // The documents that were loaded.
    pub(crate) fn of(documents: Loaded<'de>) -> Pending<'de>
        ensures { result ≡ documents.entry }
    {
        Pending {
            left: Some(Loader::from(documents)),
        }
    }

    // The next document, if one is left. Takes no memory.
    pub(crate) fn next_document(&mut self) -> Option<Document<'de>>
        ensures items { self.old ≡ option_to_list result ++ self.new }
        ensures none { IfNone result (self.old ≡ []) }
    {
        match &mut self.left {
            Some(documents) => documents.next_document(),
            None => None,
        }
    }
}
