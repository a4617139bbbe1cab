//! The documents of a text as values of one type.

ghost use Rattle.std.specs.Prelude.{◌≡◌};

use crate::documents::Documents;
use serde::Deserialize;
use std::marker::{Model, PhantomData};
use yaml_base::Result;

/// The documents of a YAML text that are still to be read, as values of one type.
#[derive(Drop)]
pub struct Values<'de, T> {
    documents: Documents<'de>,
    value: PhantomData<T>,
}

impl<'de, T> Model for Values<'de, T> {
    ghost use Rattle.std.specs.Prelude.{List};
    ghost use Rattle.yaml_base.specs.PlainDocument.{PlainDocument};

    ghost Value = { List PlainDocument };

    ghost view = { λ values. values.documents };
}

impl<'de, T> Values<'de, T> {
    pub(crate) fn new(documents: Documents<'de>) -> Values<'de, T>
        ensures { result ≡ documents.entry }
    {
        Values {
            documents,
            value: PhantomData,
        }
    }
}

impl<'de, T: Deserialize<'de>> Iterator for Values<'de, T> {
    ghost use Rattle.std.specs.Prelude.{length};
    ghost use Rattle.std.specs.Iterator.{at_most};
    ghost use Rattle.yaml.specs.NextDocument.{GivesNext};

    type Item = Result<T>;

    ghost next_gives = { GivesNext };

    ghost remaining = { λ values. at_most (length values) };

    /// The next document as a value of the type, or `None` once each was read, for good. What can't be read is passed
    /// over by the next call.
    fn next(&mut self) -> Option<Result<T>> {
        self.documents.read_next::<T>()
    }

    fn size_hint(&self) -> (usize, Option<usize>) {
        (0, None)
    }
}
