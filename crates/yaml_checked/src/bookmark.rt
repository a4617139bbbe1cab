//! A place behind whole documents.

ghost use Rattle.std.specs.Prelude.{◌≡◌, IfOk, Some};
ghost use Rattle.std.proofs.Props.{props};
ghost use Rattle.yaml_base.specs.MarkedEvents.{plain_events};
ghost use Rattle.yaml_base.specs.StreamMachine.{before_stream, between_documents, run};

use crate::given::Given;
use std::alloc::{AllocError, Global};
use std::marker::Model;
use yaml_parse::Events;

/// A place in a text behind whole documents, with the events that were handed out of them: from there on the text may
/// be read by its tokens.
#[derive(Drop)]
pub struct Bookmark<'a> {
    given: Given<'a>,
    ghost between: { run (Some before_stream) (plain_events given.events.items) ≡ Some between_documents } by { Prim.hlevel props },
}

impl<'a> Model for Bookmark<'a> {
    ghost use Rattle.yaml_checked.specs.PlainTape.{PlainPlace};

    ghost Value = { PlainPlace };

    ghost view = { λ b. record { text = b.given.text.now; given = b.given.events.items } };
}

impl<'a> Bookmark<'a> {
    // The place behind these events.
    pub(crate) fn new(given: Given<'a>) -> Bookmark<'a>
        requires { run (Some before_stream) (plain_events given.events.items) ≡ Some between_documents }
        ensures text { result.text ≡ given.entry.text.now }
        ensures given { result.given ≡ given.entry.events.items }
    {
        Bookmark { given }
    }

    /// The events of the text by its tokens, of which those before this place count as handed out. The only error is
    /// want of memory.
    pub fn by_tokens(&self, alloc: Global) -> Result<Events<'a>, AllocError>
        ensures text { IfOk result (λ events. events.text ≡ self.now.text) }
        ensures given { IfOk result (λ events. events.given ≡ self.now.given) }
    {
        self.given.by_tokens(alloc)
    }
}
