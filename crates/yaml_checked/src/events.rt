//! The events of a tape, one after another.

ghost use Rattle.std.specs.Prelude.{◌≡◌, ◌≢◌, ◌++◌, [], IfErr, IfNone, IfOk, IfSome, List, None, Some};
ghost use Rattle.std.specs.Prelude.{option_to_list, true};
ghost use Rattle.std.proofs.Props.{props};
ghost use Rattle.yaml_base.specs.MarkedEvents.{plain_events, plain_marked};
ghost use Rattle.yaml_base.specs.Stream.{IsBeginning, IsStream};
ghost use Rattle.yaml_base.specs.StreamMachine.{between_documents, before_stream, run};
ghost use Rattle.yaml_checked.specs.OfText.{AreTextsOwn, IsOfText, MayBeLeft, SaysText};
ghost use Rattle.yaml_checked.specs.declared.place.Refusal.TheVariants as refusal;
ghost use Rattle.yaml_checked.specs.inner.OnWay.{IsOnWay};
ghost use Rattle.yaml_grammar.specs.Nodes.{Document, events_of};
ghost use Rattle.yaml_reading.specs.Refused.{NothingStands};
ghost use Rattle.yaml_parse.specs.Marks.{MarksAscend};
ghost use Rattle.yaml_parse.specs.Places.{AreInPlace};
ghost use Rattle.yaml_parse.specs.PlainText.{SaySources};
ghost use Rattle.yaml_parse.specs.Shown.{AreShown};
ghost use Rattle.yaml_scan.specs.AllowedText.{IsAllowed};

use crate::allowed::{is_allowed, parse_allowed};
use crate::bookmark::Bookmark;
use crate::given::Given;
use crate::place::Refusal;
use crate::rest::Rest;
use std::alloc::{AllocError, Global};
use std::marker::Model;
use yaml_base::{Event, Mark};
use yaml_direct::Documents;
use yaml_tape::Tape;

/// The events of a text that the direct parser takes, of which the first were handed out.
#[derive(Drop)]
pub struct TapeEvents<'a> {
    given: Given<'a>,
    rest: Rest<'a>,
    // Why no event was handed out, once that was so.
    refused: Option<Refusal>,
    ghost same: { rest.tape.text.now ≡ given.text.now } by { Prim.hlevel props },
    ghost whole: { refused ≡ None → given.whole ≡ true } by { Prim.hlevel props },
}

impl<'a> Model for TapeEvents<'a> {
    ghost use Rattle.yaml_checked.specs.PlainTape.{PlainTape};
    ghost use Rattle.yaml_checked.specs.inner.OnWay.{marked_from};

    ghost Value = { PlainTape };

    ghost view = { λ e. record {
      text = e.given.text.now;
      given = e.given.events.items;
      ahead = marked_from e.rest.tape e.rest.next;
      documents = e.rest.documents;
      refused = e.refused;
    } };
}

// Hands out the event that comes next.
#[inline(always)]
fn go_on<'a>(
    alloc: Global,
    given: &mut Given<'a>,
    rest: &mut Rest<'a>,
) -> Result<Option<(Event<'a>, Mark)>, Refusal>
    requires same { rest.old.tape.text.now ≡ given.old.text.now }
    requires whole { given.old.whole ≡ true }
    ensures text { given.new.text.now ≡ given.old.text.now }
    ensures same { rest.new.tape.text.now ≡ rest.old.tape.text.now }
    ensures whole { IfOk result (λ _. given.new.whole ≡ true) }
    ensures given { IfOk result (λ found. given.new.events.items ≡ given.old.events.items ++ option_to_list found) }
    ensures kept { IfErr result (λ _. given.new.events.items ≡ given.old.events.items) }
    ensures none { IfOk result (λ found. IfNone found (IsStream (plain_events given.new.events.items))) }
    ensures way { IfOk result (λ found. (ds : List Document) → IsOnWay ds (plain_marked given.old.events.items) rest.old
        → IsOnWay ds (plain_marked given.new.events.items) rest.new) }
    ensures all { IfOk result (λ found. (ds : List Document) → IsOnWay ds (plain_marked given.old.events.items) rest.old
        → IfNone found (plain_marked given.new.events.items ≡ events_of rest.new.tape.text.now ds)) }
    ensures left { IfErr result (λ r. r ≢ refusal.OutOfMemory → (ds : List Document)
        → IsOnWay ds (plain_marked given.old.events.items) rest.old → ⊥) }
{
    let Some(entry) = rest.next()? else {
        return if given.is_stream() {
            Ok(None)
        } else {
            Err(Refusal::Untrue)
        };
    };
    let event = rest.event(alloc, entry)?;
    Ok(Some(given.hand_out(alloc, event, entry.index, entry.late)?))
}

impl<'a> TapeEvents<'a> {
    /// The events of a text, of which none was handed out, if the direct parser takes it; else no documents stand in it,
    /// or it has 2^32 bytes. The only error is want of memory.
    pub fn new(alloc: Global, text: &'a [u8]) -> Result<Option<TapeEvents<'a>>, AllocError>
        ensures text { IfOk result (λ found. IfSome found (λ events. events.text ≡ text.now)) }
        ensures none { IfOk result (λ found. IfSome found (λ events. events.given ≡ [])) }
        ensures allowed { IfOk result (λ found. IfSome found (λ _. IsAllowed text.now)) }
        ensures of_text { IfOk result (λ found. IfSome found IsOfText) }
        ensures left { IfOk result (λ found. IfNone found (MayBeLeft text.now)) }
    {
        match parse_allowed(alloc, text)? {
            Some(tape) => Ok(Some(TapeEvents::of_tape(alloc, tape))),
            None => Ok(None),
        }
    }

    /// The events of the tape of a text whose bytes are allowed, of which none was handed out.
    pub fn of_tape(alloc: Global, tape: Tape<'a>) -> TapeEvents<'a>
        requires { IsAllowed tape.text.now }
        ensures text { result.text ≡ tape.entry.text.now }
        ensures none { result.given ≡ [] }
        ensures of_text { SaysText tape.entry → IsOfText result }
    {
        TapeEvents {
            given: Given::none(alloc, tape.text),
            rest: Rest::new(tape),
            refused: None,
        }
    }

    /// The events of a text, of which none was handed out: each document is read when its first event is asked for, so
    /// that only one stands on the tape. None where the direct parser can't begin: then no documents stand in the text,
    /// or it has 2^32 bytes. The only error is want of memory.
    pub fn by_document(alloc: Global, text: &'a [u8]) -> Result<Option<TapeEvents<'a>>, AllocError>
        ensures text { IfOk result (λ found. IfSome found (λ events. events.text ≡ text.now)) }
        ensures none { IfOk result (λ found. IfSome found (λ events. events.given ≡ [])) }
        ensures allowed { IfOk result (λ found. IfSome found (λ _. IsAllowed text.now)) }
        ensures of_text { IfOk result (λ found. IfSome found IsOfText) }
        ensures left { IfOk result (λ found. IfNone found (MayBeLeft text.now)) }
    {
        if !is_allowed(alloc, text)? {
            return Ok(None);
        }
        match Documents::new(alloc, text)? {
            Some(documents) => Ok(Some(TapeEvents {
                given: Given::none(alloc, text),
                rest: Rest::by_document(documents),
                refused: None,
            })),
            None => Ok(None),
        }
    }

    /// How many events to make room for: as many as stand on the tape. Nothing rests on the number.
    pub fn size_hint(&self) -> usize {
        self.rest.len()
    }

    /// The next event, with the mark where it begins, or `None` behind the end of the stream. The event borrows from
    /// the text: a scalar's slice is the part of the text that it was read from. Once an event was refused, so are all.
    ///
    /// Of a text in which documents stand the events are theirs: none is refused but for want of memory, and behind the
    /// last all were handed out.
    #[inline(always)]
    pub fn next_event(&mut self, alloc: Global) -> Result<Option<(Event<'a>, Mark)>, Refusal>
        ensures text { self.new.text ≡ self.old.text }
        ensures given { IfOk result (λ found. self.new.given ≡ self.old.given ++ option_to_list found) }
        ensures kept { IfErr result (λ _. self.new.given ≡ self.old.given) }
        ensures none { IfOk result (λ found. IfNone found (IsStream (plain_events self.new.given))) }
        ensures of_text { IsOfText self.old → IsOfText self.new }
        ensures whole { IsOfText self.old → IfOk result (λ found.
            IfNone found (AreTextsOwn self.new.text (plain_marked self.new.given))) }
        ensures left { IsOfText self.old → IfErr result (λ r. r ≢ refusal.OutOfMemory → NothingStands self.old.text) }
    {
        if let Some(refusal) = self.refused {
            return Err(refusal);
        }
        match go_on(alloc, &mut self.given, &mut self.rest) {
            Ok(found) => Ok(found),
            Err(refusal) => {
                self.refused = Some(refusal);
                Err(refusal)
            }
        }
    }

    /// The place behind the events that were handed out, if they are those of whole documents.
    pub fn bookmark(&self, alloc: Global) -> Option<Bookmark<'a>>
        ensures text { IfSome result (λ b. b.text ≡ self.now.text) }
        ensures given { IfSome result (λ b. b.given ≡ self.now.given) }
        ensures none { IfNone result
            (run (Some before_stream) (plain_events self.now.given) ≢ Some between_documents) }
    {
        match self.given.behind_documents(alloc) {
            Some(given) => Some(Bookmark::new(given)),
            None => None,
        }
    }

    /// What is known of the events that were handed out. This is a law: the call does nothing.
    #[tactic(auto, using(crate::proofs::StateLaws::goes_on))]
    pub fn has_events(&self)
        ensures allowed { IsAllowed self.now.text }
        ensures begins { IsBeginning (plain_events self.now.given) }
        ensures sources { AreShown self.now.text self.now.given }
        ensures plain { SaySources self.now.given }
        ensures marks { MarksAscend self.now.text self.now.given }
        ensures places { AreInPlace self.now.text self.now.given }
    {
        let _ = &self.given;
    }
}
