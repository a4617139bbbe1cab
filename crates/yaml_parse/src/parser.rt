//! Tokens to events.

ghost use Rattle.std.specs.Prelude.{◌≡◌, ◌≢◌, ◌<◌, ◌∷◌, ◌++◌, [], IfNone, IfOk, IfSome, Some, false, is_some};
ghost use Rattle.std.specs.Prelude.{option_to_list, true};
ghost use Rattle.std.specs.Option.{ForSome};
ghost use Rattle.std.proofs.Props.{props};
ghost use Rattle.yaml_base.specs.MarkedEvents.{plain_events};
ghost use Rattle.yaml_base.specs.Stream.{IsBeginning, IsWellFormed};
ghost use Rattle.yaml_base.specs.declared.fault.FaultKind.TheVariants as kind;
ghost use Rattle.yaml_parse.specs.BehindDocuments.{AreBefore};
ghost use Rattle.yaml_parse.specs.Faults.{IsNotReaders, IsToldBy};
ghost use Rattle.yaml_parse.specs.Marks.{MarksAscend};
ghost use Rattle.yaml_parse.specs.Places.{AreInPlace};
ghost use Rattle.yaml_parse.specs.PlainText.{SaySources};
ghost use Rattle.yaml_parse.specs.Shown.{AreShown};

use crate::fault::{kind_of, no_end, owned};
use crate::machine::Machine;
use crate::stream::Stream;
use std::alloc::{AllocError, Global};
use yaml_base::{Event, History, Mark, ParserFault};
use yaml_scan::{Fault, Finding, Placed, Stop};

/// Why a text has no more events.
#[derive(Drop)]
pub struct Ending {
    /// What is wrong behind the events; none where the stream has come to its end.
    pub fault: Option<ParserFault>,
    /// The same fault in parts.
    pub found: Option<Fault>,
}

// The mark of the first byte.
fn start_mark() -> Mark
    ensures { result ≡ record { index = 0; line = 0; column = 0 } }
{
    match Mark::new(0, 0, 0) {
        Some(mark) => mark,
        None => unreachable!(),
    }
}

// The fault of the parser by what it found; where it stopped and found nothing, memory ran out.
fn own_fault(found: Option<Finding>) -> Result<Fault, AllocError>
    ensures { IfOk result (λ own. own.kind ≢ kind.Reader) }
{
    match found {
        Some(own) => Ok(own.found_by(kind_of(own.problem))),
        None => Err(AllocError),
    }
}

/// A parser of a text, amid its tokens.
#[derive(Drop)]
pub struct Parser<'a> {
    /// The text that the tokens stand in.
    pub text: &'a [u8],
    machine: Machine<'a>,
    // The fault that the parser found itself.
    own: Option<Fault>,
    ghost same: { machine.stream.text.now ≡ text.now } by { Prim.hlevel props },
    ghost found: { ForSome own (λ f. f.kind ≢ kind.Reader) } by { Prim.hlevel props },
}

impl<'a> Parser<'a> {
    ghost use Rattle.yaml_parse.specs.Handed.{handed_out, made_so_far, waiting};

    /// A parser of a text that has taken no token. The only error is want of memory.
    pub fn new(alloc: Global, text: &'a [u8]) -> Result<Parser<'a>, AllocError>
        ensures text { IfOk result (λ parser. parser.text.now ≡ text.now) }
        ensures none { IfOk result (λ parser. handed_out parser ≡ []) }
    {
        let stream = Stream::new(alloc, text, start_mark());
        let mut machine = Machine::new(alloc, stream, start_mark());
        let own = match machine.stream.begin_stream(start_mark()) {
            Ok(()) => None,
            Err(Stop) => Some(own_fault(machine.stream.found())?),
        };
        Ok(Parser { text, machine, own })
    }

    // A parser of a text behind its first documents, whose events count as handed out, that has taken no token. Takes
    // no memory.
    pub(crate) fn behind(
        alloc: Global,
        text: &'a [u8],
        gone: &History<(Event<'a>, Mark)>,
        here: Mark,
    ) -> Parser<'a>
        requires { AreBefore text.now gone.now.items here }
        ensures text { result.text.now ≡ text.now }
        ensures handed { handed_out result ≡ gone.now.items }
    {
        let stream = Stream::behind(alloc, text, gone, here);
        Parser {
            text,
            machine: Machine::new(alloc, stream, here),
            own: None,
        }
    }

    /// Takes the next token of the text, and tells whether more may come: none behind the parser's own fault. The only
    /// error is want of memory.
    pub fn take(&mut self, placed: Placed) -> Result<bool, AllocError>
        ensures text { self.new.text.now ≡ self.old.text.now }
        ensures handed { handed_out self.new ≡ handed_out self.old }
    {
        if self.own.is_some() {
            return Ok(false);
        }
        match self.machine.take(placed) {
            Ok(()) => Ok(true),
            Err(Stop) => {
                self.own = Some(own_fault(self.machine.stream.found())?);
                Ok(false)
            }
        }
    }

    /// Hands out the next event that was made of the tokens, with the mark where it begins, or `None` where more tokens
    /// have to be taken first. The event borrows from the text. Takes no memory.
    #[inline(always)]
    pub fn next_event(&mut self) -> Option<(Event<'a>, Mark)>
        ensures text { self.new.text.now ≡ self.old.text.now }
        ensures handed { handed_out self.new ≡ handed_out self.old ++ option_to_list result }
        ensures made { made_so_far self.new ≡ made_so_far self.old }
        ensures none { IfNone result (handed_out self.new ≡ made_so_far self.new) }
    {
        if self.has_waiting() {
            Some(self.take_waiting())
        } else {
            None
        }
    }

    /// Whether an event was made of the tokens and not handed out.
    #[inline(always)]
    pub fn has_waiting(&self) -> bool
        ensures waits { result ≡ true → 0 < waiting self.now }
        ensures none { result ≡ false → handed_out self.now ≡ made_so_far self.now }
    {
        self.machine.stream.has_waiting()
    }

    /// Hands out the next event that waits, as `next_event`. There has to be one.
    #[inline(always)]
    pub fn take_waiting(&mut self) -> (Event<'a>, Mark)
        requires { 0 < waiting self.old }
        ensures text { self.new.text.now ≡ self.old.text.now }
        ensures handed { handed_out self.new ≡ handed_out self.old ++ result ∷ [] }
        ensures made { made_so_far self.new ≡ made_so_far self.old }
    {
        self.machine.stream.take()
    }

    /// How many events were made of the tokens and not handed out.
    #[inline(always)]
    pub fn waiting(&self) -> usize
        ensures { result ≡ waiting self.now }
    {
        self.machine.stream.waiting()
    }

    /// What is known of the events that were handed out. This is a law: the call does nothing.
    pub fn has_events(&self)
        ensures begins { IsBeginning (plain_events (handed_out self.now)) }
        ensures sources { AreShown self.now.text.now (handed_out self.now) }
        ensures plain { SaySources (handed_out self.now) }
        ensures marks { MarksAscend self.now.text.now (handed_out self.now) }
        ensures places { AreInPlace self.now.text.now (handed_out self.now) }
    {
        self.machine.stream.has_events();
    }

    /// The events that were not handed out, in a list. Takes no memory, but where some were handed out the others are
    /// moved.
    pub fn into_waiting(self) -> Vec<(Event<'a>, Mark)>
        ensures waiting { made_so_far self.entry ≡ handed_out self.entry ++ result.items }
        ensures sources { AreShown self.entry.text.now (made_so_far self.entry) }
        ensures plain { SaySources (made_so_far self.entry) }
        ensures marks { MarksAscend self.entry.text.now (made_so_far self.entry) }
        ensures places { AreInPlace self.entry.text.now (made_so_far self.entry) }
    {
        let Parser { machine, .. } = self;
        machine.stream.into_waiting()
    }

    /// Why no more events come: for the parser's own first fault, or else for this fault of the tokens, if there is
    /// one. Tokens that neither end nor have a fault give a fault of kind `Other`. The only error is want of memory.
    pub fn finish(&self, alloc: Global, fault: Option<Fault>) -> Result<Ending, AllocError>
        ensures taken { IfOk result
            (λ ending. IsWellFormed (is_some ending.fault) (plain_events (made_so_far self.now))) }
        ensures found { IfOk result (λ ending. is_some ending.found ≡ is_some ending.fault) }
        ensures not_readers { ForSome fault (λ f. f.kind ≢ kind.Reader) →
            IfOk result (λ ending. IsNotReaders ending.fault) }
    {
        if self.machine.stream.is_after() {
            return Ok(Ending {
                fault: None,
                found: None,
            });
        }
        let found = match (self.own, fault) {
            (Some(own), _) => own,
            (None, Some(fault)) => fault,
            (None, None) => no_end(start_mark()),
        };
        Ok(Ending {
            fault: Some(owned(alloc, &found)?),
            found: Some(found),
        })
    }
}

/// Why a text without tokens has no events: for this fault. The only error is want of memory.
pub fn unread(alloc: Global, fault: Fault) -> Result<Ending, AllocError>
    ensures taken { IfOk result (λ ending. IsWellFormed (is_some ending.fault) []) }
    ensures faulted { IfOk result (λ ending. is_some ending.fault ≡ true) }
    ensures told { IfOk result (λ ending. IfSome ending.fault (IsToldBy fault)) }
    ensures found { IfOk result (λ ending. ending.found ≡ Some fault) }
{
    Ok(Ending {
        fault: Some(owned(alloc, &fault)?),
        found: Some(fault),
    })
}
