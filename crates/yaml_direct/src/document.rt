//! Documents, one after another.
#![tactic(auto, using(crate::proofs::Growing::given_up))]

ghost use Rattle.std.specs.Prelude.{◌≡◌, ◌≢◌, ◌+◌, ◌^◌, ◌<◌, ◌≤◌, [], IfNone, IfOk, IfSome, List, false, length, true};

use crate::byte::ends_document;
use crate::place::NO_PLACE;
use crate::reader::Reader;
use crate::text::{Characters, characters_of, has_order_mark};
use std::alloc::{AllocError, Global};
use yaml_tape::Tape;

/// What was read.
#[derive(Clone, Copy, PartialEq, Eq)]
pub enum Step {
    /// A document, whose events were added.
    Document,
    /// The end of the text, which was added.
    End,
    /// Nothing: the tape ends where the last document that was read ends, and what is left is for the tokens.
    Elsewhere,
}

/// The documents of a text, of which the first were read.
#[derive(Drop)]
pub struct Documents<'a> {
    reader: Reader<'a>,
    // Where the next token stands.
    next: usize,
    // Whether a document was read, and whether the last one ended with `...`.
    begun: bool,
    ended: bool,
    ghost here: { next ≢ 18446744073709551615 → (reader.line_start ≤ next) × (next ≤ length reader.text.now) },
}

impl<'a> Documents<'a> {
    ghost use Rattle.yaml_base.specs.Places.{has_order_mark};
    ghost use Rattle.yaml_direct.specs.Documents.{AddsDocument, AddsEnd, EndsText, HasBegun, HasRead, IsBegun};
    ghost use Rattle.yaml_direct.specs.Documents.{ReadsDocument, told_by};
    ghost use Rattle.yaml_direct.specs.Held.{IsUnnamed};
    ghost use Rattle.yaml_direct.specs.Places.{IsHere, no_place};
    ghost use Rattle.yaml_grammar.specs.Bytes.{is_text};
    ghost use Rattle.yaml_grammar.specs.Documents.{ends_document};
    ghost use Rattle.yaml_grammar.specs.Nodes.{Document};
    ghost use Rattle.yaml_reading.specs.Refused.{NothingStands};
    ghost use Rattle.yaml_direct.specs.declared.document.Step.TheVariants as step;
    ghost use Rattle.yaml_tape.specs.Pushes.{marked_on};

    /// The documents of a text, or none where the text can't be read so. Then none stand in it, if it has only characters
    /// of the grammar and fewer than 2^32 bytes.
    pub fn new(alloc: Global, text: &'a [u8]) -> Result<Option<Documents<'a>>, AllocError>
        ensures text { IfOk result (λ o. IfSome o (λ d. d.reader.text.now ≡ text.now)) }
        ensures begun { IfOk result (λ o. IfSome o (λ d. IsBegun (told_by d))) }
        ensures stands { is_text text.now ≡ true → IfOk result (λ o. IfSome o HasBegun) }
        ensures left { is_text text.now ≡ true → length text.now < 2 ^ 32
            → IfOk result (λ o. IfNone o (NothingStands text.now)) }
    {
        let from: usize = if has_order_mark(text) { 3 } else { 0 };
        let ascii = match characters_of(&text[from..]) {
            Characters::Ascii => true,
            Characters::Allowed => false,
            Characters::Other => return Ok(None),
        };
        match Reader::new(alloc, text, from, ascii) {
            Some(reader) => Documents::begun(reader, from),
            None => Ok(None),
        }
    }

    // The documents of a text whose first line begins in this place.
    #[tactic(auto, using(crate::proofs::Growing::stream_begun))]
    fn begun(reader: Reader<'a>, from: usize) -> Result<Option<Documents<'a>>, AllocError>
        requires here { IsHere reader from }
        requires empty { marked_on reader.tape ≡ [] }
        ensures text { IfOk result (λ o. IfSome o (λ d. d.reader.text.now ≡ reader.entry.text.now)) }
        ensures begun { IfOk result (λ o. IfSome o (λ d. IsBegun (told_by d))) }
        ensures stands { is_text reader.entry.text.now ≡ true → IsUnnamed reader.entry → from ≡ 0
            → reader.entry.line_start ≡ 0 → IfOk result (λ o. IfSome o HasBegun) }
        ensures left { is_text reader.entry.text.now ≡ true → from ≡ 0
            → IfOk result (λ o. IfNone o (NothingStands reader.entry.text.now)) }
    {
        let mut reader = reader;
        let next = reader.begin_stream(from);
        if reader.starved {
            return Err(AllocError);
        }
        if next == NO_PLACE {
            return Ok(None);
        }
        Ok(Some(Documents {
            reader,
            next,
            begun: false,
            ended: true,
        }))
    }

    /// Reads a document, or the end of the text, and adds its events. Of a text that has only characters of the grammar
    /// each document stands in it behind those that were read, and at the end they are all. Where it leaves what comes
    /// next, no documents stand in the text.
    pub fn advance(&mut self) -> Result<Step, AllocError>
        ensures text { self.new.reader.text.now ≡ self.old.reader.text.now }
        ensures document { IfOk result (λ s. s ≡ step.Document → AddsDocument (told_by self.old) (told_by self.new)) }
        ensures end { IfOk result (λ s. s ≡ step.End → AddsEnd (told_by self.old) (told_by self.new)) }
        ensures elsewhere { IfOk result (λ s. s ≡ step.Elsewhere → told_by self.new ≡ told_by self.old) }
        ensures stands { (ds : List Document) → HasRead self.old ds
            → IfOk result (λ s. s ≡ step.Document → ReadsDocument self.old self.new ds) }
        ensures whole { (ds : List Document) → HasRead self.old ds
            → IfOk result (λ s. s ≡ step.End → EndsText self.old self.new ds) }
        ensures left { (ds : List Document) → HasRead self.old ds
            → IfOk result (λ s. s ≡ step.Elsewhere → NothingStands self.old.reader.text.now) }
    {
        self.skip_ends();
        if self.next == NO_PLACE {
            return Ok(Step::Elsewhere);
        }
        if self.next == self.reader.text.len() {
            return self.end();
        }
        self.document()
    }

    // Adds the end of the stream, behind which nothing is read.
    fn end(&mut self) -> Result<Step, AllocError>
        ensures text { self.new.reader.text.now ≡ self.old.reader.text.now }
        ensures step { IfOk result (λ s. s ≡ step.End) }
        ensures end { IfOk result (λ s. AddsEnd (told_by self.old) (told_by self.new)) }
        ensures whole { (ds : List Document) → HasRead self.old ds → self.old.next ≡ length self.old.reader.text.now
            → IfOk result (λ s. EndsText self.old self.new ds) }
    {
        let end = self.reader.end_stream();
        self.next = NO_PLACE;
        if end == NO_PLACE {
            return Err(AllocError);
        }
        Ok(Step::End)
    }

    // Reads the document that begins at the next token. If it can't be read so, its events are taken off again.
    fn document(&mut self) -> Result<Step, AllocError>
        requires { self.old.next ≢ no_place }
        ensures text { self.new.reader.text.now ≡ self.old.reader.text.now }
        ensures step { IfOk result (λ s. s ≢ step.End) }
        ensures document { IfOk result (λ s. s ≡ step.Document → AddsDocument (told_by self.old) (told_by self.new)) }
        ensures elsewhere { IfOk result (λ s. s ≡ step.Elsewhere → told_by self.new ≡ told_by self.old) }
        ensures stands { (ds : List Document) → HasRead self.old ds → self.old.next ≢ length self.old.reader.text.now
            → ends_document self.old.reader.text.now self.old.next ≡ false
            → IfOk result (λ s. s ≡ step.Document → ReadsDocument self.old self.new ds) }
        ensures left { (ds : List Document) → HasRead self.old ds → self.old.next ≢ length self.old.reader.text.now
            → ends_document self.old.reader.text.now self.old.next ≡ false
            → IfOk result (λ s. s ≡ step.Elsewhere → NothingStands self.old.reader.text.now) }
    {
        let count = self.reader.tape.entries.len();
        self.next = self.reader.document(self.next, !self.begun, self.ended);
        self.begun = true;
        self.ended = false;
        if self.next != NO_PLACE {
            return Ok(Step::Document);
        }
        self.reader.take_back(count);
        if self.reader.starved {
            return Err(AllocError);
        }
        Ok(Step::Elsewhere)
    }

    // Steps over `...` behind a document. Where that can't be, nothing stands in the text.
    fn skip_ends(&mut self)
        ensures text { self.new.reader.text.now ≡ self.old.reader.text.now }
        ensures still { told_by self.new ≡ told_by self.old }
        ensures read { (ds : List Document) → HasRead self.old ds → self.new.next ≢ no_place → HasRead self.new ds }
        ensures content { (ds : List Document) → HasRead self.old ds → self.new.next ≢ no_place
            → ends_document self.new.reader.text.now self.new.next ≡ false }
        ensures left { (ds : List Document) → HasRead self.old ds → self.new.next ≡ no_place
            → NothingStands self.old.reader.text.now }
    {
        'ends: while self.next == self.reader.line_start
            && ends_document(self.reader.text, self.next)
        {
            self.skip_end();
        }
    }

    // Steps over the `...` that stands here.
    fn skip_end(&mut self)
        requires within { self.old.next + 3 ≤ length self.old.reader.text.now }
        ensures text { self.new.reader.text.now ≡ self.old.reader.text.now }
        ensures tape { self.new.reader.tape ≡ self.old.reader.tape }
        ensures further { self.old.next < self.new.next }
        ensures read { (ds : List Document) → HasRead self.old ds
            → ends_document self.old.reader.text.now self.old.next ≡ true → self.new.next ≢ no_place
            → HasRead self.new ds }
        ensures left { (ds : List Document) → HasRead self.old ds
            → ends_document self.old.reader.text.now self.old.next ≡ true → self.new.next ≡ no_place
            → NothingStands self.old.reader.text.now }
    {
        if self.begun {
            self.next = self.reader.margin(self.next + 3);
            self.ended = true;
            return;
        }
        self.next = NO_PLACE;
    }

    /// The events that were read since the last such call, which are the documents' no more.
    pub fn take_tape(&mut self) -> Tape<'a>
        ensures text { self.new.reader.text.now ≡ self.old.reader.text.now }
        ensures of_text { result.text.now ≡ self.old.reader.text.now }
        ensures taken { marked_on result ≡ told_by self.old }
        ensures none { told_by self.new ≡ [] }
        ensures read { (ds : List Document) → HasRead self.old ds → HasRead self.new ds }
    {
        self.reader.take_tape()
    }

    /// The events that were read.
    pub fn into_tape(self) -> Tape<'a>
        ensures text { result.text.now ≡ self.entry.reader.text.now }
        ensures events { marked_on result ≡ told_by self.entry }
    {
        self.reader.tape
    }
}
