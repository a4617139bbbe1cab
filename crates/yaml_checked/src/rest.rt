//! What stands on a tape and was not handed out.

ghost use Rattle.std.specs.Prelude.{◌≡◌, ◌≢◌, ◌≤◌, [], IfErr, IfOk, IfSome, List, None, drop, length, true};
ghost use Rattle.std.specs.Option.{ForSome};
ghost use Rattle.std.proofs.Props.{props};
ghost use Rattle.yaml_checked.specs.declared.place.Refusal.TheVariants as refusal;
ghost use Rattle.yaml_checked.specs.inner.EntryNames.{AreBehind, NamesRise};
ghost use Rattle.yaml_direct.specs.Documents.{HasBegun};
ghost use Rattle.yaml_grammar.specs.Documents.{Stands};
ghost use Rattle.yaml_grammar.specs.Nodes.{Document, Marked};
ghost use Rattle.yaml_tape.specs.OnTape.{IsInside};

use crate::names::may_let_go;
use crate::place::Refusal;
use yaml_direct::{Documents, Step};
use yaml_tape::{Entry, Tape};

// The entries of a tape, of which the first were read.
#[derive(Drop)]
pub(crate) struct Rest<'a> {
    pub(crate) tape: Tape<'a>,
    // How many were read.
    pub(crate) next: usize,
    // The documents behind them, if any may come.
    pub(crate) documents: Option<Documents<'a>>,
    // Whether the names of an entry may be taken off the tape, since those of the others stay.
    pub(crate) lets_go: bool,
    ghost same: { ForSome documents (λ d. d.reader.text.now ≡ tape.text.now) } by { Prim.hlevel props },
    ghost rise: { lets_go ≡ true → NamesRise tape.entries.items } by { Prim.hlevel props },
}

impl<'a> Rest<'a> {
    ghost use Rattle.yaml_checked.specs.inner.OnWay.{Comes, IsFilled, IsOnWay};

    // All of a tape, behind which nothing comes.
    pub(crate) fn new(tape: Tape<'a>) -> Rest<'a>
        ensures tape { result.tape ≡ tape.entry }
        ensures next { result.next ≡ 0 }
        ensures documents { result.documents ≡ None }
    {
        let lets_go = may_let_go(&tape);
        Rest {
            tape,
            next: 0,
            documents: None,
            lets_go,
        }
    }

    // Documents, of which none was read.
    pub(crate) fn by_document(documents: Documents<'a>) -> Rest<'a>
        ensures text { result.tape.text.now ≡ documents.entry.reader.text.now }
        ensures way { (ds : List Document) → Stands documents.entry.reader.text.now ds → HasBegun documents.entry
            → IsOnWay ds [] result }
    {
        let mut documents = documents;
        let tape = documents.take_tape();
        let lets_go = may_let_go(&tape);
        Rest {
            tape,
            next: 0,
            documents: Some(documents),
            lets_go,
        }
    }

    // How many entries the tape has.
    pub(crate) fn len(&self) -> usize {
        self.tape.entries.len()
    }

    // Reads the next document, or the end of the text, if more may come.
    #[inline(never)]
    fn refill(&mut self) -> Result<(), Refusal>
        requires { length self.old.tape.entries.items ≤ self.old.next }
        ensures text { self.new.tape.text.now ≡ self.old.tape.text.now }
        ensures way { IfOk result (λ _. (ds : List Document) → (before : List Marked) → IsOnWay ds before self.old
            → IsFilled ds before self.new) }
        ensures left { IfErr result (λ r. r ≢ refusal.OutOfMemory → (ds : List Document) → (before : List Marked)
            → IsOnWay ds before self.old → ⊥) }
    {
        let Some(mut documents) = self.documents.take() else {
            return Ok(());
        };
        match documents.advance()? {
            Step::Document => {
                let tape = documents.take_tape();
                let lets_go = may_let_go(&tape);
                self.lets_go = false;
                self.tape = tape;
                self.lets_go = lets_go;
                self.next = 0;
                self.documents = Some(documents);
                Ok(())
            }
            Step::End => {
                let tape = documents.take_tape();
                let lets_go = may_let_go(&tape);
                self.lets_go = false;
                self.tape = tape;
                self.lets_go = lets_go;
                self.next = 0;
                Ok(())
            }
            Step::Elsewhere => Err(Refusal::Left),
        }
    }

    // Reads the next document, or the end of the text, where the tape has no more.
    #[inline(always)]
    fn fill(&mut self) -> Result<(), Refusal>
        ensures text { self.new.tape.text.now ≡ self.old.tape.text.now }
        ensures way { IfOk result (λ _. (ds : List Document) → (before : List Marked) → IsOnWay ds before self.old
            → IsFilled ds before self.new) }
        ensures left { IfErr result (λ r. r ≢ refusal.OutOfMemory → (ds : List Document) → (before : List Marked)
            → IsOnWay ds before self.old → ⊥) }
    {
        if self.next < self.tape.entries.len() {
            return Ok(());
        }
        self.refill()
    }

    // The next entry.
    #[inline(always)]
    pub(crate) fn next(&mut self) -> Result<Option<Entry>, Refusal>
        ensures text { self.new.tape.text.now ≡ self.old.tape.text.now }
        ensures inside { IfOk result (λ found. IfSome found (IsInside self.new.tape.text.now
            self.new.tape.arena.items self.new.tape.names.items)) }
        ensures behind { IfOk result (λ found. IfSome found (λ e. self.new.lets_go ≡ true
            → AreBehind e.names (drop self.new.next self.new.tape.entries.items))) }
        ensures way { IfOk result (λ found. (ds : List Document) → (before : List Marked)
            → IsOnWay ds before self.old → Comes ds before self.new found) }
        ensures left { IfErr result (λ r. r ≢ refusal.OutOfMemory → (ds : List Document) → (before : List Marked)
            → IsOnWay ds before self.old → ⊥) }
    {
        self.fill()?;
        match self.tape.entries.get(self.next) {
            Some(entry) => {
                let entry = *entry;
                self.next += 1;
                Ok(Some(entry))
            }
            None => Ok(None),
        }
    }
}
