//! Where the collections of a document end, found while its events go by.

ghost use Rattle.std.specs.Prelude.{◌≡◌, ◌+◌, ◌≤◌, ◌∷◌, ◌++◌};
ghost use Rattle.yaml_load.specs.Words.{ℕ, List, [], IfOk, false, length, take, true, ends_of, is_closing, is_opening};
ghost use Rattle.yaml_load.specs.Words.{PlainDocEvent, HasNumbers, bounded_from};

use std::alloc::{AllocError, Global};
use std::marker::Model;

// A number for each event of all documents so far, and the events at which the open collections begin, the innermost
// last. The number of an open collection is not known yet.
#[derive(Drop)]
pub(crate) struct Ends {
    numbers: Vec<usize>,
    unended: Vec<usize>,
}

impl Model for Ends {
    ghost use Rattle.std.specs.Prelude.{◌<◌, All, length};
    ghost use Rattle.yaml_load.specs.inner.OpenEnds.{EndsView};

    ghost Value = { EndsView };

    ghost view = { λ e. record { numbers = e.numbers.items; unended = e.unended.items } };

    ghost invariant = { λ e. All (λ s. s < length e.numbers.items) e.unended.items };
}

impl Ends {
    // No number yet, and room for those of so many events. The only error is want of memory.
    pub(crate) fn with_capacity(alloc: Global, count: usize) -> Result<Ends, AllocError>
        ensures numbers { IfOk result (λ ends. ends.numbers ≡ []) }
        ensures unended { IfOk result (λ ends. ends.unended ≡ []) }
    {
        Ok(Ends {
            numbers: Vec::with_capacity(alloc, count)?,
            unended: Vec::new(alloc),
        })
    }

    // Goes over an event at this place of its document, at which no collection begins or ends.
    pub(crate) fn pass(&mut self, place: usize) -> Result<(), AllocError>
        ensures numbers { IfOk result (λ _. (front : List ℕ) (seen : List PlainDocEvent) (e : PlainDocEvent)
            → HasNumbers front seen self.old → place ≡ length seen
            → is_opening e ≡ false → is_closing e ≡ false → HasNumbers front (seen ++ e ∷ []) self.new) }
        ensures unended { IfOk result (λ _. self.new.unended ≡ self.old.unended) }
    {
        self.numbers.push(place)?;
        Ok(())
    }

    // Goes over an event at this place of its document, at which a collection begins.
    pub(crate) fn begin(&mut self, place: usize) -> Result<(), AllocError>
        ensures numbers { IfOk result (λ _. (front : List ℕ) (seen : List PlainDocEvent) (e : PlainDocEvent)
            → HasNumbers front seen self.old → place ≡ length seen
            → is_opening e ≡ true → HasNumbers front (seen ++ e ∷ []) self.new) }
    {
        let start = self.numbers.len();
        self.numbers.push(place)?;
        self.unended.push(start)?;
        Ok(())
    }

    // Goes over an event at this place of its document, at which the innermost open collection ends.
    pub(crate) fn end(&mut self, place: usize) -> Result<(), AllocError>
        ensures numbers { IfOk result (λ _. (front : List ℕ) (seen : List PlainDocEvent) (e : PlainDocEvent)
            → HasNumbers front seen self.old → place ≡ length seen
            → is_opening e ≡ false → is_closing e ≡ true → HasNumbers front (seen ++ e ∷ []) self.new) }
    {
        if let Some(start) = self.unended.pop() {
            self.numbers[start] = place;
        }
        self.numbers.push(place)?;
        Ok(())
    }

    // Ends all open collections where the document has this many events.
    pub(crate) fn finish(&mut self, size: usize)
        ensures numbers { (front : List ℕ) (seen : List PlainDocEvent) → HasNumbers front seen self.old
            → size ≡ length seen → self.new.numbers ≡ front ++ ends_of seen }
        ensures count { length self.new.numbers ≡ length self.old.numbers }
        ensures unended { self.new.unended ≡ [] }
    {
        'unended: while let Some(start) = self.unended.pop() {
            self.numbers[start] = size;
        }
    }

    // Cuts off the document whose numbers begin at one of them, at a place of it. No collection may be open.
    pub(crate) fn cut(&mut self, from: usize, place: usize)
        requires unended { self.old.unended ≡ [] }
        requires place { from + place ≤ length self.old.numbers }
        ensures numbers { self.new.numbers
            ≡ bounded_from place from (take (from + place) self.old.numbers) }
        ensures unended { self.new.unended ≡ [] }
    {
        self.numbers.truncate(from + place);
        let mut at = from;
        'numbers: while at < self.numbers.len() {
            self.numbers[at] = self.numbers[at].min(place);
            at += 1;
        }
    }

    // The numbers. Takes no memory.
    pub(crate) fn into_numbers(self) -> Vec<usize>
        ensures { result.items ≡ self.numbers }
    {
        self.numbers
    }
}
