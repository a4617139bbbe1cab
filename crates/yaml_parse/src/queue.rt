//! The events that were made, of which the first were handed out.

ghost use Rattle.std.specs.Prelude.{◌≡◌, ◌++◌, ◌∷◌, ◌<◌, [], OnOk, false, true};
ghost use Rattle.std.specs.VecDeque.{deque_len, deque_capacity};
ghost use Rattle.std.proofs.Props.{props};

use std::alloc::{AllocError, Global};
use std::collections::VecDeque;
use yaml_base::{Event, History, Mark};

// Events one behind another, of which those that wait were not handed out.
#[derive(Drop)]
pub(crate) struct Queue<'a> {
    waiting: VecDeque<(Event<'a>, Mark)>,
    // All events, and those that were handed out.
    made: History<(Event<'a>, Mark)>,
    handed: History<(Event<'a>, Mark)>,
    ghost order: { made.items ≡ handed.items ++ waiting.items } by { Prim.hlevel props },
}

impl<'a> Queue<'a> {
    // No event. Takes no memory.
    pub(crate) fn new(alloc: Global) -> Queue<'a>
        ensures made { result.made.items ≡ [] }
        ensures handed { result.handed.items ≡ [] }
    {
        Queue {
            waiting: VecDeque::new(alloc),
            made: History::new(),
            handed: History::new(),
        }
    }

    // No event waits, and these were handed out. Takes no memory.
    pub(crate) fn behind(alloc: Global, gone: &History<(Event<'a>, Mark)>) -> Queue<'a>
        ensures made { result.made.items ≡ gone.now.items }
        ensures handed { result.handed.items ≡ gone.now.items }
    {
        Queue {
            waiting: VecDeque::new(alloc),
            made: History::copy(gone),
            handed: History::copy(gone),
        }
    }

    // How many events wait.
    #[inline(always)]
    pub(crate) fn len(&self) -> usize
        ensures { result ≡ deque_len self.now.waiting }
    {
        self.waiting.len()
    }

    // Makes room for one event more.
    #[inline(always)]
    pub(crate) fn reserve(&mut self) -> Result<(), AllocError>
        ensures made { self.new.made.items ≡ self.old.made.items }
        ensures handed { self.new.handed.items ≡ self.old.handed.items }
        ensures room { OnOk result (deque_len self.new.waiting < deque_capacity self.new.waiting) }
    {
        self.waiting.reserve(1)?;
        Ok(())
    }

    // Adds an event behind the others.
    #[inline(always)]
    pub(crate) fn push_reserved(&mut self, event: (Event<'a>, Mark))
        requires { deque_len self.old.waiting < deque_capacity self.old.waiting }
        ensures made { self.new.made.items ≡ self.old.made.items ++ event.entry ∷ [] }
        ensures handed { self.new.handed.items ≡ self.old.handed.items }
    {
        self.made = History::with(&self.made, &event);
        self.waiting.push_back_reserved(event);
    }

    // Whether an event waits.
    #[inline(always)]
    pub(crate) fn has_waiting(&self) -> bool
        ensures waits { result ≡ true → 0 < deque_len self.now.waiting }
        ensures none { result ≡ false → self.now.handed.items ≡ self.now.made.items }
    {
        !self.waiting.is_empty()
    }

    // Hands out the first of the events that wait, of which there is one.
    #[inline(always)]
    pub(crate) fn take(&mut self) -> (Event<'a>, Mark)
        requires { 0 < deque_len self.old.waiting }
        ensures made { self.new.made.items ≡ self.old.made.items }
        ensures handed { self.new.handed.items ≡ self.old.handed.items ++ result ∷ [] }
    {
        match self.waiting.pop_front() {
            Some(event) => {
                self.handed = History::with(&self.handed, &event);
                event
            }
            None => unreachable!(),
        }
    }

    // The events that wait, in a list.
    pub(crate) fn into_waiting(self) -> Vec<(Event<'a>, Mark)>
        ensures { self.entry.made.items ≡ self.entry.handed.items ++ result.items }
    {
        self.waiting.into_vec()
    }
}
