//! The entries that mappings have once they are merged.

use crate::fault::second;
use crate::keys::{Keys, keys_of};
use crate::nodes::Nodes;
use crate::source::{Source, sources};
use std::alloc::Global;
use yaml_base::{Cause, DocEvent, Error, Result};

// How many entries may be gone over for each event.
const ENTRIES: usize = 100;

// An entry of a mapping, by the places of its key and its value; one that was merged has the place of the node that
// named its mapping.
#[derive(Clone, Copy)]
pub(crate) struct Entry {
    pub(crate) key: usize,
    pub(crate) value: usize,
    pub(crate) by: Option<usize>,
}

// The entries that mappings with merge keys are given, behind their own.
#[derive(Drop)]
pub(crate) struct Plan {
    // For each event whether another node stands for it.
    named: Vec<bool>,
    // For each event how many mappings with merge keys ended before the one that begins there; for others the greatest.
    numbers: Vec<usize>,
    given: Vec<Vec<Entry>>,
}

impl Plan {
    // Whether an alias may stand for the node in a place.
    pub(crate) fn is_named(&self, place: usize) -> bool {
        matches!(self.named.get(place), Some(true))
    }

    // The entries that the mapping which begins in a place is given, if it has a merge key.
    fn given(&self, place: usize) -> Option<&[Entry]> {
        let number = *self.numbers.get(place)?;
        let given = self.given.get(number)?;
        Some(given.as_slice())
    }

    // The entry with this number, counted from 0, of those that the mapping which begins in a place is given.
    pub(crate) fn entry(&self, place: usize, number: usize) -> Option<Entry> {
        match self.given(place) {
            Some(given) => match given.get(number) {
                Some(entry) => Some(*entry),
                None => None,
            },
            None => None,
        }
    }

    // Notes that an alias stands for the node in a place.
    fn name(&mut self, place: usize) {
        if place < self.named.len() {
            self.named[place] = true;
        }
    }

    // Gives the mapping that begins in a place these entries.
    fn add(&mut self, place: usize, given: Vec<Entry>) -> Result<()> {
        let number = self.given.len();
        self.given.push(given)?;
        if place < self.numbers.len() {
            self.numbers[place] = number;
        }
        Ok(())
    }
}

// Mappings on the way to their entries.
#[derive(Drop)]
struct Planner<'a, 'de> {
    alloc: Global,
    nodes: Nodes<'a, 'de>,
    keys: Keys,
    plan: Plan,
    // For each number of a key the mapping that has it: by how many mappings had a merge key, counted from 1.
    seen: Vec<usize>,
    turn: usize,
    // How many entries may still be gone over.
    left: usize,
}

// The merge key of the mapping that begins in a place, if it has one. A second is a fault.
fn merge_key(alloc: Global, nodes: Nodes<'_, '_>, start: usize) -> Result<Option<usize>> {
    let end = nodes.end(start);
    let mut found = None;
    let mut at = start.saturating_add(1);
    for _ in 0..nodes.len() {
        if at >= end {
            break;
        }
        if nodes.is_merge_key(at) {
            if found.is_some() {
                return Err(second(alloc, nodes.mark(at)));
            }
            found = Some(at);
        }
        at = nodes.behind(nodes.behind(at));
    }
    Ok(found)
}

// The entries of the mapping that begins in a place, as they stand there.
fn own_entries(alloc: Global, nodes: Nodes<'_, '_>, start: usize) -> Result<Vec<Entry>> {
    let end = nodes.end(start);
    let mut entries = Vec::new(alloc);
    let mut key = start.saturating_add(1);
    for _ in 0..nodes.len() {
        if key >= end {
            break;
        }
        let value = nodes.behind(key);
        if !nodes.is_merge_key(key) {
            entries.push(Entry {
                key,
                value,
                by: None,
            })?;
        }
        key = nodes.behind(value);
    }
    Ok(entries)
}

impl<'a, 'de> Planner<'a, 'de> {
    // Whether the mapping of this turn has the number of a key.
    fn has(&self, number: usize) -> bool {
        match self.seen.get(number) {
            Some(turn) => *turn == self.turn,
            None => false,
        }
    }

    // Notes that it does.
    fn note(&mut self, number: usize) {
        if number < self.seen.len() {
            self.seen[number] = self.turn;
        }
    }

    // Notes a key.
    fn note_key(&mut self, key: usize) {
        let value = self.keys.value(key);
        let text = self.keys.text(key);
        self.note(value);
        self.note(text);
    }

    // Notes the keys of entries, from a number on.
    fn note_keys(&mut self, entries: &[Entry], from: usize) {
        for index in from..entries.len() {
            if let Some(entry) = entries.get(index) {
                self.note_key(entry.key);
            }
        }
    }

    // One entry more is gone over.
    fn count(&mut self) -> Result<()> {
        match self.left.checked_sub(1) {
            Some(left) => {
                self.left = left;
                Ok(())
            }
            None => Err(Error::new(Cause::RepetitionLimitExceeded)),
        }
    }

    // Adds an entry of a mapping that is merged to those that are given, unless its key is there.
    fn add_entry(&mut self, entry: Entry, source: Source, given: &mut Vec<Entry>) -> Result<()> {
        self.count()?;
        if self.has(self.keys.value(entry.key)) || self.has(self.keys.text(entry.key)) {
            return Ok(());
        }
        let key = self.nodes.target(entry.key);
        let value = self.nodes.target(entry.value);
        self.plan.name(key);
        self.plan.name(value);
        given.push(Entry {
            key,
            value,
            by: Some(source.by),
        })?;
        Ok(())
    }

    // Adds the entries of a mapping whose keys are not there.
    fn add_source(&mut self, source: Source, given: &mut Vec<Entry>) -> Result<()> {
        let from = given.len();
        let merged = self.source_entries(source.mapping)?;
        for entry in &merged {
            self.add_entry(*entry, source, given)?;
        }
        self.note_keys(given.as_slice(), from);
        Ok(())
    }

    // The entries of a mapping that is merged: its own, and behind them those that it is given.
    fn source_entries(&self, start: usize) -> Result<Vec<Entry>> {
        let mut entries = own_entries(self.alloc, self.nodes, start)?;
        if let Some(given) = self.plan.given(start) {
            entries.extend_from_slice(given)?;
        }
        Ok(entries)
    }

    // Merges the mapping that begins in a place, if it has a merge key.
    fn merge(&mut self, start: usize) -> Result<()> {
        let Some(key) = merge_key(self.alloc, self.nodes, start)? else {
            return Ok(());
        };
        self.turn = self.turn.saturating_add(1);
        let own = own_entries(self.alloc, self.nodes, start)?;
        self.note_keys(own.as_slice(), 0);
        let value = self.nodes.behind(key);
        let merged = sources(self.alloc, self.nodes, value, self.nodes.end(start))?;
        let mut given = Vec::new(self.alloc);
        for source in &merged {
            self.add_source(*source, &mut given)?;
        }
        self.plan.add(start, given)
    }

    // Merges each mapping of the document at its end, so that those within it and those before it are merged.
    fn merge_all(&mut self) -> Result<()> {
        let mut open: Vec<usize> = Vec::new(self.alloc);
        for place in 0..self.nodes.len() {
            match self.nodes.event(place) {
                Some(DocEvent::SequenceStart(_) | DocEvent::MappingStart(_)) => open.push(place)?,
                Some(DocEvent::SequenceEnd) => drop(open.pop()),
                Some(DocEvent::MappingEnd) => {
                    if let Some(start) = open.pop() {
                        self.merge(start)?;
                    }
                }
                Some(DocEvent::Alias(target)) => self.plan.name(*target),
                _ => {}
            }
        }
        Ok(())
    }
}

// The entries that the mappings of a document are given by their merge keys.
pub(crate) fn plan_of(alloc: Global, nodes: Nodes<'_, '_>) -> Result<Plan> {
    let keys = keys_of(alloc, nodes)?;
    let seen = Vec::from_elem(alloc, 0usize, keys.count)?;
    let mut planner = Planner {
        alloc,
        nodes,
        keys,
        plan: Plan {
            named: Vec::from_elem(alloc, false, nodes.len())?,
            numbers: Vec::from_elem(alloc, usize::MAX, nodes.len())?,
            given: Vec::new(alloc),
        },
        seen,
        turn: 0,
        left: nodes.len().saturating_mul(ENTRIES),
    };
    planner.merge_all()?;
    Ok(planner.plan)
}
