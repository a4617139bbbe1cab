//! Steps of a quick reading into collections, to their next part and out of them.

use crate::frame::{Kind, Spot};
use crate::tagged::asks_for_tag;
use crate::tape_leaves::is_null;
use crate::tape_reader::{Miss, TapeFrame, TapeReader};
use serde::{Name, find};
use yaml_base::{Kind as Resolved, ScalarStyle, resolve};
use yaml_tape::{Entry, EntryKind};
use yaml_with::asks_for_variants;

// What a plain scalar without a tag is.
fn kind_of_text(text: &str) -> serde::Kind {
    match resolve(text) {
        Resolved::Null => serde::Kind::Unit,
        Resolved::Bool(_) => serde::Kind::Bool,
        Resolved::Unsigned(_) => serde::Kind::Unsigned,
        Resolved::Signed(_) => serde::Kind::Signed,
        Resolved::Float => serde::Kind::Float,
        Resolved::Str => serde::Kind::Str,
    }
}

impl<'a, 'de> TapeReader<'a, 'de> {
    // What a scalar is, if it has no tag, or one that is taken.
    fn kind_of(&self, entry: Entry) -> Option<serde::Kind> {
        if self.has_tag(entry) {
            return None;
        }
        if entry.style != ScalarStyle::Plain {
            return Some(serde::Kind::Str);
        }
        Some(kind_of_text(self.text_of(entry)?))
    }

    // What the next node is, if that can be told.
    fn kind_here(&self) -> Option<serde::Kind> {
        let entry = self.here()?;
        if !entry.kind.starts() && entry.kind != EntryKind::Scalar {
            return None;
        }
        if self.tag_name(entry).is_some() {
            return Some(serde::Kind::Bytes);
        }
        match entry.kind {
            EntryKind::SequenceStart => Some(serde::Kind::Seq),
            EntryKind::MappingStart => Some(serde::Kind::Map),
            _ => self.kind_of(entry),
        }
    }

    /// What the next node is.
    pub(crate) fn kind(&mut self) -> Result<serde::Kind, Miss> {
        match self.kind_here() {
            Some(kind) => Ok(kind),
            None => Err(self.lose()),
        }
    }

    // Goes into the collection that begins with the entry at which the reading stands.
    #[inline(always)]
    fn go_into(&mut self, kind: Kind, entry: Entry) -> Result<(), Miss> {
        let Some(nestings) = self.spot.nestings.checked_sub(1) else {
            return Err(self.lose());
        };
        let place = self.spot.place;
        self.push(kind, self.link(entry, place))?;
        self.spot = Spot {
            place: place.saturating_add(1),
            top: self.spot.top,
            nestings,
            taken: false,
            begun: false,
        };
        Ok(())
    }

    // Takes the next node, which is no such collection, as an empty one, where it means that.
    fn take_empty(&mut self) -> Result<(), Miss> {
        let entry = self.scalar()?;
        if entry.style != ScalarStyle::Plain || entry.from != entry.to {
            return Err(Miss::Other);
        }
        self.pass_scalar();
        self.push(Kind::Empty, self.spot.place)
    }

    // Goes into the collection at which the reading stands, which begins with an entry of this kind.
    #[inline(always)]
    fn open(&mut self, kind: Kind, start: EntryKind) -> Result<(), Miss> {
        let Some(entry) = self.here() else {
            return Err(self.lose());
        };
        if entry.kind != start || self.is_bare() {
            return self.take_empty();
        }
        self.go_into(kind, entry)
    }

    /// Goes into the sequence at which the reading stands.
    pub(crate) fn open_sequence(&mut self) -> Result<(), Miss> {
        self.open(Kind::Items, EntryKind::SequenceStart)
    }

    /// Goes into the mapping at which the reading stands.
    pub(crate) fn open_mapping(&mut self) -> Result<(), Miss> {
        self.open(Kind::Entries, EntryKind::MappingStart)
    }

    /// Whether an element comes. At the end the sequence is left.
    pub(crate) fn item(&mut self) -> Result<bool, Miss> {
        let (Some(frame), Some(entry)) = (self.open_frame(), self.here()) else {
            return Err(self.lose());
        };
        let place = self.spot.place;
        match (frame.kind, entry.kind) {
            (Kind::Empty, _) => self.close(frame, place)?,
            (Kind::Items, EntryKind::SequenceEnd) => self.close(frame, place.saturating_add(1))?,
            (Kind::Items, _) => return Ok(true),
            _ => return Err(self.lose()),
        }
        Ok(false)
    }

    // The same as `entry`, of a map that was gone into.
    #[inline(always)]
    fn entry_here(&mut self) -> Result<bool, Miss> {
        let (Some(frame), Some(entry)) = (self.open_frame(), self.here()) else {
            return Err(self.lose());
        };
        let place = self.spot.place;
        match (frame.kind, entry.kind) {
            (Kind::Items, _) => return Err(self.lose()),
            (Kind::Entries, EntryKind::MappingEnd) => self.close(frame, place.saturating_add(1))?,
            (Kind::Entries, _) => return Ok(true),
            _ => self.close(frame, place)?,
        }
        Ok(false)
    }

    /// Whether an entry comes. At the end the map is left.
    #[inline(always)]
    pub(crate) fn entry(&mut self) -> Result<bool, Miss> {
        if self.spot.begun {
            self.open_mapping()?;
        }
        self.entry_here()
    }

    /// The place among names of the one that the next node's text is.
    #[inline(always)]
    pub(crate) fn name(&mut self, names: &[Name<'_>]) -> Result<usize, Miss> {
        let entry = self.scalar()?;
        let Some(text) = self.text_of(entry) else {
            return Err(self.lose());
        };
        let found = find(names, text);
        self.pass_scalar();
        Ok(found)
    }

    // Takes the tag of the node that begins with the entry at which the reading stands.
    fn take_tag(&mut self, entry: Entry) -> Result<(), Miss> {
        let back = self.link(entry, self.spot.place);
        self.push(Kind::Tag, back)?;
        self.spot.taken = true;
        self.spot.begun = false;
        Ok(())
    }

    // The place among names of the variant that the next node is: by its tag, or by its text.
    fn variant_of_node(&mut self, names: &[Name<'_>]) -> Result<usize, Miss> {
        let Some(entry) = self.here() else {
            return Err(self.lose());
        };
        if let Some(tag) = self.tag_name(entry) {
            let found = find(names, tag);
            self.take_tag(entry)?;
            return Ok(found);
        }
        if entry.kind != EntryKind::Scalar || self.spot.taken && entry.from == entry.to {
            return Err(self.lose());
        }
        let found = self.name(names)?;
        self.push(Kind::Named, self.spot.place)?;
        Ok(found)
    }

    /// The place among names of the next key, or none at the end. The first key of a map that was begun and is asked
    /// for variants is the variant that the node is.
    #[inline(always)]
    pub(crate) fn key(&mut self, names: &[Name<'_>]) -> Result<Option<usize>, Miss> {
        if asks_for_tag(names) {
            return Err(self.lose());
        }
        if self.spot.begun && asks_for_variants(names) {
            return Ok(Some(self.variant_of_node(names)?));
        }
        if self.entry()? {
            return Ok(Some(self.name(names)?));
        }
        Ok(None)
    }

    // The place behind the node that begins in a place.
    fn behind(&self, start: usize) -> Option<usize> {
        let mut open = 0usize;
        let mut place = start;
        for _ in start..self.tape.entries.len() {
            let entry = self.tape.entries.get(place)?;
            match entry.kind {
                EntryKind::Scalar => {}
                EntryKind::SequenceStart | EntryKind::MappingStart => open = open.checked_add(1)?,
                EntryKind::SequenceEnd | EntryKind::MappingEnd => open = open.checked_sub(1)?,
                _ => return None,
            }
            place += 1;
            if open == 0 {
                return Some(place);
            }
        }
        None
    }

    /// Steps over the next node.
    pub(crate) fn pass(&mut self) -> Result<(), Miss> {
        if self.is_bare() {
            return Err(self.lose());
        }
        match self.behind(self.spot.place) {
            Some(place) => {
                self.spot.place = place;
                self.spot.taken = false;
                self.spot.begun = false;
                Ok(())
            }
            None => Err(self.lose()),
        }
    }
}
