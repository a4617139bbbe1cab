//! The quick reading of a tape of one document, step by step.

use crate::frame::{Kind, Spot};
use std::alloc::Global;
use yaml_base::parse_tag;
use yaml_read::Limits;
use yaml_tape::{Entry, EntryKind, Tape};

/// Why a step answered nothing.
#[derive(Clone, Copy, Drop)]
pub(crate) enum Miss {
    /// What comes is something else, which the exact reading refuses too, though not for good.
    Other,
    /// The quick reading can't tell what the exact one answers.
    Lost,
}

/// Something open.
#[derive(Clone, Copy, Drop)]
pub(crate) struct TapeFrame {
    pub(crate) kind: Kind,
    /// The place behind the node that it is around.
    pub(crate) back: usize,
    /// How many frames there are up to the one around this one, and with it.
    pub(crate) outer: usize,
}

/// A reading of a tape that holds one document without an alias. It keeps no path and makes no fault: where a step is
/// not plainly a success, or plainly none, the reading is lost, and says nothing of the document.
#[derive(Drop)]
pub(crate) struct TapeReader<'a, 'de> {
    pub(crate) tape: &'a Tape<'de>,
    pub(crate) spot: Spot,
    /// What was opened. What lies above the innermost open one is kept while a mark is held.
    pub(crate) frames: Vec<TapeFrame>,
    /// How many marks are held.
    pub(crate) marks: usize,
    /// Whether a step could not tell what the exact reading answers.
    pub(crate) lost: bool,
}

impl<'a, 'de> TapeReader<'a, 'de> {
    /// A reading that stands before the document's node.
    pub(crate) fn new(alloc: Global, tape: &'a Tape<'de>) -> TapeReader<'a, 'de> {
        TapeReader {
            tape,
            spot: Spot {
                place: 2,
                top: 0,
                nestings: Limits::DEFAULT.nesting(),
                taken: false,
                begun: false,
            },
            frames: Vec::new(alloc),
            marks: 0,
            lost: false,
        }
    }

    /// Gives the reading up.
    #[cold]
    #[inline(never)]
    pub(crate) fn lose(&mut self) -> Miss {
        self.lost = true;
        Miss::Lost
    }

    /// The entry at which the reading stands.
    #[inline(always)]
    pub(crate) fn here(&self) -> Option<Entry> {
        Some(*self.tape.entries.get(self.spot.place)?)
    }

    /// The innermost open frame.
    #[inline(always)]
    pub(crate) fn open_frame(&self) -> Option<TapeFrame> {
        Some(*self.frames.get(self.spot.top.checked_sub(1)?)?)
    }

    /// Whether what comes next is the content of a variant that has none.
    #[inline(always)]
    pub(crate) fn is_bare(&self) -> bool {
        matches!(
            self.open_frame(),
            Some(TapeFrame {
                kind: Kind::Named,
                ..
            })
        )
    }

    /// Whether an entry has a tag that is not taken.
    #[inline(always)]
    pub(crate) fn has_tag(&self, entry: Entry) -> bool {
        if self.spot.taken {
            return false;
        }
        match (entry.names as usize).checked_sub(1) {
            None => false,
            Some(number) => match self.tape.names.get(number) {
                Some(names) => names.tag.is_some(),
                None => false,
            },
        }
    }

    /// The name of an entry's local tag, where it is not taken.
    #[inline(always)]
    pub(crate) fn tag_name(&self, entry: Entry) -> Option<&'a str> {
        if self.spot.taken || entry.names == 0 {
            return None;
        }
        let names = self.tape.names.get((entry.names as usize).checked_sub(1)?)?;
        parse_tag(names.tag.as_ref())
    }

    /// The bytes of a scalar.
    #[inline(always)]
    pub(crate) fn bytes_of(&self, entry: Entry) -> Option<&'a [u8]> {
        let tape: &'a Tape<'de> = self.tape;
        let (from, to) = (entry.from as usize, entry.to as usize);
        if entry.stored {
            tape.arena.get(from..to)
        } else {
            tape.text.get(from..to)
        }
    }

    /// The place behind the node that begins with an entry in a place, as the tape links it.
    #[inline(always)]
    pub(crate) fn link(&self, entry: Entry, place: usize) -> usize {
        if entry.kind.starts() {
            (entry.end as usize).saturating_add(1)
        } else {
            place.saturating_add(1)
        }
    }

    /// Goes on behind the scalar at which the reading stands.
    #[inline(always)]
    pub(crate) fn pass_scalar(&mut self) {
        self.spot.place = self.spot.place.saturating_add(1);
        self.spot.taken = false;
        self.spot.begun = false;
    }

    // What a node is that is asked for a scalar and is none.
    #[cold]
    #[inline(never)]
    fn miss_of(&mut self, kind: EntryKind) -> Miss {
        if kind.starts() && self.spot.nestings > 0 {
            return Miss::Other;
        }
        self.lose()
    }

    /// The scalar at which the reading stands, whatever its tag.
    #[inline(always)]
    pub(crate) fn scalar(&mut self) -> Result<Entry, Miss> {
        if self.is_bare() {
            return Err(Miss::Other);
        }
        let Some(entry) = self.here() else {
            return Err(self.lose());
        };
        if entry.kind != EntryKind::Scalar {
            return Err(self.miss_of(entry.kind));
        }
        Ok(entry)
    }

    /// The same of a scalar without a tag, or whose tag is taken.
    #[inline(always)]
    pub(crate) fn bare_scalar(&mut self) -> Result<Entry, Miss> {
        let entry = self.scalar()?;
        if self.has_tag(entry) {
            return Err(self.lose());
        }
        Ok(entry)
    }

    /// Puts a frame around what comes next.
    pub(crate) fn push(&mut self, kind: Kind, back: usize) -> Result<(), Miss> {
        if self.marks == 0 {
            self.frames.truncate(self.spot.top);
        }
        let frame = TapeFrame {
            kind,
            back,
            outer: self.spot.top,
        };
        if self.frames.push(frame).is_err() {
            return Err(self.lose());
        }
        self.spot.top = self.frames.len();
        Ok(())
    }

    /// Leaves what a frame is around, which is the innermost open one, to a place: the one behind its node.
    #[inline(always)]
    pub(crate) fn close(&mut self, frame: TapeFrame, place: usize) -> Result<(), Miss> {
        if frame.back != place {
            return Err(self.lose());
        }
        let nestings = match frame.kind {
            Kind::Items | Kind::Entries => self.spot.nestings.saturating_add(1),
            Kind::Empty | Kind::Tag | Kind::Named => self.spot.nestings,
        };
        self.spot = Spot {
            place,
            top: frame.outer,
            nestings,
            taken: false,
            begun: false,
        };
        Ok(())
    }
}
