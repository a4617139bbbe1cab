//! A tape, and what is kept on it beside its events.

ghost use Rattle.std.specs.Prelude.{◌≡◌, ◌≤◌, ◌<◌, ◌^◌, ◌++◌, ◌∷◌, [], All, IfNone, IfSome, IsTrue, None, Some};
ghost use Rattle.std.specs.Prelude.{length, take, true, false, vec_capacity, vec_len};
ghost use Rattle.yaml_tape.specs.OnTape.{IsInside};

use crate::entry::{Entry, EntryKind, Names, Spot};
use std::alloc::Global;
use std::mem;
use yaml_base::ScalarStyle;

// The longest text, and the most entries, that places of 32 bits can tell of.
pub(crate) const LONGEST: usize = 0xFFFF_FFFF;

/// The events of a text.
#[derive(Drop)]
pub struct Tape<'t> {
    /// The source.
    pub text: &'t [u8],
    /// The events.
    pub entries: Vec<Entry>,
    /// The texts that the source does not show.
    pub arena: Vec<u8>,
    /// Anchors, tags and the names of aliases.
    pub names: Vec<Names>,
    ghost short: { length text.now < 2 ^ 32 },
    ghost few: { length arena.items < 2 ^ 32 },
    ghost fewer: { length names.items < 2 ^ 32 },
    ghost inside: { All (IsInside text.now arena.items names.items) entries.items },
}

const _: () = prove!(std::mem::size_of::<Entry>() == 24);

impl<'t> Tape<'t> {
    ghost use Rattle.yaml_tape.specs.OnTape.{IsInside, bare_entry, bound_event, event_by, is_bound, names_at};
    ghost use Rattle.yaml_tape.specs.Pushes.{Adds, EndsAt, Stays, marked_on};

    /// An empty tape, if the text is short enough for one.
    pub fn new(alloc: Global, text: &'t [u8]) -> Option<Tape<'t>>
        ensures text { IfSome result (λ t. t.text.now ≡ text.now) }
        ensures empty { IfSome result (λ t. marked_on t ≡ []) }
        ensures none { IfNone result (2 ^ 32 ≤ length text.now) }
    {
        if text.len() > LONGEST {
            return None;
        }
        Some(Tape {
            text,
            entries: Vec::new(alloc),
            arena: Vec::new(alloc),
            names: Vec::new(alloc),
        })
    }

    /// What stands on the tape, which is empty then.
    pub fn take(&mut self, alloc: Global) -> Tape<'t>
        ensures text { self.new.text.now ≡ self.old.text.now }
        ensures of_text { result.text.now ≡ self.old.text.now }
        ensures taken { marked_on result ≡ marked_on self.old }
        ensures empty { marked_on self.new ≡ [] }
    {
        let entries = mem::replace(&mut self.entries, Vec::new(alloc));
        let arena = mem::replace(&mut self.arena, Vec::new(alloc));
        let names = mem::replace(&mut self.names, Vec::new(alloc));
        Tape {
            text: self.text,
            entries,
            arena,
            names,
        }
    }

    // Whether there is room for an entry, which is taken if need be.
    #[inline(always)]
    fn has_room(&mut self) -> bool
        ensures text { self.new.text.now ≡ self.old.text.now }
        ensures entries { self.new.entries.items ≡ self.old.entries.items }
        ensures arena { self.new.arena.items ≡ self.old.arena.items }
        ensures names { self.new.names.items ≡ self.old.names.items }
        ensures room { result ≡ true → vec_len self.new.entries < vec_capacity self.new.entries }
    {
        if self.entries.len() < self.entries.capacity() {
            return true;
        }
        self.entries.reserve(1).is_ok()
    }

    // Adds an entry.
    #[inline(always)]
    #[tactic(auto, using(crate::proofs::Growing::pushed, crate::proofs::Growing::inside_pushed))]
    pub(crate) fn push_entry(&mut self, entry: Entry) -> bool
        requires { IsInside self.old.text.now self.old.arena.items self.old.names.items entry }
        ensures added { result ≡ true → Adds self.old self.new
            (event_by entry.kind self.old.text.now self.old.arena.items self.old.names.items entry)
            (record { index = entry.index; late = entry.late }) }
        ensures kept { result ≡ false → Stays self.old self.new }
        ensures entries { result ≡ true → self.new.entries.items ≡ self.old.entries.items ++ entry ∷ [] }
    {
        if !self.has_room() {
            return false;
        }
        self.entries.push_reserved(entry);
        true
    }

    // An entry without a text, with the names of this number.
    #[inline(always)]
    pub(crate) fn bare(&self, kind: EntryKind, spot: Spot, names: u32) -> Entry
        requires { spot.index ≤ length self.now.text.now }
        ensures { result ≡ bare_entry kind spot names }
    {
        Entry {
            index: spot.index as u32,
            from: 0,
            to: 0,
            end: 0,
            names,
            kind,
            style: ScalarStyle::Plain,
            stored: false,
            late: spot.late,
        }
    }

    /// Adds the start or the end of the stream or of a document. It answers whether there was memory, as all that add
    /// do.
    #[inline(always)]
    #[tactic(auto, using(crate::proofs::Growing::of_bound))]
    pub fn push_bound(&mut self, kind: EntryKind, spot: Spot) -> bool
        requires bound { IsTrue (is_bound kind) }
        requires within { spot.index ≤ length self.old.text.now }
        ensures added { result ≡ true → Adds self.old self.new (bound_event kind) spot }
        ensures kept { result ≡ false → Stays self.old self.new }
    {
        let entry = self.bare(kind, spot, 0);
        self.push_entry(entry)
    }

    /// Adds the end of the collection whose start stands in this place, which then says where it ends.
    #[inline(always)]
    #[tactic(auto, using(crate::proofs::Growing::of_bound, crate::proofs::Ends::ends_behind))]
    pub fn push_end(&mut self, kind: EntryKind, spot: Spot, start: usize) -> bool
        requires bound { IsTrue (is_bound kind) }
        requires within { spot.index ≤ length self.old.text.now }
        ensures added { result ≡ true → Adds self.old self.new (bound_event kind) spot }
        ensures kept { result ≡ false → Stays self.old self.new }
        ensures linked { result ≡ true → EndsAt self.new.entries.items start (length self.old.entries.items) }
    {
        let end = self.entries.len();
        if end > LONGEST {
            return false;
        }
        self.close(start, end as u32);
        let entry = self.bare(kind, spot, 0);
        self.push_entry(entry)
    }

    // Keeps where the collection ends whose start stands in this place, if one does.
    #[inline(always)]
    #[tactic(auto, using(crate::proofs::Growing::closed, crate::proofs::Ends::ends_here, crate::proofs::Ends::ends_not, crate::proofs::Ends::ends_past))]
    pub(crate) fn close(&mut self, start: usize, end: u32)
        ensures kept { Stays self.old self.new }
        ensures linked { EndsAt self.new.entries.items start end }
        ensures count { length self.new.entries.items ≡ length self.old.entries.items }
    {
        if start < self.entries.len() {
            let entry = self.entries[start];
            if entry.kind.starts() {
                self.entries[start] = Entry { end, ..entry };
            }
        }
    }

    /// Takes off all events behind so many.
    #[tactic(auto, using(crate::proofs::Growing::cut, crate::proofs::Growing::inside_cut))]
    pub fn cut(&mut self, count: usize)
        ensures text { self.new.text.now ≡ self.old.text.now }
        ensures events { marked_on self.new ≡ take count (marked_on self.old) }
    {
        self.entries.truncate(count);
    }

    /// Keeps an anchor and a tag, and gives their number.
    #[tactic(auto, using(crate::proofs::Growing::marked_named, crate::proofs::Growing::inside_named, crate::proofs::Growing::names_behind))]
    pub fn keep_names(&mut self, names: Names) -> Option<u32>
        ensures kept { Stays self.old self.new }
        ensures arena { self.new.arena.items ≡ self.old.arena.items }
        ensures names { IfSome result (λ id. (id ≤ length self.new.names.items)
            × (names_at self.new.names.items id ≡ Some names)) }
    {
        if self.names.len() >= LONGEST {
            return None;
        }
        match self.names.push(names) {
            Ok(()) => Some(self.names.len() as u32),
            Err(_) => None,
        }
    }
}
