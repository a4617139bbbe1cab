//! The events of what stands on a tape.

ghost use Rattle.std.specs.Prelude.{◌≡◌, ◌≢◌, ◌≤◌, IfErr, IfOk, IfSome, IsSomeAnd, drop, length, true};
ghost use Rattle.yaml_base.specs.PlainEvent.{alias, event_of, mapping_start, scalar, sequence_start};
ghost use Rattle.yaml_checked.specs.declared.place.Refusal.TheVariants as refusal;
ghost use Rattle.yaml_checked.specs.inner.EntryNames.{AreBehind};
ghost use Rattle.yaml_grammar.specs.Bytes.{is_text};
ghost use Rattle.yaml_parse.specs.PlainText.{SaysItsSource, SaysSource, scalar_in};
ghost use Rattle.yaml_parse.specs.Shown.{StandsAt};
ghost use Rattle.yaml_tape.specs.OnTape.{IsInside, anchor_in, names_at, or_empty, tag_in};

use crate::names::{copy_names, take_names};
use crate::place::Refusal;
use crate::rest::Rest;
use crate::scalar::scalar;
use std::alloc::{AllocError, Global};
use yaml_base::{Anchor, Event, MappingStart, SequenceStart};
use yaml_tape::{Entry, EntryKind, Names};

impl<'a> Rest<'a> {
    ghost use Rattle.yaml_checked.specs.inner.OnWay.{IsAsFar, event_at, scalar_on};

    // The names with this number, which are taken off the tape where those of the others stay, and else copied.
    #[inline(always)]
    #[tactic(auto, using(crate::proofs::NameLaws::taken_as_far, crate::proofs::NameLaws::stays_as_far))]
    fn names(&mut self, alloc: Global, number: u32) -> Result<Names, AllocError>
        requires named { number ≤ length self.old.tape.names.items }
        requires behind { self.old.lets_go ≡ true → AreBehind number (drop self.old.next self.old.tape.entries.items) }
        ensures stays { IsAsFar self.old self.new }
        ensures anchor { IfOk result (λ names. names.anchor ≡ anchor_in (names_at self.old.tape.names.items number)) }
        ensures tag { IfOk result (λ names. names.tag ≡ tag_in (names_at self.old.tape.names.items number)) }
    {
        if number == 0 {
            return Ok(Names {
                anchor: None,
                tag: None,
            });
        }
        if self.lets_go {
            return Ok(take_names(&mut self.tape, number));
        }
        copy_names(alloc, &self.tape, number)
    }

    // The alias of an entry. It has a name wherever the direct parser read one.
    fn alias(&mut self, alloc: Global, entry: Entry) -> Result<Event<'a>, AllocError>
        requires named { entry.names ≤ length self.old.tape.names.items }
        requires behind { self.old.lets_go ≡ true → AreBehind entry.names (drop self.old.next self.old.tape.entries.items) }
        ensures stays { IsAsFar self.old self.new }
        ensures event { IfOk result (λ event. event_of event
            ≡ alias (or_empty (anchor_in (names_at self.old.tape.names.items entry.names)))) }
    {
        let Names { anchor, .. } = self.names(alloc, entry.names)?;
        match anchor {
            Some(anchor) => Ok(Event::Alias(anchor)),
            None => Ok(Event::Alias(Anchor::new(Vec::new(alloc)))),
        }
    }

    // The sequence that begins with an entry.
    fn sequence(&mut self, alloc: Global, entry: Entry) -> Result<Event<'a>, AllocError>
        requires named { entry.names ≤ length self.old.tape.names.items }
        requires behind { self.old.lets_go ≡ true → AreBehind entry.names (drop self.old.next self.old.tape.entries.items) }
        ensures stays { IsAsFar self.old self.new }
        ensures event { IfOk result (λ event. event_of event
            ≡ sequence_start (anchor_in (names_at self.old.tape.names.items entry.names))
            (tag_in (names_at self.old.tape.names.items entry.names))) }
    {
        if entry.names == 0 {
            return Ok(Event::SequenceStart(SequenceStart {
                anchor: None,
                tag: None,
            }));
        }
        let Names { anchor, tag } = self.names(alloc, entry.names)?;
        Ok(Event::SequenceStart(SequenceStart { anchor, tag }))
    }

    // The mapping that begins with an entry.
    fn mapping(&mut self, alloc: Global, entry: Entry) -> Result<Event<'a>, AllocError>
        requires named { entry.names ≤ length self.old.tape.names.items }
        requires behind { self.old.lets_go ≡ true → AreBehind entry.names (drop self.old.next self.old.tape.entries.items) }
        ensures stays { IsAsFar self.old self.new }
        ensures event { IfOk result (λ event. event_of event
            ≡ mapping_start (anchor_in (names_at self.old.tape.names.items entry.names))
            (tag_in (names_at self.old.tape.names.items entry.names))) }
    {
        if entry.names == 0 {
            return Ok(Event::MappingStart(MappingStart {
                anchor: None,
                tag: None,
            }));
        }
        let Names { anchor, tag } = self.names(alloc, entry.names)?;
        Ok(Event::MappingStart(MappingStart { anchor, tag }))
    }

    // The scalar of an entry with a copy of its names.
    #[inline(always)]
    fn copied_scalar(&self, alloc: Global, entry: Entry) -> Result<Event<'a>, Refusal>
        requires some { 1 ≤ entry.names }
        requires inside { IsInside self.now.tape.text.now self.now.tape.arena.items self.now.tape.names.items entry }
        ensures event { IfOk result (λ event. event_of event ≡ scalar (scalar_on self.now.tape entry)) }
        ensures shown { IfOk result (λ event. IfSome (scalar_in (event_of event)) (λ s.
            IsSomeAnd s.source (StandsAt self.now.tape.text.now entry.index))) }
        ensures plain { IfOk result (λ event. SaysSource (event_of event)) }
        ensures untrue { IfErr result (λ r. r ≢ refusal.OutOfMemory → is_text self.now.tape.text.now ≡ true
            → SaysItsSource (scalar_on self.now.tape entry) → ⊥) }
    {
        let names = copy_names(alloc, &self.tape, entry.names)?;
        let found = scalar(alloc, &self.tape, entry, names)?;
        Ok(Event::Scalar(found))
    }

    // The scalar of an entry with its names, which the tape has no more.
    #[inline(always)]
    #[tactic(auto, using(crate::proofs::NameLaws::taken_as_far))]
    fn named_scalar(&mut self, alloc: Global, entry: Entry) -> Result<Event<'a>, Refusal>
        requires some { 1 ≤ entry.names }
        requires inside { IsInside self.old.tape.text.now self.old.tape.arena.items self.old.tape.names.items entry }
        requires behind { AreBehind entry.names (drop self.old.next self.old.tape.entries.items) }
        ensures stays { IsAsFar self.old self.new }
        ensures event { IfOk result (λ event. event_of event ≡ scalar (scalar_on self.old.tape entry)) }
        ensures shown { IfOk result (λ event. IfSome (scalar_in (event_of event)) (λ s.
            IsSomeAnd s.source (StandsAt self.old.tape.text.now entry.index))) }
        ensures plain { IfOk result (λ event. SaysSource (event_of event)) }
        ensures untrue { IfErr result (λ r. r ≢ refusal.OutOfMemory → is_text self.old.tape.text.now ≡ true
            → SaysItsSource (scalar_on self.old.tape entry) → ⊥) }
    {
        let names = take_names(&mut self.tape, entry.names);
        let found = scalar(alloc, &self.tape, entry, names)?;
        Ok(Event::Scalar(found))
    }

    // The scalar of an entry.
    #[inline(always)]
    #[tactic(auto, using(crate::proofs::WayLaws::without_names))]
    fn scalar(&mut self, alloc: Global, entry: Entry) -> Result<Event<'a>, Refusal>
        requires inside { IsInside self.old.tape.text.now self.old.tape.arena.items self.old.tape.names.items entry }
        requires behind { self.old.lets_go ≡ true → AreBehind entry.names (drop self.old.next self.old.tape.entries.items) }
        ensures stays { IsAsFar self.old self.new }
        ensures event { IfOk result (λ event. event_of event ≡ scalar (scalar_on self.old.tape entry)) }
        ensures shown { IfOk result (λ event. IfSome (scalar_in (event_of event)) (λ s.
            IsSomeAnd s.source (StandsAt self.old.tape.text.now entry.index))) }
        ensures plain { IfOk result (λ event. SaysSource (event_of event)) }
        ensures untrue { IfErr result (λ r. r ≢ refusal.OutOfMemory → is_text self.old.tape.text.now ≡ true
            → SaysItsSource (scalar_on self.old.tape entry) → ⊥) }
    {
        if entry.names == 0 {
            let names = Names {
                anchor: None,
                tag: None,
            };
            let found = scalar(alloc, &self.tape, entry, names)?;
            return Ok(Event::Scalar(found));
        }
        if self.lets_go {
            return self.named_scalar(alloc, entry);
        }
        self.copied_scalar(alloc, entry)
    }

    // The event of an entry of the tape.
    #[inline(always)]
    pub(crate) fn event(&mut self, alloc: Global, entry: Entry) -> Result<Event<'a>, Refusal>
        requires inside { IsInside self.old.tape.text.now self.old.tape.arena.items self.old.tape.names.items entry }
        requires behind { self.old.lets_go ≡ true → AreBehind entry.names (drop self.old.next self.old.tape.entries.items) }
        ensures stays { IsAsFar self.old self.new }
        ensures event { IfOk result (λ event. event_of event ≡ event_at self.old.tape entry) }
        ensures shown { IfOk result (λ event. IfSome (scalar_in (event_of event)) (λ s.
            IsSomeAnd s.source (StandsAt self.old.tape.text.now entry.index))) }
        ensures plain { IfOk result (λ event. SaysSource (event_of event)) }
        ensures untrue { IfErr result (λ r. r ≢ refusal.OutOfMemory → is_text self.old.tape.text.now ≡ true
            → SaysSource (event_at self.old.tape entry) → ⊥) }
    {
        match entry.kind {
            EntryKind::StreamStart => Ok(Event::StreamStart),
            EntryKind::StreamEnd => Ok(Event::StreamEnd),
            EntryKind::DocumentStart => Ok(Event::DocumentStart),
            EntryKind::DocumentEnd => Ok(Event::DocumentEnd),
            EntryKind::SequenceEnd => Ok(Event::SequenceEnd),
            EntryKind::MappingEnd => Ok(Event::MappingEnd),
            EntryKind::Scalar => self.scalar(alloc, entry),
            EntryKind::Alias => Ok(self.alias(alloc, entry)?),
            EntryKind::SequenceStart => Ok(self.sequence(alloc, entry)?),
            EntryKind::MappingStart => Ok(self.mapping(alloc, entry)?),
        }
    }
}
