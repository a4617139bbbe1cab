//! An emitter that takes events one by one.

ghost use Rattle.std.specs.Prelude.{◌≡◌, ◌∷◌, ◌++◌, ◌≤◌, ℕ, List, [], Some, None, true, false, IfErr, IfOk, OnErr};
ghost use Rattle.std.specs.Prelude.{OnOk, length, string_bytes};
ghost use Rattle.std.specs.Option.{option_map};
ghost use Rattle.yaml_base.specs.Answer.{is_memory};
ghost use Rattle.yaml_base.specs.EmitEvents.{PlainEmit, emit_of, emit_scalar};
ghost use Rattle.yaml_base.specs.EmitTree.{IsEmitStream};
ghost use Rattle.yaml_base.specs.declared.error.Cause.TheVariants.{NotAStream};
ghost use Rattle.yaml_emit.specs.Emitted.{Emitted};
ghost use Rattle.yaml_emit.specs.Emitting.{Continues, Ends, HasTaken, IsCopiedStart, held_events, is_short, left_unless};
ghost use Rattle.yaml_emit.specs.LayoutMachine.{is_mapping_end, is_sequence_end, laid, printed_from};
ghost use Rattle.yaml_emit.specs.StreamTexts.{IsStreamText};
ghost use Rattle.yaml_emit.specs.declared.emitter.Progress.TheVariants.{Short, Wrong};
ghost use Rattle.yaml_emit.specs.declared.stop.Stop.TheVariants.{OutOfPlace};

use crate::layout::Layout;
use crate::leaf::{Content, Leaf, copied_tag};
use crate::noted::{Noted, note, note_scalar};
use crate::stop::Stop;
use crate::stream::{hollow_at, is_mapping_end, is_sequence_end, take_one};
use std::alloc::{AllocError, Global};
use std::marker::Model;
use yaml_base::emitter::{AskedStyle, EmitEvent, Mapping, Sequence};
use yaml_base::{Cause, Error, History, Result};

// How far an emitter has come.
#[derive(Clone, Copy)]
pub(crate) enum Progress {
    // Each event stands where it may.
    Going,
    // The event in this place may not stand there.
    Wrong(usize),
    // Memory ran out.
    Short,
}

// What an emitter holds of its events.
#[derive(Drop)]
pub(crate) struct Printing {
    alloc: Global,
    layout: Layout,
    // The start of a collection, until the next event tells whether that is empty.
    held: Option<EmitEvent>,
    progress: Progress,
    // How many events were taken.
    count: usize,
}

// A copy of the event, if it is the start of a collection.
fn copied_start(
    alloc: Global,
    event: &EmitEvent,
) -> std::result::Result<Option<EmitEvent>, AllocError>
    ensures { IfOk result (IsCopiedStart (emit_of event.now)) }
{
    match event {
        EmitEvent::SequenceStart(start) => {
            let tag = copied_tag(alloc, &start.tag)?;
            Ok(Some(EmitEvent::SequenceStart(Sequence { tag })))
        }
        EmitEvent::MappingStart(start) => {
            let tag = copied_tag(alloc, &start.tag)?;
            Ok(Some(EmitEvent::MappingStart(Mapping { tag })))
        }
        _ => Ok(None),
    }
}

// Adds what the start of a collection is printed as, with the event behind it where that is its end: and tells whether
// it is.
fn take_held(
    layout: &mut Layout,
    start: &EmitEvent,
    event: &EmitEvent,
) -> std::result::Result<bool, Stop>
    ensures { Continues
        (λ rest. printed_from (Some (laid layout.old)) (emit_of start.now ∷ emit_of event.now ∷ rest))
        (λ ends. left_unless ends (emit_of event.now)) (laid layout.new) result }
{
    if let Some(leaf) = hollow_at(start, is_sequence_end(event), is_mapping_end(event)) {
        layout.push_leaf(leaf)?;
        return Ok(true);
    }
    take_one(layout, start)?;
    Ok(false)
}

// Adds what the event that is held back is printed as, if there is one, with the event behind it where that is its end:
// and tells whether it is. None is held back any more.
fn take_behind(
    layout: &mut Layout,
    held: &mut Option<EmitEvent>,
    event: &EmitEvent,
) -> std::result::Result<bool, Stop>
    ensures run { Continues
        (λ rest. printed_from (Some (laid layout.old)) (held_events held.old ++ (emit_of event.now ∷ rest)))
        (λ ends. left_unless ends (emit_of event.now)) (laid layout.new) result }
    ensures none { held.new ≡ None }
{
    match held.take() {
        Some(start) => take_held(layout, &start, event),
        None => Ok(false),
    }
}

// Adds what the event that is held back is printed as, if there is one, where no end follows. None is held back any more.
fn take_begun(layout: &mut Layout, held: &mut Option<EmitEvent>) -> std::result::Result<(), Stop>
    ensures run { (e : PlainEmit) → is_sequence_end e ≡ false → is_mapping_end e ≡ false → Continues
        (λ rest. printed_from (Some (laid layout.old)) (held_events held.old ++ (e ∷ rest))) (λ _. e ∷ [])
        (laid layout.new) result }
    ensures none { held.new ≡ None }
{
    match held.take() {
        Some(start) => take_one(layout, &start),
        None => Ok(()),
    }
}

// Adds what the event that is held back is printed as, if there is one, where no other follows.
fn take_last(layout: &mut Layout, held: &Option<EmitEvent>) -> std::result::Result<(), Stop>
    ensures { Ends (printed_from (Some (laid layout.old)) (held_events held.now)) (laid layout.new) result }
{
    match held {
        Some(start) => take_one(layout, start),
        None => Ok(()),
    }
}

// Adds what an event is printed as, or holds it back, if it is the start of a collection.
fn take_or_hold(
    alloc: Global,
    layout: &mut Layout,
    held: &mut Option<EmitEvent>,
    event: &EmitEvent,
) -> std::result::Result<(), Stop>
    requires { held.old ≡ None }
    ensures { Continues (λ rest. printed_from (Some (laid layout.old)) (emit_of event.now ∷ rest))
        (λ _. held_events held.new) (laid layout.new) result }
{
    match copied_start(alloc, event)? {
        Some(start) => {
            *held = Some(start);
            Ok(())
        }
        None => take_one(layout, event),
    }
}

// The fault of what stops at the event in this place.
fn fault(stop: Stop, place: usize) -> Error
    ensures place { is_memory result ≡ false → result ≡ NotAStream place }
    ensures out_of_place { is_memory result ≡ false → stop ≡ OutOfPlace }
{
    match stop {
        Stop::OutOfPlace => Error::new(Cause::NotAStream(place)),
        Stop::Memory => Error::new(Cause::Memory),
    }
}

impl Printing {
    // Nothing was taken. Takes no memory.
    fn new(alloc: Global) -> Printing
        ensures taken { HasTaken result [] }
        ensures going { is_short result.progress ≡ false }
    {
        Printing {
            alloc,
            layout: Layout::new(alloc),
            held: None,
            progress: Progress::Going,
            count: 0,
        }
    }

    // Goes no further: the event in this place may not stand there, or memory ran out.
    fn stopped(&mut self, stop: Stop, place: usize) -> std::result::Result<(), AllocError>
        ensures ok { OnOk result ((stop ≡ OutOfPlace) × (self.new.progress ≡ Wrong place)) }
        ensures err { OnErr result (self.new.progress ≡ Short) }
    {
        match stop {
            Stop::OutOfPlace => {
                self.progress = Progress::Wrong(place);
                Ok(())
            }
            Stop::Memory => {
                self.progress = Progress::Short;
                Err(AllocError)
            }
        }
    }

    // Takes an event behind the others.
    fn take(&mut self, event: &EmitEvent) -> std::result::Result<(), AllocError>
        ensures taken { OnOk result ((taken : List PlainEmit) → HasTaken self.old taken
            → HasTaken self.new (taken ++ emit_of event.now ∷ [])) }
        ensures going { OnOk result (is_short self.old.progress ≡ false) }
        ensures still { OnOk result (is_short self.new.progress ≡ false) }
        ensures short { OnErr result (self.new.progress ≡ Short) }
    {
        match self.progress {
            Progress::Going => {}
            Progress::Wrong(_) => return Ok(()),
            Progress::Short => return Err(AllocError),
        }
        match take_behind(&mut self.layout, &mut self.held, event) {
            Ok(true) => {
                self.count = self.count.saturating_add(1);
                return Ok(());
            }
            Ok(false) => {}
            Err(stop) => return self.stopped(stop, self.count.saturating_sub(1)),
        }
        match take_or_hold(self.alloc, &mut self.layout, &mut self.held, event) {
            Ok(()) => {
                self.count = self.count.saturating_add(1);
                Ok(())
            }
            Err(stop) => self.stopped(stop, self.count),
        }
    }

    // Takes a scalar behind the others.
    fn take_scalar(
        &mut self,
        tag: Option<&str>,
        text: &str,
        style: AskedStyle,
    ) -> std::result::Result<(), AllocError>
        ensures taken { OnOk result ((taken : List PlainEmit) → HasTaken self.old taken → HasTaken self.new
            (taken ++ emit_scalar (option_map (λ t. t.now) tag.entry) text.now style ∷ [])) }
        ensures going { OnOk result (is_short self.old.progress ≡ false) }
        ensures still { OnOk result (is_short self.new.progress ≡ false) }
        ensures short { OnErr result (self.new.progress ≡ Short) }
    {
        match self.progress {
            Progress::Going => {}
            Progress::Wrong(_) => return Ok(()),
            Progress::Short => return Err(AllocError),
        }
        if let Err(stop) = take_begun(&mut self.layout, &mut self.held) {
            return self.stopped(stop, self.count.saturating_sub(1));
        }
        let content = Content::Scalar(text, style);
        if let Err(stop) = self.layout.push_leaf(Leaf { tag, content }) {
            return self.stopped(stop, self.count);
        }
        self.count = self.count.saturating_add(1);
        Ok(())
    }

    // The text, if what was taken is a stream.
    fn into_text(self) -> Result<String>
        ensures going { IfOk result (λ _. is_short self.progress ≡ false) }
        ensures known { IfErr result (λ cause. is_memory cause ≡ false → is_short self.progress ≡ false) }
        ensures printed { IfOk result (λ text. (taken : List PlainEmit) → HasTaken self taken
            → IsStreamText taken (string_bytes text)) }
        ensures refused { IfErr result (λ cause. is_memory cause ≡ false → (taken : List PlainEmit)
            → HasTaken self taken → (place : ℕ) × (cause ≡ NotAStream place) × (place ≤ length taken)) }
        ensures no_stream { IfErr result (λ cause. is_memory cause ≡ false → (taken : List PlainEmit)
            → HasTaken self taken → IsEmitStream taken → ⊥) }
    {
        match self.progress {
            Progress::Going => {}
            Progress::Wrong(place) => return Err(Error::new(Cause::NotAStream(place))),
            Progress::Short => return Err(Error::new(Cause::Memory)),
        }
        let mut layout = self.layout;
        match take_last(&mut layout, &self.held) {
            Ok(()) => {}
            Err(stop) => return Err(fault(stop, self.count.saturating_sub(1))),
        }
        match layout.into_text() {
            Some(text) => Ok(text),
            None => Err(Error::new(Cause::NotAStream(self.count))),
        }
    }
}

/// Takes the events of a stream one by one, and gives its text at the end: documents with `---` between them,
/// collections as blocks, two blanks a level, sequences in mappings at the level of the mapping, empty ones as `[]` and
/// `{}`, and scalars and tags as `push_scalar` and `push_tag` add them. Contracts see it as the list of the plain events
/// that it has taken, and whether memory ran out. It keeps their text, and the start of one collection at most.
///
/// An event that may not stand where it does is taken as any other, and `finish` tells of it. Where memory runs out, the
/// event is not taken, and from then on each call answers want of memory.
#[derive(Drop)]
pub struct Emitter {
    printing: Printing,
    taken: History<Noted>,
}

impl Model for Emitter {
    ghost use Rattle.std.specs.Prelude.{map};
    ghost use Rattle.yaml_emit.specs.Emitted.{Emitted};
    ghost use Rattle.yaml_emit.specs.Emitting.{HasTaken, is_short};
    ghost use Rattle.yaml_emit.specs.Noted.{noted_of};

    ghost Value = { Emitted };

    ghost view = { λ e. record { taken = map noted_of e.taken.items; failed = is_short e.printing.progress } };

    ghost invariant = { λ e. HasTaken e.printing (map noted_of e.taken.items) };
}

impl Emitter {
    /// No event was taken. Takes no memory.
    pub fn new(alloc: Global) -> Emitter
        ensures { result ≡ (record { taken = []; failed = false }) }
    {
        Emitter {
            printing: Printing::new(alloc),
            taken: History::new(),
        }
    }

    /// The allocator.
    pub fn alloc(&self) -> Global {
        self.printing.alloc
    }

    /// Takes an event behind the others. The only error is want of memory, which then is the answer of each further call.
    pub fn push(&mut self, event: &EmitEvent) -> std::result::Result<(), AllocError>
        ensures going { OnOk result (self.old.failed ≡ false) }
        ensures taken { OnOk result
            (self.new ≡ (record { taken = self.old.taken ++ emit_of event.now ∷ []; failed = false })) }
        ensures err { OnErr result (self.new ≡ (record { taken = self.old.taken; failed = true })) }
    {
        self.printing.take(event)?;
        self.taken = History::with(&self.taken, &note(event));
        Ok(())
    }

    /// The same of a scalar, which is lent.
    pub fn push_scalar(
        &mut self,
        tag: Option<&str>,
        text: &str,
        style: AskedStyle,
    ) -> std::result::Result<(), AllocError>
        ensures going { OnOk result (self.old.failed ≡ false) }
        ensures taken { OnOk result (self.new ≡ (record {
          taken = self.old.taken ++ emit_scalar (option_map (λ t. t.now) tag.entry) text.now style ∷ [];
          failed = false;
        })) }
        ensures err { OnErr result (self.new ≡ (record { taken = self.old.taken; failed = true })) }
    {
        self.printing.take_scalar(tag, text, style)?;
        self.taken = History::with(&self.taken, &note_scalar(tag, text, style));
        Ok(())
    }

    /// The text of the stream. Events that are no whole stream are refused, with the place of the first that is wrong.
    /// Where memory ran out, there is no text.
    pub fn finish(self) -> Result<String>
        ensures going { IfOk result (λ _. self.failed ≡ false) }
        ensures printed { IfOk result (λ text. IsStreamText self.taken (string_bytes text)) }
        ensures known { IfErr result (λ cause. is_memory cause ≡ false → self.failed ≡ false) }
        ensures refused { IfErr result (λ cause. is_memory cause ≡ false
            → (place : ℕ) × (cause ≡ NotAStream place) × (place ≤ length self.taken)) }
        ensures no_stream { IfErr result (λ cause. is_memory cause ≡ false → IsEmitStream self.taken → ⊥) }
    {
        self.printing.into_text()
    }
}
