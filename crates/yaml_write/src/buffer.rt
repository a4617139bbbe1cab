//! Events that are kept in a list.

ghost use Rattle.std.specs.Prelude.{◌≡◌, [], length, map, take};
ghost use Rattle.yaml_base.specs.EmitEvents.{emit_of};

use std::alloc::{AllocError, Global};
use std::marker::Model;
use yaml_base::emitter::{AskedStyle, EmitEvent, EmitScalar};
use yaml_emit::EventSink;

/// Events in order, and the allocator of all that is made for them. Contracts see it as its list of plain events.
#[derive(Drop)]
pub struct EventBuffer {
    events: Vec<EmitEvent>,
    alloc: Global,
}

impl Model for EventBuffer {
    ghost use Rattle.std.specs.Prelude.{List, map};
    ghost use Rattle.yaml_base.specs.EmitEvents.{PlainEmit, emit_of};

    ghost Value = { List PlainEmit };

    ghost view = { λ b. map emit_of b.events.items };
}

impl EventBuffer {
    /// No events yet. Takes no memory.
    pub fn new(alloc: Global) -> EventBuffer
        ensures { result ≡ [] }
    {
        EventBuffer {
            events: Vec::new(alloc),
            alloc,
        }
    }

    // The events.
    pub(crate) fn as_slice(&self) -> &[EmitEvent]
        ensures { map emit_of result.now ≡ self.now }
    {
        self.events.as_slice()
    }

    /// The events, handed out.
    pub fn into_events(self) -> Vec<EmitEvent>
        ensures { map emit_of result.items ≡ self }
    {
        self.events
    }

    // How many events there are.
    pub(crate) fn len(&self) -> usize
        ensures { result ≡ length self.now }
    {
        self.events.len()
    }

    // Lets go all but so many events.
    pub(crate) fn truncate(&mut self, held: usize)
        ensures { self.new ≡ take held self.old }
    {
        self.events.truncate(held);
    }
}

impl EventSink for EventBuffer {
    ghost events = { λ b. b };

    fn alloc(&self) -> Global {
        self.alloc
    }

    fn reserve(&mut self, count: usize) -> Result<(), AllocError> {
        self.events.reserve(count)
    }

    // An event is made where it lies, as is a scalar: hence the hints.
    #[inline(always)]
    fn take(&mut self, event: EmitEvent) -> Result<(), AllocError> {
        self.events.reserve(1)?;
        self.events.push_reserved(event);
        Ok(())
    }

    #[inline(always)]
    fn take_scalar(
        &mut self,
        tag: Option<String>,
        text: &str,
        style: AskedStyle,
    ) -> Result<(), AllocError> {
        let value = String::from_str(self.alloc, text)?;
        self.take(EmitEvent::Scalar(EmitScalar { tag, value, style }))
    }
}
