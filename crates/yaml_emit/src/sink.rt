//! What takes events one by one.

ghost use Rattle.std.specs.Prelude.{◌≡◌, ◌∷◌, ◌++◌, [], List, OnErr, OnOk};
ghost use Rattle.yaml_base.specs.EmitEvents.{PlainEmit, emit_of, emit_scalar, tag_bytes};

use crate::emitter::Emitter;
use crate::leaf::lent_tag;
use std::alloc::{AllocError, Global};
use yaml_base::emitter::{AskedStyle, EmitEvent};

/// What takes events one by one: a list of them, or an emitter, which prints each at once.
pub trait EventSink: Drop {
    // The events that it has taken.
    ghost events: { Self → List PlainEmit };

    /// The allocator of what is made for it.
    fn alloc(&self) -> Global;

    /// Makes room for so many events more, if it keeps them. The only error is want of memory.
    fn reserve(&mut self, count: usize) -> Result<(), AllocError>
        ensures { events self.new ≡ events self.old };

    /// Takes an event behind the others. The only error is want of memory.
    fn take(&mut self, event: EmitEvent) -> Result<(), AllocError>
        ensures taken { OnOk result (events self.new ≡ events self.old ++ emit_of event ∷ []) }
        ensures err { OnErr result (events self.new ≡ events self.old) };

    /// Takes a scalar behind the others, whose text is copied where it is kept. The only error is want of memory.
    fn take_scalar(
        &mut self,
        tag: Option<String>,
        text: &str,
        style: AskedStyle,
    ) -> Result<(), AllocError>
        ensures taken { OnOk result
            (events self.new ≡ events self.old ++ emit_scalar (tag_bytes tag) text.now style ∷ []) }
        ensures err { OnErr result (events self.new ≡ events self.old) };
}

impl EventSink for Emitter {
    ghost events = { λ e. e.taken };

    fn alloc(&self) -> Global {
        Emitter::alloc(self)
    }

    fn reserve(&mut self, _count: usize) -> Result<(), AllocError> {
        Ok(())
    }

    #[inline(always)]
    fn take(&mut self, event: EmitEvent) -> Result<(), AllocError> {
        self.push(&event)
    }

    #[inline(always)]
    fn take_scalar(
        &mut self,
        tag: Option<String>,
        text: &str,
        style: AskedStyle,
    ) -> Result<(), AllocError> {
        self.push_scalar(lent_tag(&tag), text, style)
    }
}
