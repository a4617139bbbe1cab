//! What is told of calls.

use crate::events::show_events;
use crate::outcome::Outcome;
use std::alloc::{AllocError, Global};
use yaml_base::Error;
use yaml_base::emitter::EmitEvent;
use yaml_write::OpenKind;

// The name of a kind of collection.
fn kind_name(kind: OpenKind) -> &'static str {
    match kind {
        OpenKind::Seq => "seq",
        OpenKind::Tuple => "tuple",
        OpenKind::TupleStruct => "tuple_struct",
        OpenKind::TupleVariant => "tuple_variant",
        OpenKind::Map => "map",
        OpenKind::Struct => "struct",
        OpenKind::StructVariant => "struct_variant",
    }
}

/// What is told by now: a line for each event, for each refusal, and for each look at what is open.
#[derive(Drop)]
pub struct Log {
    text: String,
    // how many events are told
    events: usize,
    // whether a call was refused
    refused: bool,
}

impl Log {
    /// Nothing is told.
    pub fn new(alloc: Global) -> Log {
        Log {
            text: String::new(alloc),
            events: 0,
            refused: false,
        }
    }

    // Begins a line.
    fn begin_line(&mut self) -> Result<(), AllocError> {
        if self.text.is_empty() {
            return Ok(());
        }
        self.text.push('\n')
    }

    /// Tells those of all events that are not told yet.
    pub fn tell_events(&mut self, events: &[EmitEvent]) -> Result<(), AllocError> {
        let (_, added) = events.split_at(self.events.min(events.len()));
        if added.is_empty() {
            return Ok(());
        }
        self.begin_line()?;
        show_events(&mut self.text, added)?;
        self.events = events.len();
        Ok(())
    }

    /// Tells why a call was refused.
    pub fn tell_refusal(&mut self, fault: &Error) -> Result<(), AllocError> {
        self.refused = true;
        self.begin_line()?;
        write!(self.text, "! {fault}")
    }

    /// Tells what is open.
    pub fn tell_open(&mut self, open: Option<(OpenKind, bool)>) -> Result<(), AllocError> {
        self.begin_line()?;
        self.text.push('(')?;
        if let Some((kind, awaits_value)) = open {
            self.text.push_str(kind_name(kind))?;
            self.text
                .push_str(if awaits_value { " value" } else { "" })?;
        }
        self.text.push(')')
    }

    /// All that is told, and whether a call was refused.
    pub fn into_outcome(self) -> Outcome {
        if self.refused {
            Outcome::Fault(self.text)
        } else {
            Outcome::Done(self.text)
        }
    }
}
