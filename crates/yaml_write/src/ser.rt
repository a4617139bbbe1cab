//! Data to events, call by call.

ghost use Rattle.std.specs.Prelude.{◌≡◌, ◌++◌, ◌∷◌, [], map, IfErr, IfOk, IsOk};
ghost use Rattle.yaml_base.specs.EmitEvents.{emit_of, emit_stream_start, emit_stream_end};
ghost use Rattle.yaml_base.specs.EmitTree.{IsEmitStream};
ghost use Rattle.yaml_base.specs.declared.error.Cause.TheVariants.{Memory};
ghost use Rattle.yaml_write.specs.Begun.{AreDocuments, IsBegun};
ghost use Rattle.yaml_write.specs.CollectionView.{told};
ghost use Rattle.yaml_write.specs.Opened.{innermost};

mod change;
mod collection;
mod part;
mod value;

use crate::all_or_none::EventList;
use crate::buffer::EventBuffer;
use crate::open::{Open, OpenKind};
use crate::writer::NodeWriter;
use std::alloc::Global;
use std::marker::Model;
use yaml_base::emitter::EmitEvent;
use yaml_base::{Error, Result};

/// Writes data as events for an emitter. Contracts see its events and the collections that are open, the innermost
/// first.
///
/// Each call adds its events, or it is refused and changes nothing. Where nothing is open, a value is a document of its
/// own; else it is the next part of the collection that was opened last.
#[derive(Drop)]
pub struct Serializer {
    written: EventList,
    opened: Vec<Open>,
    alloc: Global,
}

impl Model for Serializer {
    ghost use Rattle.yaml_write.specs.CollectionView.{open_collections};
    ghost use Rattle.yaml_write.specs.Writing.{Writing};

    ghost Value = { Writing };

    ghost view = { λ s. record { events = s.written; opened = open_collections s.opened.items } };

    ghost use Rattle.yaml_write.specs.Begun.{IsBegun};

    ghost invariant = { λ s.
        IsBegun (record { events = s.written; opened = open_collections s.opened.items }) };
}

impl Serializer {
    /// A serializer that holds the start of a stream. It keeps the allocator. The only fault is `Memory`.
    pub fn new(alloc: Global) -> Result<Serializer>
        ensures ok { IfOk result (λ serializer. serializer
            ≡ (record { events = emit_stream_start ∷ []; opened = [] })) }
        ensures err { IfErr result (λ cause. cause ≡ Memory) }
    {
        let mut written = NodeWriter::new(EventBuffer::new(alloc));
        written.push(EmitEvent::StreamStart)?;
        Ok(Serializer {
            written,
            opened: Vec::new(alloc),
            alloc,
        })
    }

    /// The events so far: the start of a stream, whole documents of one node each, and the beginnings of the
    /// collections that are open.
    pub fn events(&self) -> &[EmitEvent]
        ensures shown { map emit_of result.now ≡ self.now.events }
        ensures begun { IsBegun self.now }
        ensures whole { self.now.opened ≡ [] → AreDocuments self.now.events }
    {
        self.written.sink.as_slice()
    }

    /// The kind of the innermost open collection, and whether it awaits the value of a key. It is the test of what
    /// calls ask of the collections that are open.
    pub fn open_kind(&self) -> Option<(OpenKind, bool)>
        ensures { told result ≡ innermost self.now.opened }
    {
        match self.opened.last() {
            Some(innermost) => Some((innermost.kind, innermost.awaits_value)),
            None => None,
        }
    }

    /// Does nothing, and never fails. It is there for serializers over a writer.
    pub fn flush(&mut self) -> Result<()>
        ensures done { IsOk result }
        ensures same { self.new ≡ self.old }
    {
        Ok(())
    }

    /// All events, with the end of the stream behind them. It asks that nothing is open, which `open_kind` tells. The
    /// only fault is `Memory`, and the serializer then comes back as it was.
    pub fn into_inner(self) -> std::result::Result<Vec<EmitEvent>, (Error, Serializer)>
        requires { self.opened ≡ [] }
        ensures ok { IfOk result (λ events.
            map emit_of events.items ≡ self.events ++ emit_stream_end ∷ []) }
        ensures stream { IfOk result (λ events. IsEmitStream (map emit_of events.items)) }
        ensures err { IfErr result (λ refused. (refused.0 ≡ Memory) × (refused.1 ≡ self)) }
    {
        let mut serializer = self;
        match serializer.written.push(EmitEvent::StreamEnd) {
            Ok(()) => Ok(serializer.written.into_sink().into_events()),
            Err(refusal) => Err((refusal.into_error(), serializer)),
        }
    }
}
