//! Values as text.

ghost use Rattle.std.specs.Prelude.{◌≡◌, ◌+◌, List, string_bytes, IfOk, OnErr, OnOk};
ghost use Rattle.yaml.specs.WrittenDocument.{documents_begun};
ghost use Rattle.yaml_base.specs.EmitEvents.{PlainEmit};
ghost use Rattle.yaml_emit.specs.StreamTexts.{IsStreamText};

use crate::target::{Scalar, Target};
use std::alloc::Global;
use yaml_base::emitter::EmitEvent;
use yaml_base::{Cause, Error, Result};
use yaml_emit::Emitter;
use yaml_write::{NodeWriter, Refusal, local_tag};

// What is written into.
type Output = NodeWriter<Emitter>;

// A collection that is open, and what comes next in it.
#[derive(Clone, Copy)]
enum Open {
    // The next element of a sequence.
    Element,
    // The next key of a mapping.
    Key,
    // The value of a key.
    Value,
}

// What comes behind that.
fn turned(open: Open) -> Open {
    match open {
        Open::Element => Open::Element,
        Open::Key => Open::Value,
        Open::Value => Open::Key,
    }
}

// Begins a document.
fn start_document(out: &mut Output) -> std::result::Result<(), Refusal>
    ensures ok { OnOk result (documents_begun out.new ≡ documents_begun out.old + 1) }
    ensures err { OnErr result (documents_begun out.new ≡ documents_begun out.old) }
{
    out.start_document()
}

// Ends it.
fn end_document(out: &mut Output) -> std::result::Result<(), Refusal>
    ensures { documents_begun out.new ≡ documents_begun out.old }
{
    out.end_document()
}

// Writes a scalar under a tag, if there is one. The hint takes the cases of the tag off most calls.
#[inline(always)]
fn write_scalar(
    out: &mut Output,
    tag: Option<String>,
    scalar: Scalar<'_>,
) -> std::result::Result<(), Refusal>
    ensures { documents_begun out.new ≡ documents_begun out.old }
{
    match scalar {
        Scalar::Null => out.null(tag),
        Scalar::Bool(v) => out.boolean(tag, v),
        Scalar::Signed(v) => out.integer(tag, v),
        Scalar::Unsigned(v) => out.integer(tag, v),
        Scalar::LongSigned(v) => out.integer(tag, v),
        Scalar::LongUnsigned(v) => out.integer(tag, v),
        Scalar::Char(v) => out.character(tag, v),
        Scalar::Str(v) => out.string(tag, v),
        Scalar::Number(v) => out.number(tag, v),
    }
}

// Begins a sequence, or a mapping, which awaits a key.
fn start(out: &mut Output, open: Open, tag: Option<String>) -> std::result::Result<(), Refusal>
    ensures { documents_begun out.new ≡ documents_begun out.old }
{
    match open {
        Open::Element => out.start_sequence(tag, 0),
        Open::Key | Open::Value => out.start_mapping(tag, 0),
    }
}

// Ends it.
fn end(out: &mut Output, open: Open) -> std::result::Result<(), Refusal>
    ensures { documents_begun out.new ≡ documents_begun out.old }
{
    match open {
        Open::Element => out.end_sequence(),
        Open::Key | Open::Value => out.end_mapping(),
    }
}

/// Prints each node of a value at once, and counts documents.
#[derive(Drop)]
pub(crate) struct Printer {
    out: Output,
    opened: Vec<Open>,
    /// How many documents were begun.
    pub(crate) begun: usize,
    ghost counted: { begun ≡ documents_begun out },
}

impl Printer {
    /// One that has printed no document. The only fault is `Memory`.
    pub(crate) fn new(alloc: Global) -> Result<Printer>
        ensures { IfOk result (λ printer. printer.begun ≡ 0) }
    {
        let mut emitter = Emitter::new(alloc);
        emitter.push(&EmitEvent::StreamStart)?;
        Ok(Printer {
            out: NodeWriter::new(emitter),
            opened: Vec::new(alloc),
            begun: 0,
        })
    }

    /// Whether a collection is open.
    pub(crate) fn is_open(&self) -> bool {
        !self.opened.is_empty()
    }

    /// The text of the documents.
    pub(crate) fn finish(self) -> Result<String>
        ensures { IfOk result (λ text. (events : List PlainEmit) × (documents_begun events ≡ self.begun)
            × IsStreamText events (string_bytes text)) }
    {
        let mut emitter = self.out.into_sink();
        emitter.push(&EmitEvent::StreamEnd)?;
        emitter.finish()
    }

    // Begins a document, where nothing is open.
    fn begin_node(&mut self) -> Result<()> {
        if self.is_open() {
            return Ok(());
        }
        let Some(begun) = self.begun.checked_add(1) else {
            return Err(Error::new(Cause::Memory));
        };
        start_document(&mut self.out)?;
        self.begun = begun;
        Ok(())
    }

    // Goes on behind a node: to the next part of the collection around it, or to the end of the document.
    fn end_node(&mut self) -> Result<()> {
        if let Some(open) = self.opened.last_mut() {
            *open = turned(*open);
            return Ok(());
        }
        Ok(end_document(&mut self.out)?)
    }

    fn open(&mut self, open: Open, variant: Option<String>) -> Result<()> {
        let tag = match variant {
            Some(variant) => Some(local_tag(self.alloc(), variant.as_str())?),
            None => None,
        };
        self.opened.reserve(1)?;
        self.begin_node()?;
        start(&mut self.out, open, tag)?;
        Ok(self.opened.push(open)?)
    }
}

impl Target for Printer {
    fn alloc(&self) -> Global {
        self.out.alloc()
    }

    fn scalar(&mut self, scalar: Scalar<'_>) -> Result<()> {
        self.begin_node()?;
        write_scalar(&mut self.out, None, scalar)?;
        self.end_node()
    }

    fn variant_scalar(&mut self, variant: &str, scalar: Scalar<'_>) -> Result<()> {
        let tag = local_tag(self.alloc(), variant)?;
        self.begin_node()?;
        write_scalar(&mut self.out, Some(tag), scalar)?;
        self.end_node()
    }

    fn open_sequence(&mut self, variant: Option<String>) -> Result<()> {
        self.open(Open::Element, variant)
    }

    fn open_mapping(&mut self, variant: Option<String>) -> Result<()> {
        self.open(Open::Key, variant)
    }

    fn close(&mut self) -> Result<bool> {
        match self.opened.last() {
            None | Some(Open::Value) => Ok(false),
            Some(open) => {
                let open = *open;
                end(&mut self.out, open)?;
                self.opened.pop();
                self.end_node()?;
                Ok(true)
            }
        }
    }
}
