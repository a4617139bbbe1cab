//! Nodes laid out in lines.

ghost use Rattle.std.specs.Prelude.{◌≡◌, OnOk, string_bytes};
ghost use Rattle.std.specs.Option.{option_map};
ghost use Rattle.yaml_emit.specs.LayoutMachine.{NodeBegins, Steps, begun, closed_in, closes, document_begun};
ghost use Rattle.yaml_emit.specs.LayoutMachine.{document_ended, finished, laid, pushed, stream_begun, stream_ended};
ghost use Rattle.yaml_emit.specs.LayoutMachine.{unbegun};
ghost use Rattle.yaml_emit.specs.LayoutMachine.{with_node_text, with_open};
ghost use Rattle.yaml_emit.specs.Leaves.{leaf_node};

use crate::leaf::{Leaf, push_tag_in_line};
use crate::open::{Awaits, Open, Place};
use crate::stop::Stop;
use std::alloc::{AllocError, Global};

// What comes next in a stream.
#[derive(Clone, Copy)]
pub(crate) enum Next {
    // The start of the stream.
    Stream,
    // A document, or the end of the stream.
    Document,
    // The root of a document.
    Root,
    // A part of the innermost open collection, or its end.
    Part(Open),
    // The end of the document.
    End,
    // Nothing.
    Nothing,
}

// The text so far, and the collections around the innermost open one, the outermost first.
#[derive(Drop)]
pub(crate) struct Layout {
    out: String,
    // Whether no document stands before the next one.
    is_first: bool,
    next: Next,
    outer: Vec<Open>,
}

// Whether the end of a sequence or of a mapping ends a collection that waits for this.
fn closes(end: Awaits, awaits: Awaits) -> bool
    ensures { result ≡ closes end awaits }
{
    match end {
        Awaits::Item => matches!(awaits, Awaits::Item),
        Awaits::Key => matches!(awaits, Awaits::Key),
        Awaits::Value | Awaits::FarValue => false,
    }
}

impl Layout {
    // Nothing yet. Takes no memory.
    pub(crate) fn new(alloc: Global) -> Layout
        ensures { laid result ≡ unbegun }
    {
        Layout {
            out: String::new(alloc),
            is_first: true,
            next: Next::Stream,
            outer: Vec::new(alloc),
        }
    }

    // The text, if the stream has ended.
    pub(crate) fn into_text(self) -> Option<String>
        ensures { option_map string_bytes result ≡ finished (laid self).out (laid self).state }
    {
        match self.next {
            Next::Nothing => Some(self.out),
            _ => None,
        }
    }

    // Begins the stream.
    pub(crate) fn begin_stream(&mut self) -> Result<(), Stop>
        ensures { Steps (stream_begun (laid self.old) (laid self.old).state) (laid self.new) result }
    {
        match self.next {
            Next::Stream => {
                self.next = Next::Document;
                Ok(())
            }
            _ => Err(Stop::OutOfPlace),
        }
    }

    // Ends the stream.
    pub(crate) fn end_stream(&mut self) -> Result<(), Stop>
        ensures { Steps (stream_ended (laid self.old) (laid self.old).state) (laid self.new) result }
    {
        match self.next {
            Next::Document => {
                self.next = Next::Nothing;
                Ok(())
            }
            _ => Err(Stop::OutOfPlace),
        }
    }

    // Begins a document: behind another one by `---`.
    pub(crate) fn begin_document(&mut self) -> Result<(), Stop>
        ensures { Steps (document_begun (laid self.old) (laid self.old).state) (laid self.new) result }
    {
        match self.next {
            Next::Document => {
                if !self.is_first {
                    self.out.push_str("---")?;
                }
                self.next = Next::Root;
                Ok(())
            }
            _ => Err(Stop::OutOfPlace),
        }
    }

    // Ends a document.
    pub(crate) fn end_document(&mut self) -> Result<(), Stop>
        ensures { Steps (document_ended (laid self.old) (laid self.old).state) (laid self.new) result }
    {
        match self.next {
            Next::End => {
                self.is_first = false;
                self.next = Next::Document;
                Ok(())
            }
            _ => Err(Stop::OutOfPlace),
        }
    }

    // Goes to where the next node stands. As a key it may be one in a line.
    fn begin_node(&mut self, simple: bool) -> Result<Place, Stop>
        ensures { NodeBegins (begun (laid self.old) simple) (laid self.new) result }
    {
        match self.next {
            Next::Root => {
                self.next = Next::End;
                Ok(Place::root(self.is_first))
            }
            Next::Part(open) => {
                open.push_before_part(&mut self.out, simple)?;
                let place = open.part_place(simple)?;
                self.next = Next::Part(open.turned(simple));
                Ok(place)
            }
            _ => Err(Stop::OutOfPlace),
        }
    }

    // Adds a node without parts.
    pub(crate) fn push_leaf(&mut self, leaf: Leaf<'_>) -> Result<(), Stop>
        ensures { Steps (with_node_text (laid self.old) (leaf_node leaf.entry)) (laid self.new) result }
    {
        let place = self.begin_node(leaf.is_simple())?;
        leaf.push(&mut self.out, place)?;
        Ok(())
    }

    // Opens a collection inside the innermost open one.
    fn push_open(&mut self, opened: Open) -> Result<(), AllocError>
        ensures out { string_bytes self.new.out ≡ string_bytes self.old.out }
        ensures first { self.new.is_first ≡ self.old.is_first }
        ensures state { OnOk result ((laid self.new).state ≡ pushed opened (laid self.old).state) }
    {
        match self.next {
            Next::Part(outer) => self.outer.push(outer)?,
            _ => self.outer.clear(),
        }
        self.next = Next::Part(opened);
        Ok(())
    }

    // Begins a collection that has parts.
    pub(crate) fn open(&mut self, tag: &str, awaits: Awaits) -> Result<(), Stop>
        ensures { Steps (with_open (laid self.old) tag.now awaits) (laid self.new) result }
    {
        let place = self.begin_node(false)?;
        let lead = push_tag_in_line(&mut self.out, place.lead, tag)?;
        let column = place.parts_column(awaits, lead);
        self.push_open(Open {
            awaits,
            column,
            lead,
        })?;
        Ok(())
    }

    // Ends the innermost open collection, if it waits for this.
    pub(crate) fn close(&mut self, end: Awaits) -> Result<(), Stop>
        ensures { Steps (closed_in end (laid self.old) (laid self.old).state) (laid self.new) result }
    {
        match self.next {
            Next::Part(open) if closes(end, open.awaits) => {}
            _ => return Err(Stop::OutOfPlace),
        }
        self.next = match self.outer.pop() {
            Some(open) => Next::Part(open),
            None => Next::End,
        };
        Ok(())
    }
}
