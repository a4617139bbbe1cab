//! The reading of one document, step by step.

ghost use Rattle.std.specs.Prelude.{◌≡◌, ◌+◌, ◌<◌, ◌^◌, IfOk, OnSome};
ghost use Rattle.std.specs.Option.{option_map};
ghost use Rattle.yaml_base.specs.DocEventView.{doc_event_of};
ghost use Rattle.yaml.specs.Around.{event_at, innermost_frame, place_behind_node, standing, target_of};
ghost use Rattle.yaml.specs.NodeSteps.{Gave, Took, gone_on, node_at};
ghost use Rattle.yaml.specs.PlaceSteps.{mark_in};
ghost use Rattle.yaml_shape.specs.DataView.{data_of};

use crate::frame::{Deed, Frame, Last, Part, Spot, Stranger};
use crate::leaf::{Leaf, Leaves};
use serde::Case;
use std::alloc::Global;
use yaml_base::{Cause, Error, Mark, Path, Result};
use yaml_read::{DocEvent, Document, Limits, NodePlace};
use yaml_shape::Data;

/// A reading of a document. It goes through collections by itself, by the places where they end, and reads each node
/// that is none as a whole.
#[derive(Drop)]
pub(crate) struct Reader<'a, 'de> {
    pub(crate) alloc: Global,
    pub(crate) document: &'a Document<'de>,
    leaves: &'a Leaves,
    pub(crate) spot: Spot,
    /// How many aliases may still be followed.
    pub(crate) follows: u128,
    /// What was opened. What lies above the innermost open one is kept while a mark is held.
    pub(crate) frames: Vec<Frame>,
    /// The part that comes next in what each frame is around, as far as it was noted.
    pub(crate) parts: Vec<Part>,
    /// How many marks are held.
    pub(crate) marks: usize,
    pub(crate) last: Last,
    /// The last unknown key.
    pub(crate) key: Stranger,
    /// The last unknown name of a variant.
    pub(crate) variant: Stranger,
    /// How the names of the fields of the last struct are spelled, where all are spelled alike.
    pub(crate) spelling: Option<Case>,
}

impl<'a, 'de> Reader<'a, 'de> {
    /// A reading that stands before the document's node. Takes no memory.
    pub(crate) fn new(
        alloc: Global,
        document: &'a Document<'de>,
        leaves: &'a Leaves,
    ) -> Reader<'a, 'de> {
        let limits = Limits::DEFAULT;
        let last = Last {
            deed: Deed::Read,
            start: 0,
            at: 0,
            top: 0,
        };
        Reader {
            alloc,
            document,
            leaves,
            spot: Spot {
                place: 0,
                top: 0,
                nestings: limits.nesting(),
                taken: false,
                begun: false,
            },
            follows: limits.follows() as u128 * document.events().len() as u128,
            frames: Vec::new(alloc),
            parts: Vec::new(alloc),
            marks: 0,
            last,
            key: Stranger {
                last,
                known: String::new(alloc),
                ends: Vec::new(alloc),
            },
            variant: Stranger {
                last,
                known: String::new(alloc),
                ends: Vec::new(alloc),
            },
            spelling: None,
        }
    }

    /// The event in a place.
    pub(crate) fn event(&self, place: usize) -> Option<&'a DocEvent<'de>>
        ensures found { option_map (λ e. doc_event_of e.now) result
            ≡ event_at self.now.document.now place }
        ensures countable { OnSome result (place + 1 < 2 ^ 64) }
    {
        let document: &'a Document<'de> = self.document;
        match document.events().get(place) {
            Some((event, _)) => Some(event),
            None => None,
        }
    }

    /// The mark of the event in a place.
    pub(crate) fn mark_at(&self, place: usize) -> Option<Mark>
        ensures { result ≡ mark_in self.now.document.now place }
    {
        match self.document.events().get(place) {
            Some((_, mark)) => Some(*mark),
            None => None,
        }
    }

    /// The place of the node that the one in a place is, or that it stands for as an alias.
    pub(crate) fn target(&self, place: usize) -> usize
        ensures { result ≡ target_of self.now.document.now place }
    {
        match self.event(place) {
            Some(DocEvent::Alias(target)) => *target,
            _ => place,
        }
    }

    /// The place behind the node that begins in a place, without following an alias.
    pub(crate) fn behind(&self, place: usize) -> usize
        ensures { result ≡ place_behind_node self.now.document.now place }
    {
        match self.document.ends().get(place) {
            Some(end) => end.saturating_add(1),
            None => place,
        }
    }

    /// The innermost open frame.
    pub(crate) fn open_frame(&self) -> Option<Frame>
        ensures { result ≡ innermost_frame (standing self.now) }
    {
        match self.frames.get(self.spot.top.checked_sub(1)?) {
            Some(frame) => Some(*frame),
            None => None,
        }
    }

    /// The fault that the events ended too soon, or what cut them off.
    pub(crate) fn ended(&self) -> Error {
        match self.document.error() {
            Some(fault) => match fault.copy(self.alloc) {
                Ok(copy) => copy,
                Err(refused) => refused,
            },
            None => Error::new(Cause::EndOfStream),
        }
    }

    // Where a call that reads a node by itself is to begin.
    fn node(&self) -> NodePlace
        ensures { result ≡ node_at (standing self.now) }
    {
        NodePlace {
            place: self.spot.place,
            nestings: self.spot.nestings,
            follows: self.follows,
            tag_taken: self.spot.taken,
        }
    }

    /// Notes what a step did with the node at which the reading stands, and which part it is of what is around it.
    pub(crate) fn note(&mut self, deed: Deed)
        ensures { standing self.new ≡ standing self.old }
    {
        self.reach();
        let at = self.spot.place;
        self.last = Last {
            deed,
            start: self.target(at),
            at,
            top: self.spot.top,
        };
    }

    /// Tells what the last step did.
    pub(crate) fn tell(&mut self, deed: Deed)
        ensures { standing self.new ≡ standing self.old }
    {
        self.last.deed = deed;
    }

    /// The fault of reading the node at which the reading stands as this.
    pub(crate) fn fault_of(&self, leaf: Leaf) -> Error {
        let way = match self.way_to(self.spot.place, self.spot.top) {
            Ok(way) => way,
            Err(refused) => return refused,
        };
        let path = match &way {
            Some(text) => Path::Map {
                parent: &Path::Root,
                key: text.as_str(),
            },
            None => Path::Root,
        };
        let mut at = self.node();
        match self
            .leaves
            .read(self.document, self.alloc, leaf, &path, &mut at)
        {
            Ok(_) => self.ended(),
            Err(fault) => fault,
        }
    }

    /// The data of the node at which the reading stands, and the place behind it.
    pub(crate) fn look(&self, leaf: Leaf) -> Result<(Data<'de>, NodePlace)>
        ensures { IfOk result (λ r. Gave leaf (standing self.now) (data_of r.0) r.1) }
    {
        if self.is_bare() {
            return Err(self.fault_of_content());
        }
        let mut at = self.node();
        let read = self
            .leaves
            .read(self.document, self.alloc, leaf, &Path::Root, &mut at);
        match read {
            Ok(data) => Ok((data, at)),
            Err(fault) => match fault.cause() {
                Cause::Memory => Err(fault),
                _ => Err(self.fault_of(leaf)),
            },
        }
    }

    /// Goes on behind the node that was looked at.
    pub(crate) fn go(&mut self, at: NodePlace)
        ensures { standing self.new ≡ gone_on at (standing self.old) }
    {
        self.spot.place = at.place;
        self.spot.taken = false;
        self.spot.begun = false;
        self.follows = at.follows;
    }

    /// The data of the node at which the reading stands, which then stands behind it.
    #[tactic(auto, using(crate::proofs::StepLaws::took))]
    pub(crate) fn leaf(&mut self, leaf: Leaf, deed: Deed) -> Result<Data<'de>>
        ensures { IfOk result (λ d. Took leaf (data_of d) (standing self.old) (standing self.new)) }
    {
        self.note(deed);
        let (data, at) = self.look(leaf)?;
        self.go(at);
        Ok(data)
    }
}
