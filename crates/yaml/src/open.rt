//! Collections and variants that are gone into and left.

ghost use Rattle.std.specs.Prelude.{◌≡◌, ◌+◌, ◌<◌, ◌^◌, Some, IfOk, IfSome, IsTrue, MatchBool, OnOk};
ghost use Rattle.yaml.specs.Around.{LeftFollowing, Opens, event_at, frame_here, open_kind, standing};
ghost use Rattle.yaml.specs.Collections.{Begins, BeginsMap, BeginsSeq, GoesInto, TakesEmpty};
ghost use Rattle.yaml.specs.Collections.{behind_frame};
ghost use Rattle.yaml.specs.Picks.{TakesTag};
ghost use Rattle.yaml.specs.declared.frame.Kind.TheVariants.{Named};
ghost use Rattle.yaml.specs.declared.leaf.Leaf.TheVariants as leaf;
ghost use Rattle.yaml_base.specs.PlainDocEvent.{PlainDocEvent};
ghost use Rattle.yaml_shape.specs.PlainData.{map_data, seq_data, no_entries, no_items};

use crate::frame::{Deed, Frame, Kind, Last, Part, Spot};
use crate::leaf::{Leaf, has_no_entries, has_no_items};
use crate::reader::Reader;
use yaml_base::Result;
use yaml_read::DocEvent;

impl<'a, 'de> Reader<'a, 'de> {
    // How many aliases may still be followed behind the one that stands for the next node, if one does. None where it
    // may not be followed.
    fn follows_behind(&self) -> Option<u128>
        ensures { IfSome result (λ left. LeftFollowing (standing self.now) left) }
    {
        let at = self.spot.place;
        if self.target(at) == at {
            Some(self.follows)
        } else {
            self.follows.checked_sub(1)
        }
    }

    /// The frame of a kind around the next node.
    pub(crate) fn frame_here(&self, kind: Kind) -> Frame
        ensures { result ≡ frame_here kind (standing self.now) }
    {
        let at = self.spot.place;
        Frame {
            kind,
            start: self.target(at),
            at,
            back: self.behind(at),
            outer: self.spot.top,
        }
    }

    /// Puts a frame around what comes next.
    pub(crate) fn push(&mut self, frame: Frame) -> Result<()>
        ensures { OnOk result (Opens frame (standing self.old) (standing self.new)) }
    {
        if self.marks == 0 {
            self.frames.truncate(self.spot.top);
            self.parts.truncate(self.spot.top);
        }
        self.parts.push(Part::first(frame.start))?;
        self.frames.push(frame)?;
        self.spot.top = self.frames.len();
        Ok(())
    }

    // Whether a collection of a kind begins in a place.
    fn begins(&self, kind: Kind, start: usize) -> bool
        ensures begins { IsTrue result → (event : PlainDocEvent)
            × (event_at self.now.document.now start ≡ Some event) × Begins kind event }
        ensures countable { IsTrue result → start + 1 < 2 ^ 64 }
    {
        match (kind, self.event(start)) {
            (Kind::Items, Some(DocEvent::SequenceStart(_))) => true,
            (Kind::Entries, Some(DocEvent::MappingStart(_))) => true,
            _ => false,
        }
    }

    /// Whether what comes next is the content of a variant that has none.
    pub(crate) fn is_bare(&self) -> bool
        ensures { IsTrue result → open_kind (standing self.now) ≡ Some Named }
    {
        matches!(
            self.open_frame(),
            Some(Frame {
                kind: Kind::Named,
                ..
            })
        )
    }

    // Goes into the collection of a kind that the next node is or stands for, if it is one and the limits let it.
    fn go_into(&mut self, kind: Kind) -> Result<bool>
        ensures { IfOk result (λ went. MatchBool went
            (GoesInto kind (standing self.old) (standing self.new))
            (standing self.new ≡ standing self.old)) }
    {
        let frame = self.frame_here(kind);
        if !self.begins(kind, frame.start) || self.is_bare() {
            return Ok(false);
        }
        let Some(follows) = self.follows_behind() else {
            return Ok(false);
        };
        let Some(nestings) = self.spot.nestings.checked_sub(1) else {
            return Ok(false);
        };
        self.push(frame)?;
        self.spot = Spot {
            place: frame.start.saturating_add(1),
            top: self.spot.top,
            nestings,
            taken: false,
            begun: false,
        };
        self.follows = follows;
        Ok(true)
    }

    // Takes the next node, which is no sequence, as an empty one, where it means that.
    fn take_no_items(&mut self) -> Result<()>
        ensures { OnOk result
            (TakesEmpty leaf.Seq (seq_data no_items) (standing self.old) (standing self.new)) }
    {
        let frame = self.frame_here(Kind::Empty);
        if !has_no_items(&self.leaf(Leaf::Seq, Deed::Read)?) {
            return Err(self.ended());
        }
        self.push(frame)
    }

    // The same of a mapping.
    fn take_no_entries(&mut self) -> Result<()>
        ensures { OnOk result
            (TakesEmpty leaf.Map (map_data no_entries) (standing self.old) (standing self.new)) }
    {
        let frame = self.frame_here(Kind::Empty);
        if !has_no_entries(&self.leaf(Leaf::Map, Deed::Read)?) {
            return Err(self.ended());
        }
        self.push(frame)
    }

    /// Goes into the sequence at which the reading stands.
    pub(crate) fn open_seq(&mut self) -> Result<()>
        ensures { OnOk result (BeginsSeq (standing self.old) (standing self.new)) }
    {
        if self.go_into(Kind::Items)? {
            return Ok(());
        }
        self.take_no_items()
    }

    /// Goes into the mapping at which the reading stands.
    pub(crate) fn open_map(&mut self) -> Result<()>
        ensures { OnOk result (BeginsMap (standing self.old) (standing self.new)) }
    {
        if self.go_into(Kind::Entries)? {
            return Ok(());
        }
        self.take_no_entries()
    }

    /// Takes the tag of the node at which the reading stands, which named a variant.
    pub(crate) fn take_tag(&mut self) -> Result<()>
        ensures { OnOk result (TakesTag (standing self.old) (standing self.new)) }
    {
        let Some(follows) = self.follows_behind() else {
            return Err(self.fault_of(Leaf::Enum));
        };
        let frame = self.frame_here(Kind::Tag);
        self.push(frame)?;
        self.spot.place = frame.start;
        self.spot.taken = true;
        self.spot.begun = false;
        self.follows = follows;
        Ok(())
    }

    /// Leaves what a frame is around, which is the innermost open one.
    pub(crate) fn close(&mut self, frame: Frame)
        ensures { standing self.new ≡ behind_frame frame (standing self.old) }
    {
        let nestings = match frame.kind {
            Kind::Items | Kind::Entries => self.spot.nestings.saturating_add(1),
            Kind::Empty | Kind::Tag | Kind::Named => self.spot.nestings,
        };
        self.spot = Spot {
            place: frame.back,
            top: frame.outer,
            nestings,
            taken: false,
            begun: false,
        };
        self.last = Last {
            deed: Deed::Ended,
            start: frame.start,
            at: frame.at,
            top: frame.outer,
        };
    }
}
