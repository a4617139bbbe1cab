//! The tag of a node, for a value of any kind that asks for it by a name of its own.

ghost use Rattle.std.specs.Prelude.{◌≡◌, IfOk, IsTrue, OnOk, true};
ghost use Rattle.serde.specs.Names.{Finds};
ghost use Rattle.std.specs.Option.{option_and_then, option_copied};
ghost use Rattle.yaml.specs.Around.{next_event, standing};
ghost use Rattle.yaml.specs.TagSteps.{TakesMark, TookTagName, at_mark, tag_name_in};
ghost use Rattle.yaml_value.specs.TagMark.{tag_mark};

use crate::frame::Deed;
use crate::makers::tag_of;
use crate::reader::Reader;
use serde::{Name, find};
use std::alloc::Global;
use yaml_base::Result;
use yaml_value::TAG_MARK;

/// Whether nothing but the tag of the next node is asked for.
pub(crate) fn asks_for_tag(names: &[Name<'_>]) -> bool
    ensures { IsTrue result → Finds names.now tag_mark 0 }
{
    names.len() == 1 && find(names, TAG_MARK) == 0
}

impl<'a, 'de> Reader<'a, 'de> {
    /// Takes the tag of the node at which the reading stands, where a map was begun there. Its name comes next, and
    /// then the node without it.
    pub(crate) fn enter_tag(&mut self) -> Result<()>
        ensures { OnOk result (TakesMark (standing self.old) (standing self.new)) }
    {
        if !self.spot.begun || self.tag_name().is_none() {
            return Err(self.fault_of_value());
        }
        self.note(Deed::TagAsked);
        self.take_tag()?;
        self.spot.begun = true;
        Ok(())
    }

    /// Whether the name of a tag that was taken comes next.
    pub(crate) fn is_at_mark(&self) -> bool
        ensures { result ≡ at_mark (standing self.now) }
    {
        self.spot.begun && self.spot.taken
    }

    // The name of the tag of the node at which the reading stands, taken or not.
    fn tag_here(&self) -> Option<&'a str>
        ensures { option_copied result ≡ option_and_then tag_name_in (next_event (standing self.now)) }
    {
        tag_of(self.event(self.target(self.spot.place))?)
    }

    /// The name of the tag that was taken. The node without it comes next.
    pub(crate) fn marked_name(&mut self, alloc: Global) -> Result<Vec<u8>>
        requires { at_mark (standing self.old) ≡ true }
        ensures { IfOk result (λ name. TookTagName name.items (standing self.old) (standing self.new)) }
    {
        let Some(name) = self.tag_here() else {
            return Err(self.ended());
        };
        let mut bytes = Vec::with_capacity(alloc, name.len())?;
        bytes.extend_from_slice(name.as_bytes())?;
        self.spot.begun = false;
        Ok(bytes)
    }
}
