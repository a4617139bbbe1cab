//! Steps to the next part, and steps that look for a name.

ghost use Rattle.std.specs.Prelude.{◌≡◌, true, IfOk, MatchBool, MatchOption};
ghost use Rattle.serde.specs.Names.{Finds};
ghost use Rattle.yaml.specs.Around.{standing};
ghost use Rattle.yaml.specs.Collections.{AtEntry, EndsMap, LeavesCollection, LeavesMap, LeavesSeq};
ghost use Rattle.yaml.specs.Collections.{ReachesEntry};
ghost use Rattle.yaml.specs.NodeSteps.{TookNothing};
ghost use Rattle.yaml.specs.Picks.{Chooses, TookAs, TookKeyOr, TookName};

use crate::frame::{Deed, Kind, Last, Stranger};
use crate::leaf::Leaf;
use crate::makers::is_fatal;
use crate::reader::Reader;
use crate::tagged::asks_for_tag;
use serde::{Case, Name, find};
use yaml_base::Result;
use yaml_read::DocEvent;
use yaml_shape::Data;
use yaml_with::asks_for_variants;

impl Stranger {
    // It is now the name that the last step read, which is not among the names.
    fn meet(&mut self, last: Last, names: &[Name<'_>]) -> Result<()> {
        self.last = last;
        self.known.clear();
        self.ends.clear();
        for name in names {
            if !name.skipped {
                name.case.append(name.kind, name.name, &mut self.known)?;
                self.ends.push(self.known.len())?;
            }
        }
        Ok(())
    }
}

// The case of all names, where they have the same.
fn spelling_of(names: &[Name<'_>]) -> Option<Case> {
    let first = names.first()?.case;
    for name in names {
        if name.case != first {
            return None;
        }
    }
    Some(first)
}

impl<'a, 'de> Reader<'a, 'de> {
    // The place of a name among names. An unknown one is noted.
    fn find_among(&mut self, names: &[Name<'_>], name: &str, is_key: bool) -> Result<usize>
        ensures finds { IfOk result (λ at. Finds names.now name.now at) }
        ensures stays { standing self.new ≡ standing self.old }
    {
        let found = find(names, name);
        if found == usize::MAX {
            let last = self.last;
            if is_key {
                self.key.meet(last, names)?;
            } else {
                self.variant.meet(last, names)?;
            }
        }
        Ok(found)
    }

    /// The place among names of the one that the node's text is.
    pub(crate) fn name(&mut self, names: &[Name<'_>], is_key: bool) -> Result<usize>
        ensures { IfOk result (λ at. Chooses
            (λ name. TookName name (standing self.old) (standing self.new)) names.now at) }
    {
        match self.leaf(Leaf::Identifier, Deed::Named)? {
            Data::Str(text) => self.find_among(names, text.as_str(), is_key),
            _ => Err(self.ended()),
        }
    }

    // Whether a text stands at the place of the next node, that names a variant without a content.
    fn names_variant(&self) -> bool {
        match self.event(self.target(self.spot.place)) {
            Some(DocEvent::Scalar(scalar)) => !self.spot.taken || !scalar.value.is_empty(),
            _ => false,
        }
    }

    // The place among names of the variant that the node at which the reading stands is.
    fn variant_of_node(&mut self, names: &[Name<'_>]) -> Result<usize>
        ensures { IfOk result (λ at. Chooses
            (λ name. TookKeyOr true name (standing self.old) (standing self.new)) names.now at) }
    {
        if let Some(tag) = self.tag_name() {
            self.note(Deed::Tagged);
            let found = self.find_among(names, tag, false)?;
            self.take_tag()?;
            return Ok(found);
        }
        if !self.names_variant() {
            return Err(self.fault_of_enum());
        }
        let frame = self.frame_here(Kind::Named);
        let found = self.name(names, false)?;
        self.push(frame)?;
        Ok(found)
    }

    /// The place among names of the next key, or none at the end. The first key of a map that was begun and is asked
    /// for variants is the variant that the node is. Where nothing but the tag is asked for, that is taken.
    pub(crate) fn key(&mut self, names: &[Name<'_>]) -> Result<Option<usize>>
        ensures { IfOk result (λ found. MatchOption found
            (LeavesMap (standing self.old) (standing self.new))
            (λ at. Chooses
            (λ name. TookAs true names.now name (standing self.old) (standing self.new))
            names.now at)) }
    {
        if asks_for_tag(names) {
            self.enter_tag()?;
            return Ok(Some(0));
        }
        if self.spot.begun && asks_for_variants(names) {
            return Ok(Some(self.variant_of_node(names)?));
        }
        if self.entry()? {
            return Ok(Some(self.name(names, true)?));
        }
        self.spelling = if self.marks == 0 {
            spelling_of(names)
        } else {
            None
        };
        Ok(None)
    }

    // The same as `entry`, of a map that was gone into.
    fn entry_here(&mut self) -> Result<bool>
        ensures { IfOk result (λ comes. MatchBool comes
            ((standing self.new ≡ standing self.old) × AtEntry (standing self.new))
            (LeavesCollection EndsMap (standing self.old) (standing self.new))) }
    {
        let Some(frame) = self.open_frame() else {
            return Err(self.ended());
        };
        match (frame.kind, self.event(self.spot.place)) {
            (Kind::Items, _) | (Kind::Entries, None) => return Err(self.ended()),
            (Kind::Entries, Some(DocEvent::MappingEnd)) => {}
            (Kind::Entries, Some(_)) => return Ok(true),
            _ => {}
        }
        self.close(frame);
        Ok(false)
    }

    /// Whether an entry comes. At the end the map is left.
    pub(crate) fn entry(&mut self) -> Result<bool>
        ensures { IfOk result (λ comes. MatchBool comes
            (ReachesEntry (standing self.old) (standing self.new))
            (LeavesMap (standing self.old) (standing self.new))) }
    {
        if self.spot.begun {
            self.open_map()?;
        }
        self.entry_here()
    }

    /// Whether an element comes. At the end the sequence is left.
    pub(crate) fn item(&mut self) -> Result<bool>
        ensures { IfOk result (λ comes. MatchBool comes
            (standing self.new ≡ standing self.old)
            (LeavesSeq (standing self.old) (standing self.new))) }
    {
        let Some(frame) = self.open_frame() else {
            return Err(self.ended());
        };
        match (frame.kind, self.event(self.spot.place)) {
            (Kind::Empty, _) => {}
            (Kind::Items, Some(DocEvent::SequenceEnd)) => {}
            (Kind::Items, Some(_)) => {
                self.note(Deed::Item);
                return Ok(true);
            }
            _ => return Err(self.ended()),
        }
        self.close(frame);
        Ok(false)
    }

    /// Steps over the node at which the reading stands.
    pub(crate) fn pass(&mut self) -> Result<()> {
        match self.event(self.spot.place) {
            None | Some(DocEvent::SequenceEnd) | Some(DocEvent::MappingEnd) => return Err(
                self.ended(),
            ),
            Some(_) => {}
        }
        self.note(Deed::Read);
        if self.is_bare() {
            return Err(self.fault_of_content());
        }
        self.spot.place = self.behind(self.spot.place);
        self.spot.taken = false;
        self.spot.begun = false;
        Ok(())
    }

    /// Whether the node at which the reading stands is null as this, which is then taken.
    pub(crate) fn null(&mut self, leaf: Leaf) -> Result<bool>
        ensures { IfOk result (λ is_null. MatchBool is_null
            (TookNothing leaf (standing self.old) (standing self.new))
            (standing self.new ≡ standing self.old)) }
    {
        if self.is_bare() {
            return Ok(true);
        }
        match self.event(self.spot.place) {
            Some(DocEvent::SequenceStart(_)) | Some(DocEvent::MappingStart(_)) => {
                self.note(Deed::NoUnit);
                return Ok(false);
            }
            _ => {}
        }
        self.note(Deed::NoUnit);
        match self.look(leaf) {
            Ok((Data::None | Data::Unit, at)) => {
                self.go(at);
                Ok(true)
            }
            Ok(_) => Ok(false),
            Err(fault) => {
                if matches!(leaf, Leaf::Unit) && !is_fatal(&fault) {
                    Ok(false)
                } else {
                    Err(fault)
                }
            }
        }
    }
}
