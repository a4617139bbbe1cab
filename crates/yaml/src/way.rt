//! The way from the root of a document to a node, as faults name it.

ghost use Rattle.std.specs.Prelude.{◌≡◌};
ghost use Rattle.yaml.specs.Around.{standing};

use crate::frame::{Frame, Kind, Part};
use crate::reader::Reader;
use std::alloc::AllocError;
use yaml_base::{Path, Result};
use yaml_read::DocEvent;

// One step of the way.
#[derive(Clone, Copy)]
enum Step<'a> {
    // To an element of a sequence, by its number.
    Element(usize),
    // To the value of a key.
    Value(&'a str),
    // To the value of a key that is no text.
    Unknown,
    // To a key, or to the content of a variant.
    None,
}

impl<'a, 'de> Reader<'a, 'de> {
    /// The text of the scalar in a place.
    pub(crate) fn text_at(&self, place: usize) -> Option<&str> {
        match self.event(place) {
            Some(DocEvent::Scalar(scalar)) => std::str::from_utf8(scalar.value.as_slice()).ok(),
            _ => None,
        }
    }

    // The part of a collection that begins in a place, counted from one before it on.
    fn part_from(&self, from: Part, place: usize) -> Part {
        let mut part = from;
        for _ in from.place..place {
            if part.place >= place {
                break;
            }
            part = Part {
                start: part.start,
                place: self.behind(part.place),
                before: part.place,
                count: part.count.saturating_add(1),
            };
        }
        part
    }

    // The part in a place of what the frame with a number is around, counted from the one that was noted on.
    fn part_in(&self, number: usize, start: usize, place: usize) -> Part {
        let from = match self.parts.get(number) {
            Some(part) if part.start == start && part.place <= place => *part,
            _ => Part::first(start),
        };
        self.part_from(from, place)
    }

    /// Notes that the part at which the reading stands comes next in what is innermost open.
    pub(crate) fn reach(&mut self)
        ensures { standing self.new ≡ standing self.old }
    {
        let Some(number) = self.spot.top.checked_sub(1) else {
            return;
        };
        let Some(frame) = self.frames.get(number) else {
            return;
        };
        let part = self.part_in(number, frame.start, self.spot.place);
        if number < self.parts.len() {
            self.parts[number] = part;
        }
    }

    /// The part in a place of the collection that begins in another.
    pub(crate) fn part_of(&self, start: usize, place: usize) -> Part {
        self.part_from(Part::first(start), place)
    }

    /// How many parts the collection has that begins in a place.
    pub(crate) fn parts_in(&self, start: usize) -> usize {
        match self.document.ends().get(start) {
            Some(end) => self.part_of(start, *end).count,
            None => 0,
        }
    }

    /// The place of the last key before a place in the mapping that begins in another.
    pub(crate) fn key_before(&self, start: usize, place: usize) -> usize {
        let part = self.part_of(start, place);
        if part.count % 2 == 1 {
            return part.before;
        }
        self.part_of(start, part.before).before
    }

    // The step from what the frame with a number is around to the part of it in a place.
    fn step(&self, number: usize, frame: Frame, place: usize) -> Step<'_> {
        let part = self.part_in(number, frame.start, place);
        match frame.kind {
            Kind::Items => Step::Element(part.count),
            Kind::Entries if part.count % 2 == 1 => match self.text_at(part.before) {
                Some(key) => Step::Value(key),
                None => Step::Unknown,
            },
            _ => Step::None,
        }
    }

    // The steps to the node in a place, within so many frames, the last of them first.
    fn steps_to(&self, at: usize, top: usize) -> std::result::Result<Vec<Step<'_>>, AllocError> {
        let mut steps = Vec::new(self.alloc);
        let mut place = at;
        let mut number = top;
        for _ in 0..self.frames.len() {
            let Some(above) = number.checked_sub(1) else {
                break
            };
            let Some(frame) = self.frames.get(above) else {
                break
            };
            steps.push(self.step(above, *frame, place))?;
            place = frame.at;
            number = frame.outer;
        }
        Ok(steps)
    }

    // The text of a way that is a step longer, or none where the step shows nothing.
    fn stepped(&self, before: &Path<'_>, step: Step<'_>) -> Result<Option<String>> {
        let longer = match step {
            Step::Element(index) => Path::Seq {
                parent: before,
                index,
            }
            .to_string(self.alloc)?,
            Step::Value(key) => Path::Map {
                parent: before,
                key,
            }
            .to_string(self.alloc)?,
            Step::Unknown => Path::Unknown { parent: before }.to_string(self.alloc)?,
            Step::None => return Ok(None),
        };
        Ok(Some(longer))
    }

    // The same behind a way that is a text, or behind the root.
    fn stepped_on(&self, way: Option<&str>, step: Step<'_>) -> Result<Option<String>> {
        match way {
            Some(text) => {
                let before = Path::Map {
                    parent: &Path::Root,
                    key: text,
                };
                self.stepped(&before, step)
            }
            None => self.stepped(&Path::Root, step),
        }
    }

    /// The way to the node in a place, within so many frames, or none where it is the root.
    pub(crate) fn way_to(&self, at: usize, top: usize) -> Result<Option<String>> {
        let mut way: Option<String> = None;
        let steps = self.steps_to(at, top)?;
        for step in steps.iter().rev() {
            let longer = self.stepped_on(way.as_deref(), *step)?;
            if let Some(text) = longer {
                way = Some(text);
            }
        }
        Ok(way)
    }
}
