//! Floats.

ghost use Rattle.std.specs.Prelude.{◌≡◌, IfOk, IsTrue, OnOk};
ghost use Rattle.std.specs.Float.{binary32, binary64};
ghost use Rattle.yaml.specs.Around.{standing};
ghost use Rattle.yaml.specs.FloatSteps.{TookFloat, asks_for_float, is_asked_for_float};
ghost use Rattle.yaml.specs.NodeSteps.{TookText};
ghost use Rattle.yaml.specs.declared.leaf.Leaf.TheVariants as leaf;
ghost use Rattle.yaml_base.specs.DocEventView.{doc_event_of};
ghost use Rattle.yaml_float.specs.Float.{float_of};
ghost use Rattle.yaml_shape.specs.TextView.{text_bytes};

use crate::frame::{Deed, Spot};
use crate::leaf::Leaf;
use crate::reader::Reader;
use yaml_base::{
    Cause, Error, Found, Kind, Result, ScalarStyle, Tag, core_tags_have_their_texts, resolve,
};
use yaml_float::{parse_f32, parse_f64};
use yaml_read::{DocEvent, DocScalar};
use yaml_scalar::is_plain_or_tagged_literal;
use yaml_shape::{Data, Text};

fn f32_in(text: &Text<'_>) -> Option<f32>
    ensures { result ≡ float_of binary32 (text_bytes text.now) }
{
    parse_f32(text.as_str().as_bytes())
}

fn f64_in(text: &Text<'_>) -> Option<f64>
    ensures { result ≡ float_of binary64 (text_bytes text.now) }
{
    parse_f64(text.as_str().as_bytes())
}

// Whether the event is a scalar that is asked for a float.
fn is_asked_for_float(taken: bool, event: &DocEvent<'_>) -> bool
    ensures { result ≡ is_asked_for_float taken (doc_event_of event.now) }
{
    core_tags_have_their_texts();
    match event {
        DocEvent::Scalar(scalar) => is_plain_or_tagged_literal(Tag::FLOAT, taken, scalar),
        _ => false,
    }
}

impl<'a, 'de> Reader<'a, 'de> {
    // Whether the next node is a scalar that is asked for a float: a plain one, or a literal one with the float's tag.
    fn asks_for_float(&self) -> bool
        ensures { result ≡ asks_for_float (standing self.now) }
    {
        match self.event(self.target(self.spot.place)) {
            Some(event) => is_asked_for_float(self.spot.taken, event),
            None => false,
        }
    }

    // The text of the next node, of which a float is asked. The reading then stands behind the node.
    #[tactic(auto, using(crate::proofs::StepLaws::took_text))]
    fn number_text(&mut self, expected: &str) -> Result<Text<'de>>
        ensures asks { OnOk result (IsTrue (asks_for_float (standing self.old))) }
        ensures took { IfOk result
            (λ text. TookText leaf.Str (text_bytes text) (standing self.old) (standing self.new)) }
    {
        if self.is_bare() {
            self.note(Deed::Read);
            return Err(self.fault_of_content());
        }
        if !self.asks_for_float() {
            self.note(Deed::Read);
            return Err(self.fault_of_float(expected));
        }
        match self.leaf(Leaf::Str, Deed::Read)? {
            Data::Str(Text::Borrowed(text)) => Ok(Text::Borrowed(text)),
            Data::Str(Text::Owned(text)) => Ok(Text::Owned(text)),
            _ => Err(self.ended()),
        }
    }

    // The fault of the node that was read and is no float. The reading stands before it again.
    fn refused_float(&mut self, spot: Spot, follows: u128, expected: &str) -> Error {
        self.spot = spot;
        self.follows = follows;
        self.fault_of_float(expected)
    }

    /// The `f32` that the next node's text is. The reading then stands behind the node.
    #[tactic(auto, using(crate::proofs::FloatLaws::took_float))]
    pub(crate) fn f32_here(&mut self) -> Result<f32>
        ensures { IfOk result (λ x. TookFloat binary32 x (standing self.old) (standing self.new)) }
    {
        let (spot, follows) = (self.spot, self.follows);
        let text = self.number_text("f32")?;
        match f32_in(&text) {
            Some(number) => Ok(number),
            None => Err(self.refused_float(spot, follows, "f32")),
        }
    }

    /// The `f64` that the next node's text is. The reading then stands behind the node.
    #[tactic(auto, using(crate::proofs::FloatLaws::took_float))]
    pub(crate) fn f64_here(&mut self) -> Result<f64>
        ensures { IfOk result (λ x. TookFloat binary64 x (standing self.old) (standing self.new)) }
    {
        let (spot, follows) = (self.spot, self.follows);
        let text = self.number_text("f64")?;
        match f64_in(&text) {
            Some(number) => Ok(number),
            None => Err(self.refused_float(spot, follows, "f64")),
        }
    }

    // What a plain text is found to be.
    fn found_text(&self, text: &str) -> Result<Found> {
        match resolve(text) {
            Kind::Null => Ok(Found::Unit),
            Kind::Bool(value) => Ok(Found::Bool(value)),
            Kind::Unsigned(number) => Ok(Found::Unsigned(number)),
            Kind::Signed(number) => Ok(Found::Signed(number)),
            Kind::Float => Ok(Found::Float(self.words(text)?)),
            Kind::Str => Ok(Found::Str(self.words(text)?)),
        }
    }

    // What a scalar is found to be.
    fn found_scalar(&self, scalar: &DocScalar<'_>) -> Result<Found> {
        let Ok(text) = std::str::from_utf8(scalar.value.as_slice()) else {
            return Ok(Found::Bytes);
        };
        match scalar.style {
            ScalarStyle::Plain => self.found_text(text),
            _ => Ok(Found::Str(self.words(text)?)),
        }
    }

    // What the node of the last step is found to be, if there is one.
    fn found(&self) -> Result<Option<Found>> {
        match self.event(self.last.start) {
            Some(DocEvent::Scalar(scalar)) => Ok(Some(self.found_scalar(scalar)?)),
            Some(DocEvent::SequenceStart(_)) => Ok(Some(Found::Seq)),
            Some(DocEvent::MappingStart(_)) => Ok(Some(Found::Map)),
            _ => Ok(None),
        }
    }

    // The fault of the last step's node, which is no float, or that there is none.
    fn fault_of_float(&self, expected: &str) -> Error {
        Self::made(self.try_float(expected))
    }

    fn try_float(&self, expected: &str) -> Result<Error> {
        let Some(found) = self.found()? else {
            return Ok(self.ended());
        };
        self.at_last(Cause::InvalidType {
            found,
            expected: self.words(expected)?,
            place: None,
        })
    }
}
