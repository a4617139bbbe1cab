//! What a node is, as a look at it tells.

ghost use Rattle.std.specs.Prelude.{◌≡◌};
ghost use Rattle.std.specs.Option.{option_copied};
ghost use Rattle.yaml.specs.Around.{next_tag, standing};

use crate::leaf::Leaf;
use crate::makers::tag_of;
use crate::reader::Reader;
use yaml_base::{Kind as Resolved, Result, ScalarStyle, Tag, resolve};
use yaml_float::parse_f64;
use yaml_read::{DocEvent, DocScalar};
use yaml_shape::Data;
use yaml_tree::Value;

// What a value of any kind is.
fn kind_of_value(value: &Value) -> serde::Kind {
    match value {
        Value::Null => serde::Kind::Unit,
        Value::Bool(_) => serde::Kind::Bool,
        Value::Number(number) if number.as_u64().is_some() => serde::Kind::Unsigned,
        Value::Number(_) => serde::Kind::Signed,
        Value::String(_) => serde::Kind::Str,
        Value::Sequence(_) => serde::Kind::Seq,
        Value::Mapping(_) | Value::Tagged(_) => serde::Kind::Map,
    }
}

// What a plain scalar without a tag is.
fn kind_of_text(scalar: &DocScalar<'_>) -> serde::Kind {
    let Ok(text) = std::str::from_utf8(scalar.value.as_slice()) else {
        return serde::Kind::Str;
    };
    match resolve(text) {
        Resolved::Null => serde::Kind::Unit,
        Resolved::Bool(_) => serde::Kind::Bool,
        Resolved::Unsigned(_) => serde::Kind::Unsigned,
        Resolved::Signed(_) => serde::Kind::Signed,
        Resolved::Float => serde::Kind::Float,
        Resolved::Str => serde::Kind::Str,
    }
}

// What an integer is.
fn kind_of_integer(text: &str) -> Option<serde::Kind> {
    match resolve(text) {
        Resolved::Unsigned(_) => Some(serde::Kind::Unsigned),
        Resolved::Signed(_) => Some(serde::Kind::Signed),
        _ => None,
    }
}

// What a scalar is, where it has the core tag of integers or floats, and is one.
fn kind_of_number(scalar: &DocScalar<'_>) -> Option<serde::Kind> {
    let text = std::str::from_utf8(scalar.value.as_slice()).ok()?;
    let tag = scalar.tag.as_ref()?;
    if tag.is(Tag::INT) {
        return kind_of_integer(text);
    }
    if tag.is(Tag::FLOAT) && parse_f64(text.as_bytes()).is_some() {
        return Some(serde::Kind::Float);
    }
    None
}

impl<'a, 'de> Reader<'a, 'de> {
    /// The name of the local tag of the node at which the reading stands, where it is not taken.
    pub(crate) fn tag_name(&self) -> Option<&'a str>
        ensures { option_copied result ≡ next_tag (standing self.now) }
    {
        if self.spot.taken {
            return None;
        }
        tag_of(self.event(self.target(self.spot.place))?)
    }

    /// What the node is at which the reading stands. One with a local tag is told as bytes, which no other node is: it
    /// may be read as a variant, as a value with a tag, or as what it is without the tag.
    pub(crate) fn kind(&self) -> Result<serde::Kind> {
        if self.tag_name().is_some() {
            return Ok(serde::Kind::Bytes);
        }
        match self.event(self.target(self.spot.place)) {
            Some(DocEvent::SequenceStart(_)) => Ok(serde::Kind::Seq),
            Some(DocEvent::MappingStart(_)) => Ok(serde::Kind::Map),
            Some(DocEvent::Void) => Ok(serde::Kind::Unit),
            Some(DocEvent::Scalar(scalar)) => self.kind_of(scalar),
            _ => Err(self.ended()),
        }
    }

    // What a scalar is, whose local tag is taken if it has one. One with a core tag that it does not fit is a fault.
    fn kind_of(&self, scalar: &DocScalar<'_>) -> Result<serde::Kind> {
        if self.spot.taken || scalar.tag.is_none() {
            return Ok(match scalar.style {
                ScalarStyle::Plain => kind_of_text(scalar),
                _ => serde::Kind::Str,
            });
        }
        if let Some(kind) = kind_of_number(scalar) {
            return Ok(kind);
        }
        match self.look(Leaf::Any)? {
            (Data::Any(value), _) => Ok(kind_of_value(&value)),
            _ => Ok(serde::Kind::Str),
        }
    }
}
