//! The calls that write a part of the innermost open collection.

ghost use Rattle.std.specs.Prelude.{◌≡◌, None, Ok};
ghost use Rattle.yaml_write.specs.Adds.{WritesOrStays};
ghost use Rattle.yaml_write.specs.Opened.{AwaitsElement, AwaitsField, AwaitsNamedField, AwaitsKey};
ghost use Rattle.yaml_write.specs.Opened.{AwaitsValue};
ghost use Rattle.yaml_write.specs.Outcomes.{joined, made, string_node};
ghost use Rattle.yaml_write.specs.Writing.{with_both, with_node};
ghost use Rattle.yaml_write.specs.WrittenTyped.{typed_written};
ghost use Rattle.yaml_write.specs.WrittenValue.{pair_node};

use super::Serializer;
use crate::node_content::Content;
use yaml_base::Result;
use yaml_shape::Typed;

impl Serializer {
    /// Writes an element. Asks that a sequence or a tuple is the innermost open collection. Bytes, and a tag upon a
    /// tag, are refused.
    pub fn serialize_element(&mut self, value: &Typed<'_, '_>) -> Result<()>
        requires { AwaitsElement self.old.opened }
        ensures { WritesOrStays (with_node self.old) (typed_written None value.now)
            self.old self.new result }
    {
        self.serialize_typed(value)
    }

    /// Writes a field without a name. Asks that a tuple struct or such a variant is the innermost open collection.
    /// Bytes, and a tag upon a tag, are refused.
    pub fn serialize_field(&mut self, value: &Typed<'_, '_>) -> Result<()>
        requires { AwaitsField self.old.opened }
        ensures { WritesOrStays (with_node self.old) (typed_written None value.now)
            self.old self.new result }
    {
        self.serialize_typed(value)
    }

    /// Writes a field with its name, which goes first, as a string. Asks that a struct or such a variant is the
    /// innermost open collection, and awaits no value. Bytes, and a tag upon a tag, are refused.
    pub fn serialize_struct_field(&mut self, key: &str, value: &Typed<'_, '_>) -> Result<()>
        requires { AwaitsNamedField self.old.opened }
        ensures { WritesOrStays (with_both self.old)
            (made (pair_node (string_node None key.now)) (typed_written None value.now))
            self.old self.new result }
    {
        self.place_both(
            Content::Str(key),
            Content::Data(None, value.schema(), value.id(), value.content()),
        )
    }

    /// Writes a key. Asks that a mapping is the innermost open collection, and awaits a key. Bytes, and a tag upon a
    /// tag, are refused.
    pub fn serialize_key(&mut self, value: &Typed<'_, '_>) -> Result<()>
        requires { AwaitsKey self.old.opened }
        ensures { WritesOrStays (with_node self.old) (typed_written None value.now)
            self.old self.new result }
    {
        self.serialize_typed(value)
    }

    /// Writes the value of the key before it. Asks that a mapping is the innermost open collection, and awaits a value.
    /// Bytes, and a tag upon a tag, are refused.
    pub fn serialize_value(&mut self, value: &Typed<'_, '_>) -> Result<()>
        requires { AwaitsValue self.old.opened }
        ensures { WritesOrStays (with_node self.old) (typed_written None value.now)
            self.old self.new result }
    {
        self.serialize_typed(value)
    }

    /// Writes a key and its value. Asks that a mapping is the innermost open collection, and awaits a key. Bytes, and
    /// a tag upon a tag, are refused.
    pub fn serialize_entry(&mut self, key: &Typed<'_, '_>, value: &Typed<'_, '_>) -> Result<()>
        requires { AwaitsKey self.old.opened }
        ensures { WritesOrStays (with_both self.old)
            (joined pair_node (typed_written None key.now) (typed_written None value.now))
            self.old self.new result }
    {
        self.place_both(
            Content::Data(None, key.schema(), key.id(), key.content()),
            Content::Data(None, value.schema(), value.id(), value.content()),
        )
    }
}
