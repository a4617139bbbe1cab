//! The calls that write one value.

ghost use Rattle.std.specs.Prelude.{◌≡◌, Err, None, Ok, Some, codes, decimal};
ghost use Rattle.std.specs.Char.{encode_utf8};
ghost use Rattle.std.specs.Fmt.{signed_decimal};
ghost use Rattle.std.specs.Option.{option_map};
ghost use Rattle.yaml_base.specs.EmitTree.{emit_scalar_node};
ghost use Rattle.yaml_base.specs.declared.emitter.AskedStyle.TheVariants.{SingleQuoted};
ghost use Rattle.yaml_base.specs.declared.error.Cause.TheVariants.{BytesUnsupported};
ghost use Rattle.yaml_tree.specs.TagView.{tag_text};
ghost use Rattle.yaml_tree.specs.View.{tree_of};
ghost use Rattle.yaml_write.specs.Adds.{WritesOrStays};
ghost use Rattle.yaml_write.specs.LocalTags.{local_tag, value_tag};
ghost use Rattle.yaml_write.specs.Outcomes.{plain_node, null_node, number_node, string_node};
ghost use Rattle.yaml_write.specs.Writing.{with_node};
ghost use Rattle.yaml_write.specs.WrittenTyped.{typed_written};
ghost use Rattle.yaml_write.specs.WrittenValue.{truth_text, written_value};

use super::Serializer;
use crate::node_content::Content;
use crate::tags::{local_tag, value_tag};
use yaml_base::{Cause, Error, Result};
use yaml_shape::Typed;
use yaml_tree::{Tag, Value};

impl Serializer {
    /// Writes a boolean, plain.
    pub fn serialize_bool(&mut self, value: bool) -> Result<()>
        ensures { WritesOrStays (with_node self.old) (Ok (plain_node None (truth_text value)))
            self.old self.new result }
    {
        self.place(Content::Bool(value))
    }

    /// Writes an integer of 8 bits with a sign, plain.
    pub fn serialize_i8(&mut self, value: i8) -> Result<()>
        ensures { WritesOrStays (with_node self.old) (Ok (plain_node None (signed_decimal value)))
            self.old self.new result }
    {
        self.place(Content::Signed(value as i128))
    }

    /// Writes an integer of 16 bits with a sign, plain.
    pub fn serialize_i16(&mut self, value: i16) -> Result<()>
        ensures { WritesOrStays (with_node self.old) (Ok (plain_node None (signed_decimal value)))
            self.old self.new result }
    {
        self.place(Content::Signed(value as i128))
    }

    /// Writes an integer of 32 bits with a sign, plain.
    pub fn serialize_i32(&mut self, value: i32) -> Result<()>
        ensures { WritesOrStays (with_node self.old) (Ok (plain_node None (signed_decimal value)))
            self.old self.new result }
    {
        self.place(Content::Signed(value as i128))
    }

    /// Writes an integer of 64 bits with a sign, plain.
    pub fn serialize_i64(&mut self, value: i64) -> Result<()>
        ensures { WritesOrStays (with_node self.old) (Ok (plain_node None (signed_decimal value)))
            self.old self.new result }
    {
        self.place(Content::Signed(value as i128))
    }

    /// Writes an integer of 128 bits with a sign, plain.
    pub fn serialize_i128(&mut self, value: i128) -> Result<()>
        ensures { WritesOrStays (with_node self.old) (Ok (plain_node None (signed_decimal value)))
            self.old self.new result }
    {
        self.place(Content::Signed(value))
    }

    /// Writes an integer of 8 bits without a sign, plain.
    pub fn serialize_u8(&mut self, value: u8) -> Result<()>
        ensures { WritesOrStays (with_node self.old) (Ok (plain_node None (decimal value)))
            self.old self.new result }
    {
        self.place(Content::Unsigned(value as u128))
    }

    /// Writes an integer of 16 bits without a sign, plain.
    pub fn serialize_u16(&mut self, value: u16) -> Result<()>
        ensures { WritesOrStays (with_node self.old) (Ok (plain_node None (decimal value)))
            self.old self.new result }
    {
        self.place(Content::Unsigned(value as u128))
    }

    /// Writes an integer of 32 bits without a sign, plain.
    pub fn serialize_u32(&mut self, value: u32) -> Result<()>
        ensures { WritesOrStays (with_node self.old) (Ok (plain_node None (decimal value)))
            self.old self.new result }
    {
        self.place(Content::Unsigned(value as u128))
    }

    /// Writes an integer of 64 bits without a sign, plain.
    pub fn serialize_u64(&mut self, value: u64) -> Result<()>
        ensures { WritesOrStays (with_node self.old) (Ok (plain_node None (decimal value)))
            self.old self.new result }
    {
        self.place(Content::Unsigned(value as u128))
    }

    /// Writes an integer of 128 bits without a sign, plain.
    pub fn serialize_u128(&mut self, value: u128) -> Result<()>
        ensures { WritesOrStays (with_node self.old) (Ok (plain_node None (decimal value)))
            self.old self.new result }
    {
        self.place(Content::Unsigned(value))
    }

    /// Writes a character, asked in single quotes.
    pub fn serialize_char(&mut self, value: char) -> Result<()>
        ensures { WritesOrStays (with_node self.old)
            (Ok (emit_scalar_node None (encode_utf8 value) SingleQuoted))
            self.old self.new result }
    {
        self.place(Content::Char(value))
    }

    /// Writes a string, in the style that it has to be asked in to be read back as one.
    pub fn serialize_str(&mut self, value: &str) -> Result<()>
        ensures { WritesOrStays (with_node self.old) (Ok (string_node None value.now))
            self.old self.new result }
    {
        self.place(Content::Str(value))
    }

    /// Writes the text of a number, plain, under the name as a tag, if there is one. A text that is no number's is
    /// written as a string.
    pub fn serialize_number(&mut self, tag: Option<&str>, text: &str) -> Result<()>
        ensures { WritesOrStays (with_node self.old)
            (Ok (number_node (option_map (λ name. local_tag name.now) tag.entry) text.now))
            self.old self.new result }
    {
        let tag = match tag {
            Some(name) => Some(local_tag(self.alloc, name)?),
            None => None,
        };
        self.place(Content::Number(tag, text))
    }

    /// Refuses bytes. Nothing changes, and nothing begins.
    pub fn serialize_bytes(&mut self, _value: &[u8]) -> Result<()>
        ensures refused { result ≡ Err BytesUnsupported }
        ensures err { self.new ≡ self.old }
    {
        Err(Error::new(Cause::BytesUnsupported))
    }

    /// Writes nothing, as `null`.
    pub fn serialize_unit(&mut self) -> Result<()>
        ensures { WritesOrStays (with_node self.old) (Ok (null_node None)) self.old self.new result }
    {
        self.place(Content::Null)
    }

    /// Writes a struct without fields, as `null`.
    pub fn serialize_unit_struct(&mut self, _name: &str) -> Result<()>
        ensures { WritesOrStays (with_node self.old) (Ok (null_node None)) self.old self.new result }
    {
        self.place(Content::Null)
    }

    /// Writes a variant without content, as the string that is its name.
    pub fn serialize_unit_variant(&mut self, _name: &str, _index: u32, variant: &str) -> Result<()>
        ensures { WritesOrStays (with_node self.old) (Ok (string_node None variant.now))
            self.old self.new result }
    {
        self.place(Content::Str(variant))
    }

    /// Writes an optional that is absent, as `null`.
    pub fn serialize_none(&mut self) -> Result<()>
        ensures { WritesOrStays (with_node self.old) (Ok (null_node None)) self.old self.new result }
    {
        self.place(Content::Null)
    }

    /// Writes an optional that is present, as its content. Bytes, and a tag upon a tag, are refused.
    pub fn serialize_some(&mut self, value: &Typed<'_, '_>) -> Result<()>
        ensures { WritesOrStays (with_node self.old) (typed_written None value.now)
            self.old self.new result }
    {
        self.serialize_typed(value)
    }

    /// Writes a struct around one content, as that content. Bytes, and a tag upon a tag, are refused.
    pub fn serialize_newtype_struct(&mut self, _name: &str, value: &Typed<'_, '_>) -> Result<()>
        ensures { WritesOrStays (with_node self.old) (typed_written None value.now)
            self.old self.new result }
    {
        self.serialize_typed(value)
    }

    /// Writes a variant with one content, as that content under the variant's name as a tag. Bytes, and content that
    /// has a tag itself, are refused.
    pub fn serialize_newtype_variant(
        &mut self,
        _name: &str,
        _index: u32,
        variant: &str,
        value: &Typed<'_, '_>,
    ) -> Result<()>
        ensures { WritesOrStays (with_node self.old)
            (typed_written (Some (local_tag variant.now)) value.now) self.old self.new result }
    {
        let tag = local_tag(self.alloc, variant)?;
        self.place(Content::Data(Some(tag), value.schema(), value.id(), value.content()))
    }

    /// Writes a value under a tag. A value that has a tag itself is refused.
    pub fn serialize_tagged(&mut self, tag: &Tag, value: &Value) -> Result<()>
        ensures { WritesOrStays (with_node self.old)
            (written_value (Some (value_tag (tag_text tag.now))) (tree_of value.now))
            self.old self.new result }
    {
        let tag = value_tag(self.alloc, tag)?;
        self.place(Content::Tagged(tag, value))
    }

    /// Writes data by its shape. Bytes, and a tag upon a tag, are refused.
    pub fn serialize_typed(&mut self, value: &Typed<'_, '_>) -> Result<()>
        ensures { WritesOrStays (with_node self.old) (typed_written None value.now)
            self.old self.new result }
    {
        self.place(Content::Data(None, value.schema(), value.id(), value.content()))
    }
}
