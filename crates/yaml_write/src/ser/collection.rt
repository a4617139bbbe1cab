//! The calls that open a collection, and the one that closes it.

ghost use Rattle.std.specs.Prelude.{None, Some};
ghost use Rattle.yaml_write.specs.Adds.{Leaves};
ghost use Rattle.yaml_write.specs.Collections.{seq_kind, tuple_kind, tuple_struct_kind};
ghost use Rattle.yaml_write.specs.Collections.{tuple_variant_kind, map_kind, struct_kind};
ghost use Rattle.yaml_write.specs.Collections.{struct_variant_kind};
ghost use Rattle.yaml_write.specs.LocalTags.{local_tag};
ghost use Rattle.yaml_write.specs.Opened.{CanEnd};
ghost use Rattle.yaml_write.specs.Writing.{with_closed, with_opened};

use super::Serializer;
use crate::open::OpenKind;
use yaml_base::Result;

impl Serializer {
    /// Opens a sequence, of elements.
    pub fn serialize_seq(&mut self, _len: Option<usize>) -> Result<()>
        ensures { Leaves (with_opened self.old seq_kind None) self.old self.new result }
    {
        self.open(OpenKind::Seq, None)
    }

    /// Opens a tuple, of elements.
    pub fn serialize_tuple(&mut self, _len: usize) -> Result<()>
        ensures { Leaves (with_opened self.old tuple_kind None) self.old self.new result }
    {
        self.open(OpenKind::Tuple, None)
    }

    /// Opens a tuple struct, of fields without names.
    pub fn serialize_tuple_struct(&mut self, _name: &str, _len: usize) -> Result<()>
        ensures { Leaves (with_opened self.old tuple_struct_kind None) self.old self.new result }
    {
        self.open(OpenKind::TupleStruct, None)
    }

    /// Opens a variant of fields without names, under its name as a tag.
    pub fn serialize_tuple_variant(
        &mut self,
        _name: &str,
        _index: u32,
        variant: &str,
        _len: usize,
    ) -> Result<()>
        ensures { Leaves
            (with_opened self.old tuple_variant_kind (Some (local_tag variant.now)))
            self.old self.new result }
    {
        self.open_variant(OpenKind::TupleVariant, variant)
    }

    /// Opens a mapping, of keys with values.
    pub fn serialize_map(&mut self, _len: Option<usize>) -> Result<()>
        ensures { Leaves (with_opened self.old map_kind None) self.old self.new result }
    {
        self.open(OpenKind::Map, None)
    }

    /// Opens a struct, of fields with names.
    pub fn serialize_struct(&mut self, _name: &str, _len: usize) -> Result<()>
        ensures { Leaves (with_opened self.old struct_kind None) self.old self.new result }
    {
        self.open(OpenKind::Struct, None)
    }

    /// Opens a variant of fields with names, under its name as a tag.
    pub fn serialize_struct_variant(
        &mut self,
        _name: &str,
        _index: u32,
        variant: &str,
        _len: usize,
    ) -> Result<()>
        ensures { Leaves
            (with_opened self.old struct_variant_kind (Some (local_tag variant.now)))
            self.old self.new result }
    {
        self.open_variant(OpenKind::StructVariant, variant)
    }

    /// Closes the innermost collection, and ends the document where none is left open. Asks that one is open, and
    /// that it awaits no value.
    pub fn end(&mut self) -> Result<()>
        requires { CanEnd self.old.opened }
        ensures { Leaves (with_closed self.old) self.old self.new result }
    {
        self.close()
    }
}
