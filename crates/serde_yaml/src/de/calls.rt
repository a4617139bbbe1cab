//! Readings of a stream under one shape each, within the default limits. Faults come in the same order as `deserialize`
//! has them.

ghost use Rattle.std.specs.Prelude.{[]};
ghost use Rattle.yaml_base.specs.Answer.{Answers};
ghost use Rattle.yaml_shape.specs.DataView.{data_of};
ghost use Rattle.yaml_shape.specs.PlainShape.{any_shape, bool_shape, integer_shape, char_shape, str_shape, bytes_shape};
ghost use Rattle.yaml_shape.specs.PlainShape.{unit_shape, identifier_shape, ignored_shape};
ghost use Rattle.yaml_shape.specs.PlainShape.{i8, i16, i32, i64, i128, isize, u8, u16, u32, u64, u128, usize};
ghost use Rattle.yaml_read.specs.TreeReader.{default_limits};
ghost use Rattle.serde_yaml.specs.StreamReads.{StreamGives};

use crate::de::Deserializer;
use std::alloc::Global;
use yaml_base::Result;
use yaml_shape::{Data, Shape};

impl<'de> Deserializer<'de> {
    /// The data of the stream's one document as a value of any kind.
    pub fn deserialize_any(self, alloc: Global) -> Result<Data<'de>>
        ensures { Answers data_of result (StreamGives default_limits [] any_shape self.entry) }
    {
        self.read_alone(alloc, &Shape::Any)
    }

    /// The data of the stream's one document as a boolean.
    pub fn deserialize_bool(self, alloc: Global) -> Result<Data<'de>>
        ensures { Answers data_of result (StreamGives default_limits [] bool_shape self.entry) }
    {
        self.read_alone(alloc, &Shape::Bool)
    }

    /// The data of the stream's one document as an integer of 8 bits with a sign.
    pub fn deserialize_i8(self, alloc: Global) -> Result<Data<'de>>
        ensures { Answers data_of result (StreamGives default_limits [] (integer_shape i8) self.entry) }
    {
        self.read_alone(alloc, &Shape::I8)
    }

    /// The data of the stream's one document as an integer of 16 bits with a sign.
    pub fn deserialize_i16(self, alloc: Global) -> Result<Data<'de>>
        ensures { Answers data_of result (StreamGives default_limits [] (integer_shape i16) self.entry) }
    {
        self.read_alone(alloc, &Shape::I16)
    }

    /// The data of the stream's one document as an integer of 32 bits with a sign.
    pub fn deserialize_i32(self, alloc: Global) -> Result<Data<'de>>
        ensures { Answers data_of result (StreamGives default_limits [] (integer_shape i32) self.entry) }
    {
        self.read_alone(alloc, &Shape::I32)
    }

    /// The data of the stream's one document as an integer of 64 bits with a sign.
    pub fn deserialize_i64(self, alloc: Global) -> Result<Data<'de>>
        ensures { Answers data_of result (StreamGives default_limits [] (integer_shape i64) self.entry) }
    {
        self.read_alone(alloc, &Shape::I64)
    }

    /// The data of the stream's one document as an integer of 128 bits with a sign.
    pub fn deserialize_i128(self, alloc: Global) -> Result<Data<'de>>
        ensures { Answers data_of result (StreamGives default_limits [] (integer_shape i128) self.entry) }
    {
        self.read_alone(alloc, &Shape::I128)
    }

    /// The data of the stream's one document as an integer of 64 bits, the width of the machine, with a sign.
    pub fn deserialize_isize(self, alloc: Global) -> Result<Data<'de>>
        ensures { Answers data_of result (StreamGives default_limits [] (integer_shape isize) self.entry) }
    {
        self.read_alone(alloc, &Shape::Isize)
    }

    /// The data of the stream's one document as an integer of 8 bits without a sign.
    pub fn deserialize_u8(self, alloc: Global) -> Result<Data<'de>>
        ensures { Answers data_of result (StreamGives default_limits [] (integer_shape u8) self.entry) }
    {
        self.read_alone(alloc, &Shape::U8)
    }

    /// The data of the stream's one document as an integer of 16 bits without a sign.
    pub fn deserialize_u16(self, alloc: Global) -> Result<Data<'de>>
        ensures { Answers data_of result (StreamGives default_limits [] (integer_shape u16) self.entry) }
    {
        self.read_alone(alloc, &Shape::U16)
    }

    /// The data of the stream's one document as an integer of 32 bits without a sign.
    pub fn deserialize_u32(self, alloc: Global) -> Result<Data<'de>>
        ensures { Answers data_of result (StreamGives default_limits [] (integer_shape u32) self.entry) }
    {
        self.read_alone(alloc, &Shape::U32)
    }

    /// The data of the stream's one document as an integer of 64 bits without a sign.
    pub fn deserialize_u64(self, alloc: Global) -> Result<Data<'de>>
        ensures { Answers data_of result (StreamGives default_limits [] (integer_shape u64) self.entry) }
    {
        self.read_alone(alloc, &Shape::U64)
    }

    /// The data of the stream's one document as an integer of 128 bits without a sign.
    pub fn deserialize_u128(self, alloc: Global) -> Result<Data<'de>>
        ensures { Answers data_of result (StreamGives default_limits [] (integer_shape u128) self.entry) }
    {
        self.read_alone(alloc, &Shape::U128)
    }

    /// The data of the stream's one document as an integer of 64 bits, the width of the machine, without a sign.
    pub fn deserialize_usize(self, alloc: Global) -> Result<Data<'de>>
        ensures { Answers data_of result (StreamGives default_limits [] (integer_shape usize) self.entry) }
    {
        self.read_alone(alloc, &Shape::Usize)
    }

    /// The data of the stream's one document as a character.
    pub fn deserialize_char(self, alloc: Global) -> Result<Data<'de>>
        ensures { Answers data_of result (StreamGives default_limits [] char_shape self.entry) }
    {
        self.read_alone(alloc, &Shape::Char)
    }

    /// The data of the stream's one document as a text, borrowed from the source where the source shows it.
    pub fn deserialize_str(self, alloc: Global) -> Result<Data<'de>>
        ensures { Answers data_of result (StreamGives default_limits [] str_shape self.entry) }
    {
        self.read_alone(alloc, &Shape::Str)
    }

    /// The data of the stream's one document as a text.
    pub fn deserialize_string(self, alloc: Global) -> Result<Data<'de>>
        ensures { Answers data_of result (StreamGives default_limits [] str_shape self.entry) }
    {
        self.read_alone(alloc, &Shape::Str)
    }

    /// The data of the stream's one document as bytes, which no event stands for.
    pub fn deserialize_bytes(self, alloc: Global) -> Result<Data<'de>>
        ensures { Answers data_of result (StreamGives default_limits [] bytes_shape self.entry) }
    {
        self.read_alone(alloc, &Shape::Bytes)
    }

    /// The data of the stream's one document as bytes, likewise.
    pub fn deserialize_byte_buf(self, alloc: Global) -> Result<Data<'de>>
        ensures { Answers data_of result (StreamGives default_limits [] bytes_shape self.entry) }
    {
        self.read_alone(alloc, &Shape::Bytes)
    }

    /// The data of the stream's one document as nothing.
    pub fn deserialize_unit(self, alloc: Global) -> Result<Data<'de>>
        ensures { Answers data_of result (StreamGives default_limits [] unit_shape self.entry) }
    {
        self.read_alone(alloc, &Shape::Unit)
    }

    /// The data of the stream's one document as the name of a field or a variant.
    pub fn deserialize_identifier(self, alloc: Global) -> Result<Data<'de>>
        ensures { Answers data_of result (StreamGives default_limits [] identifier_shape self.entry) }
    {
        self.read_alone(alloc, &Shape::Identifier)
    }

    /// The data of the stream's one document as a node that is stepped over, whatever it is.
    pub fn deserialize_ignored_any(self, alloc: Global) -> Result<Data<'de>>
        ensures { Answers data_of result (StreamGives default_limits [] ignored_shape self.entry) }
    {
        self.read_alone(alloc, &Shape::IgnoredAny)
    }
}
