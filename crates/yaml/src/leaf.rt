//! The shapes that nodes are read under, one node at a time.

ghost use Rattle.std.specs.Prelude.{◌≡◌, ◌<◌, length, Some, true, IfErr, IsTrue, OnErr};
ghost use Rattle.yaml.specs.Leaves.{leaf_number, leaf_shape, leaf_table};
ghost use Rattle.yaml_base.specs.Answer.{Answers, is_memory};
ghost use Rattle.yaml_read.specs.NodeReads.{NodeGives};
ghost use Rattle.yaml_read.specs.Places.{way_of};
ghost use Rattle.yaml_shape.specs.DataView.{data_of};
ghost use Rattle.yaml_shape.specs.PlainData.{map_data, seq_data, no_entries, no_items};
ghost use Rattle.yaml_shape.specs.PlainShape.{shape_at};

use std::alloc::Global;
use yaml_base::{Cause, Error, Path, Result};
use yaml_read::{Document, NodePlace};
use yaml_shape::{Data, Schema, Shape, ShapeId};

/// What a single node is read as.
#[derive(Clone, Copy)]
pub(crate) enum Leaf {
    /// Anything: it is stepped over.
    Ignored,
    Bool,
    I64,
    U64,
    I128,
    U128,
    Char,
    Str,
    /// The name of a field or of a variant.
    Identifier,
    Unit,
    /// Whether a value is there.
    Option,
    /// A sequence whose elements are stepped over.
    Seq,
    /// A mapping whose keys and values are stepped over.
    Map,
    /// A variant, of which none is known.
    Enum,
    Bytes,
    /// A value of any kind.
    Any,
}

impl Leaf {
    // The number of its shape.
    fn id(self) -> ShapeId
        ensures number { result.0 ≡ leaf_number self }
        ensures within { result.0 < length leaf_table }
        ensures shape { shape_at leaf_table result.0 ≡ Some (leaf_shape self) }
    {
        match self {
            Leaf::Ignored => ShapeId(0),
            Leaf::Bool => ShapeId(1),
            Leaf::I64 => ShapeId(2),
            Leaf::U64 => ShapeId(3),
            Leaf::I128 => ShapeId(4),
            Leaf::U128 => ShapeId(5),
            Leaf::Char => ShapeId(6),
            Leaf::Str => ShapeId(7),
            Leaf::Identifier => ShapeId(8),
            Leaf::Unit => ShapeId(9),
            Leaf::Option => ShapeId(10),
            Leaf::Seq => ShapeId(11),
            Leaf::Map => ShapeId(12),
            Leaf::Enum => ShapeId(13),
            Leaf::Bytes => ShapeId(14),
            Leaf::Any => ShapeId(15),
        }
    }
}

/// Whether data is a sequence of no elements.
pub(crate) fn has_no_items(read: &Data<'_>) -> bool
    ensures { IsTrue result → data_of read.now ≡ seq_data no_items }
{
    match read {
        Data::Seq(items) => items.is_empty(),
        _ => false,
    }
}

/// Whether data is a mapping of no entries.
pub(crate) fn has_no_entries(read: &Data<'_>) -> bool
    ensures { IsTrue result → data_of read.now ≡ map_data no_entries }
{
    match read {
        Data::Map(entries) => entries.is_empty(),
        _ => false,
    }
}

/// These shapes, each under its number.
#[derive(Drop)]
pub(crate) struct Leaves {
    schema: Schema,
    ghost table: { schema ≡ leaf_table },
}

impl Leaves {
    /// All of them. The only fault is want of memory.
    pub(crate) fn new(alloc: Global) -> Result<Leaves>
        ensures memory { IfErr result (λ cause. is_memory cause ≡ true) }
    {
        let shapes = vec![in alloc;
            Shape::IgnoredAny,
            Shape::Bool,
            Shape::I64,
            Shape::U64,
            Shape::I128,
            Shape::U128,
            Shape::Char,
            Shape::Str,
            Shape::Identifier,
            Shape::Unit,
            Shape::Option(ShapeId(0)),
            Shape::Seq(ShapeId(0)),
            Shape::Map(ShapeId(0), ShapeId(0)),
            Shape::Enum {
                name: String::new(alloc),
                variants: Vec::new(alloc)
            },
            Shape::Bytes,
            Shape::Any,
        ]?;
        match Schema::new(alloc, shapes) {
            Ok(schema) => Ok(Leaves { schema }),
            Err(_) => Err(Error::new(Cause::Memory)),
        }
    }

    /// The data of the node in a place of a document. A fault leaves the place as it was.
    pub(crate) fn read<'de>(
        &self,
        document: &Document<'de>,
        alloc: Global,
        leaf: Leaf,
        path: &Path<'_>,
        at: &mut NodePlace,
    ) -> Result<Data<'de>>
        ensures read { Answers data_of result
            (NodeGives leaf_table (leaf_shape leaf) document.now (way_of path.now) at.old at.new) }
        ensures stays { OnErr result (at.new ≡ at.old) }
    {
        document.deserialize_at(alloc, &self.schema, leaf.id(), path, at)
    }
}
