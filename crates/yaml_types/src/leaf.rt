//! Types without parts: the schema of one shape that names no other, and a text as a node.

ghost use Rattle.std.specs.Prelude.{None, Ok, IsTrue, IfOk, IfErr, OnOk};
ghost use Rattle.std.specs.Str.{is_utf8};
ghost use Rattle.yaml_base.specs.EmitTree.{emit_node_events};
ghost use Rattle.yaml_shape.specs.ShapeView.{shape_of};
ghost use Rattle.yaml_shape.specs.Join.{IsTooLarge};
ghost use Rattle.yaml_write.specs.Outcomes.{string_node};
ghost use Rattle.yaml_types.specs.NodeWrites.{IsPut, IsFaultOf};
ghost use Rattle.yaml_types.specs.Start.{IsLeaf, leaf_start, IsStart};

use std::alloc::Global;
use yaml_base::Error;
use yaml_emit::EventSink;
use yaml_shape::{Schema, SchemaFault, Shape, ShapeId};
use yaml_write::NodeWriter;

/// The schema of this shape alone, which names no other and has no name.
pub(crate) fn leaf_schema(alloc: Global, shape: Shape) -> Result<(Schema, ShapeId), SchemaFault>
    requires { IsLeaf (shape_of shape) }
    ensures ok { IfOk result (IsStart (leaf_start (shape_of shape))) }
    ensures refused { IfErr result (IsTooLarge 1) }
{
    match Schema::new(alloc, vec![in alloc; shape]?) {
        Ok(schema) => Ok((schema, ShapeId(0))),
        Err(fault) => Err(fault),
    }
}

// A text as a node behind the events that are there.
pub(crate) fn put_text<W: EventSink>(out: &mut NodeWriter<W>, text: &str) -> Result<(), Error>
    ensures put { OnOk result (IsPut emit_node_events (Ok (string_node None text.now)) out.old out.new) }
    ensures held { IsTrue (is_utf8 text.now) }
    ensures refused { IfErr result (IsFaultOf (Ok (string_node None text.now)) (λ _. ⊥)) }
{
    out.string(None, text)?;
    Ok(())
}
