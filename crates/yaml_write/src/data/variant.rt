//! The events of a variant.

ghost use Rattle.std.specs.Prelude.{◌≡◌};
ghost use Rattle.std.specs.Option.{option_map};
ghost use Rattle.yaml_base.specs.EmitEvents.{tag_bytes};
ghost use Rattle.yaml_base.specs.EmitTree.{emit_node_events};
ghost use Rattle.yaml_shape.specs.DataView.{data_of};
ghost use Rattle.yaml_shape.specs.ShapeView.{ids_of, fields_of, content_of, variant_of};
ghost use Rattle.yaml_write.specs.Adds.{Adds};
ghost use Rattle.yaml_write.specs.Written.{holds_content, written_tuple, written_struct};
ghost use Rattle.yaml_write.specs.WrittenParts.{written_content, written_variant};

use super::{write_collection, write_data};
use crate::part_shapes::PartShapes;
use crate::tags::local_tag;
use crate::write_refusal::{Refusal, Result};
use crate::writer::NodeWriter;
use yaml_emit::EventSink;
use yaml_shape::{Data, Schema, ShapeId, VariantShape};

// Whether the variant has content.
fn has_content(variant: &VariantShape) -> bool
    ensures { result ≡ holds_content (content_of variant.now) }
{
    !matches!(variant, VariantShape::Unit)
}

/// Writes a variant, if the enum has it, under a tag from above, if there is one.
#[cycle(write_data)]
pub(super) fn write_variant<S: EventSink>(
    out: &mut NodeWriter<S>,
    schema: &Schema,
    variant: Option<&(String, VariantShape)>,
    tag: Option<String>,
    content: &Data<'_>,
) -> Result<()>
    ensures { Adds emit_node_events
        (written_variant schema.now (data_of content.now)
        (option_map (λ v. variant_of v.now) variant.entry) (tag_bytes tag)) out.old out.new result }
{
    let Some((name, variant)) = variant else {
        return out.null(tag);
    };
    if !has_content(variant) {
        return out.string(tag, name.as_str());
    }
    if tag.is_some() {
        return Err(Refusal::tag_on_tag());
    }
    let own = local_tag(out.alloc(), name.as_str())?;
    write_content(out, schema, variant, Some(own), content)
}

// Writes the content of a variant under the variant's tag.
#[cycle(write_data)]
fn write_content<S: EventSink>(
    out: &mut NodeWriter<S>,
    schema: &Schema,
    variant: &VariantShape,
    own: Option<String>,
    content: &Data<'_>,
) -> Result<()>
    ensures { Adds emit_node_events
        (written_content schema.now (data_of content.now) (content_of variant.now) (tag_bytes own))
        out.old out.new result }
{
    match variant {
        VariantShape::Unit => out.null(own),
        VariantShape::Newtype(inner) => write_data(out, schema, *inner, own, content),
        VariantShape::Tuple(ids) => write_tuple_content(out, schema, ids, own, content),
        VariantShape::Struct(fields) | VariantShape::StrictStruct(fields) => {
            write_struct_content(out, schema, fields, own, content)
        }
    }
}

#[cycle(write_data)]
fn write_tuple_content<S: EventSink>(
    out: &mut NodeWriter<S>,
    schema: &Schema,
    ids: &[ShapeId],
    own: Option<String>,
    content: &Data<'_>,
) -> Result<()>
    ensures { Adds emit_node_events
        (written_tuple schema.now (ids_of ids.now) (tag_bytes own) (data_of content.now))
        out.old out.new result }
{
    match content {
        Data::Tuple(items) => write_collection(out, schema, PartShapes::Items(ids), own, items),
        _ => out.null(own),
    }
}

#[cycle(write_data)]
fn write_struct_content<S: EventSink>(
    out: &mut NodeWriter<S>,
    schema: &Schema,
    fields: &[(String, ShapeId)],
    own: Option<String>,
    content: &Data<'_>,
) -> Result<()>
    ensures { Adds emit_node_events
        (written_struct schema.now (fields_of fields.now) (tag_bytes own) (data_of content.now))
        out.old out.new result }
{
    match content {
        Data::Struct(items) => write_collection(
            out,
            schema,
            PartShapes::Fields(fields),
            own,
            items,
        ),
        _ => out.null(own),
    }
}
