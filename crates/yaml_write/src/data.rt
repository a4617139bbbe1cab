//! The events of data.

ghost use Rattle.std.specs.Prelude.{◌≡◌, None, Ok, string_bytes};
ghost use Rattle.yaml_base.specs.EmitEvents.{tag_bytes};
ghost use Rattle.yaml_base.specs.EmitTree.{emit_node_events, emit_nodes_events, emit_pairs_events};
ghost use Rattle.yaml_base.specs.EmitTree.{emit_mapping_node};
ghost use Rattle.yaml_shape.specs.DataView.{data_of, items_view, entries_view};
ghost use Rattle.yaml_shape.specs.ShapeView.{ids_of, fields_of};
ghost use Rattle.yaml_write.specs.Adds.{Adds};
ghost use Rattle.yaml_write.specs.Outcomes.{made, string_node};
ghost use Rattle.yaml_write.specs.PartsOf.{collection_written, parts_written};
ghost use Rattle.yaml_write.specs.Written.{written, written_elements, written_items};
ghost use Rattle.yaml_write.specs.Written.{written_entries, written_fields};
ghost use Rattle.yaml_write.specs.WrittenParts.{written_entry};
ghost use Rattle.yaml_write.specs.WrittenEvents.{pair_events};
ghost use Rattle.yaml_write.specs.WrittenValue.{pair_node};

mod variant;

use crate::part_shapes::{PartShapes, are_named};
use crate::shape_lookup::{
    element_shape, id_at, inner_shape, item_shapes, key_shape, named_fields, value_shape,
    variant_at,
};
use crate::value::{write_bool, write_value};
use crate::write_refusal::{Refusal, Result};
use crate::writer::NodeWriter;
use variant::write_variant;
use yaml_emit::EventSink;
use yaml_shape::{Data, Entry, Schema, ShapeId};

/// Writes data of the shape with this number under a tag from above, if there is one.
#[cycle(write_data)]
pub(crate) fn write_data<S: EventSink>(
    out: &mut NodeWriter<S>,
    schema: &Schema,
    id: ShapeId,
    tag: Option<String>,
    content: &Data<'_>,
) -> Result<()>
    ensures { Adds emit_node_events
        (written schema.now id.0 (tag_bytes tag) (data_of content.now)) out.old out.new result }
{
    let shape = schema.shape(id);
    match content {
        Data::Any(value) => write_value(out, tag, value),
        Data::Bool(truth) => write_bool(out, tag, *truth),
        Data::Char(letter) => out.character(tag, *letter),
        Data::Signed(number) => out.integer(tag, *number),
        Data::Unsigned(number) => out.integer(tag, *number),
        Data::Str(text) => out.string(tag, text.as_str()),
        Data::Bytes(_) => Err(Refusal::bytes()),
        Data::None | Data::Unit | Data::Ignored => out.null(tag),
        Data::Some(inner) | Data::Newtype(inner) => {
            write_data(out, schema, inner_shape(shape), tag, inner)
        }
        Data::Seq(items) => {
            let shapes = PartShapes::Elements(element_shape(shape));
            write_collection(out, schema, shapes, tag, items)
        }
        Data::Tuple(items) => {
            let shapes = PartShapes::Items(item_shapes(shape));
            write_collection(out, schema, shapes, tag, items)
        }
        Data::Map(entries) => {
            let key = key_shape(shape);
            write_map(out, schema, key, value_shape(shape), tag, entries)
        }
        Data::Struct(items) => {
            let shapes = PartShapes::Fields(named_fields(shape));
            write_collection(out, schema, shapes, tag, items)
        }
        Data::Variant(place, inner) => {
            write_variant(out, schema, variant_at(shape, *place), tag, inner)
        }
    }
}

// The same with no tag from above, by the shortest way for what lists hold most of.
#[cycle(write_data)]
#[inline(always)]
fn write_untagged<S: EventSink>(
    out: &mut NodeWriter<S>,
    schema: &Schema,
    id: ShapeId,
    content: &Data<'_>,
) -> Result<()>
    ensures { Adds emit_node_events
        (written schema.now id.0 None (data_of content.now)) out.old out.new result }
{
    match content {
        Data::Signed(number) => out.integer(None, *number),
        Data::Unsigned(number) => out.integer(None, *number),
        Data::Str(text) => out.string(None, text.as_str()),
        _ => write_data(out, schema, id, None, content),
    }
}

// Writes a sequence, a tuple or a struct: its start, its parts and its end.
#[cycle(write_data)]
fn write_collection<S: EventSink>(
    out: &mut NodeWriter<S>,
    schema: &Schema,
    shapes: PartShapes<'_>,
    tag: Option<String>,
    items: &[Data<'_>],
) -> Result<()>
    ensures { Adds emit_node_events
        (collection_written schema.now shapes.entry (tag_bytes tag) (items_view items.now))
        out.old out.new result }
{
    let named = are_named(shapes);
    out.start(named, tag, items.len())?;
    write_parts(out, schema, shapes, items)?;
    out.end(named)
}

#[cycle(write_data)]
fn write_parts<S: EventSink>(
    out: &mut NodeWriter<S>,
    schema: &Schema,
    shapes: PartShapes<'_>,
    items: &[Data<'_>],
) -> Result<()>
    ensures { Adds (λ events. events)
        (parts_written schema.now shapes.entry (items_view items.now)) out.old out.new result }
{
    match shapes {
        PartShapes::Elements(id) => write_elements(out, schema, id, items),
        PartShapes::Items(ids) => write_items(out, schema, ids, items),
        PartShapes::Fields(fields) => write_fields(out, schema, fields, items),
    }
}

#[cycle(write_data)]
fn write_elements<S: EventSink>(
    out: &mut NodeWriter<S>,
    schema: &Schema,
    id: ShapeId,
    items: &[Data<'_>],
) -> Result<()>
    ensures { Adds emit_nodes_events (written_elements schema.now id.0 (items_view items.now))
        out.old out.new result }
{
    for item in items {
        write_untagged(out, schema, id, item)?;
    }
    Ok(())
}

#[cycle(write_data)]
fn write_items<S: EventSink>(
    out: &mut NodeWriter<S>,
    schema: &Schema,
    ids: &[ShapeId],
    items: &[Data<'_>],
) -> Result<()>
    ensures { Adds emit_nodes_events
        (written_items schema.now (ids_of ids.now) (items_view items.now))
        out.old out.new result }
{
    for i in 0..ids.len().min(items.len()) {
        write_untagged(out, schema, id_at(ids, i), &items[i])?;
    }
    Ok(())
}

#[cycle(write_data)]
fn write_map<S: EventSink>(
    out: &mut NodeWriter<S>,
    schema: &Schema,
    key: ShapeId,
    value: ShapeId,
    tag: Option<String>,
    entries: &[Entry<'_>],
) -> Result<()>
    ensures { Adds emit_node_events (made (emit_mapping_node (tag_bytes tag))
        (written_entries schema.now key.0 value.0 (entries_view entries.now)))
        out.old out.new result }
{
    out.start_mapping(tag, entries.len())?;
    write_entries(out, schema, key, value, entries)?;
    out.end_mapping()
}

#[cycle(write_data)]
fn write_entries<S: EventSink>(
    out: &mut NodeWriter<S>,
    schema: &Schema,
    key: ShapeId,
    value: ShapeId,
    entries: &[Entry<'_>],
) -> Result<()>
    ensures { Adds emit_pairs_events
        (written_entries schema.now key.0 value.0 (entries_view entries.now))
        out.old out.new result }
{
    for entry in entries {
        write_entry(out, schema, key, value, entry)?;
    }
    Ok(())
}

#[cycle(write_data)]
fn write_entry<S: EventSink>(
    out: &mut NodeWriter<S>,
    schema: &Schema,
    key: ShapeId,
    value: ShapeId,
    entry: &Entry<'_>,
) -> Result<()>
    ensures { Adds pair_events (written_entry schema.now key.0 value.0 entry.now)
        out.old out.new result }
{
    write_untagged(out, schema, key, &entry.key)?;
    write_untagged(out, schema, value, &entry.value)
}

#[cycle(write_data)]
fn write_fields<S: EventSink>(
    out: &mut NodeWriter<S>,
    schema: &Schema,
    fields: &[(String, ShapeId)],
    items: &[Data<'_>],
) -> Result<()>
    ensures { Adds emit_pairs_events
        (written_fields schema.now (fields_of fields.now) (items_view items.now))
        out.old out.new result }
{
    for i in 0..fields.len().min(items.len()) {
        write_field(out, schema, &fields[i], &items[i])?;
    }
    Ok(())
}

#[cycle(write_data)]
fn write_field<S: EventSink>(
    out: &mut NodeWriter<S>,
    schema: &Schema,
    field: &(String, ShapeId),
    item: &Data<'_>,
) -> Result<()>
    ensures { Adds pair_events
        (made (pair_node (string_node None (string_bytes field.now.0)))
        (written schema.now field.now.1.0 None (data_of item.now))) out.old out.new result }
{
    out.string(None, field.0.as_str())?;
    write_untagged(out, schema, field.1, item)
}
