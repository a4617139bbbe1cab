//! The events of a value.

ghost use Rattle.std.specs.Prelude.{◌≡◌, None, Ok, OnErr};
ghost use Rattle.std.specs.Fmt.{signed_decimal};
ghost use Rattle.yaml_base.specs.EmitEvents.{tag_bytes};
ghost use Rattle.yaml_base.specs.EmitTree.{emit_node_events, emit_nodes_events, emit_pairs_events};
ghost use Rattle.yaml_tree.specs.Number.{number_of};
ghost use Rattle.yaml_tree.specs.Tree.{sequence, mapping};
ghost use Rattle.yaml_tree.specs.Valid.{pairs_of, tree_of_tagged, values_of};
ghost use Rattle.yaml_tree.specs.View.{tree_of};
ghost use Rattle.yaml_write.specs.Adds.{Adds};
ghost use Rattle.yaml_write.specs.Outcomes.{joined, plain_node};
ghost use Rattle.yaml_write.specs.WrittenEvents.{pair_events};
ghost use Rattle.yaml_write.specs.WrittenValue.{written_value, written_values, written_pairs};
ghost use Rattle.yaml_write.specs.WrittenValue.{pair_node, truth_text};

use crate::tags::value_tag;
use crate::write_refusal::{Refusal, Result};
use crate::writer::NodeWriter;
use yaml_emit::EventSink;
use yaml_tree::{Mapping, Number, Sequence, TaggedValue, Value};

// A boolean.
pub(crate) fn write_bool<S: EventSink>(
    out: &mut NodeWriter<S>,
    tag: Option<String>,
    truth: bool,
) -> Result<()>
    ensures added { Adds emit_node_events (Ok (plain_node (tag_bytes tag) (truth_text truth)))
        out.old out.new result }
    ensures err { OnErr result (out.new ≡ out.old) }
{
    out.plain(tag, if truth { "true" } else { "false" })
}

// The number of a value.
fn write_number<S: EventSink>(
    out: &mut NodeWriter<S>,
    tag: Option<String>,
    number: Number,
) -> Result<()>
    ensures { Adds emit_node_events
        (Ok (plain_node (tag_bytes tag) (signed_decimal (number_of number)))) out.old out.new result }
{
    if let Some(number) = number.as_u64() {
        return out.integer(tag, number);
    }
    match number.as_i64() {
        Some(number) => out.integer(tag, number),
        None => out.null(tag),
    }
}

/// Writes a value under a tag from above, if there is one.
#[cycle(write_value)]
pub(crate) fn write_value<S: EventSink>(
    out: &mut NodeWriter<S>,
    tag: Option<String>,
    value: &Value,
) -> Result<()>
    ensures { Adds emit_node_events (written_value (tag_bytes tag) (tree_of value.now))
        out.old out.new result }
{
    match value {
        Value::Null => out.null(tag),
        Value::Bool(truth) => write_bool(out, tag, *truth),
        Value::Number(number) => write_number(out, tag, *number),
        Value::String(text) => out.string(tag, text.as_str()),
        Value::Sequence(values) => write_sequence(out, tag, values),
        Value::Mapping(pairs) => write_mapping(out, tag, pairs),
        Value::Tagged(tagged) => write_tagged(out, tag, tagged),
    }
}

#[cycle(write_value)]
fn write_sequence<S: EventSink>(
    out: &mut NodeWriter<S>,
    tag: Option<String>,
    values: &Sequence,
) -> Result<()>
    ensures { Adds emit_node_events
        (written_value (tag_bytes tag) (sequence (values_of values.now))) out.old out.new result }
{
    out.start_sequence(tag, values.len())?;
    write_values(out, values)?;
    out.end_sequence()
}

#[cycle(write_value)]
fn write_values<S: EventSink>(out: &mut NodeWriter<S>, values: &Sequence) -> Result<()>
    ensures { Adds emit_nodes_events (written_values (values_of values.now))
        out.old out.new result }
{
    for value in values.as_slice() {
        write_value(out, None, value)?;
    }
    Ok(())
}

#[cycle(write_value)]
fn write_mapping<S: EventSink>(
    out: &mut NodeWriter<S>,
    tag: Option<String>,
    pairs: &Mapping,
) -> Result<()>
    ensures { Adds emit_node_events
        (written_value (tag_bytes tag) (mapping (pairs_of pairs.now))) out.old out.new result }
{
    out.start_mapping(tag, pairs.len())?;
    write_pairs(out, pairs)?;
    out.end_mapping()
}

#[cycle(write_value)]
fn write_pairs<S: EventSink>(out: &mut NodeWriter<S>, pairs: &Mapping) -> Result<()>
    ensures { Adds emit_pairs_events (written_pairs (pairs_of pairs.now)) out.old out.new result }
{
    for (key, value) in pairs.iter() {
        write_pair(out, key, value)?;
    }
    Ok(())
}

#[cycle(write_value)]
fn write_pair<S: EventSink>(out: &mut NodeWriter<S>, key: &Value, value: &Value) -> Result<()>
    ensures { Adds pair_events
        (joined pair_node (written_value None (tree_of key.now))
        (written_value None (tree_of value.now))) out.old out.new result }
{
    write_value(out, None, key)?;
    write_value(out, None, value)
}

#[cycle(write_value)]
fn write_tagged<S: EventSink>(
    out: &mut NodeWriter<S>,
    tag: Option<String>,
    tagged: &TaggedValue,
) -> Result<()>
    ensures { Adds emit_node_events
        (written_value (tag_bytes tag) (tree_of_tagged tagged.now)) out.old out.new result }
{
    if tag.is_some() {
        return Err(Refusal::tag_on_tag());
    }
    let tag = value_tag(out.alloc(), &tagged.tag)?;
    write_value(out, Some(tag), &tagged.value)
}
