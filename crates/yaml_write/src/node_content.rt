//! What the single calls of a serializer write.

ghost use Rattle.std.specs.Prelude.{◌≡◌};
ghost use Rattle.yaml_base.specs.EmitTree.{emit_node_events};
ghost use Rattle.yaml_write.specs.Adds.{Adds};
ghost use Rattle.yaml_write.specs.Content.{content_written};
ghost use Rattle.yaml_write.specs.Outcomes.{joined};
ghost use Rattle.yaml_write.specs.WrittenEvents.{pair_events};
ghost use Rattle.yaml_write.specs.WrittenValue.{pair_node};

use crate::data::write_data;
use crate::value::{write_bool, write_value};
use crate::write_refusal::Result;
use crate::writer::NodeWriter;
use yaml_emit::EventSink;
use yaml_shape::{Data, Schema, ShapeId};
use yaml_tree::Value;

// What is to be written as one node.
#[derive(Drop)]
pub(crate) enum Content<'a, 'de> {
    // Null.
    Null,
    // A boolean.
    Bool(bool),
    // An integer with a sign.
    Signed(i128),
    // An integer without a sign.
    Unsigned(u128),
    // A character.
    Char(char),
    // A string.
    Str(&'a str),
    // The text of a number, under a tag, if there is one.
    Number(Option<String>, &'a str),
    // A value under a tag.
    Tagged(String, &'a Value),
    // Data of a shape of a schema, under a tag, if there is one.
    Data(Option<String>, &'a Schema, ShapeId, &'a Data<'de>),
}

// Writes the content as one node.
pub(crate) fn write_content<S: EventSink>(
    out: &mut NodeWriter<S>,
    content: Content<'_, '_>,
) -> Result<()>
    ensures { Adds emit_node_events (content_written content.entry) out.old out.new result }
{
    match content {
        Content::Null => out.null(None),
        Content::Bool(truth) => write_bool(out, None, truth),
        Content::Signed(number) => out.integer(None, number),
        Content::Unsigned(number) => out.integer(None, number),
        Content::Char(letter) => out.character(None, letter),
        Content::Str(text) => out.string(None, text),
        Content::Number(tag, text) => out.number(tag, text),
        Content::Tagged(tag, value) => write_value(out, Some(tag), value),
        Content::Data(tag, schema, id, content) => write_data(out, schema, id, tag, content),
    }
}

// Writes both, one after the other.
pub(crate) fn write_both<S: EventSink>(
    out: &mut NodeWriter<S>,
    first: Content<'_, '_>,
    second: Content<'_, '_>,
) -> Result<()>
    ensures { Adds pair_events
        (joined pair_node (content_written first.entry) (content_written second.entry))
        out.old out.new result }
{
    write_content(out, first)?;
    write_content(out, second)
}
