//! Events that are added together: all events of a call, or none.

ghost use Rattle.std.specs.Prelude.{◌≡◌, ◌∷◌, ◌++◌, [], Ok, OnErr, OnOk, length, take};
ghost use Rattle.yaml_base.specs.EmitEvents.{tag_bytes};
ghost use Rattle.yaml_base.specs.EmitTree.{emit_node_events};
ghost use Rattle.yaml_write.specs.Adds.{Adds, AddsOrStays};
ghost use Rattle.yaml_write.specs.CollectionView.{collection_kind, open_collections};
ghost use Rattle.yaml_write.specs.Content.{content_written};
ghost use Rattle.yaml_write.specs.Outcomes.{joined};
ghost use Rattle.yaml_write.specs.Writing.{document_start_in, closing_events, part_events, start_of};
ghost use Rattle.yaml_write.specs.WrittenEvents.{pair_events};
ghost use Rattle.yaml_write.specs.WrittenValue.{pair_node};

use crate::buffer::EventBuffer;
use crate::node_content::{Content, write_both, write_content};
use crate::open::{Open, OpenKind, is_mapping};
use crate::write_refusal::Result;
use crate::writer::NodeWriter;
use yaml_base::emitter::EmitEvent;

// What a serializer writes into.
pub(crate) type EventList = NodeWriter<EventBuffer>;

// How many events there are.
fn count(out: &EventList) -> usize
    ensures { result ≡ length out.now }
{
    out.sink.len()
}

// Ends a writing that began behind so many events: where it is refused, those that it left go.
fn settle(out: &mut EventList, held: usize, written: Result<()>) -> Result<()>
    ensures same { result ≡ written }
    ensures ok { OnOk written (out.new ≡ out.old) }
    ensures err { OnErr written (out.new ≡ take held out.old) }
{
    if written.is_err() {
        out.sink.truncate(held);
    }
    written
}

// A node, as a document of its own where nothing is open.
fn write_part(out: &mut EventList, opened: &[Open], content: Content<'_, '_>) -> Result<()>
    ensures { Adds (part_events (open_collections opened.now))
        (content_written content.entry) out.old out.new result }
{
    if !opened.is_empty() {
        return write_content(out, content);
    }
    out.push(EmitEvent::DocumentStart)?;
    write_content(out, content)?;
    out.push(EmitEvent::DocumentEnd)
}

/// Adds a node, as a document of its own where nothing is open.
pub(crate) fn add_part(out: &mut EventList, opened: &[Open], content: Content<'_, '_>) -> Result<()>
    ensures { AddsOrStays (part_events (open_collections opened.now))
        (content_written content.entry) out.old out.new result }
{
    let held = count(out);
    let written = write_part(out, opened, content);
    settle(out, held, written)
}

/// Adds two nodes.
pub(crate) fn add_both(
    out: &mut EventList,
    first: Content<'_, '_>,
    second: Content<'_, '_>,
) -> Result<()>
    ensures { AddsOrStays pair_events
        (joined pair_node (content_written first.entry) (content_written second.entry))
        out.old out.new result }
{
    let held = count(out);
    let written = write_both(out, first, second);
    settle(out, held, written)
}

// The start of a collection, and of its document where nothing is open.
fn write_start(
    out: &mut EventList,
    opened: &[Open],
    kind: OpenKind,
    tag: Option<String>,
) -> Result<()>
    ensures { Adds (λ event. document_start_in (open_collections opened.now) ++ event ∷ [])
        (Ok (start_of (collection_kind kind) (tag_bytes tag))) out.old out.new result }
{
    if opened.is_empty() {
        out.push(EmitEvent::DocumentStart)?;
    }
    out.start(is_mapping(kind), tag, 0)
}

/// Adds the start of a collection, and of its document where nothing is open.
pub(crate) fn add_start(
    out: &mut EventList,
    opened: &[Open],
    kind: OpenKind,
    tag: Option<String>,
) -> Result<()>
    ensures { AddsOrStays (λ event. document_start_in (open_collections opened.now) ++ event ∷ [])
        (Ok (start_of (collection_kind kind) (tag_bytes tag))) out.old out.new result }
{
    let held = count(out);
    let written = write_start(out, opened, kind, tag);
    settle(out, held, written)
}

// The end of the innermost collection, if there is one, and of the document where no other is open.
fn write_end(out: &mut EventList, opened: &[Open]) -> Result<()>
    ensures { Adds (λ events. events) (Ok (closing_events (open_collections opened.now)))
        out.old out.new result }
{
    let Some(innermost) = opened.last() else {
        return Ok(());
    };
    out.end(is_mapping(innermost.kind))?;
    if opened.len() == 1 {
        out.push(EmitEvent::DocumentEnd)?;
    }
    Ok(())
}

/// Adds the end of the innermost collection, if there is one, and of the document where no other is open.
pub(crate) fn add_end(out: &mut EventList, opened: &[Open]) -> Result<()>
    ensures { AddsOrStays (λ events. events) (Ok (closing_events (open_collections opened.now)))
        out.old out.new result }
{
    let held = count(out);
    let written = write_end(out, opened);
    settle(out, held, written)
}
