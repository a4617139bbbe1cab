//! The one way in which a serializer changes.

ghost use Rattle.std.specs.Prelude.{◌≡◌, ◌≢◌, [], Some, vec_len, vec_capacity};
ghost use Rattle.yaml_base.specs.EmitEvents.{tag_bytes};
ghost use Rattle.yaml_write.specs.Adds.{Leaves, WritesOrStays};
ghost use Rattle.yaml_write.specs.CollectionView.{collection_kind, open_collection};
ghost use Rattle.yaml_write.specs.CollectionView.{open_collections};
ghost use Rattle.yaml_write.specs.Content.{content_written};
ghost use Rattle.yaml_write.specs.LocalTags.{local_tag};
ghost use Rattle.yaml_write.specs.Opened.{CanEnd};
ghost use Rattle.yaml_write.specs.Outcomes.{joined};
ghost use Rattle.yaml_write.specs.Writing.{turned, with_begun, with_both, with_closed, with_node};
ghost use Rattle.yaml_write.specs.Writing.{with_opened};
ghost use Rattle.yaml_write.specs.WrittenValue.{pair_node};

use super::Serializer;
use crate::all_or_none::{add_both, add_end, add_part, add_start};
use crate::node_content::Content;
use crate::open::{Open, OpenKind, is_mapping};
use crate::tags::local_tag;

// The collection once a node in it has begun.
fn turned(collection: Open) -> Open
    ensures { open_collection result ≡ turned (open_collection collection) }
{
    Open {
        kind: collection.kind,
        awaits_value: is_mapping(collection.kind) && !collection.awaits_value,
    }
}

// Notes that a node in the innermost collection has begun.
fn begin_part(opened: &mut Vec<Open>)
    ensures begun { open_collections opened.new.items
        ≡ with_begun (open_collections opened.old.items) }
    ensures len { vec_len opened.new ≡ vec_len opened.old }
    ensures capacity { vec_capacity opened.new ≡ vec_capacity opened.old }
{
    if let Some(innermost) = opened.pop() {
        opened.push_reserved(turned(innermost));
    }
}

impl Serializer {
    // Adds one node.
    pub(super) fn place(&mut self, content: Content<'_, '_>) -> yaml_base::Result<()>
        ensures { WritesOrStays (with_node self.old) (content_written content.entry)
            self.old self.new result }
    {
        add_part(&mut self.written, &self.opened, content)?;
        begin_part(&mut self.opened);
        Ok(())
    }

    // Adds two nodes to the innermost collection.
    pub(super) fn place_both(
        &mut self,
        first: Content<'_, '_>,
        second: Content<'_, '_>,
    ) -> yaml_base::Result<()>
        requires { self.old.opened ≢ [] }
        ensures { WritesOrStays (with_both self.old)
            (joined pair_node (content_written first.entry) (content_written second.entry))
            self.old self.new result }
    {
        add_both(&mut self.written, first, second)?;
        begin_part(&mut self.opened);
        begin_part(&mut self.opened);
        Ok(())
    }

    // Opens a collection.
    pub(super) fn open(&mut self, kind: OpenKind, tag: Option<String>) -> yaml_base::Result<()>
        ensures { Leaves (with_opened self.old (collection_kind kind) (tag_bytes tag))
            self.old self.new result }
    {
        self.opened.reserve(1)?;
        add_start(&mut self.written, &self.opened, kind, tag)?;
        begin_part(&mut self.opened);
        self.opened.push_reserved(Open {
            kind,
            awaits_value: false,
        });
        Ok(())
    }

    // Opens the collection of a variant, under its name as a tag.
    pub(super) fn open_variant(&mut self, kind: OpenKind, variant: &str) -> yaml_base::Result<()>
        ensures { Leaves
            (with_opened self.old (collection_kind kind) (Some (local_tag variant.now)))
            self.old self.new result }
    {
        let tag = local_tag(self.alloc, variant)?;
        self.open(kind, Some(tag))
    }

    // Closes the innermost collection.
    pub(super) fn close(&mut self) -> yaml_base::Result<()>
        requires { CanEnd self.old.opened }
        ensures { Leaves (with_closed self.old) self.old self.new result }
    {
        add_end(&mut self.written, &self.opened)?;
        let _closed = self.opened.pop();
        Ok(())
    }
}
