//! The anchors of one document's nodes, and of its aliases that wait for their targets.

ghost use Rattle.std.specs.Prelude.{◌≡◌, ◌++◌};
ghost use Rattle.yaml_load.specs.Words.{[], IfOk, length, alias, anchor_at, Input, anchors_in, find_in, alias_to};
ghost use Rattle.yaml_load.specs.Words.{IsTaken, Waiting};

use std::alloc::{AllocError, Global};
use yaml_base::Anchor;

// The anchors of a document's nodes, and those of its aliases that wait for their targets, each beside the place of its
// event.
#[derive(Drop)]
pub(crate) struct Anchors {
    pub(crate) named: Vec<(Anchor, usize)>,
    pub(crate) aliases: Vec<(Anchor, usize)>,
}

impl Anchors {
    // No anchor. Takes no memory.
    pub(crate) fn new(alloc: Global) -> Anchors
        ensures named { result.named.items ≡ [] }
        ensures aliases { result.aliases.items ≡ [] }
    {
        Anchors {
            named: Vec::new(alloc),
            aliases: Vec::new(alloc),
        }
    }

    // Adds the anchor of the node at this place, if it has one.
    pub(crate) fn name(&mut self, anchor: Option<Anchor>, place: usize) -> Result<(), AllocError>
        ensures named { IfOk result (λ _. self.new.named.items
            ≡ self.old.named.items ++ anchor_at anchor place) }
        ensures aliases { IfOk result (λ _. self.new.aliases.items ≡ self.old.aliases.items) }
    {
        if let Some(anchor) = anchor {
            self.named.push((anchor, place))?;
        }
        Ok(())
    }

    // The target of the alias at this place of a document, where its anchor is the one named last. Any other alias
    // waits, and 0 stands for its target.
    pub(crate) fn refer(&mut self, anchor: Anchor, place: usize) -> Result<usize, AllocError>
        ensures taken { IfOk result (λ target. (seen : Input)
            → self.old.named.items ≡ anchors_in 0 seen → place ≡ length seen
            → (waiting : Waiting)
            × IsTaken (find_in (anchors_in 0 seen)) place (alias anchor) (alias_to target) waiting
            × (self.new.aliases.items ≡ self.old.aliases.items ++ waiting)) }
        ensures named { IfOk result (λ _. self.new.named.items ≡ self.old.named.items) }
    {
        if let Some((last, target)) = self.named.last() {
            if *last == anchor {
                return Ok(*target);
            }
        }
        self.aliases.push((anchor, place))?;
        Ok(0)
    }

    // Forgets all anchors, for the next document.
    pub(crate) fn clear(&mut self)
        ensures named { self.new.named.items ≡ [] }
        ensures aliases { self.new.aliases.items ≡ [] }
    {
        self.named.clear();
        self.aliases.clear();
    }
}
