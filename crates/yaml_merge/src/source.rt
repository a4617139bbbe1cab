//! What stands at a merge key: the mappings that are merged.

use crate::fault::placed;
use crate::nodes::Nodes;
use std::alloc::Global;
use yaml_base::{Cause, DocEvent, Error, Result, parse_tag};

// A mapping that is merged, by the place of its start, and the node that names it: the mapping itself, or an alias of
// it.
#[derive(Clone, Copy)]
pub(crate) struct Source {
    pub(crate) mapping: usize,
    pub(crate) by: usize,
}

// Whether the node that begins in a place has a local tag.
fn is_tagged(nodes: Nodes<'_, '_>, place: usize) -> bool {
    parse_tag(nodes.tag(place)).is_some()
}

// The fault that something is merged into itself.
fn endless(nodes: Nodes<'_, '_>, by: usize) -> Error {
    match nodes.mark(by) {
        Some(mark) => Error::new(Cause::RecursionLimitExceeded(mark)),
        None => Error::new(Cause::RepetitionLimitExceeded),
    }
}

// The mapping that an element names of what is merged into the mapping that ends in a place.
fn element(alloc: Global, nodes: Nodes<'_, '_>, by: usize, end: usize) -> Result<Source> {
    let mapping = nodes.target(by);
    let cause = if is_tagged(nodes, mapping) {
        Cause::TaggedInMerge
    } else {
        match nodes.event(mapping) {
            Some(DocEvent::MappingStart(_)) => {
                if nodes.end(mapping) >= end {
                    return Err(endless(nodes, by));
                }
                return Ok(Source { mapping, by });
            }
            Some(DocEvent::SequenceStart(_)) => Cause::SequenceInMergeElement,
            _ => Cause::ScalarInMergeElement,
        }
    };
    Err(placed(alloc, cause, nodes.mark(by)))
}

// The mappings that the elements of a sequence name.
fn elements(
    alloc: Global,
    nodes: Nodes<'_, '_>,
    list: usize,
    end: usize,
    sources: &mut Vec<Source>,
) -> Result<()> {
    let last = nodes.end(list);
    let mut at = list.saturating_add(1);
    for _ in 0..nodes.len() {
        if at >= last {
            break;
        }
        sources.push(element(alloc, nodes, at, end)?)?;
        at = nodes.behind(at);
    }
    Ok(())
}

// The mappings that the value of a merge key names, which are merged into the mapping that ends in a place.
pub(crate) fn sources(
    alloc: Global,
    nodes: Nodes<'_, '_>,
    value: usize,
    end: usize,
) -> Result<Vec<Source>> {
    let mut sources = Vec::new(alloc);
    let target = nodes.target(value);
    if !is_tagged(nodes, target) {
        match nodes.event(target) {
            Some(DocEvent::MappingStart(_)) => {
                sources.push(element(alloc, nodes, value, end)?)?;
                return Ok(sources);
            }
            Some(DocEvent::SequenceStart(_)) => {
                if nodes.end(target) >= end {
                    return Err(endless(nodes, value));
                }
                elements(alloc, nodes, target, end, &mut sources)?;
                return Ok(sources);
            }
            _ => return Err(placed(alloc, Cause::ScalarInMerge, nodes.mark(value))),
        }
    }
    Err(placed(alloc, Cause::TaggedInMerge, nodes.mark(value)))
}
