//! What stands before a node: an anchor and a tag.

use std::alloc::{AllocError, Global};
use yaml_base::{Anchor, Mark, Tag};

// A tag as it is written.
#[derive(Drop)]
pub(crate) struct WrittenTag {
    // Empty where the tag is complete without it.
    pub(crate) handle: Vec<u8>,
    pub(crate) suffix: Vec<u8>,
    // Where the tag begins.
    pub(crate) mark: Mark,
}

// An anchor, a tag, both or neither, that wait for their node.
#[derive(Drop)]
pub(crate) struct Properties {
    pub(crate) anchor: Option<Vec<u8>>,
    pub(crate) tag: Option<WrittenTag>,
    // Where the first of them begins, or else the node.
    pub(crate) start: Mark,
    // Where the last of them ends, or else the node begins.
    pub(crate) end: u64,
}

impl Properties {
    // Neither, before a node that begins here.
    pub(crate) fn none(mark: Mark) -> Properties {
        Properties {
            anchor: None,
            tag: None,
            start: mark,
            end: mark.index(),
        }
    }
}

// What a handle of a `%TAG` directive stands for.
#[derive(Drop)]
pub(crate) struct Handle {
    pub(crate) handle: Vec<u8>,
    pub(crate) prefix: Vec<u8>,
}

// The tag that is both parts together.
fn joined(alloc: Global, prefix: &[u8], suffix: &[u8]) -> Result<Tag, AllocError> {
    let mut text = Vec::new(alloc);
    text.extend_from_slice(prefix)?;
    text.extend_from_slice(suffix)?;
    Ok(Tag::new(text))
}

// The tag that a handle of the document, `!` or `!!` and a suffix stand for, if there is such a handle.
pub(crate) fn resolve(
    alloc: Global,
    handles: &[Handle],
    tag: WrittenTag,
) -> Result<Option<Tag>, AllocError> {
    let WrittenTag { handle, suffix, .. } = tag;
    if handle.is_empty() {
        return Ok(Some(Tag::new(suffix)));
    }
    for known in handles {
        if known.handle == handle {
            return Ok(Some(joined(alloc, known.prefix.as_slice(), suffix.as_slice())?));
        }
    }
    if handle.as_slice() == b"!".as_slice() {
        Ok(Some(joined(alloc, b"!", suffix.as_slice())?))
    } else if handle.as_slice() == b"!!".as_slice() {
        Ok(Some(joined(alloc, b"tag:yaml.org,2002:", suffix.as_slice())?))
    } else {
        Ok(None)
    }
}
