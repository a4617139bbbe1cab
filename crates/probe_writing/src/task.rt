//! What a case asks that needs no reader.

use crate::text::number;
use yaml_shape::ShapeId;

/// What is asked of a case that needs no reader.
#[derive(Clone, Copy)]
pub enum WritingTask {
    /// Its lines are data of this shape, to be written, each as a document.
    Write(ShapeId),
    /// Its lines are calls of a serializer, to be made in a row.
    Calls,
    /// Its lines are events for an emitter, to be printed.
    Emit,
    /// Its lines are shapes, to be made a schema.
    MakeSchema,
    /// Its one line is data of the first shape, to be shown if it is of the second.
    Fit(ShapeId, ShapeId),
    /// What is expected of this shape is to be shown.
    Expect(ShapeId),
}

// What is asked by a word with numbers of shapes.
fn with_shapes(word: &str) -> Option<WritingTask> {
    let (kind, rest) = word.split_once(':')?;
    match kind {
        "write" => Some(WritingTask::Write(number(rest)?)),
        "expected" => Some(WritingTask::Expect(number(rest)?)),
        "fits" => {
            let (from, to) = rest.split_once(',')?;
            Some(WritingTask::Fit(number(from)?, number(to)?))
        }
        _ => None,
    }
}

impl WritingTask {
    /// What is asked by a word; none where it asks nothing, or what needs a reader.
    pub fn parse(word: &str) -> Option<WritingTask> {
        match word {
            "calls" => Some(WritingTask::Calls),
            "emit" => Some(WritingTask::Emit),
            "schema" => Some(WritingTask::MakeSchema),
            _ => with_shapes(word),
        }
    }
}
