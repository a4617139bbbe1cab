//! What the shape of a collection says of its parts.

ghost use Rattle.std.specs.Prelude.{◌≡◌};
ghost use Rattle.yaml_write.specs.PartsOf.{are_named};

use yaml_shape::ShapeId;

/// The shapes of the parts of a collection.
#[derive(Clone, Copy)]
pub(crate) enum PartShapes<'a> {
    /// That of all elements of a sequence.
    Elements(ShapeId),
    /// Those of the items of a tuple, one after another.
    Items(&'a [ShapeId]),
    /// Those of the fields of a struct, each with its name.
    Fields(&'a [(String, ShapeId)]),
}

/// Whether the parts have names, so that they are written as a mapping.
pub(crate) fn are_named(shapes: PartShapes<'_>) -> bool
    ensures { result ≡ are_named shapes.entry }
{
    matches!(shapes, PartShapes::Fields(_))
}
