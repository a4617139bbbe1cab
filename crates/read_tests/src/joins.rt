//! Schemas that are joined, up to the most shapes and beyond.

use std::alloc::Global;
use std::test::Fail;
use yaml_shape::{Schema, SchemaFault, Shape, ShapeId, map_of, option_of, seq_of, tuple_of};

// How schemas are joined.
#[derive(Clone, Copy)]
enum Join {
    Seq,
    Option,
    Map,
    Tuple,
}

// The schema of so many shapes of nothing.
fn nothings(alloc: Global, count: u32) -> Result<Schema, SchemaFault> {
    let mut shapes = Vec::new(alloc);
    for _ in 0..count {
        shapes.push(Shape::Unit)?;
    }
    Schema::new(alloc, shapes)
}

// The join of the first shape of a schema.
fn around(alloc: Global, schema: Schema, join: Join) -> Result<(Schema, ShapeId), SchemaFault> {
    let id = ShapeId(0);
    if !schema.has(id) {
        return tuple_of(alloc, Vec::new(alloc));
    }
    match join {
        Join::Option => option_of(alloc, schema, id),
        _ => seq_of(alloc, schema, id),
    }
}

// The join of the first shapes of two schemas.
fn beside(
    alloc: Global,
    first: Schema,
    next: Schema,
    join: Join,
) -> Result<(Schema, ShapeId), SchemaFault> {
    let id = ShapeId(0);
    if !first.has(id) || !next.has(id) {
        return tuple_of(alloc, Vec::new(alloc));
    }
    match join {
        Join::Tuple => tuple_of(alloc, vec![in alloc; (first, id), (next, id)]?),
        _ => map_of(alloc, first, id, next, id),
    }
}

// The join of the first of so many shapes, and for two schemas of the first of so many others.
fn joined(
    alloc: Global,
    join: Join,
    first: u32,
    next: u32,
) -> Result<(Schema, ShapeId), SchemaFault> {
    let schema = nothings(alloc, first)?;
    match join {
        Join::Seq | Join::Option => around(alloc, schema, join),
        Join::Map | Join::Tuple => beside(alloc, schema, nothings(alloc, next)?, join),
    }
}

// The number of a join that has its kind and names these shapes, or none where it has no room.
fn number(
    joined: Result<(Schema, ShapeId), SchemaFault>,
    join: Join,
    next: u32,
) -> Result<Option<u32>, SchemaFault> {
    match joined {
        Ok((schema, id)) => Ok(if names(&schema, id, join, next) {
            Some(id.0)
        } else {
            None
        }),
        Err(SchemaFault::TooManyShapes) => Ok(None),
        Err(fault) => Err(fault),
    }
}

// Whether a shape is a join of the first shape and of that with another number.
fn names(schema: &Schema, id: ShapeId, join: Join, next: u32) -> bool {
    match (schema.shape(id), join) {
        (Some(Shape::Seq(item)), Join::Seq) => item.0 == 0,
        (Some(Shape::Option(item)), Join::Option) => item.0 == 0,
        (Some(Shape::Map(key, value)), Join::Map) => key.0 == 0 && value.0 == next,
        (Some(Shape::Tuple(items)), Join::Tuple) => {
            items.as_slice() == [ShapeId(0), ShapeId(next)].as_slice()
        }
        _ => false,
    }
}

#[test]
fn joins_have_room_for_so_many_shapes(rt: HostRuntime) -> Result<(), Fail> {
    for &(join, first, next, expected) in &[
        (Join::Seq, 1, 0, Some(1)),
        (Join::Seq, 4095, 0, Some(4095)),
        (Join::Seq, 4096, 0, None),
        (Join::Option, 4095, 0, Some(4095)),
        (Join::Option, 4096, 0, None),
        (Join::Map, 1, 2, Some(3)),
        (Join::Map, 2048, 2047, Some(4095)),
        (Join::Map, 2048, 2048, None),
        (Join::Tuple, 2, 2, Some(4)),
        (Join::Tuple, 2048, 2048, None),
    ] {
        let found = number(joined(rt.alloc(), join, first, next), join, first)?;
        assert_eq!(rt; found, expected, "{first} and {next}");
    }
    Ok(())
}
