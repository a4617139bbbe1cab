//! Tables of shapes joined into one, with one more shape that is made of theirs.

ghost use Rattle.std.specs.Prelude.{◌≡◌, ◌+◌, ◌<◌, length, string_bytes, IfOk, IfErr};
ghost use Rattle.yaml_shape.specs.PlainShape.{newtype_shape, seq_shape, option_shape, map_shape, enum_shape};
ghost use Rattle.yaml_shape.specs.ShapeView.{variants_of, shape_of};
ghost use Rattle.yaml_shape.specs.Validity.{NamesWithin, HasDistinctNames};
ghost use Rattle.yaml_shape.specs.Kept.{KeepsShapes};
ghost use Rattle.yaml_shape.specs.Join.{joined_tables, IsWith, IsTooLarge, IsNotAdded};

use crate::distinct_names::has_distinct_names;
use crate::fault::SchemaFault;
use crate::moved_shapes::raise_all;
use crate::schema::{SHAPES, Schema};
use crate::shape::{Shape, ShapeId, VariantShape};
use std::alloc::Global;

/// The second table behind the first, with the numbers in it raised past the first.
pub(crate) fn join(first: Schema, second: Schema) -> Result<Schema, SchemaFault>
    ensures ok { IfOk result (λ schema. schema ≡ joined_tables first second) }
    ensures refused { IfErr result (IsTooLarge (length first + length second)) }
{
    let mut shapes = first.shapes;
    let mut others = second.shapes;
    if shapes.len() + others.len() > SHAPES {
        return Err(SchemaFault::TooManyShapes);
    }
    raise_all(&mut others, shapes.len() as u32);
    shapes.append(&mut others)?;
    Ok(Schema { shapes })
}

/// The table with one more shape behind it, and the number of that shape.
pub(crate) fn add(schema: Schema, shape: Shape) -> Result<(Schema, ShapeId), SchemaFault>
    requires within { NamesWithin (length schema) (shape_of shape) }
    requires distinct { HasDistinctNames (shape_of shape) }
    ensures ok { IfOk result (IsWith schema (shape_of shape)) }
    ensures kept { IfOk result (λ r. KeepsShapes 0 schema r.0) }
    ensures refused { IfErr result (IsTooLarge (length schema + 1)) }
{
    let mut shapes = schema.shapes;
    let start = shapes.len();
    if start >= SHAPES {
        return Err(SchemaFault::TooManyShapes);
    }
    shapes.push(shape)?;
    Ok((Schema { shapes }, ShapeId(start as u32)))
}

/// The table with one more shape behind it, which may have a name twice, and the number of that shape. Refused by
/// `TooManyShapes` where there is no room for it, else by `NameTwice` with its number where it has a name twice, and by
/// `Memory`.
pub(crate) fn add_named(
    alloc: Global,
    schema: Schema,
    shape: Shape,
) -> Result<(Schema, ShapeId), SchemaFault>
    requires { NamesWithin (length schema) (shape_of shape) }
    ensures ok { IfOk result (IsWith schema (shape_of shape)) }
    ensures distinct { IfOk result (λ _. HasDistinctNames (shape_of shape)) }
    ensures kept { IfOk result (λ r. KeepsShapes 0 schema r.0) }
    ensures refused { IfErr result (IsNotAdded (length schema) (shape_of shape)) }
{
    let number = schema.shapes.len();
    if number >= SHAPES {
        return Err(SchemaFault::TooManyShapes);
    }
    if !has_distinct_names(alloc, &shape)? {
        return Err(SchemaFault::NameTwice(number as u32));
    }
    match add(schema, shape) {
        Ok(added) => Ok(added),
        Err(fault) => Err(fault),
    }
}

/// The schema with a struct of this name behind it around one content, which is of the shape with this number, and the
/// number of the struct. `Schema::has` is the test of what is asked. Refused by `TooManyShapes` where there is no room
/// for it, and by `Memory`.
pub fn newtype_of(
    _alloc: Global,
    name: String,
    schema: Schema,
    content: ShapeId,
) -> Result<(Schema, ShapeId), SchemaFault>
    requires { content.0 < length schema }
    ensures ok { IfOk result (IsWith schema (newtype_shape (string_bytes name) content.0)) }
    ensures kept { IfOk result (λ r. KeepsShapes 0 schema r.0) }
    ensures refused { IfErr result (IsTooLarge (length schema + 1)) }
{
    add(
        schema,
        Shape::Newtype {
            name,
            inner: content,
        },
    )
}

/// The schema with a sequence behind it whose elements are of the shape with this number, and the number of the
/// sequence. `Schema::has` is the test of what is asked. Refused by `TooManyShapes` where there is no room for it, and
/// by `Memory`.
pub fn seq_of(
    _alloc: Global,
    schema: Schema,
    element: ShapeId,
) -> Result<(Schema, ShapeId), SchemaFault>
    requires { element.0 < length schema }
    ensures ok { IfOk result (IsWith schema (seq_shape element.0)) }
    ensures kept { IfOk result (λ r. KeepsShapes 0 schema r.0) }
    ensures refused { IfErr result (IsTooLarge (length schema + 1)) }
{
    add(schema, Shape::Seq(element))
}

/// The schema with an optional behind it whose content is of the shape with this number, and the number of the
/// optional. `Schema::has` is the test of what is asked. Refused by `TooManyShapes` where there is no room for it, and
/// by `Memory`.
pub fn option_of(
    _alloc: Global,
    schema: Schema,
    content: ShapeId,
) -> Result<(Schema, ShapeId), SchemaFault>
    requires { content.0 < length schema }
    ensures ok { IfOk result (IsWith schema (option_shape content.0)) }
    ensures kept { IfOk result (λ r. KeepsShapes 0 schema r.0) }
    ensures refused { IfErr result (IsTooLarge (length schema + 1)) }
{
    add(schema, Shape::Option(content))
}

/// Both schemas in a row, the numbers in the second moved, with a mapping behind them from keys of the shape with
/// this number in the first to values of that in the second; and the number of the mapping. `Schema::has` is the test
/// of what is asked. Refused by `TooManyShapes` where there are too many, and by `Memory`.
pub fn map_of(
    _alloc: Global,
    keys: Schema,
    key: ShapeId,
    values: Schema,
    value: ShapeId,
) -> Result<(Schema, ShapeId), SchemaFault>
    requires key_in { key.0 < length keys }
    requires value_in { value.0 < length values }
    ensures ok { IfOk result (IsWith (joined_tables keys values) (map_shape key.0 (length keys + value.0))) }
    ensures keys_kept { IfOk result (λ r. KeepsShapes 0 keys r.0) }
    ensures values_kept { IfOk result (λ r. KeepsShapes (length keys) values r.0) }
    ensures refused { IfErr result (IsTooLarge (length keys + length values + 1)) }
{
    values.is_valid();
    let behind = keys.shapes.len() as u32;
    let both = join(keys, values)?;
    add(both, Shape::Map(key, ShapeId(behind + value.0)))
}

/// The schema with an enum of this name behind it, whose variants have these names and contents, and the number of the
/// enum. `Schema::has` is the test of what is asked of each number that a content names. Refused by `TooManyShapes`
/// where there is no room for it, else by `NameTwice` with the number of the enum where two variants have one name or a
/// variant has one name for two fields, and by `Memory`.
pub fn enum_of(
    alloc: Global,
    name: String,
    schema: Schema,
    variants: Vec<(String, VariantShape)>,
) -> Result<(Schema, ShapeId), SchemaFault>
    requires { NamesWithin (length schema) (enum_shape (string_bytes name) (variants_of variants.items)) }
    ensures ok { IfOk result (IsWith schema (enum_shape (string_bytes name) (variants_of variants.items))) }
    ensures kept { IfOk result (λ r. KeepsShapes 0 schema r.0) }
    ensures refused { IfErr result (IsNotAdded (length schema)
        (enum_shape (string_bytes name) (variants_of variants.items))) }
{
    add_named(alloc, schema, Shape::Enum { name, variants })
}
