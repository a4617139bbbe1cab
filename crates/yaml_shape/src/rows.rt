//! Schemas joined in a row, with the tuple or the struct behind them that is made of theirs.

ghost use Rattle.std.specs.Prelude.{◌≡◌, ◌+◌, [], map, length, true, false, string_bytes, All, IfOk, IfErr};
ghost use Rattle.std.specs.List.{zip};
ghost use Rattle.yaml_shape.specs.PlainShape.{row_shape, fields_shape, unnamed, of_struct};
ghost use Rattle.yaml_shape.specs.ShapeView.{ids_of, fields_of};
ghost use Rattle.yaml_shape.specs.Validity.{AllNameWithin};
ghost use Rattle.yaml_shape.specs.Kept.{KeepsShapes, KeepsAllShapes};
ghost use Rattle.yaml_shape.specs.Join.{joined_all, starts_behind, named_behind, parts_of, StartsWithin, IsRow, IsWith};
ghost use Rattle.yaml_shape.specs.Join.{IsTooLarge, IsNotAdded};

use crate::fault::SchemaFault;
use crate::join::{add, add_named, join};
use crate::schema::Schema;
use crate::shape::{Shape, ShapeId};
use std::alloc::{AllocError, Global};

// The schema with all others in a row behind it, the numbers in each moved, and where each starts there.
fn join_row(
    alloc: Global,
    first: Schema,
    parts: Vec<(Schema, ShapeId)>,
) -> Result<(Schema, Vec<ShapeId>), SchemaFault>
    requires { All StartsWithin (parts_of parts.items) }
    ensures ok { IfOk result (λ r. IsRow first (parts_of parts.items) r.0 r.1.items) }
    ensures closed { IfOk result (λ _. All (λ p. AllNameWithin (length p.0) p.0) (parts_of parts.items)) }
    ensures refused { IfErr result (IsTooLarge (length (joined_all first (parts_of parts.items)))) }
{
    let mut starts = Vec::with_capacity(alloc, parts.len())?;
    let mut all = first;
    for (schema, start) in parts {
        schema.is_valid();
        let behind = all.shapes.len() as u32;
        starts.push(ShapeId(behind + start.0))?;
        match join(all, schema) {
            Ok(both) => all = both,
            Err(fault) => return Err(fault),
        }
    }
    Ok((all, starts))
}

/// The schema with all others in a row behind it, the numbers in each moved, and the number that the shape of each has
/// there. `Schema::has` is the test of what is asked of each. Refused by `TooManyShapes` where there are too many, and
/// by `Memory`.
pub fn row_behind(
    alloc: Global,
    first: Schema,
    parts: Vec<(Schema, ShapeId)>,
) -> Result<(Schema, Vec<ShapeId>), SchemaFault>
    requires { All StartsWithin (parts_of parts.items) }
    ensures ok { IfOk result (λ r. IsRow first (parts_of parts.items) r.0 r.1.items) }
    ensures first_kept { IfOk result (λ r. KeepsShapes 0 first r.0) }
    ensures kept { IfOk result (λ r. KeepsAllShapes (length first) (parts_of parts.items) r.0) }
    ensures refused { IfErr result (IsTooLarge (length (joined_all first (parts_of parts.items)))) }
{
    first.is_valid();
    match join_row(alloc, first, parts) {
        Ok(row) => Ok(row),
        Err(fault) => Err(fault),
    }
}

/// The names, each with the number in its place, as the fields of a struct or a variant. There are as many names as
/// numbers. Refused only where memory runs out.
pub fn with_names(
    alloc: Global,
    names: Vec<String>,
    ids: Vec<ShapeId>,
) -> Result<Vec<(String, ShapeId)>, AllocError>
    requires { length names.items ≡ length ids.items }
    ensures { IfOk result
        (λ fields. fields_of fields.items ≡ zip (map string_bytes names.items) (ids_of ids.items)) }
{
    let mut fields = Vec::with_capacity(alloc, names.len())?;
    let mut ids = ids.into_iter();
    for name in names {
        let Some(id) = ids.next() else { unreachable!() };
        fields.push((name, id))?;
    }
    Ok(fields)
}

/// All schemas in a row, the numbers in each moved, with a tuple behind them whose elements are of the shapes with
/// these numbers; and the number of the tuple. Without any it is the empty tuple. `Schema::has` is the test of what is
/// asked of each. Refused by `TooManyShapes` where there are too many, and by `Memory`.
pub fn tuple_of(
    alloc: Global,
    parts: Vec<(Schema, ShapeId)>,
) -> Result<(Schema, ShapeId), SchemaFault>
    requires { All StartsWithin (parts_of parts.items) }
    ensures ok { IfOk result (IsWith (joined_all [] (parts_of parts.items))
        (row_shape unnamed (starts_behind 0 (parts_of parts.items)))) }
    ensures kept { IfOk result (λ r. KeepsAllShapes 0 (parts_of parts.items) r.0) }
    ensures refused { IfErr result (IsTooLarge (length (joined_all [] (parts_of parts.items)) + 1)) }
{
    match join_row(alloc, Schema::empty(alloc), parts) {
        Ok((all, starts)) => add(all, Shape::Tuple(starts)),
        Err(fault) => Err(fault),
    }
}

/// All schemas in a row, the numbers in each moved, with a struct of this name behind them whose fields have no names
/// and are of the shapes with these numbers; and the number of the struct. `Schema::has` is the test of what is asked
/// of each. Refused by `TooManyShapes` where there are too many, and by `Memory`.
pub fn tuple_struct_of(
    alloc: Global,
    name: String,
    parts: Vec<(Schema, ShapeId)>,
) -> Result<(Schema, ShapeId), SchemaFault>
    requires { All StartsWithin (parts_of parts.items) }
    ensures ok { IfOk result (IsWith (joined_all [] (parts_of parts.items))
        (row_shape (of_struct (string_bytes name)) (starts_behind 0 (parts_of parts.items)))) }
    ensures kept { IfOk result (λ r. KeepsAllShapes 0 (parts_of parts.items) r.0) }
    ensures refused { IfErr result (IsTooLarge (length (joined_all [] (parts_of parts.items)) + 1)) }
{
    match join_row(alloc, Schema::empty(alloc), parts) {
        Ok((all, items)) => add(all, Shape::TupleStruct { name, items }),
        Err(fault) => Err(fault),
    }
}

// All schemas in a row, and the fields with these names, each of the shape in its place.
fn join_fields(
    alloc: Global,
    names: Vec<String>,
    parts: Vec<(Schema, ShapeId)>,
) -> Result<(Schema, Vec<(String, ShapeId)>), SchemaFault>
    requires within { All StartsWithin (parts_of parts.items) }
    requires same { length names.items ≡ length parts.items }
    ensures table { IfOk result (λ r. r.0 ≡ joined_all [] (parts_of parts.items)) }
    ensures fields { IfOk result (λ r. fields_of r.1.items
        ≡ named_behind 0 (map string_bytes names.items) (parts_of parts.items)) }
    ensures closed { IfOk result (λ _. All (λ p. AllNameWithin (length p.0) p.0) (parts_of parts.items)) }
    ensures refused { IfErr result (IsTooLarge (length (joined_all [] (parts_of parts.items)))) }
{
    match join_row(alloc, Schema::empty(alloc), parts) {
        Ok((all, starts)) => {
            let fields = with_names(alloc, names, starts)?;
            Ok((all, fields))
        }
        Err(fault) => Err(fault),
    }
}

/// All schemas in a row, the numbers in each moved, with a struct of this name behind them whose fields have these
/// names and are of the shapes with these numbers, and which ignores every other field; and the number of the struct.
/// There are as many names as schemas, and `Schema::has` is the test of what is asked of each. Refused by
/// `TooManyShapes` where there are too many, else by `NameTwice` with the number of the struct where a name is there
/// twice, and by `Memory`.
pub fn struct_of(
    alloc: Global,
    name: String,
    fields: Vec<String>,
    parts: Vec<(Schema, ShapeId)>,
) -> Result<(Schema, ShapeId), SchemaFault>
    requires within { All StartsWithin (parts_of parts.items) }
    requires same { length fields.items ≡ length parts.items }
    ensures ok { IfOk result (IsWith (joined_all [] (parts_of parts.items))
        (fields_shape false (of_struct (string_bytes name))
        (named_behind 0 (map string_bytes fields.items) (parts_of parts.items)))) }
    ensures kept { IfOk result (λ r. KeepsAllShapes 0 (parts_of parts.items) r.0) }
    ensures refused { IfErr result (IsNotAdded (length (joined_all [] (parts_of parts.items)))
        (fields_shape false (of_struct (string_bytes name))
        (named_behind 0 (map string_bytes fields.items) (parts_of parts.items)))) }
{
    match join_fields(alloc, fields, parts) {
        Ok((all, fields)) => add_named(alloc, all, Shape::Struct { name, fields }),
        Err(fault) => Err(fault),
    }
}

/// As `struct_of`, of a struct that refuses every other field.
pub fn strict_struct_of(
    alloc: Global,
    name: String,
    fields: Vec<String>,
    parts: Vec<(Schema, ShapeId)>,
) -> Result<(Schema, ShapeId), SchemaFault>
    requires within { All StartsWithin (parts_of parts.items) }
    requires same { length fields.items ≡ length parts.items }
    ensures ok { IfOk result (IsWith (joined_all [] (parts_of parts.items))
        (fields_shape true (of_struct (string_bytes name))
        (named_behind 0 (map string_bytes fields.items) (parts_of parts.items)))) }
    ensures kept { IfOk result (λ r. KeepsAllShapes 0 (parts_of parts.items) r.0) }
    ensures refused { IfErr result (IsNotAdded (length (joined_all [] (parts_of parts.items)))
        (fields_shape true (of_struct (string_bytes name))
        (named_behind 0 (map string_bytes fields.items) (parts_of parts.items)))) }
{
    match join_fields(alloc, fields, parts) {
        Ok((all, fields)) => add_named(alloc, all, Shape::StrictStruct { name, fields }),
        Err(fault) => Err(fault),
    }
}
