//! What variants hold, as shapes behind a table.

ghost use Rattle.std.specs.Prelude.{◌≡◌, ◌<◌, ◌+◌, [], map, length, true, false, string_bytes, All, IfOk, IfErr};
ghost use Rattle.yaml_shape.specs.ShapeView.{fields_of};
ghost use Rattle.yaml_shape.specs.Join.{joined_all, named_behind, parts_of, StartsWithin, IsTooLarge};
ghost use Rattle.yaml_types.specs.Rows.{total};
ghost use Rattle.yaml_types.specs.Choices.{IsContent, one_content, tuple_content, struct_content};

use std::alloc::Global;
use yaml_shape::{Schema, SchemaFault, ShapeId, VariantShape, row_behind, with_names};

// One content behind the table.
pub(crate) fn one_behind(
    alloc: Global,
    before: Schema,
    part: Schema,
    start: ShapeId,
) -> Result<(Schema, VariantShape), SchemaFault>
    requires { start.0 < length part }
    ensures ok { IfOk result (IsContent before [] (one_content (part, start.0))) }
    ensures refused { IfErr result (IsTooLarge (length before + length part)) }
{
    match row_behind(alloc, before, vec![in alloc; (part, start)]?) {
        Ok((table, ids)) => {
            let mut ids = ids.into_iter();
            let Some(id) = ids.next() else { unreachable!() };
            Ok((table, VariantShape::Newtype(id)))
        }
        Err(fault) => Err(fault),
    }
}

// Fields without names behind the table.
pub(crate) fn tuple_behind(
    alloc: Global,
    before: Schema,
    parts: Vec<(Schema, ShapeId)>,
) -> Result<(Schema, VariantShape), SchemaFault>
    requires { All StartsWithin (parts_of parts.items) }
    ensures ok { IfOk result (IsContent before [] (tuple_content (parts_of parts.items))) }
    ensures refused { IfErr result (IsTooLarge (length before + total (parts_of parts.items))) }
{
    match row_behind(alloc, before, parts) {
        Ok((table, ids)) => Ok((table, VariantShape::Tuple(ids))),
        Err(fault) => Err(fault),
    }
}

// Fields with these names, each of the shape in its place behind the table.
fn fields_behind(
    alloc: Global,
    before: Schema,
    names: Vec<String>,
    parts: Vec<(Schema, ShapeId)>,
) -> Result<(Schema, Vec<(String, ShapeId)>), SchemaFault>
    requires within { All StartsWithin (parts_of parts.items) }
    requires same { length names.items ≡ length parts.items }
    ensures table { IfOk result (λ r. r.0 ≡ joined_all before (parts_of parts.items)) }
    ensures fields { IfOk result (λ r. fields_of r.1.items
        ≡ named_behind (length before) (map string_bytes names.items) (parts_of parts.items)) }
    ensures refused { IfErr result (IsTooLarge (length before + total (parts_of parts.items))) }
{
    match row_behind(alloc, before, parts) {
        Ok((table, ids)) => {
            let fields = with_names(alloc, names, ids)?;
            Ok((table, fields))
        }
        Err(fault) => Err(fault),
    }
}

// Fields with these names behind the table; others are ignored.
pub(crate) fn struct_behind(
    alloc: Global,
    before: Schema,
    names: Vec<String>,
    parts: Vec<(Schema, ShapeId)>,
) -> Result<(Schema, VariantShape), SchemaFault>
    requires within { All StartsWithin (parts_of parts.items) }
    requires same { length names.items ≡ length parts.items }
    ensures ok { IfOk result (IsContent before (map string_bytes names.items)
        (struct_content false (parts_of parts.items))) }
    ensures refused { IfErr result (IsTooLarge (length before + total (parts_of parts.items))) }
{
    match fields_behind(alloc, before, names, parts) {
        Ok((table, fields)) => Ok((table, VariantShape::Struct(fields))),
        Err(fault) => Err(fault),
    }
}

// Fields with these names behind the table; others are a fault.
pub(crate) fn strict_struct_behind(
    alloc: Global,
    before: Schema,
    names: Vec<String>,
    parts: Vec<(Schema, ShapeId)>,
) -> Result<(Schema, VariantShape), SchemaFault>
    requires within { All StartsWithin (parts_of parts.items) }
    requires same { length names.items ≡ length parts.items }
    ensures ok { IfOk result (IsContent before (map string_bytes names.items)
        (struct_content true (parts_of parts.items))) }
    ensures refused { IfErr result (IsTooLarge (length before + total (parts_of parts.items))) }
{
    match fields_behind(alloc, before, names, parts) {
        Ok((table, fields)) => Ok((table, VariantShape::StrictStruct(fields))),
        Err(fault) => Err(fault),
    }
}
