//! What holds of all data and of all schemas in memory, as contracts of functions that answer nothing.

ghost use Rattle.std.specs.Prelude.{◌≡◌, IsTrue, Some};
ghost use Rattle.yaml_shape.specs.DataView.{data_of};
ghost use Rattle.yaml_shape.specs.Held.{IsHeld, is_table};
ghost use Rattle.yaml_shape.specs.PlainShape.{PlainShape, shape_at};
ghost use Rattle.yaml_shape.specs.TypedView.{content_in, id_in, schema_in};
ghost use Rattle.yaml_shape.specs.Validity.{IsValidSchema};

pub use yaml_shape::data_is_held;
use yaml_shape::{Schema, Typed};

/// Does nothing. A proof that calls it learns that the names in the schema are UTF-8, and that no shape of it is the
/// content of a variant alone, as `Schema::is_table` promises.
pub fn schema_is_held(schema: &Schema)
    ensures { IsTrue (is_table schema.now) }
{
    schema.is_table();
}

/// Goes over data with its shape and answers nothing. A proof that calls it learns that the schema is valid and has the
/// shape, and what `schema_is_held` and `data_is_held` say of the schema and of the data.
pub fn typed_is_held(value: &Typed<'_, '_>)
    ensures valid { IsValidSchema (schema_in value.now) }
    ensures table { IsTrue (is_table (schema_in value.now)) }
    ensures shape { (s : PlainShape) × (shape_at (schema_in value.now) (id_in value.now).0 ≡ Some s) }
    ensures content { IsHeld (data_of (content_in value.now)) }
{
    let schema = value.schema();
    schema.is_valid();
    schema.is_table();
    data_is_held(value.content());
}
