//! Shapes made a schema.

ghost use Rattle.std.specs.Prelude.{◌<◌, length};

use crate::outcome::Outcome;
use crate::table::Table;
use std::alloc::{AllocError, Global};
use yaml_shape::{Schema, ShapeId};

// Appends what data of a shape is expected to be, behind a line feed where something stands before.
fn push_expected(
    alloc: Global,
    schema: &Schema,
    id: ShapeId,
    out: &mut String,
) -> Result<(), AllocError>
    requires { id.0 < length schema.now }
{
    if !out.is_empty() {
        out.push('\n')?;
    }
    match schema.expected(alloc, id) {
        Ok(text) => out.push_str(text.as_str()),
        Err(_) => Err(AllocError),
    }
}

// What data of each shape of a schema is expected to be, a line each.
fn all_expected(alloc: Global, schema: &Schema) -> Result<String, AllocError> {
    let mut out = String::new(alloc);
    for number in 0..4096u32 {
        let id = ShapeId(number);
        if !schema.has(id) {
            return Ok(out);
        }
        push_expected(alloc, schema, id, &mut out)?;
    }
    Ok(out)
}

/// What is told of a table: what data of each of its shapes is expected to be, or why it is no schema.
pub fn told_of_table(alloc: Global, table: &Table) -> Result<Outcome, AllocError> {
    match table {
        Table::Schema(schema) => Ok(Outcome::Done(all_expected(alloc, schema)?)),
        Table::BadLine(number) => Ok(Outcome::Refused(format!(in alloc;
            "schema: bad line {number}"
        )?)),
        Table::Refused(fault) => Ok(Outcome::Fault(format!(in alloc; "schema: {fault}")?)),
    }
}

/// What is told of the table that lines are.
pub fn make_schema(alloc: Global, lines: &[u8]) -> Result<Outcome, AllocError> {
    told_of_table(alloc, &Table::parse(alloc, lines)?)
}
