//! A table of shapes, one a line.

mod line;

use line::shape;
use std::alloc::{AllocError, Global};
use std::str;
use yaml_lines::{InputFault, LineFault, first_line};
use yaml_shape::{Schema, SchemaFault, Shape};

/// What the lines of a table give.
#[derive(Drop)]
pub enum Table {
    /// A schema.
    Schema(Schema),
    /// The line with this number, counted from 1, is the first that says no shape.
    BadLine(usize),
    /// The shapes are no schema.
    Refused(SchemaFault),
}

// The shape that a line says.
fn shape_of(alloc: Global, line: &[u8]) -> Result<Shape, LineFault> {
    match str::from_utf8(line) {
        Ok(line) => shape(alloc, line),
        Err(_) => Err(LineFault::Bad),
    }
}

/// The shapes that lines say, one a line.
pub fn shapes_of(alloc: Global, text: &[u8]) -> Result<Vec<Shape>, InputFault> {
    let mut shapes = Vec::new(alloc);
    let mut number = 0;
    let mut rest = text;
    while !rest.is_empty() {
        number += 1;
        let (line, after) = first_line(rest);
        match shape_of(alloc, line) {
            Ok(shape) => shapes.push(shape)?,
            Err(LineFault::Bad) => return Err(InputFault::BadLine(number)),
            Err(LineFault::Memory) => return Err(InputFault::Memory),
        }
        rest = after;
    }
    Ok(shapes)
}

impl Table {
    /// The table of shapes.
    pub fn new(alloc: Global, shapes: Vec<Shape>) -> Table {
        match Schema::new(alloc, shapes) {
            Ok(schema) => Table::Schema(schema),
            Err(fault) => Table::Refused(fault),
        }
    }

    /// Reads the lines of a table.
    pub fn parse(alloc: Global, text: &[u8]) -> Result<Table, AllocError> {
        match shapes_of(alloc, text) {
            Ok(shapes) => Ok(Table::new(alloc, shapes)),
            Err(InputFault::BadLine(number)) => Ok(Table::BadLine(number)),
            Err(InputFault::Memory) => Err(AllocError),
        }
    }

    /// The schema, if the lines give one.
    pub fn schema(&self) -> Option<&Schema> {
        match self {
            Table::Schema(schema) => Some(schema),
            _ => None,
        }
    }
}
