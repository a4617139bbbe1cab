//! Valid tables of shapes: few enough, and without a number outside, a name twice or a cycle of optionals.

ghost use Rattle.std.specs.Prelude.{◌≡◌, ◌<◌, ◌≤◌, ◌↔◌, ℕ, [], map, length, Some, IsTrue, IfOk, IfErr};
ghost use Rattle.std.specs.Option.{option_map};
ghost use Rattle.yaml_shape.specs.Held.{is_table};
ghost use Rattle.yaml_shape.specs.PlainShape.{option_shape, shape_at};
ghost use Rattle.yaml_shape.specs.ShapeView.{shape_of};
ghost use Rattle.yaml_shape.specs.Validity.{IsValidSchema};
ghost use Rattle.yaml_shape.specs.SchemaRefusal.{IsRefused};
ghost use Rattle.yaml_shape.specs.Walks.{rank};

use crate::distinct_names::first_repeated;
use crate::fault::SchemaFault;
use crate::ids_within::first_outside;
use crate::shape::{Shape, ShapeId};
use crate::walks::first_cycle;
use std::alloc::Global;
use std::marker::Model;

/// The most shapes that a schema has.
pub const SHAPES: usize = 4096;

/// A valid table: at most 4,096 shapes that name only each other, with no name twice in a struct, an enum or a struct
/// variant, and no walk through optionals alone back to its start. Contracts see it as its list of shapes.
#[derive(Drop)]
pub struct Schema {
    pub(crate) shapes: Vec<Shape>,
}

impl Model for Schema {
    ghost use Rattle.std.specs.Prelude.{List, map};
    ghost use Rattle.yaml_shape.specs.PlainShape.{PlainShape};
    ghost use Rattle.yaml_shape.specs.Validity.{IsValidSchema};

    ghost Value = { List PlainShape };

    ghost use Rattle.yaml_shape.specs.ShapeView.{shape_of};

    ghost view = { λ s. map shape_of s.shapes.items };

    ghost invariant = { λ s. IsValidSchema (map shape_of s.shapes.items) };
}

impl Schema {
    /// The schema without shapes. Takes no memory.
    pub fn empty(alloc: Global) -> Schema
        ensures { result ≡ [] }
    {
        Schema {
            shapes: Vec::new(alloc),
        }
    }

    /// The schema of these shapes, each named by its place. Of several faults the first of `TooManyShapes`,
    /// `OutsideTable`, `NameTwice`, `OptionCycle` is answered, with the least shape concerned; `Memory` may be answered
    /// in place of any. The shapes are dropped on refusal.
    pub fn new(alloc: Global, shapes: Vec<Shape>) -> Result<Schema, SchemaFault>
        ensures ok { IfOk result (λ schema. (schema ≡ map shape_of shapes.items) × IsValidSchema schema) }
        ensures refused { IfErr result (IsRefused (map shape_of shapes.items)) }
    {
        if shapes.len() > SHAPES {
            return Err(SchemaFault::TooManyShapes);
        }
        if let Some(number) = first_outside(&shapes) {
            return Err(SchemaFault::OutsideTable(number as u32));
        }
        if let Some(number) = first_repeated(alloc, &shapes)? {
            return Err(SchemaFault::NameTwice(number as u32));
        }
        if let Some(number) = first_cycle(alloc, &shapes)? {
            return Err(SchemaFault::OptionCycle(number as u32));
        }
        Ok(Schema { shapes })
    }

    /// Does nothing. A proof that calls it learns that this schema is valid, as each is from its making on.
    pub fn is_valid(&self)
        ensures { IsValidSchema self.now }
    {
        let _shapes = &self.shapes;
    }

    /// Does nothing. A proof that calls it learns that the names in this schema are UTF-8, and that no shape of it is
    /// the content of a variant alone.
    pub fn is_table(&self)
        ensures { IsTrue (is_table self.now) }
    {
        let _shapes = &self.shapes;
    }

    /// Does nothing. A proof that calls it learns that ranks fall along optionals, so that each walk through
    /// optionals ends.
    pub fn optionals_end(&self)
        ensures small { (id : ℕ) → rank self.now id ≤ 4096 }
        ensures falls { (id content : ℕ) → shape_at self.now id ≡ Some (option_shape content)
            → rank self.now content < rank self.now id }
    {
        self.is_valid();
    }

    /// Whether the number names a shape of this schema.
    pub fn has(&self, id: ShapeId) -> bool
        ensures { IsTrue result ↔ (id.0 < length self.now) }
    {
        (id.0 as usize) < self.shapes.len()
    }

    /// The shape with this number, which this schema has. `has` is the test of what is asked.
    pub fn get(&self, id: ShapeId) -> &Shape
        requires { id.0 < length self.now }
        ensures { shape_at self.now id.0 ≡ Some (shape_of result.now) }
    {
        &self.shapes[id.0 as usize]
    }

    /// The shape with this number, or `None` where there is none.
    pub fn shape(&self, id: ShapeId) -> Option<&Shape>
        ensures found { option_map (λ s. shape_of s.now) result ≡ shape_at self.now id.0 }
        ensures valid { IsValidSchema self.now }
    {
        self.shapes.get(id.0 as usize)
    }
}
