//! Boxes, which are read and written as their content.

use crate::fault::BuildFault;
use crate::traits::{Deserialize, RoundTrip, Serialize};
use std::alloc::Global;
use yaml_base::Error;
use yaml_emit::EventSink;
use yaml_shape::{Data, Schema, SchemaFault, ShapeId};
use yaml_tape::Tape;
use yaml_write::NodeWriter;

impl<'de, T: Deserialize<'de> + Drop> Deserialize<'de> for Box<T> {
    ghost start = { T.start };

    ghost built = { λ d x. T.built d x.value };

    ghost refused = { T.refused };

    ghost closed = { T.closed };

    fn schema(alloc: Global) -> Result<(Schema, ShapeId), SchemaFault> {
        T::schema(alloc)
    }

    fn build(alloc: Global, found: Data<'de>) -> Result<Box<T>, BuildFault> {
        let value = T::build(alloc, found)?;
        Ok(Box::new(alloc, value)?)
    }

    fn read_node(
        alloc: Global,
        tape: &Tape<'de>,
        place: &mut usize,
        depth: usize,
    ) -> Option<Box<T>> {
        let value = T::read_node(alloc, tape, place, depth)?;
        Box::new(alloc, value).ok()
    }
}

impl<T: Serialize> Serialize for Box<T> {
    ghost start = { T.start };

    ghost kept = { λ x. T.kept x.value };

    ghost written = { λ x. T.written x.value };

    ghost unwritten = { λ x. T.unwritten x.value };

    ghost closed = { T.closed };

    ghost of_shape = { λ x kept. T.of_shape x.value kept };

    fn schema(alloc: Global) -> Result<(Schema, ShapeId), SchemaFault> {
        T::schema(alloc)
    }

    fn to_data<'a>(&'a self, alloc: Global) -> Result<Data<'a>, Error> {
        (**self).to_data(alloc)
    }

    fn write_node<W: EventSink>(
        &self,
        out: &mut NodeWriter<W>,
        schema: &Schema,
        id: ShapeId,
    ) -> Result<(), Error> {
        (**self).write_node(out, schema, id)
    }
}

impl<'de, T: RoundTrip<'de> + Drop> RoundTrip<'de> for Box<T> {
    ghost one_schema = { T.one_schema };

    ghost returned = { λ x y. T.returned x.value y.value };

    ghost accepted = { λ x. T.accepted x.value };
}
