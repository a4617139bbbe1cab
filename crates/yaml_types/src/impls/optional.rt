//! Optionals of a type.

use crate::fault::BuildFault;
use crate::tape_leaf::{begins_collection, is_nothing};
use crate::traits::{Deserialize, RoundTrip, Serialize};
use std::alloc::Global;
use yaml_base::Error;
use yaml_emit::EventSink;
use yaml_shape::{Data, Schema, SchemaFault, ShapeId, option_of};
use yaml_tape::Tape;
use yaml_write::{NodeWriter, inner_shape};

impl<'de, T: Deserialize<'de>> Deserialize<'de> for Option<T> {
    ghost use Rattle.yaml_types.specs.Start.{option_start};
    ghost use Rattle.yaml_types.specs.BuiltParts.{BuiltOption};
    ghost use Rattle.yaml_types.specs.RefusalParts.{RefusedOption};
    ghost use Rattle.yaml_types.specs.StartLaws.{closed_option};

    ghost start = { option_start T.start };

    ghost built = { BuiltOption T.built };

    ghost refused = { RefusedOption T.refused };

    ghost closed = { closed_option T.start T.closed };

    fn schema(alloc: Global) -> Result<(Schema, ShapeId), SchemaFault> {
        let (schema, content) = T::schema(alloc)?;
        option_of(alloc, schema, content)
    }

    fn build(alloc: Global, found: Data<'de>) -> Result<Option<T>, BuildFault> {
        match found {
            Data::None => Ok(None),
            Data::Some(content) => Ok(Some(T::build(alloc, Box::into_inner(content))?)),
            _ => unreachable!(),
        }
    }

    fn read_node(
        alloc: Global,
        tape: &Tape<'de>,
        place: &mut usize,
        depth: usize,
    ) -> Option<Option<T>> {
        if begins_collection(tape, *place) {
            return Some(Some(T::read_node(alloc, tape, place, depth)?));
        }
        if is_nothing(tape, *place)? {
            *place += 1;
            return Some(None);
        }
        Some(Some(T::read_node(alloc, tape, place, depth)?))
    }
}

impl<T: Serialize> Serialize for Option<T> {
    ghost use Rattle.std.specs.Prelude.{IfSome};
    ghost use Rattle.yaml_types.specs.Start.{option_start};
    ghost use Rattle.yaml_types.specs.WrittenParts.{option_written};
    ghost use Rattle.yaml_types.specs.StartLaws.{closed_option};
    ghost use Rattle.yaml_types.specs.WrittenLaws.{option_of_shape};
    ghost use Rattle.yaml_types.specs.WriteRefusal.{OptionUnwritten};

    ghost start = { option_start T.start };

    ghost kept = { λ x. IfSome x T.kept };

    ghost written = { option_written T.written };

    ghost unwritten = { OptionUnwritten T.unwritten };

    ghost closed = { closed_option T.start T.closed };

    ghost of_shape = { option_of_shape T.start T.kept T.written T.closed T.of_shape };

    fn schema(alloc: Global) -> Result<(Schema, ShapeId), SchemaFault> {
        let (schema, content) = T::schema(alloc)?;
        option_of(alloc, schema, content)
    }

    fn to_data<'a>(&'a self, alloc: Global) -> Result<Data<'a>, Error> {
        match self {
            None => Ok(Data::None),
            Some(value) => {
                let content = value.to_data(alloc)?;
                Ok(Data::Some(Box::new(alloc, content)?))
            }
        }
    }

    fn write_node<W: EventSink>(
        &self,
        out: &mut NodeWriter<W>,
        schema: &Schema,
        id: ShapeId,
    ) -> Result<(), Error> {
        match self {
            None => {
                out.null(None)?;
                Ok(())
            }
            Some(value) => value.write_node(out, schema, inner_shape(schema.shape(id))),
        }
    }
}

impl<'de, T: RoundTrip<'de>> RoundTrip<'de> for Option<T> {
    ghost use Rattle.std.proofs.Common.{ap};
    ghost use Rattle.yaml_types.specs.Start.{option_start};
    ghost use Rattle.yaml_types.specs.ReturnLaws.{option_returned, option_accepted};

    ghost one_schema = { ap option_start T.one_schema };

    ghost returned = { option_returned T.kept T.written T.built T.eq T.returned };

    ghost accepted = { option_accepted T.written T.refused T.accepted };
}
