//! Streams under shapes that name no others.

ghost use Rattle.std.specs.Prelude.{◌≡◌, Result, []};
ghost use Rattle.yaml_base.specs.Answer.{Answers};
ghost use Rattle.yaml_base.specs.declared.error.Cause.{Cause};
ghost use Rattle.yaml_shape.specs.DataView.{data_of};
ghost use Rattle.yaml_shape.specs.PlainData.{PlainData};
ghost use Rattle.yaml_shape.specs.ShapeView.{shape_of};
ghost use Rattle.yaml_shape.specs.Validity.{named};
ghost use Rattle.yaml_read.specs.Reads.{DocumentGives};
ghost use Rattle.yaml_read.specs.TreeReader.{default_limits};
ghost use Rattle.serde_yaml.specs.StreamReads.{StreamGives, unless_more};

use crate::de::Deserializer;
use std::alloc::Global;
use yaml_base::{Cause, Error, Result};
use yaml_read::Document;
use yaml_shape::{Data, Shape};

// The data of a document, behind which others may follow.
fn read_first_alone<'de>(
    alloc: Global,
    document: &Document<'de>,
    shape: &Shape,
    others: bool,
) -> Result<Data<'de>>
    requires { named (shape_of shape.now) ≡ [] }
    ensures { Answers data_of result (λ given.
        (found : Result PlainData Cause) × DocumentGives default_limits [] (shape_of shape.now) document.now found
        × (given ≡ unless_more others found)) }
{
    match document.deserialize_alone(alloc, shape) {
        Ok(found) => {
            if others {
                return Err(Error::new(Cause::MoreThanOneDocument));
            }
            Ok(found)
        }
        Err(fault) => Err(fault),
    }
}

impl<'de> Deserializer<'de> {
    // The data of the stream's one document under a shape that names no other.
    pub(super) fn read_alone(self, alloc: Global, shape: &Shape) -> Result<Data<'de>>
        requires { named (shape_of shape.now) ≡ [] }
        ensures { Answers data_of result (StreamGives default_limits [] (shape_of shape.now) self.entry) }
    {
        match self.first() {
            Ok((document, others)) => read_first_alone(alloc, &document, shape, others),
            Err(fault) => Err(fault),
        }
    }
}
