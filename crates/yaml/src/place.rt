//! Where a node stands, for a type that asks.

ghost use Rattle.std.specs.Prelude.{◌≡◌, true, IfOk};
ghost use Rattle.yaml.specs.Around.{standing};
ghost use Rattle.yaml.specs.PlaceSteps.{TookPlace, place_bytes};

use crate::reader::Reader;
use std::alloc::Global;
use yaml_base::{Mark, Result};

// The bytes that tell of a mark.
fn bytes_of(alloc: Global, mark: Mark) -> Result<Vec<u8>>
    ensures { IfOk result (λ bytes. bytes.items ≡ place_bytes mark) }
{
    let line = (mark.line() + 1).to_le_bytes();
    let column = (mark.column() + 1).to_le_bytes();
    let index = mark.index().to_le_bytes();
    let mut bytes = Vec::with_capacity(alloc, 24)?;
    bytes.extend_from_slice(&line)?;
    bytes.extend_from_slice(&column)?;
    bytes.extend_from_slice(&index)?;
    Ok(bytes)
}

impl<'a, 'de> Reader<'a, 'de> {
    /// The bytes that tell of the mark of the node at which the reading stands, or of the one that it stands for. They
    /// are asked for where a map was begun, which then is begun no more.
    pub(crate) fn place_here(&mut self, alloc: Global) -> Result<Vec<u8>>
        ensures { IfOk result (λ bytes. self.old.spot.begun ≡ true
            → TookPlace bytes.items (standing self.old) (standing self.new)) }
    {
        if self.is_bare() {
            return Err(self.fault_of_content());
        }
        let Some(mark) = self.mark_at(self.target(self.spot.place)) else {
            return Err(self.ended());
        };
        self.spot.begun = false;
        bytes_of(alloc, mark)
    }
}
