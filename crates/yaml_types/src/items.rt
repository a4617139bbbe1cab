//! The data of values, one behind the other.

ghost use Rattle.std.specs.Prelude.{◌≡◌, IfOk, IfErr, OnOk};
ghost use Rattle.yaml_shape.specs.DataView.{items_view};
ghost use Rattle.yaml_shape.specs.PlainData.{no_items, item};
ghost use Rattle.yaml_types.specs.Rows.{items_then};
ghost use Rattle.yaml_types.specs.WriteRefusal.{IsWriteRefusal};

use crate::traits::Serialize;
use std::alloc::Global;
use yaml_base::Error;
use yaml_shape::Data;

// The data of a value behind others, which borrows its texts from the value. Refused where memory runs out, or by a
// message of the value.
pub(crate) fn with_data<'a, T: Serialize>(
    alloc: Global,
    before: Vec<Data<'a>>,
    value: &'a T,
) -> Result<Vec<Data<'a>>, Error>
    ensures ok { IfOk result (λ all. items_view all.items
        ≡ items_then (items_view before.entry.items) (item (T.written value.now) no_items)) }
    ensures kept { OnOk result (T.kept value.now) }
    ensures refused { IfErr result (IsWriteRefusal (T.unwritten value.now)) }
{
    let mut all = before;
    all.push(value.to_data(alloc)?)?;
    Ok(all)
}
