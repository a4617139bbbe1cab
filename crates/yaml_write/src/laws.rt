//! A law of the definitions, as the contract of a function that does nothing.

ghost use Rattle.std.specs.Prelude.{ℕ, List, Option, IfErr};
ghost use Rattle.yaml_shape.specs.PlainData.{PlainData};
ghost use Rattle.yaml_shape.specs.PlainShape.{PlainShape};
ghost use Rattle.yaml_tree.specs.Tree.{Tree};
ghost use Rattle.yaml_write.specs.WriteRefusals.{IsOfData};
ghost use Rattle.yaml_write.specs.Written.{written};
ghost use Rattle.yaml_write.specs.WrittenValue.{written_value};

/// What is written of data by a shape, or of any value, is a node; or the data has bytes or a tag directly upon a tag,
/// and that is why nothing is written. So memory aside no call refuses data for another reason.
pub fn data_is_refused_only_for_bytes_and_nested_tags()
    ensures data { (table : List PlainShape) (id : ℕ) (tag : Option (List ℕ)) (d : PlainData)
        → IfErr (written table id tag d) IsOfData }
    ensures value { (tag : Option (List ℕ)) (t : Tree) → IfErr (written_value tag t) IsOfData }
{}
