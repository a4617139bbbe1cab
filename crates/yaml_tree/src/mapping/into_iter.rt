//! Going over the pairs of a mapping by `for`, as they are or by handing them out.

use crate::mapping::{Entry, Iter, Mapping};
use crate::value::Value;
use std::marker::Model;
use std::vec;

/// The pairs of a mapping that are left to hand out.
#[derive(Drop)]
pub struct IntoIter {
    rest: vec::IntoIter<Entry>,
}

impl Model for IntoIter {
    ghost use Rattle.std.specs.Prelude.{List};
    ghost use Rattle.std.specs.Coded.{coded×, coded_list};
    ghost use Rattle.yaml_tree.specs.Code.{tree_code};
    ghost use Rattle.yaml_tree.specs.Tree.{Tree, pair_list};

    ghost Value = { List (Tree × Tree) };

    ghost coded = { coded_list (coded× tree_code tree_code) };

    ghost use Rattle.std.specs.Vec.Iter.{into_iter_items};
    ghost use Rattle.yaml_tree.specs.View.{entry_pairs};

    ghost view = { λ pairs. pair_list (entry_pairs (into_iter_items pairs.rest)) };
}

impl Iterator for IntoIter {
    type Item = (Value, Value);

    ghost use Rattle.std.specs.Iterator.{item_count, YieldsFirstBy};
    ghost use Rattle.yaml_tree.specs.View.{tree_of};

    ghost next_gives = { YieldsFirstBy (λ p. (tree_of p.0, tree_of p.1)) (λ left. left) };

    ghost remaining = { item_count (λ left. left) };

    fn next(&mut self) -> Option<(Value, Value)> {
        let Entry { key, value, .. } = self.rest.next()?;
        Some((key, value))
    }
}

impl IntoIterator for Mapping {
    type Item = (Value, Value);

    type IntoIter = IntoIter;

    ghost use Rattle.std.specs.Prelude.{◌≡◌};
    ghost use Rattle.yaml_tree.specs.Tree.{pair_list};
    ghost use Rattle.yaml_tree.specs.Valid.{pairs_of};

    ghost into_iter_gives = { λ mapping pairs. pairs ≡ pair_list (pairs_of mapping) };

    /// The pairs in order, handed out. Takes no memory.
    fn into_iter(self) -> IntoIter {
        IntoIter {
            rest: self.entries.into_iter(),
        }
    }
}

impl<'a> IntoIterator for &'a Mapping {
    type Item = (&'a Value, &'a Value);

    type IntoIter = Iter<'a>;

    ghost use Rattle.std.specs.Prelude.{◌≡◌};
    ghost use Rattle.yaml_tree.specs.Tree.{pair_list};
    ghost use Rattle.yaml_tree.specs.Valid.{pairs_of};

    ghost into_iter_gives = { λ mapping pairs. pairs ≡ pair_list (pairs_of mapping.now) };

    /// The pairs in order, as `iter` gives them.
    fn into_iter(self) -> Iter<'a> {
        self.iter()
    }
}
