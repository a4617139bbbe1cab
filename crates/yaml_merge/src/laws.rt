//! What holds of trees once their merge keys are applied. Which keys are the same is left open: each law holds of any
//! such choice.

ghost use Rattle.std.specs.Prelude.{◌≡◌, None, false};
ghost use Rattle.yaml_base.specs.DocTree.{DocNode, DocPairs, IsTreeOf};
ghost use Rattle.yaml_base.specs.PlainDocument.{PlainDocument};
ghost use Rattle.yaml_merge.specs.MergeKeys.{first_merge_key};
ghost use Rattle.yaml_merge.specs.MergedTree.{IsEquivalence, Sameness, applied, each_stand_once, first_of};
ghost use Rattle.yaml_merge.specs.MergedTree.{first_value_at, given_mappings, has_merge_key, joined, merged};
ghost use Rattle.yaml_merge.specs.MergedTree.{own_pairs, stand_once, value_at};
ghost use Rattle.yaml_merge.specs.Treated.{IsTreated};
ghost use Rattle.yaml_merge.specs.declared.merge.Merge.TheVariants.{Apply};

/// A tree without merge keys is merged as it stands.
pub fn a_tree_without_merge_keys_stays()
    ensures { (same : Sameness) (tree : DocNode) → has_merge_key tree ≡ false → merged same tree ≡ tree }
{}

/// A merged tree has no merge key.
pub fn no_merge_key_stays()
    ensures { (same : Sameness) (tree : DocNode) → has_merge_key (merged same tree) ≡ false }
{}

/// At a key a mapping then has its own value, or else that of the first mapping at its merge key which has the key.
pub fn own_keys_win()
    ensures { (same : Sameness) (key : DocNode) (pairs : DocPairs) → IsEquivalence same
        → value_at same key (applied same pairs)
        ≡ first_of (value_at same key (own_pairs pairs)) (first_value_at same key (given_mappings pairs)) }
{}

/// Its own pairs come first, in their order, and those that are given behind them.
pub fn own_pairs_come_first()
    ensures { (same : Sameness) (pairs : DocPairs)
        → (rest : DocPairs) × (applied same pairs ≡ joined (own_pairs pairs) rest) }
{}

/// No key stands twice, where none does among its own, nor in one of the mappings at its merge key.
pub fn no_key_is_given_twice()
    ensures { (same : Sameness) (pairs : DocPairs) → IsEquivalence same → stand_once same (own_pairs pairs)
        → each_stand_once same (given_mappings pairs) → stand_once same (applied same pairs) }
{}

/// Merging a merged tree leaves it.
pub fn merging_again_changes_nothing()
    ensures { (same : Sameness) (tree : DocNode) → merged same (merged same tree) ≡ merged same tree }
{}

/// The tree of what a document becomes where merge keys are applied is merged: merging it again leaves it.
pub fn what_is_merged_stays()
    ensures { (same : Sameness) (document treated : PlainDocument) (tree : DocNode)
        → IsTreated Apply document treated → IsTreeOf treated tree → merged same tree ≡ tree }
{}

/// Where a document has no merge key, what it becomes where these are applied has its merged tree.
pub fn a_document_without_merge_keys_is_merged()
    ensures { (same : Sameness) (document treated : PlainDocument) (root : DocNode) → IsTreeOf document root
        → first_merge_key document.events ≡ None → IsTreated Apply document treated
        → IsTreeOf treated (merged same root) }
{}
