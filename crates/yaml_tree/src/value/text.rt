//! Where the key of a text is among entries. No key is made of the text.
ghost use Rattle.std.specs.Prelude.{◌≡◌, ◌<◌, ◌≤◌, true, length, IfSome};
ghost use Rattle.yaml_tree.specs.Equal.{tree_eq};
ghost use Rattle.yaml_tree.specs.Index.{IsChained, IsIndexed};
ghost use Rattle.yaml_tree.specs.Lookup.{place_of_key};
ghost use Rattle.yaml_tree.specs.Mapping.{keys_distinct};
ghost use Rattle.yaml_tree.specs.Tree.{string};
ghost use Rattle.yaml_tree.specs.View.{entry_pairs, tree_of};

use crate::index::{chain_count, chain_of_text};
use crate::mapping::Entry;
use crate::value::Value;

// Whether a key is the string of this text.
fn is_text(key: &Value, text: &str) -> bool
    ensures { result ≡ tree_eq (string text.now) (tree_of key.now) }
{
    match key {
        Value::String(own) => text.as_bytes() == own.as_bytes(),
        _ => false,
    }
}

// The place of the first entry with this text's key.
fn find_in_order(text: &str, entries: &[Entry]) -> Option<usize>
    ensures place { result ≡ place_of_key (string text.now) (entry_pairs entries.now) }
    ensures within { IfSome result (λ i. i < length entries.now) }
{
    for (i, entry) in entries.iter().enumerate() {
        if is_text(&entry.key, text) {
            return Some(i);
        }
    }
    None
}

// The same of entries with distinct keys in so many chains: only the text's chain is gone along,
// from its last entry to its first.
fn find_in_chain(text: &str, entries: &[Entry], chains: usize) -> Option<usize>
    requires distinct { keys_distinct (entry_pairs entries.now) ≡ true }
    requires some { 0 < chains }
    requires within { chains ≤ length entries.now }
    requires chained { IsChained chains (length entries.now) entries.now }
    ensures place { result ≡ place_of_key (string text.now) (entry_pairs entries.now) }
    ensures within { IfSome result (λ i. i < length entries.now) }
{
    let mut left = entries[chain_of_text(text, chains)].last;
    while left > 0 {
        let place = left - 1;
        let entry = &entries[place];
        if is_text(&entry.key, text) {
            return Some(place);
        }
        left = entry.earlier;
    }
    None
}

/// The place of a text's key among entries with distinct keys.
pub(crate) fn find_text(text: &str, entries: &[Entry]) -> Option<usize>
    requires distinct { keys_distinct (entry_pairs entries.now) ≡ true }
    requires indexed { IsIndexed entries.now }
    ensures place { result ≡ place_of_key (string text.now) (entry_pairs entries.now) }
    ensures within { IfSome result (λ i. i < length entries.now) }
{
    let chains = chain_count(entries.len());
    if chains == 0 {
        find_in_order(text, entries)
    } else {
        find_in_chain(text, entries, chains)
    }
}
