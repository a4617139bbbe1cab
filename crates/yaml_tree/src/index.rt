//! The index of a mapping: chains of entries, kept in the entries themselves, so it takes no memory of its own.
//!
//! An entry is in the chain whose number its key's hash leaves as remainder. The entry at a chain's
//! number keeps where the chain's last entry is, and each entry where the one before it is. A place
//! is kept as one more than it is, so that 0 says that there is none.
ghost use Rattle.std.specs.Prelude.{◌≡◌, ◌<◌, ◌≤◌, ◌+◌, ◌%◌, length};
ghost use Rattle.std.specs.Prelude.{slice_index_or, slice_set};
ghost use Rattle.yaml_tree.specs.Entries.{with_earlier, with_last_place};
ghost use Rattle.yaml_tree.specs.Hash.{hash_of};
ghost use Rattle.yaml_tree.specs.Index.{IsChained, IsIndexed, IsIndexedTo, chain_count};
ghost use Rattle.yaml_tree.specs.Tree.{string};
ghost use Rattle.yaml_tree.specs.View.{entry_pairs, tree_of};

use crate::mapping::Entry;
use crate::value::Value;
use crate::value::hash::{hash_text, hash_value};

// So few entries are gone over one by one.
const FEW: usize = 16;

// How many chains so many entries have: none while they are few, and else the greatest power of 2
// that is no more than they are.
pub(crate) fn chain_count(entries: usize) -> usize
    ensures value { result ≡ chain_count entries }
    ensures within { result ≤ entries }
{
    if entries < FEW {
        0
    } else {
        1 << (63 - entries.leading_zeros())
    }
}

// The chain of a key, among so many.
pub(crate) fn chain_of(key: &Value, chains: usize) -> usize
    requires { 0 < chains }
    ensures value { result ≡ hash_of (tree_of key.now) % chains }
    ensures within { result < chains }
{
    (hash_value(key) % chains as u64) as usize
}

// The chain of the key of a text, among so many.
pub(crate) fn chain_of_text(text: &str, chains: usize) -> usize
    requires { 0 < chains }
    ensures value { result ≡ hash_of (string text.now) % chains }
    ensures within { result < chains }
{
    (hash_text(text.as_bytes()) % chains as u64) as usize
}

// Puts the last entry into the index of those before it.
pub(crate) fn index_last(entries: &mut Vec<Entry>)
    requires some { 0 < length entries.old.items }
    requires others { (n : _) → n + 1 ≡ length entries.old.items → IsIndexedTo n entries.old.items }
    ensures indexed { IsIndexed entries.new.items }
    ensures same { entry_pairs entries.new.items ≡ entry_pairs entries.old.items }
{
    let last = entries.len() - 1;
    let chains = chain_count(last + 1);
    if chains == 0 {
        return;
    }
    if chains == chain_count(last) {
        chain(entries, last, chains);
    } else {
        chain_all(entries, chains);
    }
}

// Puts all entries into chains, so many.
fn chain_all(entries: &mut Vec<Entry>, chains: usize)
    requires some { 0 < chains }
    requires within { chains ≤ length entries.old.items }
    ensures chained { IsChained chains (length entries.new.items) entries.new.items }
    ensures same { entry_pairs entries.new.items ≡ entry_pairs entries.old.items }
    ensures len { length entries.new.items ≡ length entries.old.items }
{
    for chain in 0..chains {
        set_last(entries, chain, 0);
    }
    for place in 0..entries.len() {
        chain(entries, place, chains);
    }
}

// Puts the entry at a place into its chain, behind those before it.
fn chain(entries: &mut Vec<Entry>, place: usize, chains: usize)
    requires some { 0 < chains }
    requires within { chains ≤ length entries.old.items }
    requires there { place < length entries.old.items }
    requires before { IsChained chains place entries.old.items }
    ensures chained { IsChained chains (place + 1) entries.new.items }
    ensures same { entry_pairs entries.new.items ≡ entry_pairs entries.old.items }
    ensures len { length entries.new.items ≡ length entries.old.items }
{
    let chain = chain_of(&entries[place].key, chains);
    let earlier = entries[chain].last;
    set_last(entries, chain, place + 1);
    set_earlier(entries, place, earlier);
}

fn set_last(entries: &mut Vec<Entry>, i: usize, last: usize)
    requires { i < length entries.old.items }
    ensures { (d : _) → entries.new.items
        ≡ slice_set entries.old.items i (with_last_place (slice_index_or entries.old.items i d) last) }
{
    let entry = &mut entries[i];
    entry.last = last;
}

fn set_earlier(entries: &mut Vec<Entry>, i: usize, earlier: usize)
    requires { i < length entries.old.items }
    ensures { (d : _) → entries.new.items
        ≡ slice_set entries.old.items i (with_earlier (slice_index_or entries.old.items i d) earlier) }
{
    let entry = &mut entries[i];
    entry.earlier = earlier;
}
