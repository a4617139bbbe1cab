//! The index of a mapping: chains of entries, kept in the entries themselves, so it takes no memory of its own.
//!
//! An entry is in the chain whose number its key's hash leaves as remainder. The entry at a chain's number keeps where
//! the chain's last entry is, and each entry where the one before it is. A place is kept as one more than it is, so
//! that 0 says that there is none.

ghost use Rattle.std.specs.Prelude.{◌≡◌, ◌<◌, ◌≤◌, ◌+◌, ◌%◌, length, slice_index_or, slice_set};
ghost use Rattle.yaml_tree.specs.Index.{chain_count};
ghost use Rattle.yaml_value.specs.Find.{few};
ghost use Rattle.yaml_value.specs.Index.{IsChained, IsIndexed, IsIndexedTo, chain_end, earliers_of};
ghost use Rattle.yaml_value.specs.Index.{key_hashes, lasts_of};
ghost use Rattle.yaml_value.specs.View.{entry_pairs, plain_entry};

use crate::mapping::Entry;
use crate::value::hash::hash_value;

// So few entries are gone over one by one.
const FEW: usize = 16;

// How many chains so many entries have: none while they are few, and else the greatest power of 2 that is no more than
// they are.
pub(crate) fn chain_count(entries: usize) -> usize
    ensures value { result ≡ chain_count entries }
    ensures few { entries < few → result ≡ 0 }
    ensures within { result ≤ entries }
{
    if entries < FEW {
        0
    } else {
        1 << (63 - entries.leading_zeros())
    }
}

// The chain of a hash, among so many.
fn chain_of(hash: u64, chains: usize) -> usize
    requires { 0 < chains }
    ensures value { result ≡ hash % chains }
    ensures within { result < chains }
{
    (hash % chains as u64) as usize
}

// Where the last entry of a chain is, as it is kept.
fn last_at(entries: &[Entry], chain: usize) -> usize
    requires { chain < length entries.now }
    ensures { result ≡ slice_index_or (lasts_of entries.now) chain 0 }
{
    entries[chain].last
}

// The same among these.
fn last_in(entries: &Vec<Entry>, chain: usize) -> usize
    requires { chain < length entries.now.items }
    ensures { result ≡ slice_index_or (lasts_of entries.now.items) chain 0 }
{
    last_at(entries.as_slice(), chain)
}

// Where the entry before one in its chain is, as it is kept.
pub(crate) fn earlier_at(entries: &[Entry], place: usize) -> usize
    requires { place < length entries.now }
    ensures { result ≡ slice_index_or (earliers_of entries.now) place 0 }
{
    entries[place].earlier
}

// Where the chain of a hash ends, as it is kept.
pub(crate) fn first_of(hash: u64, entries: &[Entry]) -> usize
    ensures { 0 < chain_count (length entries.now) → IsIndexed entries.now → result ≡ chain_end hash entries.now }
{
    let chains = chain_count(entries.len());
    if chains == 0 {
        return 0;
    }
    last_at(entries, chain_of(hash, chains))
}

// Puts the last entry into the index of those before it.
pub(crate) fn index_last(entries: &mut Vec<Entry>)
    ensures pairs { entry_pairs entries.new.items ≡ entry_pairs entries.old.items }
    ensures indexed { ((n : _) → n + 1 ≡ length entries.old.items → IsIndexedTo n entries.old.items)
        → IsIndexed entries.new.items }
{
    let count = entries.len();
    let chains = chain_count(count);
    if chains == 0 {
        return;
    }
    let last = count - 1;
    if chains == chain_count(last) {
        chain(entries, last, chains);
    } else {
        index_all(entries);
    }
}

// Makes the index of all entries.
pub(crate) fn index_all(entries: &mut Vec<Entry>)
    ensures pairs { entry_pairs entries.new.items ≡ entry_pairs entries.old.items }
    ensures indexed { IsIndexed entries.new.items }
{
    let chains = chain_count(entries.len());
    if chains == 0 {
        return;
    }
    chain_all(entries, chains);
}

// Puts all entries into chains, so many.
fn chain_all(entries: &mut Vec<Entry>, chains: usize)
    requires some { 0 < chains }
    requires within { chains ≤ length entries.old.items }
    ensures pairs { entry_pairs entries.new.items ≡ entry_pairs entries.old.items }
    ensures chained { IsChained chains (length entries.new.items) entries.new.items }
    ensures len { length entries.new.items ≡ length entries.old.items }
{
    for number in 0..chains {
        set_last(entries, number, 0);
    }
    for place in 0..entries.len() {
        chain(entries, place, chains);
    }
}

// Puts the entry at a place into its chain, behind those before it.
fn chain(entries: &mut Vec<Entry>, place: usize, chains: usize)
    requires some { 0 < chains }
    requires within { chains ≤ length entries.old.items }
    requires there { place < length entries.old.items }
    ensures pairs { entry_pairs entries.new.items ≡ entry_pairs entries.old.items }
    ensures chained { IsChained chains place entries.old.items → IsChained chains (place + 1) entries.new.items }
    ensures len { length entries.new.items ≡ length entries.old.items }
{
    let hash = hash_in(entries, place);
    let number = chain_of(hash, chains);
    let earlier = last_in(entries, number);
    set_last(entries, number, place + 1);
    set_earlier(entries, place, earlier);
}

// The hash of the key of the entry at a place.
fn hash_at(entries: &[Entry], place: usize) -> u64
    requires { place < length entries.now }
    ensures { result ≡ slice_index_or (key_hashes (entry_pairs entries.now)) place 0 }
{
    hash_value(&entries[place].key)
}

// The same among these.
fn hash_in(entries: &Vec<Entry>, place: usize) -> u64
    requires { place < length entries.now.items }
    ensures { result ≡ slice_index_or (key_hashes (entry_pairs entries.now.items)) place 0 }
{
    hash_at(entries.as_slice(), place)
}

// Keeps in an entry where the last one of a chain is.
fn keep_last(entry: &mut Entry, last: usize)
    ensures pair { plain_entry entry.new ≡ plain_entry entry.old }
    ensures last { entry.new.last ≡ last }
    ensures earlier { entry.new.earlier ≡ entry.old.earlier }
{
    entry.last = last;
}

// Keeps in an entry where the one before it is.
fn keep_earlier(entry: &mut Entry, earlier: usize)
    ensures pair { plain_entry entry.new ≡ plain_entry entry.old }
    ensures last { entry.new.last ≡ entry.old.last }
    ensures earlier { entry.new.earlier ≡ earlier }
{
    entry.earlier = earlier;
}

fn set_last(entries: &mut Vec<Entry>, i: usize, last: usize)
    requires { i < length entries.old.items }
    ensures pairs { entry_pairs entries.new.items ≡ entry_pairs entries.old.items }
    ensures lasts { lasts_of entries.new.items ≡ slice_set (lasts_of entries.old.items) i last }
    ensures earliers { earliers_of entries.new.items ≡ earliers_of entries.old.items }
    ensures len { length entries.new.items ≡ length entries.old.items }
{
    keep_last(&mut entries[i], last);
}

fn set_earlier(entries: &mut Vec<Entry>, i: usize, earlier: usize)
    requires { i < length entries.old.items }
    ensures pairs { entry_pairs entries.new.items ≡ entry_pairs entries.old.items }
    ensures lasts { lasts_of entries.new.items ≡ lasts_of entries.old.items }
    ensures earliers { earliers_of entries.new.items ≡ slice_set (earliers_of entries.old.items) i earlier }
    ensures len { length entries.new.items ≡ length entries.old.items }
{
    keep_earlier(&mut entries[i], earlier);
}
