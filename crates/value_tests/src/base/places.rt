//! The places of faults, and the texts in them.

use crate::texts::{owned, shows};
use std::process::Abort;
use yaml_base::{Cause, Error, Mark, Path, WordList, Words};

// The fault with this mark and this key of the root as its place, if it has none yet.
fn placed(
    rt: &(impl Abort + AllocGlobal),
    fault: Error,
    line: u64,
    column: u64,
    key: &str,
) -> Error {
    let mark = Mark::new(column, line, column).expect(rt, "a mark");
    let path = Path::Map {
        parent: &Path::Root,
        key,
    };
    fault.fix_mark(rt.alloc(), mark, &path).expect(rt, "memory")
}

// Whether a fault stands at this index, line and column, each 0 where it has no place.
fn stands_at(fault: &Error, index: usize, line: usize, column: usize) -> bool {
    match fault.location() {
        Some(location) => {
            location.index() == index && location.line() == line && location.column() == column
        }
        None => line == 0,
    }
}

#[test]
fn a_place_is_given_once(rt: HostRuntime) {
    let fault = Error::custom(owned(&rt, "n\u{e9}\n"));
    assert!(rt; matches!(fault.cause(), Cause::Custom { .. }) && stands_at(&fault, 0, 0, 0));
    shows(&rt, &fault, "Error(\"n\u{e9}\\n\")");
    let fault = placed(&rt, fault, 1, 2, "k");
    let fault = placed(&rt, fault, 9, 9, "other");
    assert!(rt; stands_at(&fault, 2, 2, 3));
    shows(&rt, &fault, "Error(\"k: n\u{e9}\\n\", line: 2, column: 3)");
}

#[test]
fn words_give_their_texts_back(rt: HostRuntime) {
    let words = Words::new(owned(&rt, "it\u{e9}"));
    let list = WordList::new(vec![in rt.alloc(); words].expect(&rt, "memory"));
    let copies = list.copy(rt.alloc()).expect(&rt, "memory");
    assert!(rt; copies.as_slice().len() == 1);
    for words in copies.into_vec() {
        assert_eq!(rt; words.as_str(), "it\u{e9}");
        assert_eq!(rt; words.into_string().as_str(), "it\u{e9}");
    }
}
