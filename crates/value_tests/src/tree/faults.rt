//! What is said of a tag that is refused, of memory, and of a text with a control character.
use crate::texts::{prints, says};
use yaml_base::Error;
use yaml_tree::{Tag, TreeFault, Visible};

#[test]
fn an_empty_tag_is_refused(rt: HostRuntime) {
    let refused = Tag::new(rt.alloc(), "").err().expect(&rt, "an empty tag");
    says(&rt, &refused, "empty YAML tag is not allowed");
    says(&rt, &Error::from(refused), "empty YAML tag is not allowed");
    says(&rt, &TreeFault::Memory, "out of memory");
    prints(
        &rt,
        &Visible("\"\u{e9}\u{1b}[1m\u{85}\n"),
        "\"\u{e9}\\u{1b}[1m\\u{85}\\u{a}",
    );
}
