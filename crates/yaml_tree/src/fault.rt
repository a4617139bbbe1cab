//! Why a call refuses.

use std::error::Error;
use std::fmt;

/// Why a call refuses.
#[derive(Clone, Copy, Debug, PartialEq, Eq, Drop)]
pub enum TreeFault {
    /// No memory was left for what the call had to keep.
    Memory,
    /// A tag was to be made of the empty text.
    EmptyTag,
}

impl fmt::Display for TreeFault {
    ghost use Rattle.std.specs.Prelude.{Some};
    ghost use Rattle.yaml_tree.specs.TreeFaultText.{tree_fault_text};

    ghost output = { λ fault. Some (tree_fault_text fault) };

    fn fmt<W: fmt::Write>(&self, f: &mut fmt::Formatter<W>) -> fmt::Result {
        match self {
            TreeFault::Memory => f.write_str("out of memory"),
            TreeFault::EmptyTag => f.write_str("empty YAML tag is not allowed"),
        }
    }
}

impl Error for TreeFault {}
