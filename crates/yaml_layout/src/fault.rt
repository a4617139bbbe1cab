//! Why a text was not laid out.

use std::alloc::AllocError;
use yaml_base::{Mark, ParserFault};

/// What would not be kept of a text that is laid out.
#[derive(Clone, Copy, PartialEq, Eq, Debug)]
pub enum Reason {
    /// What it says: from the event at the place on it would be read otherwise.
    Events,
    /// Its comments, where the place is that of the first of them.
    Comments,
    /// The layout itself: laid out again it would be another, or lines would not end with a line feed.
    Layout,
}

/// Why a text was not laid out.
#[derive(Drop)]
pub enum LayoutFault {
    /// Memory ran out.
    Memory,
    /// It is no YAML.
    NoYaml(ParserFault),
    /// Something would not be kept, at this place of the text if it is known.
    NotKept(Reason, Option<Mark>),
}

impl From<AllocError> for LayoutFault {
    ghost use Rattle.std.specs.Prelude.{◌≡◌};
    ghost use Rattle.yaml_layout.specs.declared.fault.LayoutFault.TheVariants.{Memory};

    ghost from_gives = { λ _ fault. fault ≡ Memory };

    fn from(_fault: AllocError) -> LayoutFault {
        LayoutFault::Memory
    }
}
