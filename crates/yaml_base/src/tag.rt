//! Tags and anchors: names that are bytes.

ghost use Rattle.std.specs.Prelude.{◌≡◌, ◌↔◌, ◌++◌, List, ℕ, IsTrue, Some};
ghost use Rattle.std.specs.Cmp.{partial_order_from_own_ties};
ghost use Rattle.std.specs.Cmp.Lexicographic.{pointwise, slice_cmp};
ghost use Rattle.std.specs.Cmp.Rules.{comparing};
ghost use Rattle.std.specs.Ordering.{as_partial_cmp, nat_cmp};
ghost use Rattle.std.proofs.Common.{nat_eq, rules};
ghost use Rattle.yaml_base.specs.Quoted.{quoted};

use std::cmp::Ordering;
use std::fmt;
use std::marker::Model;
use yaml_tree::QuotedBytes;

/// The tag of a node, as the bytes that the parser resolved it to.
///
/// Tags are equal where their bytes are, and are ordered as their bytes are. Debug shows the bytes between quotes.
#[derive(Drop)]
pub struct Tag {
    bytes: Vec<u8>,
}

impl Model for Tag {
    ghost use Rattle.std.specs.Prelude.{List, ℕ};

    ghost Value = { List ℕ };

    ghost view = { λ t. t.bytes.items };
}

impl Tag {
    /// The tag of null.
    pub const NULL: &'static str = "tag:yaml.org,2002:null";
    /// The tag of booleans.
    pub const BOOL: &'static str = "tag:yaml.org,2002:bool";
    /// The tag of integers.
    pub const INT: &'static str = "tag:yaml.org,2002:int";
    /// The tag of floating point numbers.
    pub const FLOAT: &'static str = "tag:yaml.org,2002:float";

    /// The tag with these bytes. Takes no memory.
    pub fn new(bytes: Vec<u8>) -> Tag
        ensures { result ≡ bytes.items }
    {
        Tag { bytes }
    }

    /// The tag's bytes.
    pub fn as_slice(&self) -> &[u8]
        ensures { result.now ≡ self.now }
    {
        self.bytes.as_slice()
    }

    /// Whether the tag begins with this text.
    pub fn starts_with(&self, prefix: &str) -> bool
        ensures { IsTrue result ↔ ((rest : List ℕ) × (self.now ≡ prefix.now ++ rest)) }
    {
        self.bytes.starts_with(prefix.as_bytes())
    }

    /// Whether the tag is this text.
    pub fn is(&self, text: &str) -> bool
        ensures { IsTrue result ↔ (self.now ≡ text.now) }
    {
        self.bytes.as_slice() == text.as_bytes()
    }
}

impl PartialEq for Tag {
    ghost eq = { pointwise nat_eq };

    ghost laws = { Prim.search (comparing, rules) };

    fn eq(&self, other: &Tag) -> bool {
        self.bytes == other.bytes
    }
}

impl Eq for Tag {
    ghost laws = { Prim.search (comparing, rules) };
}

impl PartialOrd for Tag {
    ghost partial_cmp = { as_partial_cmp (slice_cmp nat_cmp) };

    ghost laws = { partial_order_from_own_ties
        (Prim.search (comparing, rules)) (Prim.search (comparing, rules)) };

    fn partial_cmp(&self, other: &Tag) -> Option<Ordering> {
        Some(self.cmp(other))
    }
}

impl Ord for Tag {
    ghost cmp = { slice_cmp nat_cmp };

    ghost total = { Prim.search (comparing, rules) };

    ghost matches_partial_cmp = { Prim.search (comparing, rules) };

    ghost matches_eq = { Prim.search (comparing, rules) };

    fn cmp(&self, other: &Tag) -> Ordering {
        self.bytes.cmp(&other.bytes)
    }
}

impl fmt::Debug for Tag {
    ghost debug_output = { λ tag. Some (quoted tag) };

    fn fmt<W: fmt::Write>(&self, f: &mut fmt::Formatter<W>) -> fmt::Result {
        let bytes = QuotedBytes(self.bytes.as_slice());
        write!(f, "{bytes}")
    }
}

/// The anchor of a node, which aliases name.
///
/// Anchors are equal where their bytes are, and are ordered as their bytes are. Debug shows the bytes between quotes.
#[derive(Drop)]
pub struct Anchor {
    bytes: Vec<u8>,
}

impl Model for Anchor {
    ghost use Rattle.std.specs.Prelude.{List, ℕ};

    ghost Value = { List ℕ };

    ghost view = { λ a. a.bytes.items };
}

impl Anchor {
    /// The anchor with these bytes. Takes no memory.
    pub fn new(bytes: Vec<u8>) -> Anchor
        ensures { result ≡ bytes.items }
    {
        Anchor { bytes }
    }

    /// The anchor's bytes.
    pub fn as_slice(&self) -> &[u8]
        ensures { result.now ≡ self.now }
    {
        self.bytes.as_slice()
    }
}

impl PartialEq for Anchor {
    ghost eq = { pointwise nat_eq };

    ghost laws = { Prim.search (comparing, rules) };

    fn eq(&self, other: &Anchor) -> bool {
        self.bytes == other.bytes
    }
}

impl Eq for Anchor {
    ghost laws = { Prim.search (comparing, rules) };
}

impl PartialOrd for Anchor {
    ghost partial_cmp = { as_partial_cmp (slice_cmp nat_cmp) };

    ghost laws = { partial_order_from_own_ties
        (Prim.search (comparing, rules)) (Prim.search (comparing, rules)) };

    fn partial_cmp(&self, other: &Anchor) -> Option<Ordering> {
        Some(self.cmp(other))
    }
}

impl Ord for Anchor {
    ghost cmp = { slice_cmp nat_cmp };

    ghost total = { Prim.search (comparing, rules) };

    ghost matches_partial_cmp = { Prim.search (comparing, rules) };

    ghost matches_eq = { Prim.search (comparing, rules) };

    fn cmp(&self, other: &Anchor) -> Ordering {
        self.bytes.cmp(&other.bytes)
    }
}

impl fmt::Debug for Anchor {
    ghost debug_output = { λ anchor. Some (quoted anchor) };

    fn fmt<W: fmt::Write>(&self, f: &mut fmt::Formatter<W>) -> fmt::Result {
        let bytes = QuotedBytes(self.bytes.as_slice());
        write!(f, "{bytes}")
    }
}
