//! The way from the root of a document to a node.

ghost use Rattle.std.specs.Prelude.{◌≡◌, Some};
ghost use Rattle.yaml_base.specs.PathText.{is_root, path_text};

use std::fmt;

/// The way from the root of a document to a node, one step at each level.
#[derive(Clone, Copy)]
pub enum Path<'a> {
    /// The root of the document.
    Root,
    /// An element of a sequence.
    Seq {
        /// The way to the sequence.
        parent: &'a Path<'a>,
        /// The element's place in the sequence, counted from 0.
        index: usize,
    },
    /// The value of a key of a mapping.
    Map {
        /// The way to the mapping.
        parent: &'a Path<'a>,
        /// The key.
        key: &'a str,
    },
    /// The node that an alias stands for. It is printed as its parent.
    Alias {
        /// The way to the alias.
        parent: &'a Path<'a>,
    },
    /// The value of a key that is no text.
    Unknown {
        /// The way to the mapping.
        parent: &'a Path<'a>,
    },
}

impl Path<'_> {
    // Whether it is the root, aliases aside.
    fn is_root(&self) -> bool
        ensures { result ≡ is_root self.now }
    {
        match self {
            Path::Root => true,
            Path::Alias { parent } => parent.is_root(),
            Path::Seq { .. } | Path::Map { .. } | Path::Unknown { .. } => false,
        }
    }
}

impl fmt::Display for Path<'_> {
    ghost output = { λ path. Some (path_text path) };

    fn fmt<W: fmt::Write>(&self, f: &mut fmt::Formatter<W>) -> fmt::Result {
        match self {
            Path::Root => f.write_str("."),
            Path::Seq { parent, index } => {
                (**parent).fmt(f)?;
                write!(f, "[{index}]")
            }
            Path::Map { parent, key } => {
                if !parent.is_root() {
                    (**parent).fmt(f)?;
                    f.write_str(".")?;
                }
                f.write_str(key)
            }
            Path::Alias { parent } => (**parent).fmt(f),
            Path::Unknown { parent } => {
                if !parent.is_root() {
                    (**parent).fmt(f)?;
                    f.write_str(".")?;
                }
                f.write_str("?")
            }
        }
    }
}
