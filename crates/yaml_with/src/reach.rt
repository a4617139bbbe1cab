//! How far variants are mappings.

/// In what of a value.
#[derive(Clone, Copy, Drop, PartialEq, Eq)]
pub(crate) enum Reach {
    /// In the value itself, if it is a variant.
    Here,
    /// In all of it.
    Everywhere,
    /// In nothing.
    Nowhere,
}

impl Reach {
    /// In what of a part of the value.
    pub(crate) fn part(self) -> Reach {
        match self {
            Reach::Everywhere => Reach::Everywhere,
            Reach::Here | Reach::Nowhere => Reach::Nowhere,
        }
    }

    /// Whether the value itself is a mapping, if it is a variant.
    pub(crate) fn is_on(self) -> bool {
        match self {
            Reach::Here | Reach::Everywhere => true,
            Reach::Nowhere => false,
        }
    }
}
