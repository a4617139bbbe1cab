//! A text, borrowed from the source or owned.

ghost use Rattle.std.specs.Prelude.{◌≡◌};
ghost use Rattle.yaml_shape.specs.TextView.{text_bytes};

/// A text: borrowed, or a text of its own. A reading borrows it from the source where the source shows it.
#[derive(Drop)]
pub enum Text<'de> {
    /// A text that is borrowed, as from the source that shows it.
    Borrowed(&'de str),
    /// A text of its own, where it can't be borrowed, as with escapes or in a block, or where a caller made it.
    Owned(String),
}

impl Text<'_> {
    /// The text itself.
    pub fn as_str(&self) -> &str
        ensures { result.now ≡ text_bytes self.now }
    {
        match self {
            Text::Borrowed(text) => text,
            Text::Owned(text) => text.as_str(),
        }
    }
}

/// Texts are equal where their bytes are, borrowed or owned.
impl PartialEq for Text<'_> {
    ghost use Rattle.std.specs.Cmp.{on_per, partial_equiv_from_equiv};
    ghost use Rattle.std.specs.Str.{bytes_eq};
    ghost use Rattle.std.proofs.lemmas.Cmp.{nat_list_eq_equiv};

    ghost eq = { λ a b. bytes_eq (text_bytes a) (text_bytes b) };

    ghost laws = { on_per text_bytes (partial_equiv_from_equiv nat_list_eq_equiv) };

    fn eq(&self, other: &Self) -> bool {
        self.as_str() == other.as_str()
    }
}

impl Eq for Text<'_> {
    ghost use Rattle.std.proofs.lemmas.Cmp.{nat_list_eq_equiv, on_equiv};

    ghost laws = { on_equiv text_bytes nat_list_eq_equiv };
}
