//! What a step asks for.

ghost use Rattle.std.specs.Prelude.{◌≡◌};
ghost use Rattle.yaml_with.specs.Asks.{asks_for_variants, is_variant};

use serde::{Name, NameKind};

fn is_variant(kind: NameKind) -> bool
    ensures { result ≡ is_variant kind }
{
    match kind {
        NameKind::Field => false,
        NameKind::Variant => true,
    }
}

/// Whether a variant is among the names.
pub fn asks_for_variants(names: &[Name<'_>]) -> bool
    ensures { result ≡ asks_for_variants names.now }
{
    names.iter().any(|name| is_variant(name.kind))
}
