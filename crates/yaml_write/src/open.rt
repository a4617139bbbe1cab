//! The collections that a serializer has open.

ghost use Rattle.std.specs.Prelude.{◌≡◌};
ghost use Rattle.yaml_write.specs.CollectionView.{collection_kind};
ghost use Rattle.yaml_write.specs.Writing.{is_mapping};

/// What kind of collection was opened.
#[derive(Clone, Copy, PartialEq, Eq, Debug)]
pub enum OpenKind {
    /// A sequence, of elements.
    Seq,
    /// A tuple, of elements.
    Tuple,
    /// A tuple struct, of fields without names.
    TupleStruct,
    /// A variant of fields without names.
    TupleVariant,
    /// A mapping, of keys with values.
    Map,
    /// A struct, of fields with names.
    Struct,
    /// A variant of fields with names.
    StructVariant,
}

// An open collection, and whether it awaits the value of a key.
#[derive(Clone, Copy)]
pub(crate) struct Open {
    pub(crate) kind: OpenKind,
    pub(crate) awaits_value: bool,
}

// Whether the collection has keys and values.
pub(crate) fn is_mapping(kind: OpenKind) -> bool
    ensures { result ≡ is_mapping (collection_kind kind) }
{
    matches!(
        kind,
        OpenKind::Map | OpenKind::Struct | OpenKind::StructVariant
    )
}
