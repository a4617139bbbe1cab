//! A scalar's text as a part of the source that it was read from.

ghost use Rattle.std.specs.Prelude.{◌≡◌, ◌↔◌, ℕ, List, Option, IfSome, IsSome, IsTrue, nat_eq, is_some};
ghost use Rattle.std.specs.List.{ends_with};
ghost use Rattle.std.specs.Option.{option_copied};
ghost use Rattle.yaml_base.specs.Borrowable.{IsBorrowable, is_borrowable};
ghost use Rattle.yaml_base.specs.declared.event.ScalarStyle.{ScalarStyle as PlainStyle};

use crate::event::ScalarStyle;

// The end of the source that equals the bytes.
#[inline]
fn matching_end<'de>(source: &'de [u8], bytes: &[u8]) -> Option<&'de [u8]>
    ensures equal { IfSome result (λ part. part.now ≡ bytes.now) }
    ensures test { is_some result ≡ ends_with nat_eq source.now bytes.now }
{
    if source.ends_with(bytes) {
        Some(&source[source.len() - bytes.len()..])
    } else {
        None
    }
}

/// The part of the source slice `repr` that equals the bytes of a scalar: of a plain scalar the slice's end, and of a
/// quoted one the end before its closing byte. There is none in other styles, or where the slice shows the scalar in
/// another form. Whether the bytes are a text is not asked.
#[inline]
pub fn borrowed_bytes<'de>(
    bytes: &[u8],
    repr: Option<&'de [u8]>,
    style: ScalarStyle,
) -> Option<&'de [u8]>
    ensures equal { IfSome result (λ part. part.now ≡ bytes.now) }
    ensures exact { IsSome result ↔ IsBorrowable bytes.now (option_copied repr.entry) style }
    ensures test { is_some result ≡ is_borrowable bytes.now (option_copied repr.entry) style }
{
    let source = repr?;
    match style {
        ScalarStyle::Plain => matching_end(source, bytes),
        ScalarStyle::SingleQuoted | ScalarStyle::DoubleQuoted => {
            let (_closing, body) = source.split_last()?;
            matching_end(body, bytes)
        }
        ScalarStyle::Literal | ScalarStyle::Folded => None,
    }
}

/// The part of the source slice `repr` that equals the text, by the rule of `borrowed_bytes`.
pub fn parse_borrowed_str<'de>(
    utf8_value: &str,
    repr: Option<&'de [u8]>,
    style: ScalarStyle,
) -> Option<&'de str>
    ensures equal { IfSome result (λ part. part.now ≡ utf8_value.now) }
    ensures exact { IsSome result ↔ IsBorrowable utf8_value.now (option_copied repr.entry) style }
    ensures test { is_some result ≡ is_borrowable utf8_value.now (option_copied repr.entry) style }
{
    let part = borrowed_bytes(utf8_value.as_bytes(), repr, style)?;
    std::str::from_utf8(part).ok()
}

/// A law, and nothing to be run: a text is found to be borrowable exactly where it stands in its source as its style
/// has it.
pub fn texts_are_borrowed_where_they_stand()
    ensures { (text : List ℕ) (source : Option (List ℕ)) (style : PlainStyle)
        → (IsTrue (is_borrowable text source style) ↔ IsBorrowable text source style) }
{}
