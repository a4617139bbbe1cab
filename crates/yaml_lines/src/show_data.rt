//! The text of data.

ghost use Rattle.std.specs.Prelude.{◌≡◌, ◌++◌, codes, decimal, map, string_bytes, OnOk};
ghost use Rattle.yaml_shape.specs.DataView.{data_of};
ghost use Rattle.yaml_lines.specs.DataText.{data_text};
ghost use Rattle.yaml_lines.specs.DataTextView.{data_entry_text, item_text};
ghost use Rattle.yaml_lines.specs.Listed.{listed};

mod part;

use part::{separate, show_bytes, show_char, show_text};
use std::alloc::AllocError;
use yaml_shape::{Data, Entry};

/// Appends the text of data. The only error is that memory runs out.
#[cycle(show)]
pub fn show(out: &mut String, content: &Data<'_>) -> Result<(), AllocError>
    ensures { OnOk result
        (string_bytes out.new ≡ string_bytes out.old ++ data_text (data_of content.now)) }
{
    match content {
        Data::Any(value) => write!(out, "{value}"),
        Data::Bool(value) => write!(out, "{value}"),
        Data::Char(value) => show_char(out, *value),
        Data::Signed(value) => write!(out, "{value}"),
        Data::Unsigned(value) => write!(out, "{value}"),
        Data::Str(text) => show_text(out, text.as_str()),
        Data::Bytes(bytes) => show_bytes(out, bytes),
        Data::None => out.push_str("none"),
        Data::Some(inner) => show_inside(out, "some(", inner),
        Data::Unit => out.push_str("()"),
        Data::Newtype(inner) => show_inside(out, "new(", inner),
        Data::Seq(items) => show_items(out, "[", items, "]"),
        Data::Tuple(items) => show_items(out, "(", items, ")"),
        Data::Map(entries) => show_entries(out, entries),
        Data::Struct(items) => show_items(out, "struct(", items, ")"),
        Data::Variant(place, inner) => show_variant(out, *place, inner),
        Data::Ignored => out.push_str("ignored"),
    }
}

// Appends data behind an opening text, and a closing parenthesis.
#[cycle(show)]
fn show_inside(out: &mut String, opening: &str, inner: &Data<'_>) -> Result<(), AllocError>
    ensures { OnOk result (string_bytes out.new ≡ string_bytes out.old
        ++ (opening.now ++ (data_text (data_of inner.now) ++ codes ")"))) }
{
    out.push_str(opening)?;
    show(out, inner)?;
    out.push_str(")")
}

// Appends the place of a variant and its content.
#[cycle(show)]
fn show_variant(out: &mut String, place: usize, inner: &Data<'_>) -> Result<(), AllocError>
    ensures { OnOk result (string_bytes out.new ≡ string_bytes out.old
        ++ (codes "variant " ++ (decimal place ++ (codes " " ++ data_text (data_of inner.now))))) }
{
    write!(out, "variant {place} ")?;
    show(out, inner)
}

// Appends items between two texts.
#[cycle(show)]
fn show_items(
    out: &mut String,
    opening: &str,
    items: &Vec<Data<'_>>,
    closing: &str,
) -> Result<(), AllocError>
    ensures { OnOk result (string_bytes out.new ≡ string_bytes out.old
        ++ (opening.now ++ (listed (map item_text items.now.items) ++ closing.now))) }
{
    out.push_str(opening)?;
    for (index, item) in items.iter().enumerate() {
        separate(out, index)?;
        show(out, item)?;
    }
    out.push_str(closing)
}

#[cycle(show)]
fn show_entries(out: &mut String, entries: &Vec<Entry<'_>>) -> Result<(), AllocError>
    ensures { OnOk result (string_bytes out.new ≡ string_bytes out.old
        ++ (codes "{" ++ (listed (map data_entry_text entries.now.items) ++ codes "}"))) }
{
    out.push_str("{")?;
    for (index, entry) in entries.iter().enumerate() {
        separate(out, index)?;
        show_entry(out, entry)?;
    }
    out.push_str("}")
}

#[cycle(show)]
fn show_entry(out: &mut String, entry: &Entry<'_>) -> Result<(), AllocError>
    ensures { OnOk result (string_bytes out.new ≡ string_bytes out.old ++ data_entry_text entry.now) }
{
    show(out, &entry.key)?;
    out.push_str(": ")?;
    show(out, &entry.value)
}
