//! What memory keeps of data: each function answers nothing, and a proof that calls it learns that.

ghost use Rattle.std.specs.Char.{IsScalar};
ghost use Rattle.std.specs.Prelude.{IsTrue};
ghost use Rattle.std.specs.Str.{is_utf8};
ghost use Rattle.yaml_tree.specs.Valid.{is_value};
ghost use Rattle.yaml_tree.specs.View.{tree_of};
ghost use Rattle.yaml_shape.specs.DataView.{data_of, items_view, entries_view, text_data_of};
ghost use Rattle.yaml_shape.specs.Held.{IsHeld, AreHeld, EntriesAreHeld};

use crate::data::{Data, Entry};
use crate::text::Text;
use yaml_tree::Value;

// A text that is borrowed is UTF-8.
fn str_is_held(text: &str)
    ensures { IsTrue (is_utf8 text.now) }
{}

// A character is one.
pub(crate) fn char_is_held(character: char)
    ensures { IsScalar character }
{}

// A value is a value's tree.
pub(crate) fn value_is_held(value: &Value)
    ensures { IsTrue (is_value (tree_of value.now)) }
{}

// A text is UTF-8.
pub(crate) fn text_is_held(text: &Text<'_>)
    ensures { IsHeld (text_data_of text.now) }
{
    match text {
        Text::Borrowed(text) => str_is_held(text),
        Text::Owned(_) => {}
    }
}

/// Goes over the data and answers nothing. A proof that calls it learns that its texts are UTF-8, its characters are
/// characters, and its values are those of a `Value`.
#[cycle(data)]
pub fn data_is_held(found: &Data<'_>)
    ensures { IsHeld (data_of found.now) }
{
    match found {
        Data::Any(value) => value_is_held(value),
        Data::Char(character) => char_is_held(*character),
        Data::Str(text) => text_is_held(text),
        Data::Some(content) => data_is_held(content),
        Data::Newtype(content) => data_is_held(content),
        Data::Variant(_, content) => data_is_held(content),
        Data::Seq(items) => items_are_held(items),
        Data::Tuple(items) => items_are_held(items),
        Data::Struct(items) => items_are_held(items),
        Data::Map(entries) => entries_are_held(entries),
        Data::Bool(_) => {}
        Data::Signed(_) => {}
        Data::Unsigned(_) => {}
        Data::Bytes(_) => {}
        Data::None => {}
        Data::Unit => {}
        Data::Ignored => {}
    }
}

// The same of a list of data.
#[cycle(data)]
fn items_are_held(items: &[Data<'_>])
    ensures { AreHeld (items_view items.now) }
{
    for item in items {
        data_is_held(item);
    }
}

// The same of a list of keys with values.
#[cycle(data)]
fn entries_are_held(entries: &[Entry<'_>])
    ensures { EntriesAreHeld (entries_view entries.now) }
{
    for entry in entries {
        data_is_held(&entry.key);
        data_is_held(&entry.value);
    }
}
