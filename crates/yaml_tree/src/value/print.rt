//! The texts of values, in one line.
ghost use Rattle.std.specs.Prelude.{◌≡◌, ◌++◌, Some, codes};
ghost use Rattle.std.specs.Fmt.{WritesOnOk};
ghost use Rattle.yaml_tree.specs.EntryText.{entries_text, entry_text, values_text};
ghost use Rattle.yaml_tree.specs.Tree.{mapping, sequence};
ghost use Rattle.yaml_tree.specs.TreeText.{tree_text};
ghost use Rattle.yaml_tree.specs.Valid.{pairs_of, tree_of_tagged, values_of};
ghost use Rattle.yaml_tree.specs.View.{tree_of};

use crate::mapping::{Entry, Mapping};
use crate::quoted::QuotedBytes;
use crate::sequence::Sequence;
use crate::value::{TaggedValue, Value};
use std::fmt;

#[cycle(print)]
fn write_value<W: fmt::Write>(value: &Value, f: &mut fmt::Formatter<W>) -> fmt::Result
    ensures { WritesOnOk W.write_str_gives f.old result (tree_text (tree_of value.now)) f.new }
{
    match value {
        Value::Null => f.write_str("null"),
        Value::Bool(truth) => write!(f, "{truth}"),
        Value::Number(number) => write!(f, "{number}"),
        Value::String(text) => {
            let text = QuotedBytes(text.as_bytes());
            write!(f, "{text}")
        }
        Value::Sequence(items) => write_items(items, f),
        Value::Mapping(mapping) => write_pairs(mapping, f),
        Value::Tagged(tagged) => write_tagged(tagged, f),
    }
}

#[cycle(print)]
fn write_tagged<W: fmt::Write>(tagged: &TaggedValue, f: &mut fmt::Formatter<W>) -> fmt::Result
    ensures { WritesOnOk W.write_str_gives f.old result (tree_text (tree_of_tagged tagged.now)) f.new }
{
    f.write_str("!")?;
    f.write_str(tagged.tag.as_str())?;
    f.write_str(" ")?;
    write_value(&tagged.value, f)
}

#[cycle(print)]
fn write_items<W: fmt::Write>(items: &Sequence, f: &mut fmt::Formatter<W>) -> fmt::Result
    ensures { let text = tree_text (sequence (values_of items.now)) in
        WritesOnOk W.write_str_gives f.old result text f.new }
{
    f.write_str("[")?;
    write_values(items.items.as_slice(), f)?;
    f.write_str("]")
}

// Writes values with commas between.
#[cycle(print)]
fn write_values<W: fmt::Write>(values: &[Value], f: &mut fmt::Formatter<W>) -> fmt::Result
    ensures { WritesOnOk W.write_str_gives f.old result (values_text values.now) f.new }
{
    match values {
        [] => Ok(()),
        [first, others @ ..] => {
            write_value(first, f)?;
            for item in others {
                f.write_str(", ")?;
                write_value(item, f)?;
            }
            Ok(())
        }
    }
}

#[cycle(print)]
fn write_pairs<W: fmt::Write>(pairs: &Mapping, f: &mut fmt::Formatter<W>) -> fmt::Result
    ensures { let text = tree_text (mapping (pairs_of pairs.now)) in
        WritesOnOk W.write_str_gives f.old result text f.new }
{
    f.write_str("{")?;
    write_entries(pairs.entries.as_slice(), f)?;
    f.write_str("}")
}

// Writes entries with commas between.
#[cycle(print)]
fn write_entries<W: fmt::Write>(entries: &[Entry], f: &mut fmt::Formatter<W>) -> fmt::Result
    ensures { WritesOnOk W.write_str_gives f.old result (entries_text entries.now) f.new }
{
    match entries {
        [] => Ok(()),
        [first, others @ ..] => {
            write_entry(first, f)?;
            for entry in others {
                f.write_str(", ")?;
                write_entry(entry, f)?;
            }
            Ok(())
        }
    }
}

#[cycle(print)]
fn write_entry<W: fmt::Write>(entry: &Entry, f: &mut fmt::Formatter<W>) -> fmt::Result
    ensures { WritesOnOk W.write_str_gives f.old result (entry_text entry.now) f.new }
{
    write_value(&entry.key, f)?;
    f.write_str(": ")?;
    write_value(&entry.value, f)
}

/// A value in one line: `null`, `true`, an integer, a text between double quotes as `QuotedBytes` prints it, `[1, 2]`,
/// `{"a": 1, "b": 2}`, or its tag behind a `!` and then the value under it. Debug prints the same.
impl fmt::Display for Value {
    ghost output = { λ value. Some (tree_text (tree_of value)) };

    fn fmt<W: fmt::Write>(&self, f: &mut fmt::Formatter<W>) -> fmt::Result {
        write_value(self, f)
    }
}

impl fmt::Debug for Value {
    ghost debug_output = { λ value. Some (tree_text (tree_of value)) };

    fn fmt<W: fmt::Write>(&self, f: &mut fmt::Formatter<W>) -> fmt::Result {
        write_value(self, f)
    }
}

impl fmt::Debug for TaggedValue {
    ghost debug_output = { λ tagged. Some (tree_text (tree_of_tagged tagged)) };

    fn fmt<W: fmt::Write>(&self, f: &mut fmt::Formatter<W>) -> fmt::Result {
        write_tagged(self, f)
    }
}

impl fmt::Debug for Sequence {
    ghost debug_output = { λ items. Some (tree_text (sequence (values_of items))) };

    fn fmt<W: fmt::Write>(&self, f: &mut fmt::Formatter<W>) -> fmt::Result {
        write_items(self, f)
    }
}

impl fmt::Debug for Mapping {
    ghost debug_output = { λ pairs. Some (tree_text (mapping (pairs_of pairs))) };

    fn fmt<W: fmt::Write>(&self, f: &mut fmt::Formatter<W>) -> fmt::Result {
        write_pairs(self, f)
    }
}
