//! The JSON text of a value.

ghost use Rattle.std.specs.Prelude.{◌≡◌, option_map, pos, string_bytes, IfErr, IfOk, OnOk};
ghost use Rattle.yaml_query.specs.JsonText.{IsJsonText};
ghost use Rattle.yaml_query.specs.NoJson.{HasNone, IsFaultIn};
ghost use Rattle.yaml_query.specs.Out.{frame_in, tokens_in, WritesItems, WritesJson, WritesMembers};
ghost use Rattle.yaml_query.specs.PairFaults.{IsFaultAmong, IsFaultAtName, IsFaultBehind, IsFaultInPlace};
ghost use Rattle.yaml_query.specs.PairFaults.{IsFaultOfPairs, WritesMember, WritesPair};
ghost use Rattle.yaml_query.specs.declared.out.Layout.TheVariants as layout;
ghost use Rattle.yaml_value.specs.PlainValue.{boolean, float, integer, mapping as mapping_of, null, sequence};
ghost use Rattle.yaml_value.specs.PlainValue.{text as plain_text};
ghost use Rattle.yaml_value.specs.View.{plain, plain_items, plain_number, plain_pairs};

use crate::fault::{JsonFault, Reason, behind, here};
use crate::name::name_of;
use crate::out::{Layout, Out};
use crate::step::Step;
use json::Token;
use ryu::Buffer;
use std::alloc::{AllocError, Global};
use yaml_value::{Mapping, Number, Value};

// Writes an integer that is 0 or above.
fn write_natural(alloc: Global, out: &mut Out, n: u128) -> Result<(), AllocError>
    ensures json { OnOk result (WritesJson (integer (pos n)) (tokens_in out.old) (tokens_in out.new)) }
    ensures frame { frame_in out.new ≡ frame_in out.old }
{
    let text = format!(in alloc; "{n}")?;
    out.token(Token::Number(text.as_str()))
}

// Writes an integer.
fn write_integer(alloc: Global, out: &mut Out, n: i128) -> Result<(), AllocError>
    ensures json { OnOk result (WritesJson (integer n) (tokens_in out.old) (tokens_in out.new)) }
    ensures frame { frame_in out.new ≡ frame_in out.old }
{
    let text = format!(in alloc; "{n}")?;
    out.token(Token::Number(text.as_str()))
}

// Writes a float, if it is finite.
fn write_float(alloc: Global, out: &mut Out, x: f64) -> Result<(), JsonFault>
    ensures json { OnOk result (WritesJson (float x) (tokens_in out.old) (tokens_in out.new)) }
    ensures fault { IfErr result (IsFaultIn (float x)) }
    ensures frame { frame_in out.new ≡ frame_in out.old }
{
    if !x.is_finite() {
        return Err(here(alloc, Reason::NotFinite));
    }
    let mut buffer = Buffer::new();
    out.token(Token::Number(buffer.format_finite_with_plus(x)))?;
    Ok(())
}

// Writes a number, if it is finite.
fn write_number(alloc: Global, out: &mut Out, number: Number) -> Result<(), JsonFault>
    ensures json { OnOk result (WritesJson (plain_number number) (tokens_in out.old) (tokens_in out.new)) }
    ensures fault { IfErr result (IsFaultIn (plain_number number)) }
    ensures frame { frame_in out.new ≡ frame_in out.old }
{
    if let Some(n) = number.as_u128() {
        write_natural(alloc, out, n)?;
        return Ok(());
    }
    if let Some(n) = number.as_i128() {
        write_integer(alloc, out, n)?;
        return Ok(());
    }
    match number.as_f64() {
        Some(x) => write_float(alloc, out, x),
        // no number is none of these
        None => Err(JsonFault::Memory),
    }
}

// Writes null.
fn write_null(out: &mut Out) -> Result<(), AllocError>
    ensures json { OnOk result (WritesJson null (tokens_in out.old) (tokens_in out.new)) }
    ensures frame { frame_in out.new ≡ frame_in out.old }
{
    out.token(Token::Null)
}

// Writes a boolean.
fn write_boolean(out: &mut Out, truth: bool) -> Result<(), AllocError>
    ensures json { OnOk result (WritesJson (boolean truth) (tokens_in out.old) (tokens_in out.new)) }
    ensures frame { frame_in out.new ≡ frame_in out.old }
{
    out.token(Token::Bool(truth))
}

// Writes a text.
fn write_text(out: &mut Out, text: &str) -> Result<(), AllocError>
    ensures json { OnOk result (WritesJson (plain_text text.now) (tokens_in out.old) (tokens_in out.new)) }
    ensures frame { frame_in out.new ≡ frame_in out.old }
{
    out.token(Token::String(text))
}

#[cycle(json)]
fn write_value(alloc: Global, out: &mut Out, value: &Value) -> Result<(), JsonFault>
    ensures json { OnOk result (WritesJson (plain value.now) (tokens_in out.old) (tokens_in out.new)) }
    ensures fault { IfErr result (IsFaultIn (plain value.now)) }
    ensures frame { frame_in out.new ≡ frame_in out.old }
{
    match value {
        Value::Null => {
            write_null(out)?;
            Ok(())
        }
        Value::Bool(truth) => {
            write_boolean(out, *truth)?;
            Ok(())
        }
        Value::Number(number) => write_number(alloc, out, *number),
        Value::String(text) => {
            write_text(out, text.as_str())?;
            Ok(())
        }
        Value::Sequence(items) => write_array(alloc, out, items.as_slice()),
        Value::Mapping(mapping) => write_object(alloc, out, mapping),
        Value::Tagged(tagged) => write_value(alloc, out, &tagged.value),
    }
}

// Writes values between brackets.
#[cycle(json)]
fn write_array(alloc: Global, out: &mut Out, items: &[Value]) -> Result<(), JsonFault>
    ensures json { OnOk result (WritesJson (sequence (plain_items items.now))
        (tokens_in out.old) (tokens_in out.new)) }
    ensures fault { IfErr result (IsFaultAmong (plain_items items.now)) }
    ensures frame { frame_in out.new ≡ frame_in out.old }
{
    out.token(Token::BeginArray)?;
    write_items(alloc, out, items)?;
    Ok(())
}

// Writes values, and the bracket behind them.
#[cycle(json)]
fn write_items(alloc: Global, out: &mut Out, items: &[Value]) -> Result<(), JsonFault>
    ensures json { OnOk result (WritesItems (plain_items items.now) (tokens_in out.old) (tokens_in out.new)) }
    ensures fault { IfErr result (IsFaultAmong (plain_items items.now)) }
    ensures frame { frame_in out.new ≡ frame_in out.old }
{
    for i in 0..items.len() {
        write_item(alloc, out, i, &items[i])?;
    }
    out.token(Token::EndArray)?;
    Ok(())
}

// Writes the value in a place.
#[cycle(json)]
fn write_item(alloc: Global, out: &mut Out, place: usize, value: &Value) -> Result<(), JsonFault>
    ensures json { OnOk result (WritesJson (plain value.now) (tokens_in out.old) (tokens_in out.new)) }
    ensures fault { IfErr result (IsFaultInPlace place (plain value.now)) }
    ensures frame { frame_in out.new ≡ frame_in out.old }
{
    match write_value(alloc, out, value) {
        Ok(()) => Ok(()),
        Err(fault) => Err(behind(Step::Index(place), fault)),
    }
}

// Writes pairs between brackets.
#[cycle(json)]
fn write_object(alloc: Global, out: &mut Out, mapping: &Mapping) -> Result<(), JsonFault>
    ensures json { OnOk result (WritesJson (mapping_of (plain_pairs mapping.now))
        (tokens_in out.old) (tokens_in out.new)) }
    ensures fault { IfErr result (IsFaultOfPairs (plain_pairs mapping.now)) }
    ensures frame { frame_in out.new ≡ frame_in out.old }
{
    out.token(Token::BeginObject)?;
    write_pairs(alloc, out, mapping)?;
    Ok(())
}

// Writes pairs, and the bracket behind them.
#[cycle(json)]
fn write_pairs(alloc: Global, out: &mut Out, mapping: &Mapping) -> Result<(), JsonFault>
    ensures json { OnOk result (WritesMembers (plain_pairs mapping.now) (tokens_in out.old) (tokens_in out.new)) }
    ensures fault { IfErr result (IsFaultOfPairs (plain_pairs mapping.now)) }
    ensures frame { frame_in out.new ≡ frame_in out.old }
{
    for entry in mapping.iter() {
        let name = name_of(alloc, entry.key())?;
        write_pair(alloc, out, name, entry.value())?;
    }
    out.token(Token::EndObject)?;
    Ok(())
}

// Writes a value at a name, if it has one.
#[cycle(json)]
fn write_pair(
    alloc: Global,
    out: &mut Out,
    name: Option<String>,
    value: &Value,
) -> Result<(), JsonFault>
    ensures json { let text = option_map (λ s. string_bytes s) name in
        OnOk result (WritesPair text (plain value.now) (tokens_in out.old) (tokens_in out.new)) }
    ensures fault { let text = option_map (λ s. string_bytes s) name in
        IfErr result (IsFaultAtName text (plain value.now)) }
    ensures frame { frame_in out.new ≡ frame_in out.old }
{
    match name {
        Some(name) => write_member(alloc, out, name, value),
        None => Err(here(alloc, Reason::CollectionKey)),
    }
}

// Writes a value at a name.
#[cycle(json)]
fn write_member(alloc: Global, out: &mut Out, name: String, value: &Value) -> Result<(), JsonFault>
    ensures json { OnOk result (WritesMember (string_bytes name) (plain value.now)
        (tokens_in out.old) (tokens_in out.new)) }
    ensures fault { IfErr result (IsFaultBehind (string_bytes name) (plain value.now)) }
    ensures frame { frame_in out.new ≡ frame_in out.old }
{
    out.token(Token::Key(name.as_str()))?;
    match write_value(alloc, out, value) {
        Ok(()) => Ok(()),
        Err(fault) => Err(behind(Step::Key(name), fault)),
    }
}

// The JSON text of a value, so laid out.
fn json_text(alloc: Global, layout: Layout, value: &Value) -> Result<String, JsonFault>
    ensures text { IfOk result (λ text. IsJsonText layout (plain value.now) (string_bytes text)) }
    ensures fault { IfErr result (IsFaultIn (plain value.now)) }
    ensures none { IfErr result (HasNone (plain value.now)) }
{
    let mut out = Out::new(alloc, layout);
    write_value(alloc, &mut out, value)?;
    Ok(out.finish(alloc))
}

/// The JSON text of a value, in a line without a space: mappings in their order, keys that are scalars and no texts by
/// their text, and no tags. A fault tells where there is no JSON: of an infinite float and of what is no number, and of
/// a mapping with a key that is a collection.
pub fn to_json(alloc: Global, value: &Value) -> Result<String, JsonFault>
    ensures text { IfOk result (λ text. IsJsonText layout.Line (plain value.now) (string_bytes text)) }
    ensures fault { IfErr result (IsFaultIn (plain value.now)) }
    ensures none { IfErr result (HasNone (plain value.now)) }
{
    json_text(alloc, Layout::Line, value)
}

/// The same with a line for each item and member, two spaces deeper for each bracket.
pub fn to_json_pretty(alloc: Global, value: &Value) -> Result<String, JsonFault>
    ensures text { IfOk result (λ text. IsJsonText layout.Lines (plain value.now) (string_bytes text)) }
    ensures fault { IfErr result (IsFaultIn (plain value.now)) }
    ensures none { IfErr result (HasNone (plain value.now)) }
{
    json_text(alloc, Layout::Lines, value)
}
