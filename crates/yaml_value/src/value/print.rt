//! The texts of values: YAML in one line, in flow form.

use crate::mapping::{Entry, Mapping};
use crate::sequence::Sequence;
use crate::value::{TaggedValue, Value};
use std::fmt;
use std::fmt::Write;
use yaml_base::hex_digit;

// A key of a longer text gets a `?` in front.
const SHORT: usize = 128;

// The letter behind a backslash that stands for a character between double quotes.
fn letter_of(c: char) -> Option<char> {
    match c {
        '"' => Some('"'),
        '\\' => Some('\\'),
        '\0' => Some('0'),
        '\t' => Some('t'),
        '\n' => Some('n'),
        '\r' => Some('r'),
        _ => None,
    }
}

// Whether a character may stand between double quotes as it is.
fn is_shown(c: char) -> bool {
    let code = c as u32;
    if code < 160 {
        return code >= 32 && code < 127;
    }
    !matches!(code, 0x2028 | 0x2029 | 0xFEFF | 0xFFFE | 0xFFFF)
}

// The hexadecimal digit of a code before so many others.
fn digit_of(code: u32, others: u32) -> char {
    hex_digit(((code >> (4 * (others & 3))) & 15) as u8)
}

// Writes a character by its code, of four digits.
fn write_code<W: fmt::Write>(code: u32, f: &mut fmt::Formatter<W>) -> fmt::Result {
    f.write_str("\\u")?;
    f.write_char(digit_of(code, 3))?;
    f.write_char(digit_of(code, 2))?;
    f.write_char(digit_of(code, 1))?;
    f.write_char(digit_of(code, 0))
}

fn write_character<W: fmt::Write>(c: char, f: &mut fmt::Formatter<W>) -> fmt::Result {
    if let Some(letter) = letter_of(c) {
        f.write_char('\\')?;
        return f.write_char(letter);
    }
    if is_shown(c) {
        f.write_char(c)
    } else {
        write_code(c as u32, f)
    }
}

fn write_text<W: fmt::Write>(text: &str, f: &mut fmt::Formatter<W>) -> fmt::Result {
    f.write_str("\"")?;
    for c in text.chars() {
        write_character(c, f)?;
    }
    f.write_str("\"")
}

#[cycle(print)]
fn write_value<W: fmt::Write>(value: &Value, f: &mut fmt::Formatter<W>) -> fmt::Result {
    match value {
        Value::Null => f.write_str("null"),
        Value::Bool(true) => f.write_str("true"),
        Value::Bool(false) => f.write_str("false"),
        Value::Number(number) => write!(f, "{number}"),
        Value::String(text) => write_text(text.as_str(), f),
        Value::Sequence(sequence) => write_sequence(sequence, f),
        Value::Mapping(mapping) => write_pairs(mapping, f),
        Value::Tagged(tagged) => write_tagged(tagged, f),
    }
}

#[cycle(print)]
fn write_tagged<W: fmt::Write>(tagged: &TaggedValue, f: &mut fmt::Formatter<W>) -> fmt::Result {
    let tag = &tagged.tag;
    write!(f, "{tag} ")?;
    write_value(&tagged.value, f)
}

#[cycle(print)]
fn write_sequence<W: fmt::Write>(sequence: &Sequence, f: &mut fmt::Formatter<W>) -> fmt::Result {
    f.write_str("[")?;
    let mut is_first = true;
    for item in &sequence.items {
        f.write_str(if is_first { "" } else { ", " })?;
        is_first = false;
        write_value(item, f)?;
    }
    f.write_str("]")
}

#[cycle(print)]
fn write_pairs<W: fmt::Write>(mapping: &Mapping, f: &mut fmt::Formatter<W>) -> fmt::Result {
    f.write_str("{")?;
    let mut is_first = true;
    for entry in &mapping.entries {
        f.write_str(if is_first { "" } else { ", " })?;
        is_first = false;
        write_entry(entry, f)?;
    }
    f.write_str("}")
}

// What stands before a key: nothing where it is a scalar, and short.
fn before_key(key: &Value) -> &'static str {
    match key {
        Value::String(text) if text.len() > SHORT => "? ",
        Value::Sequence(_) | Value::Mapping(_) | Value::Tagged(_) => "? ",
        _ => "",
    }
}

#[cycle(print)]
fn write_entry<W: fmt::Write>(entry: &Entry, f: &mut fmt::Formatter<W>) -> fmt::Result {
    f.write_str(before_key(&entry.key))?;
    write_value(&entry.key, f)?;
    f.write_str(": ")?;
    write_value(&entry.value, f)
}

/// The value as YAML in one line, which is read back as an equal value: texts between double quotes, `[1, 2]`,
/// `{"a": 1}`, `!tag 1`. Takes no memory.
impl fmt::Display for Value {
    fn fmt<W: fmt::Write>(&self, f: &mut fmt::Formatter<W>) -> fmt::Result {
        write_value(self, f)
    }
}

/// The same of a mapping.
impl fmt::Display for Mapping {
    fn fmt<W: fmt::Write>(&self, f: &mut fmt::Formatter<W>) -> fmt::Result {
        write_pairs(self, f)
    }
}

impl fmt::Debug for Value {
    fn fmt<W: fmt::Write>(&self, f: &mut fmt::Formatter<W>) -> fmt::Result {
        write_value(self, f)
    }
}

impl fmt::Debug for TaggedValue {
    fn fmt<W: fmt::Write>(&self, f: &mut fmt::Formatter<W>) -> fmt::Result {
        write_tagged(self, f)
    }
}

impl fmt::Debug for Mapping {
    fn fmt<W: fmt::Write>(&self, f: &mut fmt::Formatter<W>) -> fmt::Result {
        write_pairs(self, f)
    }
}
