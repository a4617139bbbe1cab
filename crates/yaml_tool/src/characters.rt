//! Texts as they are printed: without control characters but line feeds.

ghost use Rattle.std.specs.Prelude.{◌≡◌, ◌++◌, ◌∷◌, [], true, string_bytes, IfOk, OnOk};
ghost use Rattle.yaml_tool.specs.Characters.{bare, bare_character, is_late_control, json_character, json_escape};
ghost use Rattle.yaml_tool.specs.Characters.{shown_json};
ghost use Rattle.yaml_tree.specs.Quoted.{control_escape, is_control};

use std::alloc::{AllocError, Global};
use yaml_base::hex_digit;

// Whether this is a control character that JSON takes as it is.
fn is_late_control(c: char) -> bool
    ensures { result ≡ is_late_control c }
{
    let code = c as u32;
    code >= 127 && code < 160
}

// Whether this is a control character.
fn is_control(c: char) -> bool
    ensures { result ≡ is_control c }
{
    (c as u32) < 32 || is_late_control(c)
}

// Appends a control character as JSON spells it.
fn push_json_escape(out: &mut String, c: char) -> Result<(), AllocError>
    requires { is_late_control c ≡ true }
    ensures { OnOk result (string_bytes out.new ≡ string_bytes out.old ++ json_escape c) }
{
    let code = c as u32;
    out.push_str("\\u00")?;
    out.push(hex_digit((code / 16) as u8))?;
    out.push(hex_digit((code % 16) as u8))
}

// Appends a character of JSON.
fn push_json_character(out: &mut String, c: char) -> Result<(), AllocError>
    ensures { OnOk result (string_bytes out.new ≡ string_bytes out.old ++ json_character c) }
{
    if is_late_control(c) {
        push_json_escape(out, c)
    } else {
        out.push(c)
    }
}

// Appends JSON, in which each control character that it takes as it is stands by its code.
fn push_json(out: &mut String, json: &str) -> Result<(), AllocError>
    ensures { OnOk result (string_bytes out.new ≡ string_bytes out.old ++ shown_json json.now) }
{
    for c in json.chars() {
        push_json_character(out, c)?;
    }
    Ok(())
}

// Appends a control character by its code.
fn push_control(out: &mut String, c: char) -> Result<(), AllocError>
    requires { is_control c ≡ true }
    ensures { OnOk result (string_bytes out.new ≡ string_bytes out.old ++ control_escape c) }
{
    let code = c as u32;
    out.push_str("\\u{")?;
    if code >= 16 {
        out.push(hex_digit((code / 16) as u8))?;
    }
    out.push(hex_digit((code % 16) as u8))?;
    out.push_str("}")
}

// Appends a character of a text: a line feed as it is, and other control characters by their codes.
fn push_bare_character(out: &mut String, c: char) -> Result<(), AllocError>
    ensures { OnOk result (string_bytes out.new ≡ string_bytes out.old ++ bare_character c) }
{
    if c == '\n' {
        return out.push(c);
    }
    if is_control(c) {
        push_control(out, c)
    } else {
        out.push(c)
    }
}

// Appends a text so.
fn push_bare(out: &mut String, text: &str) -> Result<(), AllocError>
    ensures { OnOk result (string_bytes out.new ≡ string_bytes out.old ++ bare text.now) }
{
    for c in text.chars() {
        push_bare_character(out, c)?;
    }
    Ok(())
}

/// JSON as it is printed, with a line feed behind it: control characters that it takes as they are stand by their
/// codes, as JSON spells them.
pub fn json_line(alloc: Global, json: &str) -> Result<String, AllocError>
    ensures { IfOk result (λ text. string_bytes text ≡ shown_json json.now ++ 10 ∷ []) }
{
    let mut out = String::new(alloc);
    push_json(&mut out, json)?;
    out.push('\n')?;
    Ok(out)
}

/// A text as it is printed by itself, with a line feed behind it: control characters but line feeds stand by their
/// codes.
pub fn bare_line(alloc: Global, text: &str) -> Result<String, AllocError>
    ensures { IfOk result (λ line. string_bytes line ≡ bare text.now ++ 10 ∷ []) }
{
    let mut out = String::new(alloc);
    push_bare(&mut out, text)?;
    out.push('\n')?;
    Ok(out)
}
